//! A new layer, for a key that continues after a slice that another key has: a head and a border are spared, the border
//! takes the other key's row, one layer deeper, the head is linked under a mark, and the put continues there.

ghost use Rattle.std.specs.Prelude.{◌≡◌, ℕ, ◌≤◌, ◌-◌, ◌*◌, List, [], ◌∷◌, length, slice_get, MatchResult, IfOk, IsSomeAnd, Some, None};
ghost use Rattle.mt_types.specs.declared.event.Request.TheVariants.{Put as PutRequest};
ghost use Rattle.mt_commit.specs.Log.{LogView};
ghost use Rattle.mt_border.specs.Entry.{IsEntry, entry_of_row};
ghost use Rattle.mt_arena.specs.Node.{border_at};
ghost use Rattle.mt_tree.specs.Descent.{HasOtherSuffix};
ghost use Rattle.mt_steps.specs.Way.{rest_of};
ghost use Rattle.mt_steps.specs.Step.{MayFail};
ghost use Rattle.mt_tree.specs.Descent.{found_for};
ghost use Rattle.mt_border.specs.declared.found.Found.TheVariants.{OtherSuffix as OtherSuffixFound};
ghost use Rattle.mt_write.specs.Causes.{layer_fault, put_fault, FailsBy, ReadyFor};
ghost use Rattle.mt_write.specs.Writing.{HoldsLong, HoldsSuffixRow};
ghost use Rattle.mt_write.specs.Ready.{Prepares, IsBack};
ghost use Rattle.mt_write.specs.Follows.{TreeStep, MayBeAt};

use crate::ready::NewRow;
use crate::writing::{Layer, Stage, Write};
use mt_arena::Node;
use mt_border::{Border, Content, Entry, Suffix};
use mt_interior::Head;
use mt_steps::progress::Progress;
use mt_steps::way::{Way, rest_of};
use mt_tree::Tree;
use mt_types::copying::TryCopy;
use mt_types::items::Items;
use mt_types::numbers::NodeNo;
use mt_types::refusal::{NoMemory, Refusal};
use mt_types::row::Row;
use std::alloc::Global;

// Returns the entry of a key with this row, of which this follows the slice: one layer deeper, and alone.
fn moved(alloc: Global, suffix: &Suffix, row: &Row) -> Result<Items<Entry>, NoMemory>
    ensures { IfOk result (λ entries. (entries ≡ entry_of_row suffix.now row.now ∷ []) × IsEntry (entry_of_row suffix.now row.now)) }
{
    let entry = Entry::of_row(alloc, suffix.as_slice(), row.copy(alloc)?)?;
    let mut entries = Vec::with_capacity(alloc, 1)?;
    entries.push(entry)?;
    Ok(Items::from_vec(entries))
}

// Spares a head and a border for a layer below the entry at a place, both or none. The entry has this row, and this
// follows its slice.
fn spare_layer(
    alloc: Global,
    tree: &mut Tree,
    row: &NewRow<'_>,
    place: usize,
    suffix: &Suffix,
    old: &Row,
) -> Result<Stage, Refusal>
    requires within { 8 * row.now.way.layer ≤ length row.now.key.now - 1 }
    requires other { IsSomeAnd (border_at tree.old.nodes row.now.way.node.0)
        (λ b. HasOtherSuffix (rest_of row.now.key.now row.now.way) b.live place) }
    requires there { IsSomeAnd (border_at tree.old.nodes row.now.way.node.0) (λ b. HoldsSuffixRow b place suffix.now old.now) }
    ensures ready { MatchResult result
        (λ stage. (C : ℕ) (log : LogView)
        → Prepares C row.now.key.now row.now.sets.now row.now.way tree.old log None stage tree.new log)
        (λ refusal. ((log : LogView) → MayFail log (PutRequest row.now.key.now row.now.sets.now) refusal)
        × IsBack tree.old tree.new) }
    ensures fault { ReadyFor (layer_fault tree.old) result }
{
    if tree.free_numbers() < 2 {
        return Err(Refusal::ArenaFull);
    }
    let _sound = tree.border(row.way.node).len();
    let _bytes = rest_of(row.key, row.way.layer);
    let layer = (row.way.layer + 1) as u8;
    let entries = moved(alloc, suffix, old)?;
    let root = tree.occupy(Node::Border(Border::new(alloc, layer, 0)))?;
    match tree.occupy(Node::Head(Head::new_locked(root, 0))) {
        Ok(head) => Ok(Stage::LayerSpared {
            layer: Layer { place, head, root },
            entries,
        }),
        Err(refusal) => {
            tree.give_back(root);
            Err(refusal)
        }
    }
}

// Makes a put ready that makes a layer below the entry at a place, of which this was read, or it fails.
pub fn prepare_layer(
    alloc: Global,
    tree: &mut Tree,
    row: &NewRow<'_>,
    place: usize,
    suffix: &Suffix,
    old: &Row,
) -> Stage
    requires within { 8 * row.now.way.layer ≤ length row.now.key.now - 1 }
    requires value { IsSomeAnd (border_at tree.old.nodes row.now.way.node.0)
        (λ b. OtherSuffixFound place ≡ found_for (rest_of row.now.key.now row.now.way) b.live) }
    requires other { IsSomeAnd (border_at tree.old.nodes row.now.way.node.0)
        (λ b. HasOtherSuffix (rest_of row.now.key.now row.now.way) b.live place) }
    requires there { IsSomeAnd (border_at tree.old.nodes row.now.way.node.0) (λ b. HoldsSuffixRow b place suffix.now old.now) }
    ensures ready { (C : ℕ) (log : LogView)
        → Prepares C row.now.key.now row.now.sets.now row.now.way tree.old log None result tree.new log }
    ensures fault { IsSomeAnd (border_at tree.old.nodes row.now.way.node.0) (λ b. (log : LogView)
        → FailsBy (put_fault tree.old log b (found_for (rest_of row.now.key.now row.now.way) b.live)) None result) }
{
    let _sound = tree.border(row.way.node).len();
    match spare_layer(alloc, tree, row, place, suffix, old) {
        Ok(stage) => stage,
        Err(refusal) => Stage::Failed(refusal, None),
    }
}

// A copy of what the entry at a place, of a longer key, has after its slice, and of its row. They share their bytes.
fn copy_long(alloc: Global, border: &Border, place: usize) -> Result<(Suffix, Row), NoMemory>
    requires long { HoldsLong border.now place }
    ensures { IfOk result (λ copy. HoldsSuffixRow border.now place copy.0 copy.1) }
{
    let Content::Long(suffix, row) = &border.entry(place).content else {
        unreachable!();
    };
    Ok((suffix.copy(alloc)?, row.copy(alloc)?))
}

// The same as `spare_layer`, with what the entry has.
pub fn spare_layer_found(
    alloc: Global,
    tree: &mut Tree,
    row: &NewRow<'_>,
    place: usize,
) -> Result<Stage, Refusal>
    requires within { 8 * row.now.way.layer ≤ length row.now.key.now - 1 }
    requires other { IsSomeAnd (border_at tree.old.nodes row.now.way.node.0)
        (λ b. HasOtherSuffix (rest_of row.now.key.now row.now.way) b.live place) }
    ensures ready { MatchResult result
        (λ stage. (C : ℕ) (log : LogView)
        → Prepares C row.now.key.now row.now.sets.now row.now.way tree.old log None stage tree.new log)
        (λ refusal. ((log : LogView) → MayFail log (PutRequest row.now.key.now row.now.sets.now) refusal)
        × IsBack tree.old tree.new) }
    ensures fault { ReadyFor (layer_fault tree.old) result }
{
    if tree.free_numbers() < 2 {
        return Err(Refusal::ArenaFull);
    }
    let (suffix, old) = copy_long(alloc, tree.border(row.way.node), place)?;
    spare_layer(alloc, tree, row, place, &suffix, &old)
}

impl Write {
    // The root of the new layer takes the other key's entry.
    #[inline(never)]
    pub(crate) fn fill_root(
        &mut self,
        tree: &mut Tree,
        layer: Layer,
        entries: Items<Entry>,
    ) -> Progress
        requires { MayBeAt tree.old self.old (Stage.LayerSpared layer entries) }
        ensures { TreeStep tree.old tree.new self.old (Stage.LayerSpared layer entries) result self.new }
    {
        tree.fill_border(layer.root, entries, None);
        self.turn_to(Stage::LayerFilled(layer));
        Progress::Moved
    }

    // The head of the new layer is unlocked, before anything names it.
    #[inline(never)]
    pub(crate) fn unlock_head(&mut self, tree: &mut Tree, layer: Layer) -> Progress
        requires { MayBeAt tree.old self.old (Stage.LayerFilled layer) }
        ensures { TreeStep tree.old tree.new self.old (Stage.LayerFilled layer) result self.new }
    {
        tree.unlock_head(layer.head);
        self.turn_to(Stage::LayerReady(layer));
        Progress::Moved
    }

    // The other key is marked unstable.
    #[inline(never)]
    pub(crate) fn mark_unstable(&mut self, tree: &mut Tree, layer: Layer) -> Progress
        requires { MayBeAt tree.old self.old (Stage.LayerReady layer) }
        ensures { TreeStep tree.old tree.new self.old (Stage.LayerReady layer) result self.new }
    {
        tree.mark_unstable(self.way.node, layer.place);
        self.turn_to(Stage::LayerMarked(layer));
        Progress::Moved
    }

    // Its value becomes a link to the new layer.
    #[inline(never)]
    pub(crate) fn link_layer(&mut self, tree: &mut Tree, layer: Layer) -> Progress
        requires { MayBeAt tree.old self.old (Stage.LayerMarked layer) }
        ensures { TreeStep tree.old tree.new self.old (Stage.LayerMarked layer) result self.new }
    {
        tree.make_link(self.way.node, layer.place, layer.head);
        self.turn_to(Stage::LayerLinked(layer.head));
        Progress::Moved
    }

    // And it is marked as a layer's key.
    #[inline(never)]
    pub(crate) fn mark_layer(&mut self, tree: &mut Tree, head: NodeNo) -> Progress
        requires { MayBeAt tree.old self.old (Stage.LayerLinked head) }
        ensures { TreeStep tree.old tree.new self.old (Stage.LayerLinked head) result self.new }
    {
        tree.mark_layer(self.way.node);
        self.turn_to(Stage::Layered(head));
        Progress::Moved
    }

    // Unlocks its border, and continues in the new layer, at its head.
    #[inline(never)]
    pub(crate) fn go_below(&mut self, tree: &mut Tree, head: NodeNo) -> Progress
        requires { MayBeAt tree.old self.old (Stage.Layered head) }
        ensures { TreeStep tree.old tree.new self.old (Stage.Layered head) result self.new }
    {
        let _bytes = rest_of(&self.key, self.way.layer);
        tree.unlock_border(self.way.node);
        self.way = Way {
            node: head,
            layer: self.way.layer + 1,
        };
        self.head = head;
        self.turn_to(Stage::Seeks);
        Progress::Moved
    }
}
