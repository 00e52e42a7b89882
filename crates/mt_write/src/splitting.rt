//! The split of a full border: a half is spared, filled and linked, the order is cut, and the new row goes to the half of
//! its key.

ghost use Rattle.std.specs.Prelude.{◌≡◌, ℕ, ◌≤◌, ◌-◌, ◌*◌, length, MatchResult, IsSome, IsSomeAnd, Some, true};
ghost use Rattle.mt_types.specs.declared.event.Request.TheVariants.{Put as PutRequest};
ghost use Rattle.mt_commit.specs.Log.{LogView};
ghost use Rattle.mt_word.specs.declared.permutation_word.TheConstants.{SLOTS};
ghost use Rattle.mt_border.specs.Border.{with_entries};
ghost use Rattle.mt_border.specs.declared.found.Found.TheVariants.{Absent as AbsentFound};
ghost use Rattle.mt_border.specs.declared.unwritten.Unwritten.TheVariants.{Nothing};
ghost use Rattle.mt_arena.specs.Node.{border_at};
ghost use Rattle.mt_arena.specs.Arena.{with_border_changed};
ghost use Rattle.mt_tree.specs.Descent.{found_for};
ghost use Rattle.mt_tree.specs.Keeping.{KeepsUnknown};
ghost use Rattle.mt_tree.specs.Spares.{MayFill};
ghost use Rattle.mt_steps.specs.Way.{rest_of};
ghost use Rattle.mt_steps.specs.Step.{MayFail};
ghost use Rattle.mt_write.specs.Causes.{fill_fault, put_fault, split_fault, FailsBy, ReadyFor};
ghost use Rattle.mt_write.specs.Writing.{PutsNew, MayStage};
ghost use Rattle.mt_write.specs.Splitting.{IsRead, IsHalf, IsHalfOf};
ghost use Rattle.mt_write.specs.Ready.{Prepares, IsBack, SomeSets};
ghost use Rattle.mt_write.specs.Follows.{WriteStep, TreeStep, MayBeAt};

use crate::cut::cut_of;
use crate::inserting::reserve;
use crate::ready::NewRow;
use crate::writing::{Edit, Halves, Stage, Write};
use mt_arena::Node;
use mt_border::{Border, Entry, RightLink};
use mt_commit::log::Log;
use mt_slice::slice_of;
use mt_steps::entering::Outline;
use mt_steps::progress::Progress;
use mt_steps::way::{Way, rest_of};
use mt_tree::Tree;
use mt_types::items::Items;
use mt_types::key::Key;
use mt_types::numbers::NodeNo;
use mt_types::refusal::Refusal;
use mt_word::SLOTS;
use std::alloc::Global;

// Spares a border for the upper half of one that is full, which is marked as one that is being split. This was read of
// it, and the new key's place.
fn spare(
    alloc: Global,
    tree: &mut Tree,
    row: &NewRow<'_>,
    place: usize,
    outline: Outline,
) -> Result<Stage, Refusal>
    requires full { IsSomeAnd (border_at tree.old.nodes row.now.way.node.0) (λ b. length b.live ≡ SLOTS) }
    requires absent { IsSomeAnd (border_at tree.old.nodes row.now.way.node.0)
        (λ b. found_for (rest_of row.now.key.now row.now.way) b.live ≡ AbsentFound place) }
    requires read { IsSomeAnd (border_at tree.old.nodes row.now.way.node.0) (λ b. IsRead b outline) }
    requires locked { IsSomeAnd (border_at tree.old.nodes row.now.way.node.0) (λ b. b.version.locked ≡ true) }
    requires written { IsSomeAnd (border_at tree.old.nodes row.now.way.node.0) (λ b. b.unwritten ≡ Nothing) }
    ensures ready { MatchResult result
        (λ stage. (C : ℕ) (log : LogView)
        → Prepares C row.now.key.now row.now.sets.now row.now.way tree.old log None stage tree.new log)
        (λ refusal. ((log : LogView) → MayFail log (PutRequest row.now.key.now row.now.sets.now) refusal)
        × IsBack tree.old tree.new) }
    ensures fault { IsSomeAnd (border_at tree.old.nodes row.now.way.node.0)
        (λ b. ReadyFor (split_fault tree.old b) result) }
{
    let border = tree.border(row.way.node);
    if border.is_split_spent() {
        return Err(Refusal::Spent);
    }
    if tree.free_numbers() == 0 {
        return Err(Refusal::ArenaFull);
    }
    let layer = border.layer();
    let keys = outline.keys.as_slice();
    let cut = cut_of(keys);
    let low = keys[cut].slice;
    let entries = Items::from_vec(Vec::with_capacity(alloc, SLOTS - cut)?);
    let half = tree.occupy(Node::Border(Border::new_locked(alloc, layer, low)))?;
    tree.mark_splitting(row.way.node);
    Ok(Stage::Copies {
        half,
        cut,
        place,
        outline,
        entries,
    })
}

// Makes a put ready that splits its border, of which this was read, or it fails.
pub fn prepare_split(
    alloc: Global,
    tree: &mut Tree,
    row: &NewRow<'_>,
    place: usize,
    outline: Outline,
) -> Stage
    requires full { IsSomeAnd (border_at tree.old.nodes row.now.way.node.0) (λ b. length b.live ≡ SLOTS) }
    requires absent { IsSomeAnd (border_at tree.old.nodes row.now.way.node.0)
        (λ b. found_for (rest_of row.now.key.now row.now.way) b.live ≡ AbsentFound place) }
    requires read { IsSomeAnd (border_at tree.old.nodes row.now.way.node.0) (λ b. IsRead b outline) }
    requires locked { IsSomeAnd (border_at tree.old.nodes row.now.way.node.0) (λ b. b.version.locked ≡ true) }
    requires written { IsSomeAnd (border_at tree.old.nodes row.now.way.node.0) (λ b. b.unwritten ≡ Nothing) }
    ensures ready { (C : ℕ) (log : LogView)
        → Prepares C row.now.key.now row.now.sets.now row.now.way tree.old log None result tree.new log }
    ensures fault { IsSomeAnd (border_at tree.old.nodes row.now.way.node.0) (λ b. (log : LogView)
        → FailsBy (put_fault tree.old log b (found_for (rest_of row.now.key.now row.now.way) b.live)) None result) }
{
    match spare(alloc, tree, row, place, outline) {
        Ok(stage) => stage,
        Err(refusal) => Stage::Failed(refusal, None),
    }
}

// Returns the half to which the key belongs, and its place there, by its place among all entries.
fn half_of(tree: &Tree, way: Way, key: &Key, half: NodeNo, cut: usize, place: usize) -> (Way, usize)
    requires within { 8 * way.layer ≤ length key.now - 1 }
    requires half { IsSome (border_at tree.now.nodes half.0) }
    ensures { IsSomeAnd (border_at tree.now.nodes half.0)
        (λ upper. IsHalfOf key.now way half upper.low cut place result.0 result.1) }
{
    let (slice, _) = slice_of(rest_of(key, way.layer));
    if slice < tree.border(half).low() {
        return (way, place);
    }
    let way = Way {
        node: half,
        layer: way.layer,
    };
    (way, place.saturating_sub(cut))
}

// Makes a new row for the first unused slot of a half, to be shown at a place.
fn reserve_half(
    alloc: Global,
    columns: u8,
    tree: &mut Tree,
    log: &mut Log,
    write: &Write,
    split: Halves,
    place: usize,
) -> Stage
    requires within { 8 * write.now.way.layer ≤ length write.now.key - 1 }
    requires half { IsSomeAnd (border_at tree.old.nodes write.now.way.node.0)
        (IsHalf write.now.key write.now.way place) }
    requires locked { IsSomeAnd (border_at tree.old.nodes write.now.way.node.0) (λ b. b.version.locked ≡ true) }
    requires written { IsSomeAnd (border_at tree.old.nodes write.now.way.node.0) (λ b. b.unwritten ≡ Nothing) }
    requires put { PutsNew write.now.edit }
    ensures fault { IsSomeAnd (border_at tree.old.nodes write.now.way.node.0)
        (λ b. FailsBy (fill_fault log.old b) (Some split) result) }
    ensures ready { SomeSets write.now.edit (λ sets.
        Prepares columns write.now.key sets write.now.way tree.old log.old (Some split) result tree.new log.new) }
{
    let Edit::Put { sets, .. } = &write.edit else {
        unreachable!();
    };
    let row = NewRow {
        columns,
        key: &write.key,
        sets,
        way: write.way,
    };
    match reserve(alloc, tree, log, &row, place, Some(split)) {
        Ok(stage) => stage,
        Err(refusal) => Stage::Failed(refusal, Some(split)),
    }
}

impl Write {
    // The spared half takes the entries that were copied, and the right link that was read of the border.
    #[inline(never)]
    pub(crate) fn fill_spared(
        &mut self,
        tree: &mut Tree,
        half: NodeNo,
        cut: usize,
        place: usize,
        right: Option<RightLink>,
        entries: Items<Entry>,
    ) -> Progress
        requires { MayBeAt tree.old self.old (Stage.Spared half cut place right entries) }
        ensures step { TreeStep tree.old tree.new self.old (Stage.Spared half cut place right entries) result self.new }
        ensures moves { result ≡ Progress.Moved }
        ensures turns { self.new ≡ record self.old { stage = Stage.HalfFilled half cut place } }
    {
        tree.fill_border(half, entries, right);
        self.turn_to(Stage::HalfFilled { half, cut, place });
        Progress::Moved
    }

    // The half is linked.
    #[inline(never)]
    pub(crate) fn link(
        &mut self,
        tree: &mut Tree,
        half: NodeNo,
        cut: usize,
        place: usize,
    ) -> Progress
        requires { MayBeAt tree.old self.old (Stage.HalfFilled half cut place) }
        ensures step { TreeStep tree.old tree.new self.old (Stage.HalfFilled half cut place) result self.new }
        ensures moves { result ≡ Progress.Moved }
        ensures turns { self.new ≡ record self.old { stage = Stage.HalfLinked half cut place } }
    {
        tree.link_half(self.way.node, half, cut);
        self.turn_to(Stage::HalfLinked { half, cut, place });
        Progress::Moved
    }

    // The order is cut, and the call is then at the half to which its key belongs.
    #[inline(never)]
    pub(crate) fn cut(
        &mut self,
        tree: &mut Tree,
        half: NodeNo,
        cut: usize,
        place: usize,
    ) -> Progress
        requires { MayBeAt tree.old self.old (Stage.HalfLinked half cut place) }
        ensures step { TreeStep tree.old tree.new self.old (Stage.HalfLinked half cut place) result self.new }
        ensures moves { result ≡ Progress.Moved }
    {
        let left = self.way.node;
        let (way, place) = half_of(tree, self.way, &self.key, half, cut, place);
        tree.cut(left);
        self.way = way;
        self.turn_to(Stage::Halved(Halves { left, half }, place));
        Progress::Moved
    }

    // A new row is made for the half to which its key belongs.
    #[inline(never)]
    pub(crate) fn reserve_in_half(
        &mut self,
        alloc: Global,
        columns: u8,
        tree: &mut Tree,
        log: &mut Log,
        split: Halves,
        place: usize,
    ) -> Progress
        requires { MayStage columns tree.old log.old self.old (Stage.Halved split place) }
        ensures { WriteStep columns tree.old tree.new log.old log.new self.old (Stage.Halved split place) result self.new }
    {
        let stage = reserve_half(alloc, columns, tree, log, self, split, place);
        self.turn_to(stage);
        Progress::Moved
    }
}
