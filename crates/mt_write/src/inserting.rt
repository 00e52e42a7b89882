//! A new key at the border that a put has locked: its key and row are made, and then written into the first unused slot.

ghost use Rattle.std.specs.Prelude.{◌≡◌, ℕ, ◌≤◌, ◌<◌, ◌-◌, ◌*◌, length, MatchOption, MatchResult, Err, IfOk, IfErr, OnOk, IsFalse, IsSomeAnd, None, true};
ghost use Rattle.mt_types.specs.declared.event.Request.TheVariants.{Put as PutRequest};
ghost use Rattle.mt_word.specs.declared.permutation_word.TheConstants.{SLOTS};
ghost use Rattle.mt_commit.specs.Log.{IsLog};
ghost use Rattle.mt_border.specs.Border.{insert_is_spent, with_inserting};
ghost use Rattle.mt_border.specs.Entry.{key_of_rest};
ghost use Rattle.mt_border.specs.Keys.{key_seen, IsKey};
ghost use Rattle.mt_border.specs.Order.{IsBorder};
ghost use Rattle.mt_border.specs.declared.found.Found.TheVariants.{Absent as AbsentFound};
ghost use Rattle.mt_border.specs.declared.unwritten.Unwritten.TheVariants.{Nothing};
ghost use Rattle.mt_arena.specs.Node.{border_at};
ghost use Rattle.mt_arena.specs.Arena.{IsArena, with_border_changed};
ghost use Rattle.mt_tree.specs.BorderSteps.{MayWriteKey};
ghost use Rattle.mt_tree.specs.Descent.{found_for};
ghost use Rattle.mt_tree.specs.Keeping.{KeepsTree};
ghost use Rattle.mt_steps.specs.Step.{MayFail, columns_after};
ghost use Rattle.mt_steps.specs.Way.{rest_of};
ghost use Rattle.mt_write.specs.Causes.{fill_fault, ReadyFor};
ghost use Rattle.mt_write.specs.Follows.{TreeStep, MayBeAt};
ghost use Rattle.mt_write.specs.Ready.{with_room, Inserts, Prepares, WritesSlot, IsBack};

use crate::columns::made_columns;
use crate::ready::{NewRow, copy_for_log};
use crate::writing::{Halves, Insertion, Stage, Write};
use mt_border::SlotKey;
use mt_commit::log::Log;
use mt_steps::progress::Progress;
use mt_steps::way::rest_of;
use mt_tree::Tree;
use mt_types::key::Key;
use mt_types::numbers::NodeNo;
use mt_types::refusal::{NoMemory, Refusal};
use mt_types::row::{Columns, Row};
use std::alloc::Global;

// Reserves room in the log for a new row, if the counter of insertions isn't spent that its slot may need.
fn reserve_new(tree: &Tree, log: &mut Log, row: &NewRow<'_>) -> Result<(), Refusal>
    requires room { IsSomeAnd (border_at tree.now.nodes row.now.way.node.0) (λ b. length b.live < SLOTS) }
    ensures ok { OnOk result (IsSomeAnd (border_at tree.now.nodes row.now.way.node.0) (λ b. IsFalse (insert_is_spent b))
        × (log.new ≡ with_room log.old)) }
    ensures err { IfErr result (λ refusal. MayFail log.old (PutRequest row.now.key.now row.now.sets.now) refusal
        × (log.new ≡ log.old)) }
    ensures fault { IsSomeAnd (border_at tree.now.nodes row.now.way.node.0)
        (λ b. MatchOption (fill_fault log.old b)
        (IfErr result (λ refusal. refusal ≡ Refusal.NoMemory)) (λ fault. result ≡ Err fault)) }
    ensures sound { IsLog log.new }
{
    let _sound = log.number();
    if tree.border(row.way.node).is_insert_spent() {
        return Err(Refusal::Spent);
    }
    log.reserve()
}

// The key of a put as its slot is to have it, and its row before its commit.
fn new_row(alloc: Global, row: &NewRow<'_>) -> Result<(SlotKey, Row), NoMemory>
    requires { 8 * row.now.way.layer ≤ length row.now.key.now - 1 }
    ensures key { IfOk result (λ made. made.0 ≡ key_of_rest (rest_of row.now.key.now row.now.way)) }
    ensures whole { IfOk result (λ made. IsKey (key_seen made.0)) }
    ensures row { IfOk result (λ made. made.1
        ≡ record { version = 0; columns = columns_after row.now.columns row.now.sets.now None }) }
{
    let columns = made_columns(alloc, row.columns, None, row.sets)?;
    let key = SlotKey::of_rest(alloc, rest_of(row.key, row.way.layer))?;
    Ok((
        key,
        Row {
            version: 0,
            columns,
        },
    ))
}

// The same, and a copy of the key and the columns, for the log.
fn new_logged(alloc: Global, row: &NewRow<'_>) -> Result<(SlotKey, Row, Key, Columns), NoMemory>
    requires { 8 * row.now.way.layer ≤ length row.now.key.now - 1 }
    ensures key { IfOk result (λ made. made.0 ≡ key_of_rest (rest_of row.now.key.now row.now.way)) }
    ensures whole { IfOk result (λ made. IsKey (key_seen made.0)) }
    ensures row { IfOk result (λ made. made.1
        ≡ record { version = 0; columns = columns_after row.now.columns row.now.sets.now None }) }
    ensures copies { IfOk result (λ made. (made.2 ≡ row.now.key.now)
        × (made.3 ≡ columns_after row.now.columns row.now.sets.now None)) }
{
    let (slot_key, new) = new_row(alloc, row)?;
    let (key, logged) = copy_for_log(alloc, row.key, &new.columns)?;
    Ok((slot_key, new, key, logged))
}

// Marks a border, if its first unused slot held a key.
fn mark(tree: &mut Tree, number: NodeNo)
    requires room { IsSomeAnd (border_at tree.old.nodes number.0)
        (λ b. (length b.live < SLOTS) × IsFalse (insert_is_spent b)) }
    requires locked { IsSomeAnd (border_at tree.old.nodes number.0) (λ b. b.version.locked ≡ true) }
    requires written { IsSomeAnd (border_at tree.old.nodes number.0) (λ b. b.unwritten ≡ Nothing) }
    ensures marked { tree.new ≡ with_border_changed tree.old number.0 with_inserting }
    ensures sound { IsSomeAnd (border_at tree.new.nodes number.0) IsBorder }
    ensures keeps { KeepsTree tree.old tree.new }
{
    let Ok(()) = tree.mark_inserting(number) else {
        unreachable!();
    };
}

// Reserves room in the log, makes a new row, and marks the border for it if the first unused slot held a key. The row is
// to be shown at a place.
pub fn reserve(
    alloc: Global,
    tree: &mut Tree,
    log: &mut Log,
    row: &NewRow<'_>,
    place: usize,
    split: Option<Halves>,
) -> Result<Stage, Refusal>
    requires within { 8 * row.now.way.layer ≤ length row.now.key.now - 1 }
    requires absent { IsSomeAnd (border_at tree.old.nodes row.now.way.node.0)
        (λ b. (length b.live < SLOTS) × (found_for (rest_of row.now.key.now row.now.way) b.live ≡ AbsentFound place)) }
    requires locked { IsSomeAnd (border_at tree.old.nodes row.now.way.node.0) (λ b. b.version.locked ≡ true) }
    requires written { IsSomeAnd (border_at tree.old.nodes row.now.way.node.0) (λ b. b.unwritten ≡ Nothing) }
    ensures ready { MatchResult result
        (λ stage. Prepares row.now.columns row.now.key.now row.now.sets.now row.now.way tree.old log.old split stage tree.new log.new)
        (λ refusal. MayFail log.old (PutRequest row.now.key.now row.now.sets.now) refusal × IsBack tree.old tree.new
        × (log.new ≡ log.old)) }
    ensures fault { IsSomeAnd (border_at tree.old.nodes row.now.way.node.0) (λ b. ReadyFor (fill_fault log.old b) result) }
{
    let _bytes = rest_of(row.key, row.way.layer);
    let _sound = tree.border(row.way.node).len();
    reserve_new(tree, log, row)?;
    let Ok((slot_key, new, key, logged)) = new_logged(alloc, row) else {
        log.unreserve();
        return Err(Refusal::NoMemory);
    };
    mark(tree, row.way.node);
    let insertion = Insertion {
        place,
        key,
        logged,
        split,
    };
    Ok(Stage::Reserved(insertion, slot_key, new))
}

// Writes a key and its row into the first unused slot.
pub fn write_slot(tree: &mut Tree, number: NodeNo, slot_key: SlotKey, row: Row)
    requires { IsSomeAnd (border_at tree.old.nodes number.0) (λ b. MayWriteKey b slot_key) }
    ensures { WritesSlot tree.old tree.new number.0 slot_key row }
{
    tree.write_key(number, slot_key);
    let _arena = tree.free_numbers();
    tree.write_value(number, row);
}

// Reserves room in the log, and writes a new row into the first unused slot. Makes nothing for the log.
pub fn insert_unread(
    alloc: Global,
    tree: &mut Tree,
    log: &mut Log,
    row: &NewRow<'_>,
) -> Result<(), Refusal>
    requires within { 8 * row.now.way.layer ≤ length row.now.key.now - 1 }
    requires room { IsSomeAnd (border_at tree.old.nodes row.now.way.node.0) (λ b. length b.live < SLOTS) }
    requires locked { IsSomeAnd (border_at tree.old.nodes row.now.way.node.0) (λ b. b.version.locked ≡ true) }
    requires written { IsSomeAnd (border_at tree.old.nodes row.now.way.node.0) (λ b. b.unwritten ≡ Nothing) }
    ensures ok { OnOk result (Inserts row.now.columns row.now.key.now row.now.sets.now row.now.way tree.old tree.new
        × (log.new ≡ with_room log.old)) }
    ensures err { IfErr result (λ refusal. MayFail log.old (PutRequest row.now.key.now row.now.sets.now) refusal
        × (tree.new ≡ tree.old) × (log.new ≡ log.old)) }
    ensures fault { IsSomeAnd (border_at tree.old.nodes row.now.way.node.0)
        (λ b. MatchOption (fill_fault log.old b)
        (IfErr result (λ refusal. refusal ≡ Refusal.NoMemory)) (λ fault. result ≡ Err fault)) }
    ensures sound { IsLog log.new }
{
    let _bytes = rest_of(row.key, row.way.layer);
    let _sound = tree.border(row.way.node).len();
    reserve_new(tree, log, row)?;
    let Ok((slot_key, new)) = new_row(alloc, row) else {
        log.unreserve();
        return Err(Refusal::NoMemory);
    };
    mark(tree, row.way.node);
    let _arena = tree.free_numbers();
    write_slot(tree, row.way.node, slot_key, new);
    Ok(())
}

impl Write {
    // The first unused slot takes its key.
    #[inline(never)]
    pub(crate) fn write_key(
        &mut self,
        tree: &mut Tree,
        new: Insertion,
        slot_key: SlotKey,
        row: Row,
    ) -> Progress
        requires { MayBeAt tree.old self.old (Stage.Reserved new slot_key row) }
        ensures { TreeStep tree.old tree.new self.old (Stage.Reserved new slot_key row) result self.new }
    {
        tree.write_key(self.way.node, slot_key);
        self.turn_to(Stage::KeyWritten(new, row));
        Progress::Moved
    }

    // And its row.
    #[inline(never)]
    pub(crate) fn write_value(&mut self, tree: &mut Tree, new: Insertion, row: Row) -> Progress
        requires { MayBeAt tree.old self.old (Stage.KeyWritten new row) }
        ensures { TreeStep tree.old tree.new self.old (Stage.KeyWritten new row) result self.new }
    {
        tree.write_value(self.way.node, row);
        let Insertion {
            place,
            key,
            logged,
            split,
        } = new;
        self.turn_to(Stage::Filled {
            place,
            key,
            logged,
            split,
        });
        Progress::Moved
    }
}
