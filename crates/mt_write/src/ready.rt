//! Making ready at the border that a put or remove has locked: the new row, the columns of the row, or the row's copy.

ghost use Rattle.std.specs.Prelude.{◌≡◌, ℕ, List, ◌≤◌, ◌<◌, ◌-◌, ◌*◌, length, Option, MatchOption, MatchResult, Err, IfOk, IfErr, IsSome, IsSomeAnd, Some, None, true};
ghost use Rattle.mt_border.specs.Border.{row_at};
ghost use Rattle.mt_commit.specs.Log.{IsLog, reserve_fault};
ghost use Rattle.mt_types.specs.declared.event.Request.TheVariants.{Put as PutRequest, Remove as RemoveRequest};
ghost use Rattle.mt_border.specs.declared.found.Found.TheVariants.{Row as RowFound};
ghost use Rattle.mt_border.specs.declared.unwritten.Unwritten.TheVariants.{Nothing};
ghost use Rattle.mt_arena.specs.Node.{border_at};
ghost use Rattle.mt_border.specs.Order.{IsBorder};
ghost use Rattle.mt_tree.specs.Descent.{IsFoundAt, IsLast, found_for, row_found};
ghost use Rattle.mt_steps.specs.Way.{Finds, rest_of};
ghost use Rattle.mt_steps.specs.Step.{MayFail, columns_after};
ghost use Rattle.mt_types.specs.Rows.{version_of};
ghost use Rattle.mt_types.specs.declared.row.Row.{Row as RowView};
ghost use Rattle.mt_write.specs.Causes.{version_fault, put_fault, remove_fault, ReadyFor, FailsBy, RemoveFailsBy};
ghost use Rattle.mt_write.specs.Ready.{with_room, NeedsNoSplit, Prepares, PreparesRemove};

use crate::columns::made_columns;
use crate::inserting::reserve;
use crate::layering::spare_layer_found;
use crate::writing::Stage;
use mt_border::{Border, Found};
use mt_commit::log::Log;
use mt_steps::getting::row_at;
use mt_steps::way::{Way, rest_of};
use mt_tree::Tree;
use mt_types::copying::TryCopy;
use mt_types::key::Key;
use mt_types::refusal::{NoMemory, Refusal};
use mt_types::row::{Columns, Row, Sets};
use std::alloc::Global;

/// The row that a put is to write: what it sets, the number of columns, its key, and the node at which its call is.
#[derive(Drop)]
pub struct NewRow<'a> {
    pub columns: u8,
    pub key: &'a Key,
    pub sets: &'a Sets,
    pub way: Way,
}

// Why a put is refused that asks for a version: the row of its key is of another one. The version is 0 if it has no row.
pub fn refused_version(version: u64, only: Option<u64>) -> Option<Refusal>
    ensures { (row : Option RowView) → version ≡ version_of row → result ≡ version_fault only row }
{
    let only = only?;
    (version != only).then_some(Refusal::OtherVersion(version))
}

// The same, by what was found at the border that its call has locked.
pub fn other_version(border: &Border, found: Found, only: Option<u64>) -> Option<Refusal>
    requires { (rest : List ℕ) × IsFoundAt rest border.now.live found }
    ensures fault { result ≡ version_fault only (row_found border.now.live found) }
    ensures sound { IsBorder border.now }
{
    let _sound = border.len();
    let version = match found {
        Found::Row(place) => row_at(border, place).version,
        Found::Absent(_) | Found::OtherSuffix(_) | Found::Link(_, _) => 0,
    };
    refused_version(version, only)
}

// Reserves room in the log, and makes the columns that a row is to have.
fn make_columns_of(
    alloc: Global,
    log: &mut Log,
    row: &NewRow<'_>,
    old: &Row,
) -> Result<Columns, Refusal>
    ensures ready { MatchResult result
        (λ made. (made ≡ columns_after row.now.columns row.now.sets.now (Some old.now)) × (log.new ≡ with_room log.old))
        (λ refusal. MayFail log.old (PutRequest row.now.key.now row.now.sets.now) refusal × (log.new ≡ log.old)) }
    ensures fault { MatchOption (reserve_fault log.old) (IfErr result (λ refusal. refusal ≡ Refusal.NoMemory))
        (λ fault. result ≡ Err fault) }
    ensures sound { IsLog log.new }
{
    log.reserve()?;
    match made_columns(alloc, row.columns, Some(old), row.sets) {
        Ok(made) => Ok(made),
        Err(_) => {
            log.unreserve();
            Err(Refusal::NoMemory)
        }
    }
}

// Reserves room in the log, and makes the columns that the row at a place is to have.
pub fn make_columns(
    alloc: Global,
    log: &mut Log,
    row: &NewRow<'_>,
    border: &Border,
    place: usize,
) -> Result<Columns, Refusal>
    requires within { place < length border.now.live }
    requires row { IsSome (row_at place border.now.live) }
    ensures ready { MatchResult result
        (λ made. (made ≡ columns_after row.now.columns row.now.sets.now (row_at place border.now.live))
        × (log.new ≡ with_room log.old))
        (λ refusal. MayFail log.old (PutRequest row.now.key.now row.now.sets.now) refusal × (log.new ≡ log.old)) }
    ensures fault { MatchOption (reserve_fault log.old) (IfErr result (λ refusal. refusal ≡ Refusal.NoMemory))
        (λ fault. result ≡ Err fault) }
    ensures sound { IsLog log.new }
{
    make_columns_of(alloc, log, row, row_at(border, place))
}

// The key and the columns once more, for the log, which may keep them for long: the key has bytes of its own.
pub fn copy_for_log(alloc: Global, key: &Key, columns: &Columns) -> Result<(Key, Columns), NoMemory>
    ensures { IfOk result (λ made. (made.0 ≡ key.now) × (made.1 ≡ columns.now)) }
{
    Ok((key.detached(alloc)?, columns.copy(alloc)?))
}

// Reserves room in the log, and makes the columns that the row at a place, which is this, is to have.
fn make_over(
    alloc: Global,
    tree: &Tree,
    log: &mut Log,
    row: &NewRow<'_>,
    place: usize,
    old: &Row,
) -> Result<Stage, Refusal>
    requires within { 8 * row.now.way.layer ≤ length row.now.key.now - 1 }
    requires there { IsSomeAnd (border_at tree.now.nodes row.now.way.node.0) (λ b.
        (found_for (rest_of row.now.key.now row.now.way) b.live ≡ RowFound place) × (row_at place b.live ≡ Some old.now)) }
    ensures ready { MatchResult result
        (λ stage. Prepares row.now.columns row.now.key.now row.now.sets.now row.now.way tree.now log.old None stage tree.now log.new)
        (λ refusal. MayFail log.old (PutRequest row.now.key.now row.now.sets.now) refusal × (log.new ≡ log.old)) }
    ensures fault { ReadyFor (reserve_fault log.old) result }
{
    let border = tree.border(row.way.node);
    let _sound = border.len();
    let _bytes = rest_of(row.key, row.way.layer);
    let columns = make_columns_of(alloc, log, row, old)?;
    match copy_for_log(alloc, row.key, &columns) {
        Ok((key, logged)) => Ok(Stage::Made {
            place,
            key,
            columns,
            logged,
        }),
        Err(_) => {
            log.unreserve();
            Err(Refusal::NoMemory)
        }
    }
}

// The same of the row that is there.
fn make(
    alloc: Global,
    tree: &Tree,
    log: &mut Log,
    row: &NewRow<'_>,
    place: usize,
) -> Result<Stage, Refusal>
    requires within { 8 * row.now.way.layer ≤ length row.now.key.now - 1 }
    requires there { IsSomeAnd (border_at tree.now.nodes row.now.way.node.0)
        (λ b. found_for (rest_of row.now.key.now row.now.way) b.live ≡ RowFound place) }
    ensures ready { MatchResult result
        (λ stage. Prepares row.now.columns row.now.key.now row.now.sets.now row.now.way tree.now log.old None stage tree.now log.new)
        (λ refusal. MayFail log.old (PutRequest row.now.key.now row.now.sets.now) refusal × (log.new ≡ log.old)) }
    ensures fault { ReadyFor (reserve_fault log.old) result }
{
    let old = row_at(tree.border(row.way.node), place);
    make_over(alloc, tree, log, row, place, old)
}

// Makes a put ready that writes over the row at a place, or it fails.
pub fn prepare_over(
    alloc: Global,
    tree: &Tree,
    log: &mut Log,
    row: &NewRow<'_>,
    place: usize,
    old: &Row,
) -> Stage
    requires within { 8 * row.now.way.layer ≤ length row.now.key.now - 1 }
    requires there { IsSomeAnd (border_at tree.now.nodes row.now.way.node.0) (λ b.
        (found_for (rest_of row.now.key.now row.now.way) b.live ≡ RowFound place) × (row_at place b.live ≡ Some old.now)) }
    ensures ready { Prepares row.now.columns row.now.key.now row.now.sets.now row.now.way tree.now log.old None result tree.now
        log.new }
    ensures fault { IsSomeAnd (border_at tree.now.nodes row.now.way.node.0)
        (λ b. FailsBy (put_fault tree.now log.old b (found_for (rest_of row.now.key.now row.now.way) b.live)) None result) }
{
    match make_over(alloc, tree, log, row, place, old) {
        Ok(stage) => stage,
        Err(refusal) => Stage::Failed(refusal, None),
    }
}

// Makes a put ready at the border that its call has locked, and that it need not split: its key and row are made for an
// unused slot, or its columns, and there is room in the log; or it fails.
pub fn prepare(
    alloc: Global,
    tree: &mut Tree,
    log: &mut Log,
    row: &NewRow<'_>,
    found: Found,
) -> Stage
    requires within { 8 * row.now.way.layer ≤ length row.now.key.now - 1 }
    requires last { IsLast found }
    requires value { IsSomeAnd (border_at tree.old.nodes row.now.way.node.0)
        (λ b. found ≡ found_for (rest_of row.now.key.now row.now.way) b.live) }
    requires stands { IsSomeAnd (border_at tree.old.nodes row.now.way.node.0)
        (λ b. IsFoundAt (rest_of row.now.key.now row.now.way) b.live found) }
    requires locked { IsSomeAnd (border_at tree.old.nodes row.now.way.node.0) (λ b. b.version.locked ≡ true) }
    requires written { IsSomeAnd (border_at tree.old.nodes row.now.way.node.0) (λ b. b.unwritten ≡ Nothing) }
    requires room { IsSomeAnd (border_at tree.old.nodes row.now.way.node.0) (λ b. NeedsNoSplit b found) }
    ensures ready { Prepares row.now.columns row.now.key.now row.now.sets.now row.now.way tree.old log.old None result tree.new
        log.new }
    ensures fault { IsSomeAnd (border_at tree.old.nodes row.now.way.node.0)
        (λ b. FailsBy (put_fault tree.old log.old b (found_for (rest_of row.now.key.now row.now.way) b.live)) None result) }
{
    let made = match found {
        Found::Row(place) => make(alloc, tree, log, row, place),
        Found::Absent(place) => reserve(alloc, tree, log, row, place, None),
        Found::OtherSuffix(place) => spare_layer_found(alloc, tree, row, place),
        Found::Link(_, _) => unreachable!(),
    };
    match made {
        Ok(stage) => stage,
        Err(refusal) => Stage::Failed(refusal, None),
    }
}

// A copy of a row, and of its key, for the log.
fn copy_row(alloc: Global, old: &Row, key: &Key) -> Result<(Key, Row), NoMemory>
    ensures { IfOk result (λ made. (made.0 ≡ key.now) × (made.1 ≡ old.now)) }
{
    let before = old.copy(alloc)?;
    Ok((key.detached(alloc)?, before))
}

// Reserves room in the log, and copies the row at a place, which is to be removed.
fn take(
    alloc: Global,
    tree: &Tree,
    log: &mut Log,
    way: Way,
    place: usize,
    key: &Key,
    old: &Row,
) -> Result<Stage, Refusal>
    requires within { 8 * way.layer ≤ length key.now - 1 }
    requires there { IsSomeAnd (border_at tree.now.nodes way.node.0)
        (λ b. (found_for (rest_of key.now way) b.live ≡ RowFound place) × (row_at place b.live ≡ Some old.now)) }
    ensures ready { MatchResult result (λ stage. PreparesRemove key.now way tree.now log.old (Some stage) log.new)
        (λ refusal. MayFail log.old (RemoveRequest key.now) refusal × (log.new ≡ log.old)) }
    ensures fault { ReadyFor (reserve_fault log.old) result }
{
    let border = tree.border(way.node);
    let _sound = border.len();
    let _bytes = rest_of(key, way.layer);
    log.reserve()?;
    match copy_row(alloc, old, key) {
        Ok((key, before)) => Ok(Stage::Taken { place, key, before }),
        Err(_) => {
            log.unreserve();
            Err(Refusal::NoMemory)
        }
    }
}

// Makes a remove of the row at a place ready, or it fails.
pub fn take_row(
    alloc: Global,
    tree: &Tree,
    log: &mut Log,
    way: Way,
    place: usize,
    key: &Key,
    old: &Row,
) -> Stage
    requires within { 8 * way.layer ≤ length key.now - 1 }
    requires there { IsSomeAnd (border_at tree.now.nodes way.node.0)
        (λ b. (found_for (rest_of key.now way) b.live ≡ RowFound place) × (row_at place b.live ≡ Some old.now)) }
    ensures ready { PreparesRemove key.now way tree.now log.old (Some result) log.new }
    ensures fault { IsSomeAnd (border_at tree.now.nodes way.node.0)
        (λ b. FailsBy (remove_fault log.old (found_for (rest_of key.now way) b.live)) None result) }
{
    match take(alloc, tree, log, way, place, key, old) {
        Ok(stage) => stage,
        Err(refusal) => Stage::Failed(refusal, None),
    }
}

// Makes a remove ready at the border that its call has locked: the row is copied, and there is room in the log, or it
// fails; or the key has no row.
pub fn prepare_remove(
    alloc: Global,
    tree: &Tree,
    log: &mut Log,
    way: Way,
    key: &Key,
    found: Found,
) -> Option<Stage>
    requires within { 8 * way.layer ≤ length key.now - 1 }
    requires finds { Finds tree.now key.now way found }
    ensures ready { PreparesRemove key.now way tree.now log.old result log.new }
    ensures fault { IsSomeAnd (border_at tree.now.nodes way.node.0)
        (λ b. RemoveFailsBy (remove_fault log.old (found_for (rest_of key.now way) b.live)) result) }
{
    let _sound = tree.border(way.node).len();
    let _bytes = rest_of(key, way.layer);
    match found {
        Found::Row(place) => {
            let old = row_at(tree.border(way.node), place);
            Some(take_row(alloc, tree, log, way, place, key, old))
        }
        Found::Absent(_) | Found::OtherSuffix(_) | Found::Link(_, _) => None,
    }
}
