//! A batch on a machine: all of its changes, or none.

ghost use Rattle.std.specs.Prelude.{◌≡◌, IfOk, IfErr, OnOk, OnErr, None, map};
ghost use Rattle.mt_promise.specs.History.{History};
ghost use Rattle.mt_index.specs.Alone.{IsIdle};
ghost use Rattle.mt_index.specs.Stands.{HasBounds, Stands};
ghost use Rattle.mt_batch.specs.Batch.{ComesTo, HasMadeAll, MayFail, MayLack, StaysThere, batch_fault, changes_fault};
ghost use Rattle.mt_batch.specs.Changes.{IsTwice, key_of};

use crate::batch::{BatchError, Batched, Change, Condition, MAX_BATCH, Made};
use crate::making::make;
use crate::testing::{changes_fault, conditions_fault, first_unmet, names_twice};
use mt_index::machine::Machine;
use mt_types::refusal::Refusal;
use std::alloc::Global;

/// Returns the limit that a batch breaks in an index of `columns` columns, if it breaks one. O(n) in the conditions and the
/// changes. Allocates nothing.
pub fn batch_fault(
    columns: u8,
    conditions: &[Condition<'_>],
    changes: &[Change<'_>],
) -> Option<BatchError>
    ensures { result ≡ batch_fault columns conditions.now changes.now }
{
    if conditions.len() > MAX_BATCH || changes.len() > MAX_BATCH {
        return Some(BatchError::BadBatch);
    }
    if let Some(refusal) = conditions_fault(conditions) {
        return Some(BatchError::Refused(refusal));
    }
    match changes_fault(columns, changes) {
        Some(refusal) => Some(BatchError::Refused(refusal)),
        None => None,
    }
}

// Makes all changes, or none.
fn make_all(alloc: Global, machine: &mut Machine, changes: &[Change<'_>]) -> Result<Made, Refusal>
    requires idle { IsIdle machine.old }
    requires fit { changes_fault machine.old.columns changes.now ≡ None }
    requires once { IsTwice (map key_of changes.now) → ⊥ }
    ensures made { IfOk result (λ made. HasMadeAll machine.old changes.now made machine.new) }
    ensures stays { OnErr result (StaysThere machine.old machine.new) }
    ensures lacks { IfErr result MayLack }
    ensures idle { IsIdle machine.new }
    ensures columns { machine.new.columns ≡ machine.old.columns }
    ensures bounds { HasBounds machine.old.log.capacity machine.old.log.retention machine.new.log }
{
    let from = machine.commits();
    let mark = machine.mark();
    match make(alloc, machine, changes, from) {
        Ok(numbers) => {
            machine.settle(mark);
            let to = machine.commits();
            Ok(Made { from, to, numbers })
        }
        Err(refusal) => {
            machine.go_back(mark);
            Err(refusal)
        }
    }
}

/// Tests conditions, and if all hold makes changes, as consecutive commits: first the puts in their order, and then the
/// removes. Or nothing changes: if a condition doesn't hold, or if a change is refused, also for lack of memory; then
/// the changes before it are undone, and the machine is at each history that it was at. The batch must keep its limits
/// ([`batch_fault`]), and no call may be open.
///
/// Costs a search for each condition, what a put or remove costs for each change, and O(n log n) in the changes to see that
/// no key is changed twice. A removed row keeps its memory until its slot is used again.
///
/// # Errors
///
/// `BadBatch` if a key is changed twice; `Refused` with `NoMemory`, `ArenaFull`, `FeedFull` or `Spent`, as a put or a remove
/// is, and with `FeedFull` if more rows are to be removed than the log has room for.
pub fn batch(
    alloc: Global,
    machine: &mut Machine,
    conditions: &[Condition<'_>],
    changes: &[Change<'_>],
) -> Result<Batched, BatchError>
    requires idle { IsIdle machine.old }
    requires fit { batch_fault machine.old.columns conditions.now changes.now ≡ None }
    ensures came { IfOk result (λ came. ComesTo machine.old conditions.now changes.now came machine.new) }
    ensures stays { OnErr result (StaysThere machine.old machine.new) }
    ensures fails { IfErr result (MayFail changes.now) }
    ensures once { OnOk result (IsTwice (map key_of changes.now) → ⊥) }
    ensures idle { IsIdle machine.new }
    ensures columns { machine.new.columns ≡ machine.old.columns }
    ensures bounds { HasBounds machine.old.log.capacity machine.old.log.retention machine.new.log }
{
    match names_twice(alloc, changes) {
        Ok(false) => {}
        Ok(true) => return Err(BatchError::BadBatch),
        Err(refusal) => return Err(BatchError::Refused(refusal)),
    }
    if let Some((place, found)) = first_unmet(machine, conditions) {
        return Ok(Batched::Unmet { place, found });
    }
    match make_all(alloc, machine, changes) {
        Ok(made) => Ok(Batched::Made(made)),
        Err(refusal) => Err(BatchError::Refused(refusal)),
    }
}
