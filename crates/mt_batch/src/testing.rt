//! The tests of a batch, before anything changes: its limits, whether it changes a key twice, and its conditions.

ghost use Rattle.std.specs.Prelude.{◌≡◌, ◌↔◌, ◌≤◌, IfOk, IfSome, IfErr, IsTrue, None, map, length};
ghost use Rattle.std.specs.FinMap.{get};
ghost use Rattle.std.specs.List.{AllByRecursion};
ghost use Rattle.mt_types.specs.Rows.{version_of};
ghost use Rattle.mt_types.specs.declared.limits.TheConstants.{MAX_KEY_BYTES};
ghost use Rattle.mt_promise.specs.History.{History, moment, rows};
ghost use Rattle.mt_index.specs.Alone.{IsQuiet};
ghost use Rattle.mt_index.specs.Stands.{Stands};
ghost use Rattle.mt_batch.specs.Batch.{Holds, IsUnmet, changes_fault, conditions_fault};
ghost use Rattle.mt_batch.specs.Changes.{IsTwice, key_of};

use crate::batch::{Change, Condition};
use mt_asked::limits::key_fault;
use mt_index::machine::Machine;
use mt_types::refusal::Refusal;
use std::alloc::Global;
use std::collections::BTreeSet;

// Returns the first limit that a condition breaks.
pub(crate) fn conditions_fault(conditions: &[Condition<'_>]) -> Option<Refusal>
    ensures { result ≡ conditions_fault conditions.now }
{
    for condition in conditions {
        if let Some(refusal) = key_fault(condition.key) {
            return Some(refusal);
        }
    }
    None
}

// Returns the first limit that a change breaks.
pub(crate) fn changes_fault(columns: u8, changes: &[Change<'_>]) -> Option<Refusal>
    ensures { result ≡ changes_fault columns changes.now }
{
    for change in changes {
        if let Some(refusal) = change.asked().fault(columns) {
            return Some(refusal);
        }
    }
    None
}

// Returns whether a key is changed twice.
pub(crate) fn names_twice(alloc: Global, changes: &[Change<'_>]) -> Result<bool, Refusal>
    ensures twice { IfOk result (λ twice. IsTrue twice ↔ IsTwice (map key_of changes.now)) }
    ensures memory { IfErr result (λ refusal. refusal ≡ Refusal.NoMemory) }
{
    let mut seen = BTreeSet::new(alloc);
    for change in changes {
        match seen.insert(change.key()) {
            Ok(true) => {}
            Ok(false) => return Ok(true),
            Err(_) => return Err(Refusal::NoMemory),
        }
    }
    Ok(false)
}

// Returns the version of the row of a key, or 0 if it has none.
fn version_at(machine: &Machine, key: &[u8]) -> u64
    requires quiet { IsQuiet machine.now }
    requires fits { length key.now ≤ MAX_KEY_BYTES }
    ensures { (h : History) → Stands machine.now h
        → result ≡ version_of (get (rows machine.now.columns (moment h)) key.now) }
{
    match machine.row(key) {
        Some(row) => row.version,
        None => 0,
    }
}

// Returns the place of the first condition that doesn't hold, and the version that was found.
pub(crate) fn first_unmet(machine: &Machine, conditions: &[Condition<'_>]) -> Option<(usize, u64)>
    requires quiet { IsQuiet machine.now }
    requires fit { conditions_fault conditions.now ≡ None }
    ensures met { result ≡ None → (h : History) → Stands machine.now h
        → AllByRecursion (Holds (rows machine.now.columns (moment h))) conditions.now }
    ensures unmet { IfSome result (λ at. (h : History) → Stands machine.now h
        → IsUnmet (rows machine.now.columns (moment h)) conditions.now at.0 at.1) }
{
    for (place, condition) in conditions.iter().enumerate() {
        let found = version_at(machine, condition.key);
        if found != condition.version {
            return Some((place, found));
        }
    }
    None
}
