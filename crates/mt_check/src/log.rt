//! The log that is read: each delta is numbered by its place and fits the rows before it.

ghost use Rattle.std.specs.Prelude.{◌≡◌, ◌⊎◌, ◌↔◌, length, IsTrue, None, IfSome, IfOk, IfErr};
ghost use Rattle.std.specs.Option.{option_copied};
ghost use Rattle.mt_check.specs.Receipts.{HasVersion, FitsRow};
ghost use Rattle.mt_check.specs.Faults.{BreaksThere, DeltaBreaks, IsSmallest, IsFirstFault, IsWantOfMemory};
ghost use Rattle.mt_check.specs.Versions.{AreVersions, AreSound};

use crate::fault::{Fault, Rule};
use crate::versions::{Versions, last_of};
use mt_promise::exact::Exact;
use mt_types::row::{Delta, Row};
use std::alloc::Global;

fn is_row(row: &Option<Row>, standing: Option<&Row>) -> bool
    ensures { IsTrue result ↔ (option_copied standing.entry ≡ row.now) }
{
    match row {
        Some(row) => match standing {
            Some(standing) => row.is_same(standing),
            None => false,
        },
        None => standing.is_none(),
    }
}

fn has_version(row: &Option<Row>, number: u64) -> bool
    ensures { IsTrue result ↔ HasVersion number row.now }
{
    match row {
        Some(row) => row.version == number,
        None => true,
    }
}

// Whether a delta fits the row that its key has.
fn fits(delta: &Delta, standing: Option<&Row>) -> bool
    ensures { IsTrue result ↔ FitsRow (option_copied standing.entry) delta.now }
{
    is_row(&delta.before, standing)
        && has_version(&delta.after, delta.number)
        && (delta.before.is_some() || delta.after.is_some())
}

fn delta_fault(delta: &Delta, place: u64, standing: Option<&Row>) -> Option<Rule>
    ensures fine { result ≡ None → (delta.now.number ≡ place) × FitsRow (option_copied standing.entry) delta.now }
    ensures fault { IfSome result (λ rule.
        IsSmallest (BreaksThere place (option_copied standing.entry) delta.now) rule) }
{
    if delta.number != place {
        Some(Rule::DeltaNumber)
    } else if fits(delta, standing) {
        None
    } else {
        Some(Rule::DeltaRows)
    }
}

/// The versions of each key. O(n log n) in the deltas, with at most three allocations for each.
///
/// # Errors
///
/// The first delta that breaks a rule, or out of memory.
pub(crate) fn read_log(alloc: Global, deltas: &[Delta]) -> Result<Versions, Fault>
    ensures sound { IfOk result (λ _. AreSound deltas.now (length deltas.now)) }
    ensures versions { IfOk result (λ versions. AreVersions deltas.now versions) }
    ensures fault { IfErr result (λ fault. IsWantOfMemory fault ⊎ IsFirstFault DeltaBreaks deltas.now fault) }
{
    let mut versions = Versions::new(alloc);
    for (i, delta) in deltas.iter().enumerate() {
        let place = i as u64 + 1;
        if let Some(rule) = delta_fault(delta, place, last_of(versions.of_key(&delta.key))) {
            return Err(Fault { index: place, rule });
        }
        versions.add(alloc, delta)?;
    }
    Ok(versions)
}
