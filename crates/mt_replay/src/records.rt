//! The records of commits, and the columns of a record, as a put names them.

ghost use Rattle.std.specs.Prelude.{◌≡◌, IfOk, map};
ghost use Rattle.mt_asked.specs.Borrowed.{sets_of};
ghost use Rattle.mt_replay.specs.Replay.{numbered, record_of};

use mt_asked::borrowed::Set;
use mt_frame::entry::Record;
use mt_types::copying::TryCopy;
use mt_types::items::Items;
use mt_types::refusal::NoMemory;
use mt_types::row::{Columns, Delta};
use std::alloc::Global;

// What a commit left of its key.
fn record_of(alloc: Global, delta: &Delta) -> Result<Record, NoMemory>
    ensures { IfOk result (λ made. made ≡ record_of delta.now) }
{
    let key = delta.key.copy(alloc)?;
    match &delta.after {
        Some(row) => Ok(Record::Row(key, row.columns.copy(alloc)?)),
        None => Ok(Record::Removed(key)),
    }
}

/// Returns what each commit left of its key. The records share the bytes of the deltas.
///
/// # Errors
///
/// If an allocation is refused.
pub fn records_of(alloc: Global, deltas: &[Delta]) -> Result<Items<Record>, NoMemory>
    ensures { IfOk result (λ records. records ≡ map record_of deltas.now) }
{
    let mut records = Vec::with_capacity(alloc, deltas.len())?;
    for delta in deltas {
        records.push(record_of(alloc, delta)?)?;
    }
    Ok(Items::from_vec(records))
}

/// Returns the bytes of all columns, each with its number, as a put names them.
///
/// # Errors
///
/// If an allocation is refused.
pub fn sets_of(alloc: Global, columns: &Columns) -> Result<Vec<Set<'_>>, NoMemory>
    ensures { IfOk result (λ sets. sets_of sets.items ≡ numbered 0 columns.now) }
{
    let mut sets = Vec::with_capacity(alloc, columns.len())?;
    for number in 0..columns.len() {
        sets.push(Set::new(number as u8, columns.get_or_empty(number)))?;
    }
    Ok(sets)
}
