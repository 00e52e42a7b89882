//! The rows of a log as it was left, which may have been closed in the middle of a checkpoint.

ghost use Rattle.std.specs.Prelude.{◌≡◌, ◌⊎◌, ◌↔◌, ◌≤◌, ◌<◌, ◌^◌, true, IfOk, OnOk, IfErr, IsErrOf, IfSome, IfNone};
ghost use Rattle.mt_replay.specs.Redo.{entries_redone, number_after};
ghost use Rattle.mt_replay.specs.Reading.{counted, front_length};

use crate::redoing::{is_sealed, redo};
use mt_frame::entry::Entry;
use mt_rows::rows::Rows;
use mt_types::refusal::{NoMemory, Refusal};
use std::alloc::Global;

// The number of the last commit after entries that follow the commit `newest`, if it fits.
fn last_number(newest: u64, entries: &[Entry]) -> Option<u64>
    ensures some { IfSome result (λ number. number ≡ number_after newest entries.now) }
    ensures none { IfNone result (2 ^ 64 ≤ number_after newest entries.now) }
{
    let mut number = newest;
    for entry in entries {
        if let Entry::Commits(commits) = entry {
            number = number.checked_add(commits.records.len() as u64)?;
        }
    }
    Some(number)
}

// How many entries there are up to the next seal or closed frame, with it; all, if there is none.
fn front_length(entries: &[Entry]) -> usize
    ensures { result ≡ front_length entries.now }
{
    for (at, entry) in entries.iter().enumerate() {
        if matches!(entry, Entry::Sealed(_) | Entry::Closed(_)) {
            return at + 1;
        }
    }
    entries.len()
}

// Does the entries again, front by front, each up to the next seal or closed frame. Its parts count if a seal ends it.
fn redo_fronts(
    alloc: Global,
    rows: &mut Rows,
    base: u64,
    entries: &[Entry],
) -> Result<u64, NoMemory>
    requires { number_after base entries.now < 2 ^ 64 }
    ensures rows { OnOk result (rows.new ≡ entries_redone true base (counted entries.now) rows.old) }
    ensures number { IfOk result (λ number. number ≡ number_after base entries.now) }
{
    let mut number = base;
    let mut rest = entries;
    while !rest.is_empty() {
        let (front, later) = rest.split_at(front_length(rest));
        number = redo(alloc, rows, number, front, is_sealed(front))?;
        rest = later;
    }
    Ok(number)
}

/// Reads the entries of a log: makes of `rows`, which are those before the entries, the rows that the entries leave. All
/// commits are done again. A part of a checkpoint counts only if a seal follows before the log was closed: a part without
/// one may list rows of commits that a crash has undone. Returns the number of the last commit, if `base` is that of the
/// last one before the entries. Rows share the bytes of the entries. O(n log n) in the commits and the listed rows.
///
/// # Errors
///
/// `Spent` if the number of the last commit doesn't fit. Then nothing changes. `NoMemory` if an allocation is refused.
/// Then some entries are done.
pub fn read_rows(
    alloc: Global,
    rows: &mut Rows,
    base: u64,
    entries: &[Entry],
) -> Result<u64, Refusal>
    ensures rows { OnOk result (rows.new ≡ entries_redone true base (counted entries.now) rows.old) }
    ensures number { IfOk result (λ number. number ≡ number_after base entries.now) }
    ensures spent { IsErrOf result Refusal.Spent ↔ (2 ^ 64 ≤ number_after base entries.now) }
    ensures unchanged { IsErrOf result Refusal.Spent → rows.new ≡ rows.old }
    ensures only { IfErr result (λ refusal. (refusal ≡ Refusal.NoMemory) ⊎ (refusal ≡ Refusal.Spent)) }
{
    if last_number(base, entries).is_none() {
        return Err(Refusal::Spent);
    }
    Ok(redo_fronts(alloc, rows, base, entries)?)
}
