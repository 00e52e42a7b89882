//! The rows that a log makes: each commit and each part of a checkpoint, done again in the order of the log.

ghost use Rattle.std.specs.Prelude.{◌≡◌, ◌+◌, ◌<◌, ◌^◌, [], ◌∷◌, IfOk, OnOk, length};
ghost use Rattle.std.specs.List.{list_any};
ghost use Rattle.mt_replay.specs.Redo.{entries_redone, entry_redone, is_seal, number_after, pairs_redone, record_redone, records_redone};

use mt_frame::entry::{Entry, Record};
use mt_rows::rows::Rows;
use mt_types::copying::TryCopy;
use mt_types::key::Key;
use mt_types::refusal::NoMemory;
use mt_types::row::Row;
use std::alloc::Global;

// Does the commit of this number again, which left this of its key.
fn redo_record(alloc: Global, rows: &mut Rows, number: u64, left: &Record) -> Result<(), NoMemory>
    ensures { OnOk result (rows.new ≡ record_redone number left.now rows.old) }
{
    match left {
        Record::Row(key, columns) => {
            let row = Row {
                version: number,
                columns: columns.copy(alloc)?,
            };
            rows.set(key.copy(alloc)?, row)?;
        }
        Record::Removed(key) => {
            let _ = rows.remove(key);
        }
    }
    Ok(())
}

// Does commits again, of which the first is the one after `newest`. Returns the number of the last one.
fn redo_records(
    alloc: Global,
    rows: &mut Rows,
    newest: u64,
    records: &[Record],
) -> Result<u64, NoMemory>
    requires { newest + length records.now < 2 ^ 64 }
    ensures rows { OnOk result (rows.new ≡ records_redone newest records.now rows.old) }
    ensures number { IfOk result (λ number. number ≡ newest + length records.now) }
{
    let mut number = newest;
    for record in records {
        number += 1;
        redo_record(alloc, rows, number, record)?;
    }
    Ok(number)
}

// Sets the rows that a part of a checkpoint lists.
fn redo_pairs(alloc: Global, rows: &mut Rows, pairs: &[(Key, Row)]) -> Result<(), NoMemory>
    ensures { OnOk result (rows.new ≡ pairs_redone pairs.now rows.old) }
{
    for (key, row) in pairs {
        rows.set(key.copy(alloc)?, row.copy(alloc)?)?;
    }
    Ok(())
}

// Does one entry again. Returns the number of the last commit after it.
fn redo_entry(
    alloc: Global,
    rows: &mut Rows,
    newest: u64,
    entry: &Entry,
    with_parts: bool,
) -> Result<u64, NoMemory>
    requires { number_after newest (entry.now ∷ []) < 2 ^ 64 }
    ensures rows { OnOk result (rows.new ≡ entry_redone with_parts newest entry.now rows.old) }
    ensures number { IfOk result (λ number. number ≡ number_after newest (entry.now ∷ [])) }
{
    match entry {
        Entry::Commits(commits) => redo_records(alloc, rows, newest, commits.records.as_slice()),
        Entry::Rows(part) => {
            if with_parts {
                redo_pairs(alloc, rows, part.rows.as_slice())?;
            }
            Ok(newest)
        }
        Entry::Header(_) | Entry::Sealed(_) | Entry::Closed(_) => Ok(newest),
    }
}

/// Does entries of a log again, in their order: a commit sets or removes the row of its key, and a part of a checkpoint
/// sets the rows that it lists, unless `with_parts` is false. Returns the number of the last commit, if that of the
/// last one before the entries is `newest`. Rows share the bytes of the entries. O(n log n) in the commits and the
/// listed rows.
///
/// # Errors
///
/// `NoMemory` if an allocation is refused. Then some entries are done.
pub fn redo(
    alloc: Global,
    rows: &mut Rows,
    newest: u64,
    entries: &[Entry],
    with_parts: bool,
) -> Result<u64, NoMemory>
    requires { number_after newest entries.now < 2 ^ 64 }
    ensures rows { OnOk result (rows.new ≡ entries_redone with_parts newest entries.now rows.old) }
    ensures number { IfOk result (λ number. number ≡ number_after newest entries.now) }
{
    let mut number = newest;
    for entry in entries {
        number = redo_entry(alloc, rows, number, entry, with_parts)?;
    }
    Ok(number)
}

/// Returns whether the entries have the seal of a checkpoint: the parts before it have all rows. O(n) in the entries.
pub fn is_sealed(entries: &[Entry]) -> bool
    ensures { result ≡ list_any is_seal entries.now }
{
    entries
        .iter()
        .any(|entry| matches!(entry, Entry::Sealed(_)))
}
