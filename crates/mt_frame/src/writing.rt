//! The fields of an entry, written at the end of bytes.

ghost use Rattle.std.specs.Prelude.{◌≡◌, ◌≤◌, ◌++◌, OnOk, length};
ghost use Rattle.std.specs.List.{AllByRecursion, flat_map};
ghost use Rattle.std.specs.Int.{w16, w64, to_be_bytes};
ghost use Rattle.mt_wire.specs.Spelling.{key_spelling, columns_spelling, row_spelling, pair_spelling, pairs_spelling};
ghost use Rattle.mt_frame.specs.Spelling.{record_spelling, records_spelling, title, header_spelling, commits_spelling, part_spelling, entry_spelling};
ghost use Rattle.mt_types.specs.Packed.{ArePackable};
ghost use Rattle.mt_frame.specs.Fits.{CountFits, RecordFits, HeaderFits, CommitsFit, RowFits, PairFits, PartFits, EntryFits};

use crate::entry::{Commits, Entry, LogHeader, Part, Record};
use crate::limits::{LOG_FORMAT, MAX_RECORDS};
use mt_types::key::Key;
use mt_types::limits::MAX_KEY_BYTES;
use mt_types::row::{Columns, Row};
use std::alloc::AllocError;

fn number16(out: &mut Vec<u8>, number: u16) -> Result<(), AllocError>
    ensures { OnOk result (out.new.items ≡ out.old.items ++ to_be_bytes w16 number) }
{
    out.extend_from_slice(&number.to_be_bytes())
}

pub fn number64(out: &mut Vec<u8>, number: u64) -> Result<(), AllocError>
    ensures { OnOk result (out.new.items ≡ out.old.items ++ to_be_bytes w64 number) }
{
    out.extend_from_slice(&number.to_be_bytes())
}

fn write_key(out: &mut Vec<u8>, key: &Key) -> Result<(), AllocError>
    ensures value { OnOk result (out.new.items ≡ out.old.items ++ key_spelling key.now) }
    ensures fits { length key.now ≤ MAX_KEY_BYTES }
{
    let bytes = key.as_slice();
    number16(out, bytes.len() as u16)?;
    out.extend_from_slice(bytes)
}

// Columns are kept as they are spelled.
fn write_columns(out: &mut Vec<u8>, columns: &Columns) -> Result<(), AllocError>
    ensures value { OnOk result (out.new.items ≡ out.old.items ++ columns_spelling columns.now) }
    ensures fits { ArePackable columns.now }
{
    let _packable = columns.len();
    out.extend_from_slice(columns.as_packed())
}

fn write_record(out: &mut Vec<u8>, record: &Record) -> Result<(), AllocError>
    ensures value { OnOk result (out.new.items ≡ out.old.items ++ record_spelling «record».now) }
    ensures fits { OnOk result (RecordFits «record».now) }
{
    match record {
        Record::Row(key, columns) => {
            out.push(1)?;
            write_key(out, key)?;
            write_columns(out, columns)
        }
        Record::Removed(key) => {
            out.push(2)?;
            write_key(out, key)
        }
    }
}

fn write_records(out: &mut Vec<u8>, records: &[Record]) -> Result<(), AllocError>
    requires { length records.now ≤ MAX_RECORDS }
    ensures value { OnOk result (out.new.items ≡ out.old.items ++ records_spelling records.now) }
    ensures fit { OnOk result (AllByRecursion RecordFits records.now) }
{
    number16(out, records.len() as u16)?;
    each_record(out, records)
}

fn each_record(out: &mut Vec<u8>, records: &[Record]) -> Result<(), AllocError>
    ensures value { OnOk result (out.new.items ≡ out.old.items ++ flat_map record_spelling records.now) }
    ensures fit { OnOk result (AllByRecursion RecordFits records.now) }
{
    for record in records {
        write_record(out, record)?;
    }
    Ok(())
}

fn write_title(out: &mut Vec<u8>) -> Result<(), AllocError>
    ensures { OnOk result (out.new.items ≡ out.old.items ++ title) }
{
    out.extend_from_slice(b"rowanspan log")?;
    number16(out, LOG_FORMAT)
}

fn write_header(out: &mut Vec<u8>, header: &LogHeader) -> Result<(), AllocError>
    ensures value { OnOk result (out.new.items ≡ out.old.items ++ header_spelling header.now) }
    ensures fits { OnOk result (HeaderFits header.now) }
{
    write_title(out)?;
    out.push(header.columns)?;
    number64(out, header.generation)?;
    number64(out, header.base)?;
    number64(out, header.run)
}

fn write_commits(out: &mut Vec<u8>, commits: &Commits) -> Result<(), AllocError>
    requires { length commits.now.records ≤ MAX_RECORDS }
    ensures value { OnOk result (out.new.items ≡ out.old.items ++ commits_spelling commits.now) }
    ensures fit { OnOk result (CommitsFit commits.now) }
{
    number64(out, commits.first)?;
    number64(out, commits.durable)?;
    write_records(out, commits.records.as_slice())
}

fn write_row(out: &mut Vec<u8>, row: &Row) -> Result<(), AllocError>
    ensures value { OnOk result (out.new.items ≡ out.old.items ++ row_spelling row.now) }
    ensures fits { OnOk result (RowFits row.now) }
{
    number64(out, row.version)?;
    write_columns(out, &row.columns)
}

fn write_pair(out: &mut Vec<u8>, pair: &(Key, Row)) -> Result<(), AllocError>
    ensures value { OnOk result (out.new.items ≡ out.old.items ++ pair_spelling pair.now) }
    ensures fits { OnOk result (PairFits pair.now) }
{
    let (key, row) = pair;
    write_key(out, key)?;
    write_row(out, row)
}

fn write_pairs(out: &mut Vec<u8>, pairs: &[(Key, Row)]) -> Result<(), AllocError>
    requires { length pairs.now ≤ MAX_RECORDS }
    ensures value { OnOk result (out.new.items ≡ out.old.items ++ pairs_spelling pairs.now) }
    ensures fit { OnOk result (AllByRecursion PairFits pairs.now) }
{
    number16(out, pairs.len() as u16)?;
    each_pair(out, pairs)
}

fn each_pair(out: &mut Vec<u8>, pairs: &[(Key, Row)]) -> Result<(), AllocError>
    ensures value { OnOk result (out.new.items ≡ out.old.items ++ flat_map pair_spelling pairs.now) }
    ensures fit { OnOk result (AllByRecursion PairFits pairs.now) }
{
    for pair in pairs {
        write_pair(out, pair)?;
    }
    Ok(())
}

fn write_part(out: &mut Vec<u8>, part: &Part) -> Result<(), AllocError>
    requires { length part.now.rows ≤ MAX_RECORDS }
    ensures value { OnOk result (out.new.items ≡ out.old.items ++ part_spelling part.now) }
    ensures fit { OnOk result (PartFits part.now) }
{
    number64(out, part.at)?;
    write_pairs(out, part.rows.as_slice())
}

/// Writes the content of an entry at the end of `out`. On an error some of its bytes may be there.
pub fn write_entry(out: &mut Vec<u8>, entry: &Entry) -> Result<(), AllocError>
    requires { CountFits entry.now }
    ensures value { OnOk result (out.new.items ≡ out.old.items ++ entry_spelling entry.now) }
    ensures fits { OnOk result (EntryFits entry.now) }
{
    match entry {
        Entry::Header(header) => {
            out.push(1)?;
            write_header(out, header)
        }
        Entry::Commits(commits) => {
            out.push(2)?;
            write_commits(out, commits)
        }
        Entry::Rows(part) => {
            out.push(3)?;
            write_part(out, part)
        }
        Entry::Sealed(count) => {
            out.push(5)?;
            number64(out, *count)
        }
        Entry::Closed(number) => {
            out.push(6)?;
            number64(out, *number)
        }
    }
}
