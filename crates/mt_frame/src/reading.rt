//! The fields of an entry, read from the front of the bytes that are left.

ghost use Rattle.std.specs.Prelude.{◌≡◌, bytes_eq};
ghost use Rattle.std.specs.Int.{w16, w64};
ghost use Rattle.mt_wire.specs.Reading.{Reader, byte_at, number_at, bytes_at, key_at, short_at, times_at, counted_at, counted16_at, kind_at};
ghost use Rattle.mt_frame.specs.Reading.{Gives, limited_key_at, columns_at, record_rest, records_at, title_at, header_at, commits_at, row_at, pairs_at, rows_at, sealed_at, closed_at, entry_rest, content_at};

use crate::entry::{Commits, Entry, LogHeader, Part, Record};
use crate::fault::ReadError;
use bytes::{Buf, Bytes};
use mt_types::items::Items;
use mt_types::key::Key;
use mt_types::row::{Column, Columns, Row};
use std::alloc::Global;

#[tactic(auto, unfolding(mt_wire::specs::Reading::byte_at))]
fn byte(input: &mut Bytes) -> Result<u8, ReadError>
    ensures { Gives (λ x. (x, input.new)) result (byte_at input.old) }
{
    Ok(input.try_get_u8()?)
}

#[tactic(auto, unfolding(mt_wire::specs::Reading::number_at))]
fn number16(input: &mut Bytes) -> Result<u16, ReadError>
    ensures { Gives (λ x. (x, input.new)) result (number_at w16 input.old) }
{
    Ok(input.try_get_u16()?)
}

#[tactic(auto, unfolding(mt_wire::specs::Reading::number_at))]
fn number64(input: &mut Bytes) -> Result<u64, ReadError>
    ensures { Gives (λ x. (x, input.new)) result (number_at w64 input.old) }
{
    Ok(input.try_get_u64()?)
}

// As many bytes, shared.
#[tactic(auto, unfolding(mt_wire::specs::Reading::bytes_at))]
fn run_of(input: &mut Bytes, count: usize) -> Result<Bytes, ReadError>
    ensures { Gives (λ x. (x, input.new)) result (bytes_at count input.old) }
{
    if input.len() < count {
        return Err(ReadError::Misspelled);
    }
    Ok(input.split_to(count)?)
}

#[tactic(auto, unfolding(mt_wire::specs::Reading::key_at))]
fn key_bytes(input: &mut Bytes) -> Result<Bytes, ReadError>
    ensures { Gives (λ x. (x, input.new)) result (key_at input.old) }
{
    let count = number16(input)?;
    run_of(input, usize::from(count))
}

#[tactic(auto, unfolding(crate::specs::Reading::limited_key_at))]
fn key(input: &mut Bytes) -> Result<Key, ReadError>
    ensures { Gives (λ x. (x, input.new)) result (limited_key_at input.old) }
{
    let bytes = key_bytes(input)?;
    match Key::new(bytes) {
        Ok(key) => Ok(key),
        Err(_) => Err(ReadError::Misspelled),
    }
}

#[tactic(auto, unfolding(mt_wire::specs::Reading::short_at))]
fn column(input: &mut Bytes) -> Result<Column, ReadError>
    ensures { Gives (λ x. (x, input.new)) result (short_at input.old) }
{
    let count = byte(input)?;
    run_of(input, usize::from(count))
}

/// A value that can be read from the front of bytes.
trait Readable: Sized {
    ghost reading: { Reader Self };

    /// Takes a value from the front of `input`. On an error the bytes that are left are of no further use.
    fn read(alloc: Global, input: &mut Bytes) -> Result<Self, ReadError>
        ensures { Gives (λ x. (x, input.new)) result (reading input.old) };
}

impl Readable for Column {
    ghost use Rattle.mt_wire.specs.Reading.{short_at};

    ghost reading = { short_at };

    fn read(_alloc: Global, input: &mut Bytes) -> Result<Column, ReadError> {
        column(input)
    }
}

// As many items.
fn items<T: Readable + Drop>(
    alloc: Global,
    input: &mut Bytes,
    count: usize,
) -> Result<Vec<T>, ReadError>
    ensures { Gives (λ x. (x.items, input.new)) result (times_at T.reading count input.old) }
{
    let mut items = Vec::new(alloc);
    for _ in 0..count {
        items.push(T::read(alloc, input)?)?;
    }
    Ok(items)
}

#[tactic(auto, unfolding(mt_wire::specs::Reading::counted_at))]
fn parts(alloc: Global, input: &mut Bytes) -> Result<Vec<Column>, ReadError>
    ensures { Gives (λ x. (x.items, input.new)) result (counted_at short_at input.old) }
{
    let count = byte(input)?;
    items(alloc, input, usize::from(count))
}

#[tactic(auto, unfolding(crate::specs::Reading::columns_at))]
fn columns(alloc: Global, input: &mut Bytes) -> Result<Columns, ReadError>
    ensures { Gives (λ x. (x, input.new)) result (columns_at input.old) }
{
    let parts = parts(alloc, input)?;
    match Columns::pack(alloc, parts.as_slice())? {
        Some(columns) => Ok(columns),
        None => Err(ReadError::Misspelled),
    }
}

#[tactic(auto, unfolding(crate::specs::Reading::record_rest))]
fn record_of_kind(alloc: Global, input: &mut Bytes, kind: u8) -> Result<Record, ReadError>
    ensures { Gives (λ x. (x, input.new)) result (record_rest kind input.old) }
{
    match kind {
        1 => {
            let key = key(input)?;
            Ok(Record::Row(key, columns(alloc, input)?))
        }
        2 => Ok(Record::Removed(key(input)?)),
        _ => Err(ReadError::Misspelled),
    }
}

impl Readable for Record {
    ghost use Rattle.mt_wire.specs.Reading.{kind_at};
    ghost use Rattle.mt_frame.specs.Reading.{record_rest};

    ghost reading = { kind_at record_rest };

    #[tactic(auto, unfolding(mt_wire::specs::Reading::kind_at))]
    fn read(alloc: Global, input: &mut Bytes) -> Result<Record, ReadError> {
        let kind = byte(input)?;
        record_of_kind(alloc, input, kind)
    }
}

#[tactic(auto, unfolding(crate::specs::Reading::records_at))]
fn records(alloc: Global, input: &mut Bytes) -> Result<Vec<Record>, ReadError>
    ensures { Gives (λ x. (x.items, input.new)) result (records_at input.old) }
{
    let count = number16(input)?;
    items(alloc, input, usize::from(count))
}

#[tactic(auto, unfolding(crate::specs::Reading::title_at))]
fn title(input: &mut Bytes) -> Result<(), ReadError>
    ensures { Gives (λ x. (x, input.new)) result (title_at input.old) }
{
    let title = run_of(input, 15)?;
    if title.as_slice() == b"rowanspan log\0\x01".as_slice() {
        Ok(())
    } else {
        Err(ReadError::Misspelled)
    }
}

#[tactic(auto, unfolding(crate::specs::Reading::header_at))]
fn header(input: &mut Bytes) -> Result<Entry, ReadError>
    ensures { Gives (λ x. (x, input.new)) result (header_at input.old) }
{
    title(input)?;
    let columns = byte(input)?;
    let generation = number64(input)?;
    let base = number64(input)?;
    let run = number64(input)?;
    Ok(Entry::Header(LogHeader {
        columns,
        generation,
        base,
        run,
    }))
}

#[tactic(auto, unfolding(crate::specs::Reading::commits_at))]
fn commits(alloc: Global, input: &mut Bytes) -> Result<Entry, ReadError>
    ensures { Gives (λ x. (x, input.new)) result (commits_at input.old) }
{
    let first = number64(input)?;
    let durable = number64(input)?;
    let records = Items::from_vec(records(alloc, input)?);
    Ok(Entry::Commits(Commits {
        first,
        durable,
        records,
    }))
}

#[tactic(auto, unfolding(crate::specs::Reading::row_at))]
fn row(alloc: Global, input: &mut Bytes) -> Result<Row, ReadError>
    ensures { Gives (λ x. (x, input.new)) result (row_at input.old) }
{
    let version = number64(input)?;
    let columns = columns(alloc, input)?;
    Ok(Row { version, columns })
}

impl Readable for (Key, Row) {
    ghost use Rattle.mt_frame.specs.Reading.{pair_at};

    ghost reading = { pair_at };

    #[tactic(auto, unfolding(crate::specs::Reading::pair_at))]
    fn read(alloc: Global, input: &mut Bytes) -> Result<(Key, Row), ReadError> {
        let key = key(input)?;
        Ok((key, row(alloc, input)?))
    }
}

#[tactic(auto, unfolding(crate::specs::Reading::pairs_at, mt_wire::specs::Reading::counted16_at))]
fn pairs(alloc: Global, input: &mut Bytes) -> Result<Vec<(Key, Row)>, ReadError>
    ensures { Gives (λ x. (x.items, input.new)) result (pairs_at input.old) }
{
    let count = number16(input)?;
    items(alloc, input, usize::from(count))
}

#[tactic(auto, unfolding(crate::specs::Reading::rows_at))]
fn rows(alloc: Global, input: &mut Bytes) -> Result<Entry, ReadError>
    ensures { Gives (λ x. (x, input.new)) result (rows_at input.old) }
{
    let at = number64(input)?;
    let rows = Items::from_vec(pairs(alloc, input)?);
    Ok(Entry::Rows(Part { at, rows }))
}

#[tactic(auto, unfolding(crate::specs::Reading::sealed_at))]
fn sealed(input: &mut Bytes) -> Result<Entry, ReadError>
    ensures { Gives (λ x. (x, input.new)) result (sealed_at input.old) }
{
    Ok(Entry::Sealed(number64(input)?))
}

#[tactic(auto, unfolding(crate::specs::Reading::closed_at))]
fn closed(input: &mut Bytes) -> Result<Entry, ReadError>
    ensures { Gives (λ x. (x, input.new)) result (closed_at input.old) }
{
    Ok(Entry::Closed(number64(input)?))
}

#[tactic(auto, unfolding(crate::specs::Reading::entry_rest))]
fn entry_of_kind(alloc: Global, input: &mut Bytes, kind: u8) -> Result<Entry, ReadError>
    ensures { Gives (λ x. (x, input.new)) result (entry_rest kind input.old) }
{
    match kind {
        1 => header(input),
        2 => commits(alloc, input),
        3 => rows(alloc, input),
        5 => sealed(input),
        6 => closed(input),
        _ => Err(ReadError::Misspelled),
    }
}

#[tactic(auto, unfolding(mt_wire::specs::Reading::kind_at))]
fn one_entry(alloc: Global, input: &mut Bytes) -> Result<Entry, ReadError>
    ensures { Gives (λ x. (x, input.new)) result (kind_at entry_rest input.old) }
{
    let kind = byte(input)?;
    entry_of_kind(alloc, input, kind)
}

/// Returns the entry that the content spells. It shares the bytes of its keys with the content.
#[tactic(auto, unfolding(crate::specs::Reading::content_at))]
pub fn read_content(alloc: Global, mut content: Bytes) -> Result<Entry, ReadError>
    ensures { Gives (λ x. x) result (content_at content) }
{
    let entry = one_entry(alloc, &mut content)?;
    if !content.is_empty() {
        return Err(ReadError::Misspelled);
    }
    Ok(entry)
}
