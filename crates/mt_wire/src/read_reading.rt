//! Reads of one moment, read from the front of the bytes that are left.

ghost use Rattle.std.specs.Prelude.{◌≡◌};
ghost use Rattle.mt_wire.specs.Reading.{Gives};
ghost use Rattle.mt_wire.specs.ReadReading.{gets_at, range_back_at, count_at, read_rest};

use crate::fault::ReadError;
use crate::query_reading::end;
use crate::read::ReadQuery;
use crate::reading::{Readable, column_numbers, counted16, key, number16, number32};
use bytes::Bytes;
use mt_types::items::Items;
use std::alloc::Global;

impl Readable for Bytes {
    ghost use Rattle.mt_wire.specs.Reading.{key_at};

    ghost reading = { key_at };

    fn read(_alloc: Global, input: &mut Bytes) -> Result<Bytes, ReadError> {
        key(input)
    }
}

#[tactic(auto, unfolding(crate::specs::ReadReading::gets_at))]
fn gets(alloc: Global, input: &mut Bytes) -> Result<ReadQuery, ReadError>
    ensures { Gives (λ x. (x, input.new)) result (gets_at input.old) }
{
    let keys = Items::from_vec(counted16(alloc, input)?);
    let columns = column_numbers(alloc, input)?;
    Ok(ReadQuery::Gets { keys, columns })
}

#[tactic(auto, unfolding(crate::specs::ReadReading::range_back_at))]
fn range_back(alloc: Global, input: &mut Bytes) -> Result<ReadQuery, ReadError>
    ensures { Gives (λ x. (x, input.new)) result (range_back_at input.old) }
{
    let before = end(input)?;
    let limit = number16(input)?;
    let columns = column_numbers(alloc, input)?;
    Ok(ReadQuery::RangeBack {
        before,
        limit,
        columns,
    })
}

#[tactic(auto, unfolding(crate::specs::ReadReading::count_at))]
fn count(input: &mut Bytes) -> Result<ReadQuery, ReadError>
    ensures { Gives (λ x. (x, input.new)) result (count_at input.old) }
{
    let from = key(input)?;
    let to = end(input)?;
    let most = number32(input)?;
    Ok(ReadQuery::Count { from, to, most })
}

/// The read of this kind.
#[tactic(auto, unfolding(crate::specs::ReadReading::read_rest))]
pub fn read_query(alloc: Global, input: &mut Bytes, kind: u8) -> Result<ReadQuery, ReadError>
    ensures { Gives (λ x. (x, input.new)) result (read_rest kind input.old) }
{
    match kind {
        13 => gets(alloc, input),
        14 => range_back(alloc, input),
        15 => count(input),
        _ => Err(ReadError::Misspelled),
    }
}
