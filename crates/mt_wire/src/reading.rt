//! The fields of messages, read from the front of the bytes that are left.

ghost use Rattle.std.specs.Prelude.{◌≡◌};
ghost use Rattle.std.specs.Int.{w16, w32, w64};
ghost use Rattle.mt_wire.specs.Reading.{Gives, Reader, byte_at, number_at, bytes_at, key_at, short_at, times_at, counted_at, counted16_at};

use crate::fault::ReadError;
use bytes::{Buf, Bytes};
use mt_types::items::Items;
use mt_types::row::ColumnNumbers;
use std::alloc::Global;

/// A value that can be read from the front of bytes.
pub trait Readable: Sized {
    ghost reading: { Reader Self };

    /// Takes a value from the front of `input`. On an error the bytes that are left are of no further use.
    fn read(alloc: Global, input: &mut Bytes) -> Result<Self, ReadError>
        ensures { Gives (λ x. (x, input.new)) result (reading input.old) };
}

#[tactic(auto, unfolding(crate::specs::Reading::byte_at))]
pub fn byte(input: &mut Bytes) -> Result<u8, ReadError>
    ensures { Gives (λ x. (x, input.new)) result (byte_at input.old) }
{
    Ok(input.try_get_u8()?)
}

#[tactic(auto, unfolding(crate::specs::Reading::number_at))]
pub fn number16(input: &mut Bytes) -> Result<u16, ReadError>
    ensures { Gives (λ x. (x, input.new)) result (number_at w16 input.old) }
{
    Ok(input.try_get_u16()?)
}

#[tactic(auto, unfolding(crate::specs::Reading::number_at))]
pub fn number32(input: &mut Bytes) -> Result<u32, ReadError>
    ensures { Gives (λ x. (x, input.new)) result (number_at w32 input.old) }
{
    Ok(input.try_get_u32()?)
}

#[tactic(auto, unfolding(crate::specs::Reading::number_at))]
pub fn number64(input: &mut Bytes) -> Result<u64, ReadError>
    ensures { Gives (λ x. (x, input.new)) result (number_at w64 input.old) }
{
    Ok(input.try_get_u64()?)
}

// As many bytes, shared.
#[tactic(auto, unfolding(crate::specs::Reading::bytes_at))]
fn run_of(input: &mut Bytes, count: usize) -> Result<Bytes, ReadError>
    ensures { Gives (λ x. (x, input.new)) result (bytes_at count input.old) }
{
    if input.len() < count {
        return Err(ReadError::Misspelled);
    }
    Ok(input.split_to(count)?)
}

#[tactic(auto, unfolding(crate::specs::Reading::key_at))]
pub fn key(input: &mut Bytes) -> Result<Bytes, ReadError>
    ensures { Gives (λ x. (x, input.new)) result (key_at input.old) }
{
    let count = number16(input)?;
    run_of(input, usize::from(count))
}

#[tactic(auto, unfolding(crate::specs::Reading::short_at))]
pub fn short(input: &mut Bytes) -> Result<Bytes, ReadError>
    ensures { Gives (λ x. (x, input.new)) result (short_at input.old) }
{
    let count = byte(input)?;
    run_of(input, usize::from(count))
}

pub fn column_numbers(alloc: Global, input: &mut Bytes) -> Result<ColumnNumbers, ReadError>
    ensures { Gives (λ x. (x, input.new)) result (short_at input.old) }
{
    let numbers = short(input)?;
    Ok(Items::from_vec(Vec::from_slice(alloc, numbers.as_slice())?))
}

// As many items.
pub fn items<T: Readable + Drop>(
    alloc: Global,
    input: &mut Bytes,
    count: usize,
) -> Result<Vec<T>, ReadError>
    ensures { Gives (λ x. (x.items, input.new)) result (times_at T.reading count input.old) }
{
    let mut items = Vec::new(alloc);
    for _ in 0..count {
        items.push(T::read(alloc, input)?)?;
    }
    Ok(items)
}

#[tactic(auto, unfolding(crate::specs::Reading::counted_at))]
pub fn counted<T: Readable + Drop>(alloc: Global, input: &mut Bytes) -> Result<Vec<T>, ReadError>
    ensures { Gives (λ x. (x.items, input.new)) result (counted_at T.reading input.old) }
{
    let count = byte(input)?;
    items(alloc, input, usize::from(count))
}

#[tactic(auto, unfolding(crate::specs::Reading::counted16_at))]
pub fn counted16<T: Readable + Drop>(alloc: Global, input: &mut Bytes) -> Result<Vec<T>, ReadError>
    ensures { Gives (λ x. (x.items, input.new)) result (counted16_at T.reading input.old) }
{
    let count = number16(input)?;
    items(alloc, input, usize::from(count))
}
