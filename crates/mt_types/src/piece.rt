//! One column among the bytes of a row: its length, and then its bytes.

ghost use Rattle.std.specs.Prelude.{◌≡◌, ◌<◌, ◌++◌, ◌∷◌, length, take, drop, slice_index, nat_lt, OnOk};
ghost use Rattle.std.specs.List.{list_any};
ghost use Rattle.mt_types.specs.Packed.{are_packable};
ghost use Rattle.mt_types.specs.Rows.{new_bytes};

use crate::block::Making;
use crate::refusal::NoMemory;
use crate::row::Column;

/// The most columns of a row, and the most bytes of a column, since each number is one byte.
pub(crate) const MAX_PIECE: usize = 255;

fn has_long_part(columns: &[Column]) -> bool
    ensures { result ≡ list_any (λ column. nat_lt 255 (length column)) columns.now }
{
    for column in columns {
        if column.len() > MAX_PIECE {
            return true;
        }
    }
    false
}

// Whether the number of columns, and the number of bytes of each, is a byte.
pub(crate) fn are_packable(columns: &[Column]) -> bool
    ensures { result ≡ are_packable columns.now }
{
    columns.len() <= MAX_PIECE && !has_long_part(columns)
}

// The first column, and the pieces of the others.
pub(crate) fn split_first(pieces: &[u8]) -> (&[u8], &[u8])
    requires some { 0 < length pieces.now }
    requires fits { slice_index pieces.now 0 < length pieces.now }
    ensures front { result.0.now ≡ take (slice_index pieces.now 0) (drop 1 pieces.now) }
    ensures back { result.1.now ≡ drop (slice_index pieces.now 0) (drop 1 pieces.now) }
{
    let (_, rest) = pieces.split_at(1);
    rest.split_at(pieces[0] as usize)
}

// Adds a column. It is refused if its length is not a byte.
pub(crate) fn push_piece(pieces: &mut Making, column: &[u8]) -> Result<(), NoMemory>
    ensures { OnOk result (pieces.new ≡ pieces.old ++ length column.now ∷ column.now) }
{
    if column.len() > MAX_PIECE {
        return Err(NoMemory);
    }
    pieces.push(column.len() as u8)?;
    pieces.extend(column)?;
    Ok(())
}

// The bytes that sets name for a column, or the old ones. O(n) in the sets.
pub(crate) fn new_bytes<'a>(sets: &'a [(u8, Column)], number: u8, old: &'a [u8]) -> &'a [u8]
    ensures { result.now ≡ new_bytes sets.now number old.now }
{
    for set in sets {
        if set.0 == number {
            return set.1.as_slice();
        }
    }
    old
}
