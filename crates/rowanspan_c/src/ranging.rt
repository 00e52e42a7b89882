//! The rows of a range, each spelled from the row, which is borrowed from the index. Nothing is allocated for a row.

ghost use Rattle.std.specs.Prelude.{◌≡◌, ◌≤◌, ◌++◌, ℕ, List, OnOk, IfOk, length, drop, false};
ghost use Rattle.std.specs.List.{flat_map};
ghost use Rattle.std.specs.Option.{option_copied};
ghost use Rattle.mt_types.specs.Rows.{shown};
ghost use Rattle.mt_types.specs.declared.row.Row.{Row as RowValue};
ghost use Rattle.rowanspan_c.specs.Questions.{ArePlainRows, ArePlainRowsBack};
ghost use Rattle.rowanspan_c.specs.Spelling.{number_spelling, bytes_spelling, row_spelling, pair_spelling, pairs_spelling};

use crate::placing::NUMBER_BYTES;
use crate::spelling::{bytes, columns, number};
use mt_map::map::Map;
use mt_reads::{Rows, RowsBack};
use mt_types::items::Items;
use mt_types::refusal::NoMemory;
use mt_types::row::Row;
use std::alloc::{AllocError, Global};

/// The most room that is made for the bytes of rows before there are any.
pub(crate) const MOST_ROOM: usize = 1 << 16;

// Writes a key, and its row with the columns that are asked for.
fn pair(out: &mut Vec<u8>, key: &[u8], row: &Row, asked: &[u8]) -> Result<(), AllocError>
    ensures { OnOk result (out.new.items
        ≡ out.old.items ++ (bytes_spelling key.now ++ row_spelling (shown asked.now row.now))) }
{
    bytes(out, key)?;
    number(out, row.version)?;
    columns(out, &row.columns, asked)
}

// A walk from a key on that is not too long.
fn walk_from<'m>(index: &'m Map, start: &[u8]) -> Result<Rows<'m>, NoMemory>
    ensures machine { IfOk result (λ walk. walk.machine ≡ index.now.machine) }
    ensures start { IfOk result (λ walk. walk.at ≡ record { key = start.now; given = false }) }
{
    match index.walk(start) {
        Ok(walk) => Ok(walk),
        Err(_) => Err(NoMemory),
    }
}

// Writes the first rows whose keys are at or after `start`, at most `limit`, and returns how many there are.
fn pairs(
    index: &Map,
    start: &[u8],
    limit: u16,
    asked: &[u8],
    out: &mut Vec<u8>,
) -> Result<u16, NoMemory>
    ensures { IfOk result (λ many. (pairs : List (List ℕ × RowValue))
        × ArePlainRows index.now.machine start.now limit asked.now pairs × (length pairs ≡ many)
        × (out.new.items ≡ out.old.items ++ flat_map pair_spelling pairs)) }
{
    let mut walk = walk_from(index, start)?;
    for many in 0..limit {
        let Some(row) = walk.next()? else {
            return Ok(many);
        };
        pair(out, walk.key(), row, asked)?;
    }
    Ok(limit)
}

// A walk back from a bound that is not too long, or from the end.
fn walk_back_from<'m>(index: &'m Map, before: Option<&[u8]>) -> Result<RowsBack<'m>, NoMemory>
    ensures machine { IfOk result (λ walk. walk.machine ≡ index.now.machine) }
    ensures before { IfOk result (λ walk. walk.before ≡ option_copied before.entry) }
{
    match index.walk_back(before) {
        Ok(walk) => Ok(walk),
        Err(_) => Err(NoMemory),
    }
}

// Writes the last rows whose keys are before a bound, at most `limit`, and returns how many there are.
fn pairs_back(
    index: &Map,
    before: Option<&[u8]>,
    limit: u16,
    asked: &[u8],
    out: &mut Vec<u8>,
) -> Result<u16, NoMemory>
    ensures { IfOk result (λ many. (pairs : List (List ℕ × RowValue))
        × ArePlainRowsBack index.now.machine (option_copied before.entry) limit asked.now pairs × (length pairs ≡ many)
        × (out.new.items ≡ out.old.items ++ flat_map pair_spelling pairs)) }
{
    let mut walk = walk_back_from(index, before)?;
    for many in 0..limit {
        let Some(row) = walk.next()? else {
            return Ok(many);
        };
        pair(out, walk.key(), row, asked)?;
    }
    Ok(limit)
}

// Writes a number over the first bytes.
fn put_number(out: &mut Vec<u8>, number: u64)
    requires { NUMBER_BYTES ≤ length out.old.items }
    ensures { out.new.items ≡ number_spelling number ++ drop NUMBER_BYTES out.old.items }
{
    let (front, _rest) = out.as_mut_slice().split_at_mut(NUMBER_BYTES);
    front.copy_from_slice(&number.to_be_bytes());
}

/// Returns the bytes of the first rows whose keys are at or after `start`, at most `limit`, with the columns that are
/// asked for, or with all if none is asked for.
///
/// Costs the visit of the nodes on the way to `start`, and of each border from there on. Allocates for the walk, and
/// for the bytes: `room` at first, but at most 64 KiB, and twice as much when that is full.
///
/// # Errors
///
/// `NoMemory` if an allocation is refused, or if the key is too long, for which its caller tests.
pub(crate) fn range_bytes(
    alloc: Global,
    index: &Map,
    start: &[u8],
    limit: u16,
    asked: &[u8],
    room: usize,
) -> Result<Items<u8>, NoMemory>
    ensures { IfOk result (λ bytes. (pairs : List (List ℕ × RowValue))
        × ArePlainRows index.now.machine start.now limit asked.now pairs × (bytes ≡ pairs_spelling pairs)) }
{
    let mut out = Vec::with_capacity(alloc, room.min(MOST_ROOM))?;
    // How many rows there are is known at their end.
    number(&mut out, 0)?;
    let many = pairs(index, start, limit, asked, &mut out)?;
    put_number(&mut out, u64::from(many));
    Ok(Items::from_vec(out))
}

/// Returns the bytes of the last rows whose keys are before a bound, or of the last of all, the greatest key first, at
/// most `limit`, with the columns that are asked for, or with all if none is asked for.
///
/// Costs what the steps of a `RowsBack` cost. Allocates for them, and for the bytes as [`range_bytes`] does.
///
/// # Errors
///
/// `NoMemory` if an allocation is refused, or if the bound is too long, for which its caller tests.
pub(crate) fn range_back_bytes(
    alloc: Global,
    index: &Map,
    before: Option<&[u8]>,
    limit: u16,
    asked: &[u8],
    room: usize,
) -> Result<Items<u8>, NoMemory>
    ensures { IfOk result (λ bytes. (pairs : List (List ℕ × RowValue))
        × ArePlainRowsBack index.now.machine (option_copied before.entry) limit asked.now pairs
        × (bytes ≡ pairs_spelling pairs)) }
{
    let mut out = Vec::with_capacity(alloc, room.min(MOST_ROOM))?;
    number(&mut out, 0)?;
    let many = pairs_back(index, before, limit, asked, &mut out)?;
    put_number(&mut out, u64::from(many));
    Ok(Items::from_vec(out))
}
