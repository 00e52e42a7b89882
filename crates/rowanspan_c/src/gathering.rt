//! The rows of many keys, each spelled from the row, which is borrowed from the index. Nothing is allocated for a row.

ghost use Rattle.std.specs.Prelude.{◌≡◌, ◌++◌, nat_lt, OnOk, IfOk, length};
ghost use Rattle.std.specs.List.{flat_map, list_any};
ghost use Rattle.std.specs.FinMap.{get};
ghost use Rattle.std.specs.Option.{option_copied, option_map};
ghost use Rattle.mt_types.specs.Limits.{refused_if};
ghost use Rattle.mt_types.specs.Rows.{shown};
ghost use Rattle.mt_types.specs.declared.limits.TheConstants.{MAX_KEY_BYTES, MAX_RANGE};
ghost use Rattle.mt_promise.specs.History.{History, moment, rows};
ghost use Rattle.mt_index.specs.Stands.{Stands};
ghost use Rattle.mt_reads.specs.Counts.{gets_fault, rows_of};
ghost use Rattle.rowanspan_c.specs.Keys.{keys_of};
ghost use Rattle.rowanspan_c.specs.Spelling.{maybe_spelling, found_spelling};

use crate::ranging::MOST_ROOM;
use crate::spelling::{columns, number};
use mt_map::map::Map;
use mt_types::items::Items;
use mt_types::limits::{MAX_KEY_BYTES, MAX_RANGE, columns_fault};
use mt_types::refusal::{NoMemory, Refusal};
use mt_types::row::Row;
use std::alloc::{AllocError, Global};

/// One of the keys that a call is passed.
#[repr(C)]
#[derive(Clone, Copy)]
pub struct BorrowedKey<'a> {
    pub bytes: &'a [u8],
}

fn has_long_key(keys: &[BorrowedKey<'_>]) -> bool
    ensures { result ≡ list_any (λ key. nat_lt MAX_KEY_BYTES (length key)) (keys_of keys.now) }
{
    for key in keys {
        if key.bytes.len() > MAX_KEY_BYTES {
            return true;
        }
    }
    false
}

fn number_fault(keys: &[BorrowedKey<'_>]) -> Option<Refusal>
    ensures { result ≡ refused_if (nat_lt MAX_RANGE (length (keys_of keys.now))) Refusal.BadLimit }
{
    (keys.len() > usize::from(MAX_RANGE)).then_some(Refusal::BadLimit)
}

/// Returns the first limit that gets of many keys break in an index of `columns` columns, if they break one: that of
/// keys, then that of the columns that are asked for, then that of their number.
pub(crate) fn gets_fault(columns: u8, keys: &[BorrowedKey<'_>], asked: &[u8]) -> Option<Refusal>
    ensures { result ≡ gets_fault columns (keys_of keys.now) asked.now }
{
    if has_long_key(keys) {
        return Some(Refusal::KeyTooLong);
    }
    if let Some(refusal) = columns_fault(columns, asked) {
        return Some(refusal);
    }
    number_fault(keys)
}

// The row of a key that is not too long.
fn row_of<'m>(index: &'m Map, key: &[u8]) -> Result<Option<&'m Row>, NoMemory>
    ensures { IfOk result (λ row. (h : History) → Stands index.now.machine h
        → option_copied row ≡ get (rows index.now.machine.columns (moment h)) key.now) }
{
    match index.get(key) {
        Ok(row) => Ok(row),
        Err(_) => Err(NoMemory),
    }
}

// Writes a row with the columns that are asked for, if there is one.
fn maybe(out: &mut Vec<u8>, row: Option<&Row>, asked: &[u8]) -> Result<(), AllocError>
    ensures { OnOk result (out.new.items
        ≡ out.old.items ++ maybe_spelling (option_map (shown asked.now) (option_copied row.entry))) }
{
    let Some(row) = row else {
        return number(out, 0);
    };
    number(out, 1)?;
    number(out, row.version)?;
    columns(out, &row.columns, asked)
}

// Writes the row of each key, if it has one.
fn each(
    out: &mut Vec<u8>,
    index: &Map,
    keys: &[BorrowedKey<'_>],
    asked: &[u8],
) -> Result<(), NoMemory>
    ensures { OnOk result ((h : History) → Stands index.now.machine h
        → out.new.items ≡ out.old.items ++ flat_map maybe_spelling
        (rows_of (rows index.now.machine.columns (moment h)) asked.now (keys_of keys.now))) }
{
    for key in keys {
        maybe(out, row_of(index, key.bytes)?, asked)?;
    }
    Ok(())
}

/// Returns the bytes of the row of each key, or of none if it has none, in the order of the keys, with the columns that
/// are asked for, or with all if none is asked for.
///
/// Costs what `Map::get` costs for each key. Allocates for the bytes: `room` at first, but at most 64 KiB, and twice as
/// much when that is full.
///
/// # Errors
///
/// `NoMemory` if an allocation is refused, or if a key is too long, for which its caller tests.
pub(crate) fn found_bytes(
    alloc: Global,
    index: &Map,
    keys: &[BorrowedKey<'_>],
    asked: &[u8],
    room: usize,
) -> Result<Items<u8>, NoMemory>
    ensures { IfOk result (λ bytes. (h : History) → Stands index.now.machine h
        → bytes ≡ found_spelling (rows_of (rows index.now.machine.columns (moment h)) asked.now (keys_of keys.now))) }
{
    let mut out = Vec::with_capacity(alloc, room.min(MOST_ROOM))?;
    number(&mut out, keys.len() as u64)?;
    each(&mut out, index, keys, asked)?;
    Ok(Items::from_vec(out))
}
