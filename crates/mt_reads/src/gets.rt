//! The rows of many keys, all of one moment.

ghost use Rattle.std.specs.Prelude.{◌≡◌, ◌≤◌, nat_lt, All, IfErr, IfOk, MatchOption, Err, length};
ghost use Rattle.std.specs.FinMap.{get};
ghost use Rattle.std.specs.List.{list_any};
ghost use Rattle.std.specs.Option.{option_map};
ghost use Rattle.mt_types.specs.Limited.{FoundAreLimited};
ghost use Rattle.mt_types.specs.Rows.{shown};
ghost use Rattle.mt_types.specs.declared.limits.TheConstants.{MAX_KEY_BYTES};
ghost use Rattle.mt_promise.specs.History.{History, moment, rows};
ghost use Rattle.mt_index.specs.Alone.{IsQuiet};
ghost use Rattle.mt_index.specs.Stands.{Stands};
ghost use Rattle.mt_reads.specs.Counts.{gets_fault, rows_of};

use bytes::Bytes;
use mt_asked::asked::numbers_of;
use mt_index::machine::Machine;
use mt_types::columns::shown;
use mt_types::items::Items;
use mt_types::limits::{MAX_KEY_BYTES, MAX_RANGE, columns_fault};
use mt_types::refusal::{NoMemory, Refusal};
use mt_types::row::{ColumnNumbers, Row};
use std::alloc::Global;

fn has_long_key(keys: &[Bytes]) -> bool
    ensures { result ≡ list_any (λ key. nat_lt MAX_KEY_BYTES (length key)) keys.now }
{
    for key in keys {
        if key.len() > MAX_KEY_BYTES {
            return true;
        }
    }
    false
}

fn gets_fault(columns: u8, keys: &[Bytes], asked: &[u8]) -> Option<Refusal>
    ensures { result ≡ gets_fault columns keys.now asked.now }
{
    has_long_key(keys)
        .then_some(Refusal::KeyTooLong)
        .or_else(|| columns_fault(columns, asked))
        .or_else(|| (keys.len() > usize::from(MAX_RANGE)).then_some(Refusal::BadLimit))
}

// Returns the row of a key, as it is shown.
fn get(
    alloc: Global,
    machine: &Machine,
    key: &Bytes,
    columns: &ColumnNumbers,
) -> Result<Option<Row>, NoMemory>
    requires quiet { IsQuiet machine.now }
    requires fits { length key.now ≤ MAX_KEY_BYTES }
    ensures { IfOk result (λ row. (h : History) → Stands machine.now h
        → row ≡ option_map (shown columns.now) (get (rows machine.now.columns (moment h)) key.now)) }
{
    match machine.row(key.as_slice()) {
        Some(row) => Ok(Some(shown(alloc, columns, row)?)),
        None => Ok(None),
    }
}

// Returns the rows of keys that are not too long.
fn read_each(
    alloc: Global,
    machine: &Machine,
    keys: &[Bytes],
    columns: &ColumnNumbers,
) -> Result<Vec<Option<Row>>, NoMemory>
    requires quiet { IsQuiet machine.now }
    requires fit { All (λ key. length key ≤ MAX_KEY_BYTES) keys.now }
    ensures { IfOk result (λ found. (h : History) → Stands machine.now h
        → found.items ≡ rows_of (rows machine.now.columns (moment h)) columns.now keys.now) }
{
    let mut found = Vec::with_capacity(alloc, keys.len())?;
    for key in keys {
        found.push(get(alloc, machine, key, columns)?)?;
    }
    Ok(found)
}

/// Returns the row of each key, or `None` if it has none, in the order of the keys. Each row has the columns that are asked
/// for, or all if none is asked for. No put, remove or tidy may be open.
///
/// Costs what `Machine::row` costs for each key. Allocates for the list and for each row, and shares the bytes of columns.
///
/// # Errors
///
/// `KeyTooLong` if a key has more than `MAX_KEY_BYTES` bytes; `BadColumn` if a column does not exist or is named twice;
/// `BadLimit` if there are more than `MAX_RANGE` keys; `NoMemory` if an allocation is refused. The first of these that
/// applies.
pub fn get_many(
    alloc: Global,
    machine: &Machine,
    keys: &[Bytes],
    columns: &[u8],
) -> Result<Items<Option<Row>>, Refusal>
    requires { IsQuiet machine.now }
    ensures rows { IfOk result (λ found. (h : History) → Stands machine.now h
        → found ≡ rows_of (rows machine.now.columns (moment h)) columns.now keys.now) }
    ensures fault { MatchOption (gets_fault machine.now.columns keys.now columns.now)
        (IfErr result (λ refusal. refusal ≡ Refusal.NoMemory)) (λ refusal. result ≡ Err refusal) }
    ensures limited { IfOk result FoundAreLimited }
{
    let _stands = machine.is_idle();
    if let Some(refusal) = gets_fault(machine.columns(), keys, columns) {
        return Err(refusal);
    }
    let columns = numbers_of(alloc, columns)?;
    Ok(Items::from_vec(read_each(alloc, machine, keys, &columns)?))
}
