//! The last key, and a range against the order of keys: a walk back with a limit.

ghost use Rattle.std.specs.Prelude.{◌≡◌, ◌≤◌, ◌+◌, IfErr, IfOk, IfSome, MatchOption, Err, length};
ghost use Rattle.std.specs.List.{AllByRecursion};
ghost use Rattle.std.specs.Option.{option_copied};
ghost use Rattle.mt_types.specs.Limited.{PairsAreLimited};
ghost use Rattle.mt_types.specs.declared.limits.TheConstants.{MAX_KEY_BYTES};
ghost use Rattle.mt_promise.specs.History.{History, moment, rows};
ghost use Rattle.mt_index.specs.Alone.{IsQuiet};
ghost use Rattle.mt_index.specs.Stands.{Stands};
ghost use Rattle.mt_reads.specs.Ranges.{IsLast, IsRangeBack, back_fault};

use crate::back::RowsBack;
use crate::rows::key_of;
use mt_asked::asked::numbers_of;
use mt_asked::limits::range_fault;
use mt_index::machine::Machine;
use mt_types::key::Key;
use mt_types::refusal::{NoMemory, Refusal};
use mt_types::row::{ColumnNumbers, Pairs};
use mt_walk::pairs_of;
use std::alloc::Global;

/// Returns the last key of a machine on which no put, remove or tidy is open, or `None` if there are no rows.
///
/// Costs the visits of the nodes on the way to the key, and reads the rows of its border. Copies the key.
///
/// # Errors
///
/// `NoMemory` if an allocation is refused.
pub fn last_of(alloc: Global, machine: &Machine) -> Result<Option<Key>, NoMemory>
    requires { IsQuiet machine.now }
    ensures { IfOk result (λ last. (h : History) → Stands machine.now h
        → IsLast (rows machine.now.columns (moment h)) last) }
{
    let mut walk = RowsBack::of(alloc, machine, None)?;
    let Some(_row) = walk.next()? else {
        return Ok(None);
    };
    match key_of(alloc, walk.key()) {
        Ok(key) => Ok(Some(key)),
        Err(_) => Err(NoMemory),
    }
}

// For how many keys a range makes room at its begin, at most, and how many bytes for each.
const ROOM_KEYS: u16 = 128;

const ROOM_BYTES: usize = 16;

/// Returns the last pairs of a machine whose keys are before a bound, or the last of all, at most `limit`, the greatest key
/// first. Each has the columns that are asked for, or all if none is asked for. No put, remove or tidy may be open.
///
/// Costs what the steps of a [`RowsBack`] cost. Allocates for the list of the pairs and the one that it is made from, for
/// the row of each pair, and one block that the keys share. Shares the bytes of the columns.
///
/// # Errors
///
/// `NoMemory` if an allocation is refused.
pub fn range_back(
    alloc: Global,
    machine: &Machine,
    before: Option<&[u8]>,
    limit: u16,
    columns: &ColumnNumbers,
) -> Result<Pairs, NoMemory>
    requires quiet { IsQuiet machine.now }
    requires fits { IfSome (option_copied before) (λ key. length key ≤ MAX_KEY_BYTES + 1) }
    ensures pairs { IfOk result (λ pairs. (h : History) → Stands machine.now h
        → IsRangeBack (rows machine.now.columns (moment h)) columns.now (option_copied before.entry) limit pairs) }
    ensures short { IfOk result (AllByRecursion (λ pair. length pair.0 ≤ MAX_KEY_BYTES)) }
{
    let mut walk = RowsBack::of(alloc, machine, before)?;
    let room = usize::from(limit.min(ROOM_KEYS));
    let mut keys = Vec::with_capacity(alloc, ROOM_BYTES * room)?;
    let mut rows = Vec::with_capacity(alloc, room)?;
    for _ in 0..limit {
        let Some(row) = walk.next()? else {
            break;
        };
        keys.extend_from_slice(walk.key())?;
        rows.push((keys.len(), row))?;
    }
    pairs_of(alloc, keys, rows.as_slice(), columns)
}

/// Returns what [`range_back`] returns, for columns in borrowed bytes, after the limits are tested.
///
/// # Errors
///
/// `KeyTooLong` if `before` has more than `MAX_KEY_BYTES` bytes; `BadColumn` if a column does not exist or is named twice;
/// `BadLimit` if `limit` is 0 or more than `MAX_RANGE`; `NoMemory` if an allocation is refused. The first of these that
/// applies.
pub fn pairs_back(
    alloc: Global,
    machine: &Machine,
    before: Option<&[u8]>,
    limit: u16,
    columns: &[u8],
) -> Result<Pairs, Refusal>
    requires quiet { IsQuiet machine.now }
    ensures pairs { IfOk result (λ pairs. (h : History) → Stands machine.now h
        → IsRangeBack (rows machine.now.columns (moment h)) columns.now (option_copied before.entry) limit pairs) }
    ensures fault { MatchOption (back_fault machine.now.columns (option_copied before.entry) limit columns.now)
        (IfErr result (λ refusal. refusal ≡ Refusal.NoMemory)) (λ refusal. result ≡ Err refusal) }
    ensures limited { IfOk result PairsAreLimited }
{
    let _stands = machine.is_idle();
    let key = before.unwrap_or(b"");
    if let Some(refusal) = range_fault(machine.columns(), key, limit, columns) {
        return Err(refusal);
    }
    let columns = numbers_of(alloc, columns)?;
    match range_back(alloc, machine, before, limit, &columns) {
        Ok(pairs) => Ok(pairs),
        Err(_) => Err(Refusal::NoMemory),
    }
}
