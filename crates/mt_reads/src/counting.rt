//! The count of a range: a walk that copies nothing.

ghost use Rattle.std.specs.Prelude.{◌≡◌, IfErr, IfOk, IfSome, IsSome, MatchOption, Err};
ghost use Rattle.std.specs.Option.{option_copied};
ghost use Rattle.mt_types.specs.Limits.{end_key_fault};
ghost use Rattle.mt_promise.specs.History.{History, moment, rows};
ghost use Rattle.mt_index.specs.Alone.{IsQuiet};
ghost use Rattle.mt_index.specs.Stands.{Stands};
ghost use Rattle.mt_reads.specs.Counts.{count_fault, count_of};

use crate::reading::is_before;
use crate::rows::{Rows, key_of};
use mt_asked::limits::key_fault;
use mt_index::machine::Machine;
use mt_types::key::Key;
use mt_types::refusal::{NoMemory, Refusal};
use std::alloc::Global;

// The limit that the end of a range breaks.
fn end_fault(to: Option<&[u8]>) -> Option<Refusal>
    ensures { result ≡ end_key_fault (option_copied to.entry) }
{
    match to {
        Some(to) => key_fault(to),
        None => None,
    }
}

// Counts the rows from a key on, up to a number.
fn count_rows(
    alloc: Global,
    machine: &Machine,
    from: &Key,
    to: Option<&[u8]>,
    most: u32,
) -> Result<u32, NoMemory>
    requires { IsQuiet machine.now }
    ensures { IfOk result (λ count. (h : History) → Stands machine.now h
        → count ≡ count_of (rows machine.now.columns (moment h)) from.now (option_copied to.entry) most) }
{
    let _stands = machine.is_idle();
    let mut walk = Rows::of(alloc, machine, from)?;
    for count in 0..most {
        let Some(_row) = walk.next()? else {
            return Ok(count);
        };
        if !is_before(walk.key(), to) {
            return Ok(count);
        }
    }
    Ok(most)
}

/// Returns how many rows of a machine have keys from `from` on and before `to`, or before no bound: counted up to `most`.
/// No put, remove or tidy may be open.
///
/// Costs what the steps of a walk ([`Rows`]) cost, one for each row that is counted and one more. Copies the key.
///
/// # Errors
///
/// `KeyTooLong` if `from` or `to` has more than `MAX_KEY_BYTES` bytes; otherwise `NoMemory` if an allocation is refused.
pub fn count(
    alloc: Global,
    machine: &Machine,
    from: &[u8],
    to: Option<&[u8]>,
    most: u32,
) -> Result<u32, Refusal>
    requires { IsQuiet machine.now }
    ensures count { IfOk result (λ count. (h : History) → Stands machine.now h
        → count ≡ count_of (rows machine.now.columns (moment h)) from.now (option_copied to.entry) most) }
    ensures fault { MatchOption (count_fault from.now (option_copied to.entry))
        (IfErr result (λ refusal. refusal ≡ Refusal.NoMemory)) (λ refusal. result ≡ Err refusal) }
{
    if let Some(refusal) = end_fault(to) {
        return Err(key_fault(from).unwrap_or(refusal));
    }
    let from = key_of(alloc, from)?;
    match count_rows(alloc, machine, &from, to, most) {
        Ok(count) => Ok(count),
        Err(_) => Err(Refusal::NoMemory),
    }
}
