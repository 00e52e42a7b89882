//! Walks over the rows of a machine on which no change is under way, in the order of their keys.

ghost use Rattle.std.specs.Prelude.{◌≡◌, ◌<◌, ◌≤◌, ◌↔◌, IfErr, IfOk, IsErr, IsTrue, MatchOption, OnSome, Err, [], false, length};
ghost use Rattle.std.specs.Option.{option_copied};
ghost use Rattle.mt_types.specs.Limits.{key_fault};
ghost use Rattle.mt_types.specs.declared.limits.TheConstants.{MAX_KEY_BYTES};
ghost use Rattle.mt_promise.specs.History.{History, moment, rows};
ghost use Rattle.mt_index.specs.Alone.{IsQuiet};
ghost use Rattle.mt_index.specs.Stands.{Stands};
ghost use Rattle.mt_reads.specs.Walks.{GivesNext, IsFirst, keys_to_come};

use bytes::Bytes;
use mt_asked::limits::key_fault;
use mt_index::machine::Machine;
use mt_slice::key_bytes;
use mt_types::key::Key;
use mt_types::refusal::{NoMemory, Refusal};
use mt_types::row::Row;
use mt_walk::Walk;
use std::alloc::Global;
use std::marker::Model;

/// A walk over the rows of a machine on which no change is under way, from a key on, in the order of their keys. It
/// borrows the machine, and each row is borrowed from it.
///
///     let mut rows = Rows::of(alloc, machine, &start)?;
///     while let Some(row) = rows.next()? {
///         println!(rt; "{} bytes, version {}", rows.key().len(), row.version)?;
///     }
///
/// Contracts see it as the machine, the key at which it is, and whether it has failed. Such a loop ends: how many keys are
/// to come, `keys_to_come`, is less after each row.
#[derive(Drop)]
pub struct Rows<'m> {
    machine: &'m Machine,
    walk: Walk<'m>,
    // Whether an allocation was refused. Then the walk is used no more.
    failed: bool,
}

impl<'m> Model for Rows<'m> {
    ghost use Rattle.std.specs.Coded.{codes};
    ghost use Rattle.mt_scan.specs.CursorCode.{place_code};
    ghost use Rattle.mt_view.specs.StateCode.{state_code};
    ghost use Rattle.mt_reads.specs.Walks.{RowsView, IsWalking, rows_view};

    ghost Value = { RowsView };

    ghost coded = { Prim.hlevel (codes, place_code, state_code) };

    ghost view = { λ r. rows_view r.machine.now r.walk r.failed };

    ghost invariant = { λ r. IsWalking r.failed r.machine.now r.walk };
}

/// Returns the least key: the empty one.
pub(crate) fn least_key() -> Key
    ensures { result ≡ [] }
{
    match Key::new(Bytes::new()) {
        Ok(key) => key,
        Err(_) => unreachable!(),
    }
}

/// Returns the key of these bytes. Copies them.
///
/// # Errors
///
/// `KeyTooLong` if there are more than `MAX_KEY_BYTES` bytes; otherwise `NoMemory` if an allocation is refused.
pub fn key_of(alloc: Global, bytes: &[u8]) -> Result<Key, Refusal>
    ensures key { IfOk result (λ key. key ≡ bytes.now) }
    ensures fault { MatchOption (key_fault bytes.now) (IfErr result (λ refusal. refusal ≡ Refusal.NoMemory))
        (λ refusal. result ≡ Err refusal) }
{
    if let Some(refusal) = key_fault(bytes) {
        return Err(refusal);
    }
    match Bytes::copy_from_slice(alloc, bytes) {
        Ok(bytes) => Key::new(bytes),
        Err(_) => Err(Refusal::NoMemory),
    }
}

// The key of the last row of a walk that has not failed. Copies it.
fn last_key(alloc: Global, walk: &Rows<'_>) -> Result<Key, NoMemory>
    requires { walk.now.failed ≡ false }
    ensures { IfOk result (λ key. key ≡ walk.now.at.key) }
{
    match key_of(alloc, walk.key()) {
        Ok(key) => Ok(key),
        Err(_) => Err(NoMemory),
    }
}

/// Returns the first key of a machine on which no put, remove or tidy is open, or `None` if there are no rows.
///
/// Costs the visit of each node on the way to the key. Copies the key.
///
/// # Errors
///
/// `NoMemory` if an allocation is refused.
pub fn first_of(alloc: Global, machine: &Machine) -> Result<Option<Key>, NoMemory>
    requires { IsQuiet machine.now }
    ensures { IfOk result (λ first. (h : History) → Stands machine.now h
        → IsFirst (rows machine.now.columns (moment h)) first) }
{
    let mut walk = Rows::of(alloc, machine, &least_key())?;
    let Some(_row) = walk.next()? else {
        return Ok(None);
    };
    let key = last_key(alloc, &walk)?;
    Ok(Some(key))
}

impl<'m> Rows<'m> {
    /// Returns a walk over a machine on which no put, remove or tidy is open; gets, ranges and builds may be. It is before
    /// the first row whose key is `start` or after it.
    ///
    /// Costs the visit of each node on the way to the key. Allocates for a copy of the key, and for the walk's path if
    /// the key is in a layer below the first.
    ///
    /// # Errors
    ///
    /// `NoMemory` if an allocation is refused.
    pub fn of(alloc: Global, machine: &'m Machine, start: &Key) -> Result<Rows<'m>, NoMemory>
        requires { IsQuiet machine.now }
        ensures machine { IfOk result (λ walk. walk.machine ≡ machine.now) }
        ensures start { IfOk result (λ walk. walk.at ≡ record { key = start.now; given = false }) }
        ensures whole { IfOk result (λ walk. walk.failed ≡ false) }
    {
        let _stands = machine.is_idle();
        let _bytes = key_bytes(start);
        let walk = Walk::new(alloc, machine.tree(), start)?;
        Ok(Rows {
            machine,
            walk,
            failed: false,
        })
    }

    /// Returns the row of the next key, which [`Rows::key`] then returns, or `None` after the last.
    ///
    ///     while let Some(row) = rows.next()? {
    ///         println!(rt; "{} bytes, version {}", rows.key().len(), row.version)?;
    ///     }
    ///
    /// Costs the visit of a border or two, in turn, and the bytes of the key. Allocates only for a longer key and for
    /// a deeper layer than before.
    ///
    /// # Errors
    ///
    /// `NoMemory` if an allocation is refused. Each further call is then refused too.
    pub fn next(&mut self) -> Result<Option<&'m Row>, NoMemory>
        ensures row { IfOk result (λ row. (h : History) → Stands self.old.machine h
            → GivesNext (rows self.old.machine.columns (moment h)) self.old.at (option_copied row) self.new.at) }
        ensures fewer { IfOk result (λ row. OnSome row (keys_to_come self.new.at < keys_to_come self.old.at)) }
        ensures fails { IsTrue self.new.failed ↔ IsErr result }
        ensures stays { IsTrue self.old.failed → IsErr result }
        ensures machine { self.new.machine ≡ self.old.machine }
    {
        if self.failed {
            return Err(NoMemory);
        }
        match self.walk.next() {
            Ok(row) => Ok(row),
            Err(_) => {
                self.failed = true;
                Err(NoMemory)
            }
        }
    }

    /// Returns the key of the last row, or the key from which the walk began if there was none. Constant cost.
    ///
    ///     if rows.key().starts_with(b"ap") {
    ///         println!(rt; "{} bytes", rows.key().len())?;
    ///     }
    pub fn key(&self) -> &[u8]
        ensures key { result.now ≡ self.now.at.key }
        ensures fits { self.now.failed ≡ false → length result.now ≤ MAX_KEY_BYTES }
    {
        self.walk.key()
    }
}
