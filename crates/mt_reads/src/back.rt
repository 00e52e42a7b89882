//! Walks over the rows of a machine on which no change is under way, against the order of their keys.

ghost use Rattle.std.specs.Prelude.{◌≡◌, ◌≤◌, ◌<◌, ◌+◌, ◌↔◌, IfErr, IfOk, IfSome, IsSomeAnd, IsErr, IsTrue, None, OnSome, [], false, length};
ghost use Rattle.std.specs.Option.{option_copied};
ghost use Rattle.mt_types.specs.declared.limits.TheConstants.{MAX_KEY_BYTES};
ghost use Rattle.mt_promise.specs.History.{History, moment, rows};
ghost use Rattle.mt_index.specs.Alone.{IsQuiet};
ghost use Rattle.mt_index.specs.Stands.{Stands};
ghost use Rattle.mt_reads.specs.Back.{GivesPrevious, keys_before};

use crate::reading::Reading;
use mt_index::machine::Machine;
use mt_types::refusal::NoMemory;
use mt_types::row::Row;
use std::alloc::Global;
use std::marker::Model;

/// A walk over the rows of a machine on which no change is under way, from a bound back, against the order of their keys.
/// It borrows the machine, and each row is borrowed from it.
///
///     let mut rows = RowsBack::of(alloc, machine, None)?;
///     while let Some(row) = rows.next()? {
///         println!(rt; "{} bytes, version {}", rows.key().len(), row.version)?;
///     }
///
/// Contracts see it as the machine, the bound before which it is, and whether it has failed. Such a loop ends: how many
/// keys are to come, `keys_before`, is less after each row.
#[derive(Drop)]
pub struct RowsBack<'m> {
    reading: Reading<'m>,
    // Whether an allocation was refused. Then the walk is used no more.
    failed: bool,
}

impl<'m> Model for RowsBack<'m> {
    ghost use Rattle.std.specs.Coded.{codes};
    ghost use Rattle.mt_scan.specs.CursorCode.{place_code};
    ghost use Rattle.mt_view.specs.StateCode.{state_code};
    ghost use Rattle.mt_reads.specs.Back.{BackView, bound_of};
    ghost use Rattle.mt_reads.specs.Reading.{IsBack};

    ghost Value = { BackView };

    ghost coded = { Prim.hlevel (codes, place_code, state_code) };

    ghost view = { λ r. record {
      machine = r.reading.machine.now;
      before = bound_of r.reading.is_bounded r.reading.key.items;
      failed = r.failed;
    } };

    ghost invariant = { λ r. IsBack r.failed r.reading };
}

impl<'m> RowsBack<'m> {
    /// Returns a walk over a machine on which no put, remove or tidy is open; gets, ranges and builds may be. It is before
    /// the last row whose key is before `before`, or before the last row of all.
    ///
    /// Copies the bound, which has at most `MAX_KEY_BYTES` + 1 bytes.
    ///
    /// # Errors
    ///
    /// `NoMemory` if an allocation is refused.
    pub fn of(
        alloc: Global,
        machine: &'m Machine,
        before: Option<&[u8]>,
    ) -> Result<RowsBack<'m>, NoMemory>
        requires quiet { IsQuiet machine.now }
        requires fits { IfSome (option_copied before) (λ key. length key ≤ MAX_KEY_BYTES + 1) }
        ensures machine { IfOk result (λ walk. walk.machine ≡ machine.now) }
        ensures before { IfOk result (λ walk. walk.before ≡ option_copied before.entry) }
        ensures whole { IfOk result (λ walk. walk.failed ≡ false) }
    {
        Ok(RowsBack {
            reading: Reading::new(alloc, machine, before)?,
            failed: false,
        })
    }

    /// Returns the row of the key before, which [`RowsBack::key`] then returns, or `None` after the first.
    ///
    ///     while let Some(row) = rows.next()? {
    ///         println!(rt; "{} bytes, version {}", rows.key().len(), row.version)?;
    ///     }
    ///
    /// Costs the bytes of the key, and for each border of rows two visits of the nodes on the way to it, and a few
    /// allocations.
    ///
    /// # Errors
    ///
    /// `NoMemory` if an allocation is refused. Each further call is then refused too.
    pub fn next(&mut self) -> Result<Option<&'m Row>, NoMemory>
        ensures row { IfOk result (λ row. (h : History) → Stands self.old.machine h
            → GivesPrevious (rows self.old.machine.columns (moment h)) self.old.before (option_copied row)
            self.new.before) }
        ensures fewer { IfOk result (λ row. OnSome row (keys_before self.new.before < keys_before self.old.before)) }
        ensures fits { IfOk result (λ row. OnSome row (IsSomeAnd self.new.before (λ key. length key ≤ MAX_KEY_BYTES))) }
        ensures fails { IsTrue self.new.failed ↔ IsErr result }
        ensures stays { IsTrue self.old.failed → IsErr result }
        ensures machine { self.new.machine ≡ self.old.machine }
    {
        if self.failed {
            return Err(NoMemory);
        }
        match self.reading.next() {
            Ok(row) => Ok(row),
            Err(_) => {
                self.failed = true;
                Err(NoMemory)
            }
        }
    }

    /// Returns the key of the last row that was returned. Before the first it is the bound, or empty if there is none.
    /// Constant cost.
    ///
    ///     if rows.key().starts_with(b"ap") {
    ///         println!(rt; "{} bytes", rows.key().len())?;
    ///     }
    pub fn key(&self) -> &[u8]
        ensures key { IfSome self.now.before (λ key. result.now ≡ key) }
        ensures none { self.now.failed ≡ false → self.now.before ≡ None → result.now ≡ [] }
    {
        self.reading.key.as_slice()
    }
}
