//! A map that many threads share: one lock around the machine and the counters of its passes. Reads share the lock.

ghost use Rattle.std.specs.Prelude.{◌≡◌, ◌⊎◌, true, false, IfOk, IfErr, All, length};
ghost use Rattle.mt_shared.specs.Passes.{AreNewPasses, HasItsPart, events_by, commits_by};
ghost use Rattle.mt_shared.specs.Traces.{IsLegalTrace, HaveHappened};
ghost use Rattle.mt_shared.specs.Inner.{IsInner, IsRefusedBy, start_fault};

use crate::inner::Inner;
use crate::pass::Pass;
use crate::settling::Totals;
use crate::trace::Entry;
use crate::turn::Turn;
use mt_index::options::Options;
use mt_types::limits::{open_fault, passes_fault};
use mt_types::refusal::Refusal;
use std::alloc::Global;
use std::marker::Model;
use std::sync::RwLock;

/// An ordered map that many threads share: each has a pass, and a [`crate::client::Client`] over a
/// [`crate::door::Door`]. Contracts see it as the number of its columns.
pub struct SharedMap {
    pub(crate) columns: u8,
    // (a thread takes the turn before it asks for the lock alone)
    pub(crate) turn: Turn,
    pub(crate) kept: RwLock<Inner>,
}

impl Model for SharedMap {
    ghost use Rattle.std.specs.Prelude.{ℕ};

    ghost Value = { ℕ };

    ghost view = { λ i. i.columns };
}

// Written out so that its proof is made here only, and not again in each crate above.
impl Drop for SharedMap {
    fn drop(self) {
        let SharedMap {
            columns: _,
            turn: _,
            kept: _,
        } = self;
    }
}

impl SharedMap {
    /// Opens an empty index, and returns it with `passes` passes, numbered from 1. O(n) in the passes.
    ///
    /// # Errors
    ///
    /// Those of `Machine::open`; `BadLimit` unless `passes` is from 1 to `MAX_PASSES`.
    pub fn start(
        alloc: Global,
        options: Options,
        passes: u64,
    ) -> Result<(SharedMap, Vec<Pass>), Refusal>
        ensures columns { IfOk result (λ r. r.0 ≡ options.columns) }
        ensures passes { IfOk result (λ r. AreNewPasses false passes r.1.items) }
        ensures fault { IsRefusedBy (start_fault options passes) result }
    {
        SharedMap::open(alloc, options, passes, false)
    }

    /// Does what [`SharedMap::start`] does, and keeps a trace: a copy of each event and of its outcome is kept under the
    /// lock and in its pass, for [`SharedMap::close_record`]. If memory for a copy is refused, the trace is lost, and calls
    /// still work.
    ///
    /// # Errors
    ///
    /// Those of [`SharedMap::start`].
    pub fn record(
        alloc: Global,
        options: Options,
        passes: u64,
    ) -> Result<(SharedMap, Vec<Pass>), Refusal>
        ensures columns { IfOk result (λ r. r.0 ≡ options.columns) }
        ensures passes { IfOk result (λ r. AreNewPasses true passes r.1.items) }
        ensures fault { IsRefusedBy (start_fault options passes) result }
    {
        SharedMap::open(alloc, options, passes, true)
    }

    fn open(
        alloc: Global,
        options: Options,
        passes: u64,
        traced: bool,
    ) -> Result<(SharedMap, Vec<Pass>), Refusal>
        ensures columns { IfOk result (λ r. r.0 ≡ options.columns) }
        ensures passes { IfOk result (λ r. AreNewPasses traced passes r.1.items) }
        ensures fault { IsRefusedBy (start_fault options passes) result }
    {
        if let Some(refusal) = start_fault(options, passes) {
            return Err(refusal);
        }
        let kept = Inner::open(alloc, options, passes as u16, traced)?;
        let passes = new_passes(alloc, passes as u16, traced)?;
        let index = SharedMap {
            columns: kept.columns(),
            turn: Turn::new(),
            kept: RwLock::new(kept),
        };
        Ok((index, passes))
    }

    /// Returns how many columns a row has.
    pub fn columns(&self) -> u8
        ensures { result ≡ self.now }
    {
        self.columns
    }

    /// Closes the index, and returns how many events were made on it, and how many of them were commits. O(n) in the
    /// passes, besides the cost of dropping the index.
    ///
    /// # Errors
    ///
    /// `WrongPass` if a pass is missing or comes twice, or if its counts aren't those of its counters. The index and the
    /// passes are dropped in any case.
    pub fn close(self, passes: Vec<Pass>) -> Result<Totals, Refusal>
        ensures events { IfOk result (λ totals. totals.events ≡ events_by passes.items) }
        ensures commits { IfOk result (λ totals. totals.commits ≡ commits_by passes.items) }
        ensures history { IfOk result (λ totals. HaveHappened self totals.events totals.commits) }
        ensures refused { IfErr result (λ refusal. refusal ≡ Refusal.WrongPass) }
    {
        self.into_guarded()?.settle(&passes)
    }

    /// Closes an index of [`SharedMap::record`], and returns the trace of all events that were made on it, in the order in
    /// which the lock was held. O(n) in the events, times the passes, with one comparison of each event.
    ///
    /// # Errors
    ///
    /// `WrongPass` as for [`SharedMap::close`], and also if no trace was kept, or if the own trace of a pass isn't its part
    /// of the trace; `NoMemory` if memory for a copy was refused. The index and the passes are dropped in any case.
    pub fn close_record(self, passes: Vec<Pass>) -> Result<Vec<Entry>, Refusal>
        ensures legal { IfOk result (λ trace. IsLegalTrace self trace.items) }
        ensures parts { IfOk result (λ trace. All (HasItsPart trace.items) passes.items) }
        ensures count { IfOk result (λ trace. length trace.items ≡ events_by passes.items) }
        ensures refused { IfErr result (λ refusal. (refusal ≡ Refusal.WrongPass) ⊎ (refusal ≡ Refusal.NoMemory)) }
    {
        self.into_guarded()?.settle_trace(&passes)
    }

    // Returns what the lock guards, if it has this index's number of columns.
    fn into_guarded(self) -> Result<Inner, Refusal>
        ensures kept { IfOk result (λ kept. IsInner kept × (kept.machine.columns ≡ self)) }
        ensures refused { IfErr result (λ refusal. refusal ≡ Refusal.WrongPass) }
    {
        let SharedMap {
            columns,
            turn: _turn,
            kept,
        } = self;
        let kept = kept.into_inner();
        if kept.columns() != columns {
            return Err(Refusal::WrongPass);
        }
        Ok(kept)
    }
}

// Returns the first limit that these options, or this number of passes, break, if they break one.
pub(crate) fn start_fault(options: Options, passes: u64) -> Option<Refusal>
    ensures { result ≡ start_fault options passes }
{
    open_fault(options.columns, options.log_capacity, options.log_retention).or_else(
        || passes_fault(passes),
    )
}

// Returns `count` passes, numbered from 1.
fn new_passes(alloc: Global, count: u16, traced: bool) -> Result<Vec<Pass>, Refusal>
    ensures passes { IfOk result (λ passes. AreNewPasses traced count passes.items) }
    ensures memory { IfErr result (λ refusal. refusal ≡ Refusal.NoMemory) }
{
    let mut passes = Vec::new(alloc);
    for number in 0..count {
        passes.push(Pass::new(alloc, number + 1, traced))?;
    }
    Ok(passes)
}
