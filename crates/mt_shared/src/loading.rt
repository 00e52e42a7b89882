//! Rows with their versions, loaded into a new index that many threads share.

ghost use Rattle.std.specs.Prelude.{◌≡◌, ◌*◌, ◌^◌, ◌<◌, ◌≤◌, IfOk, All, MatchOption, Err, length};
ghost use Rattle.mt_load.specs.declared.error.LoadError.TheVariants.{Refused};
ghost use Rattle.mt_shared.specs.Counters.{counted_events, counted_commits};
ghost use Rattle.mt_shared.specs.declared.counters.Counters.{Counters as CountersOf};
ghost use Rattle.mt_shared.specs.Inner.{start_fault};
ghost use Rattle.mt_shared.specs.Loads.{HasRowsLoaded};
ghost use Rattle.mt_shared.specs.Passes.{ArePassesAfter};

use crate::counters::Counters;
use crate::inner::{Inner, NOTHING};
use crate::map::{SharedMap, start_fault};
use crate::pass::Pass;
use crate::trace::Trace;
use crate::turn::Turn;
use mt_index::options::Options;
use mt_load::error::LoadError;
use mt_load::loading::load;
use mt_rows::rows::Rows;
use mt_types::refusal::{NoMemory, Refusal};
use std::alloc::Global;
use std::sync::RwLock;

// Returns the passes of a loaded index.
fn passes_after(alloc: Global, commits: u64, count: u16) -> Result<Vec<Pass>, NoMemory>
    requires fits { 3 * commits < 2 ^ 64 }
    requires some { 0 < count }
    ensures { IfOk result (λ passes. ArePassesAfter commits count passes.items) }
{
    let mut passes = Vec::new(alloc);
    passes.push(Pass::of_past(alloc, commits))?;
    for number in 1..count {
        passes.push(Pass::new(alloc, number + 1, false))?;
    }
    Ok(passes)
}

// Returns the counters of the passes of a loaded index: all its past is counted to the first.
fn counters_after(alloc: Global, commits: u64, count: u16) -> Result<Vec<Counters>, NoMemory>
    requires fits { 3 * commits < 2 ^ 64 }
    requires some { 0 < count }
    ensures count { IfOk result (λ counters. length counters.items ≡ count) }
    ensures events { IfOk result (λ counters. counted_events counters.items ≡ 3 * commits) }
    ensures commits { IfOk result (λ counters. counted_commits counters.items ≡ commits) }
    ensures seen { IfOk result (λ counters. All (λ (own : CountersOf). own.seen ≤ commits) counters.items) }
{
    let mut counters = Vec::new(alloc);
    counters.push(Counters {
        events: 3 * commits,
        commits,
        seen: commits,
    })?;
    for _ in 1..count {
        counters.push(NOTHING)?;
    }
    Ok(counters)
}

impl Inner {
    /// Loads these rows into a new machine, as `mt_load::loading::load` does, with counters for each of `passes` passes. The
    /// commits that led to the rows are counted to the first pass, as if it had made each by a call of three events.
    ///
    /// # Errors
    ///
    /// Those of `mt_load::loading::load`; `Refused` with `Spent` if three events for each commit can't be counted.
    pub(crate) fn load(
        alloc: Global,
        options: Options,
        rows: Rows,
        commits: u64,
        passes: u16,
    ) -> Result<Inner, LoadError>
        requires { 0 < passes }
        ensures loaded { IfOk result (λ kept. HasRowsLoaded options passes commits rows kept) }
        ensures few { IfOk result (λ kept. 3 * commits < 2 ^ 64) }
    {
        let Some(events) = commits.checked_mul(3) else {
            return Err(LoadError::Refused(Refusal::Spent));
        };
        let machine = load(alloc, options, rows, commits)?;
        let Ok(counters) = counters_after(alloc, commits, passes) else {
            return Err(LoadError::Refused(Refusal::NoMemory));
        };
        Ok(Inner {
            machine,
            events,
            counters,
            trace: Trace::new(alloc, false),
            tidies: options.tidies,
        })
    }
}

impl SharedMap {
    /// Opens an index that has these rows after `commits` commits, whichever commits led to them, and returns it with `passes`
    /// passes, numbered from 1. The next commit has the number after that. The commits that led to the rows are counted to the
    /// first pass, as if it had made each by a call of three events.
    ///
    /// # Errors
    ///
    /// Those of `mt_load::loading::load`; `Refused` with `BadLimit` unless `passes` is from 1 to `MAX_PASSES`.
    pub fn load(
        alloc: Global,
        options: Options,
        rows: Rows,
        commits: u64,
        passes: u64,
    ) -> Result<(SharedMap, Vec<Pass>), LoadError>
        ensures columns { IfOk result (λ r. r.0 ≡ options.columns) }
        ensures passes { IfOk result (λ r. ArePassesAfter commits passes r.1.items) }
        ensures fault { MatchOption (start_fault options passes) (Unit {0}) (λ refusal. result ≡ Err (Refused refusal)) }
    {
        if let Some(refusal) = start_fault(options, passes) {
            return Err(LoadError::Refused(refusal));
        }
        let count = passes as u16;
        let kept = Inner::load(alloc, options, rows, commits, count)?;
        let Ok(passes) = passes_after(alloc, commits, count) else {
            return Err(LoadError::Refused(Refusal::NoMemory));
        };
        let index = SharedMap {
            columns: kept.columns(),
            turn: Turn::new(),
            kept: RwLock::new(kept),
        };
        Ok((index, passes))
    }
}
