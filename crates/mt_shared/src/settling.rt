//! The end of an index: the passes are compared with their counters.

ghost use Rattle.std.specs.Prelude.{◌≡◌, ◌⊎◌, IfOk, IfErr, IsTrue, All, length};
ghost use Rattle.mt_commit.specs.Log.{newest};
ghost use Rattle.mt_shared.specs.Counters.{counted_events, counted_commits};
ghost use Rattle.mt_shared.specs.Passes.{HasItsPart, events_by, commits_by};
ghost use Rattle.mt_shared.specs.Traces.{Keeps, IsLegalTrace, HaveHappened, part};

use crate::counters::Counters;
use crate::inner::{Inner, NOTHING};
use crate::pass::Pass;
use crate::trace::{Entry, Trace, is_part};
use mt_types::limits::MAX_PASSES;
use mt_types::refusal::Refusal;

/// How many events were made on an index, and how many of them were commits.
#[derive(Debug, Clone, Copy, PartialEq, Eq)]
pub struct Totals {
    /// The number of events.
    pub events: u64,
    /// The number of those that were commits.
    pub commits: u64,
}

impl Inner {
    /// Returns the totals, if `passes` are those of the counters, each once, with the counts of their counters. O(n) in the
    /// passes.
    ///
    /// # Errors
    ///
    /// `WrongPass` if they aren't.
    pub(crate) fn settle(self, passes: &[Pass]) -> Result<Totals, Refusal>
        ensures made { IfOk result (λ totals. totals.events ≡ self.events) }
        ensures committed { IfOk result (λ totals. totals.commits ≡ newest self.machine.log) }
        ensures events { IfOk result (λ totals. totals.events ≡ events_by passes.now) }
        ensures commits { IfOk result (λ totals. totals.commits ≡ commits_by passes.now) }
        ensures history { IfOk result (λ totals. HaveHappened self.machine.columns totals.events totals.commits) }
        ensures refused { IfErr result (λ refusal. refusal ≡ Refusal.WrongPass) }
    {
        let Inner {
            machine,
            events,
            counters,
            trace: _,
            tidies: _,
        } = self;
        let commits = machine.commits();
        if !add_up(counters, passes) {
            return Err(Refusal::WrongPass);
        }
        Ok(Totals { events, commits })
    }

    /// Returns the trace of all events, if `passes` are those of the counters, each once, with the counts of their counters,
    /// and if the own trace of each is exactly its part of this one. O(n) in the events, times the passes, with one
    /// comparison of each event.
    ///
    /// # Errors
    ///
    /// `WrongPass` if they aren't, or if no trace was kept; `NoMemory` if a trace was lost.
    pub(crate) fn settle_trace(self, passes: &[Pass]) -> Result<Vec<Entry>, Refusal>
        ensures legal { IfOk result (λ trace. IsLegalTrace self.machine.columns trace.items) }
        ensures parts { IfOk result (λ trace. All (HasItsPart trace.items) passes.now) }
        ensures count { IfOk result (λ trace. length trace.items ≡ events_by passes.now) }
        ensures refused { IfErr result (λ refusal. (refusal ≡ Refusal.WrongPass) ⊎ (refusal ≡ Refusal.NoMemory)) }
    {
        let Inner {
            machine: _,
            events: _,
            counters,
            trace,
            tidies: _,
        } = self;
        if !add_up(counters, passes) {
            return Err(Refusal::WrongPass);
        }
        let entries = kept_entries(trace)?;
        for pass in passes {
            has_part(pass, &entries)?;
        }
        Ok(entries)
    }
}

// Returns the entries of a trace that is kept.
fn kept_entries(trace: Trace) -> Result<Vec<Entry>, Refusal>
    ensures kept { IfOk result (λ entries. Keeps trace entries.items) }
    ensures refused { IfErr result (λ refusal. (refusal ≡ Refusal.WrongPass) ⊎ (refusal ≡ Refusal.NoMemory)) }
{
    match trace {
        Trace::On(entries) => Ok(entries),
        Trace::Lost => Err(Refusal::NoMemory),
        Trace::Off => Err(Refusal::WrongPass),
    }
}

// Succeeds if the trace of the pass is exactly its part of the entries.
fn has_part(pass: &Pass, entries: &[Entry]) -> Result<(), Refusal>
    ensures part { IfOk result (λ _. Keeps pass.now.trace (part pass.now.number entries.now)) }
    ensures refused { IfErr result (λ refusal. (refusal ≡ Refusal.WrongPass) ⊎ (refusal ≡ Refusal.NoMemory)) }
{
    match pass.trace() {
        Trace::On(list) if is_part(list, pass.number(), entries) => Ok(()),
        Trace::Lost => Err(Refusal::NoMemory),
        _ => Err(Refusal::WrongPass),
    }
}

// Whether `passes` are those of the counters, each once, with the counts of their counters. The counters of each pass that was
// met are replaced by those of a pass that has made no event. At the end all counters must be such.
fn add_up(mut counters: Vec<Counters>, passes: &[Pass]) -> bool
    ensures events { IsTrue result → counted_events counters.items ≡ events_by passes.now }
    ensures commits { IsTrue result → counted_commits counters.items ≡ commits_by passes.now }
{
    if passes.len() != counters.len() || passes.len() > MAX_PASSES as usize {
        return false;
    }
    let mut met = [false; MAX_PASSES as usize];
    for pass in passes {
        let number = pass.number().0 as usize;
        if number == 0 || number > counters.len() || met[number - 1] {
            return false;
        }
        met[number - 1] = true;
        let own = counters[number - 1];
        if own.events != pass.events() || own.commits != pass.commits() {
            return false;
        }
        counters[number - 1] = NOTHING;
    }
    are_blank(&counters)
}

// Whether each has the counters of a pass that has made no event.
fn are_blank(counters: &[Counters]) -> bool
    ensures events { IsTrue result → counted_events counters.now ≡ 0 }
    ensures commits { IsTrue result → counted_commits counters.now ≡ 0 }
{
    for own in counters {
        if own.events != 0 || own.commits != 0 {
            return false;
        }
    }
    true
}
