//! Passes: a pass is the right of one caller to make events on an index, with what the caller has done and seen.

ghost use Rattle.std.specs.Prelude.{◌≡◌, ◌+◌, ◌*◌, ◌<◌, ◌≤◌, ◌^◌};
ghost use Rattle.mt_shared.specs.Passes.{Counts, IsNewPass, IsPastPass, pass_after};

use crate::counters::{commits_in, seen_in};
use crate::trace::Trace;
use mt_index::running::Run;
use mt_types::event::{Event, Outcome};
use mt_types::numbers::PassNo;
use std::alloc::Global;
use std::marker::Model;

/// The right of one caller to make events on an index. The passes of an index are numbered from 1.
#[derive(Debug, Drop)]
pub struct Pass {
    number: PassNo,
    seen: u64,
    events: u64,
    commits: u64,
    trace: Trace,
}

impl Model for Pass {
    ghost use Rattle.std.specs.Prelude.{◌≤◌};
    ghost use Rattle.mt_shared.specs.Passes.{PassView};

    ghost Value = { PassView };

    ghost use Rattle.mt_shared.specs.Inside.{pass_view};

    ghost view = { pass_view };

    ghost invariant = { λ p. p.commits ≤ p.events };
}

impl Pass {
    // Returns a pass that has made no event. Only an index and a machine of one caller make passes.
    pub(crate) fn new(alloc: Global, number: u16, traced: bool) -> Pass
        ensures { IsNewPass traced number result }
    {
        Pass {
            number: PassNo(number),
            seen: 0,
            events: 0,
            commits: 0,
            trace: Trace::new(alloc, traced),
        }
    }

    // Returns the first pass of an index into which rows were loaded that `commits` commits led to: as if it had made each by
    // a call of three events.
    pub(crate) fn of_past(alloc: Global, commits: u64) -> Pass
        requires { 3 * commits < 2 ^ 64 }
        ensures { IsPastPass commits result }
    {
        Pass {
            number: PassNo(1),
            seen: commits,
            events: 3 * commits,
            commits,
            trace: Trace::new(alloc, false),
        }
    }

    /// Returns the number of the pass.
    pub fn number(&self) -> PassNo
        ensures { result ≡ self.now.number }
    {
        self.number
    }

    /// Returns the greatest number of commits that a reply to the pass has shown. A call that it begins later begins at
    /// that number or a greater one.
    pub fn seen(&self) -> u64
        ensures { result ≡ self.now.seen }
    {
        self.seen
    }

    /// Returns how many events the pass has made.
    pub fn events(&self) -> u64
        ensures { result ≡ self.now.events }
    {
        self.events
    }

    /// Returns how many of these events were commits.
    pub fn commits(&self) -> u64
        ensures { result ≡ self.now.commits }
    {
        self.commits
    }

    // Returns the trace of the pass: the events that it has made, if they are kept.
    pub(crate) fn trace(&self) -> &Trace
        ensures { result.now ≡ self.now.trace }
    {
        &self.trace
    }

    // Has the pass see this number of commits, by a read that is no event.
    pub(crate) fn see(&mut self, at: u64)
        requires { self.old.seen ≤ at }
        ensures { self.new ≡ record self.old { seen = at } }
    {
        self.seen = at;
    }

    // Counts the steps of a run that the pass has made, if it keeps no trace.
    pub(crate) fn count_run(&mut self, run: &Run)
        requires room { self.old.events + run.now.steps < 2 ^ 64 }
        requires commits { run.now.commits ≤ run.now.steps }
        ensures { self.new ≡ pass_after run.now self.old }
    {
        self.events += run.steps;
        self.commits += run.commits;
        self.seen = self.seen.max(seen_in(&run.last));
    }

    // Counts an event that the pass has made, and adds it to its trace if one is kept.
    pub(crate) fn count(&mut self, alloc: Global, event: &Event, outcome: &Outcome)
        requires { self.old.events + 1 < 2 ^ 64 }
        ensures { Counts self.old event.now outcome.now self.new }
    {
        self.events += 1;
        self.commits += commits_in(outcome);
        self.seen = self.seen.max(seen_in(outcome));
        self.trace.note(alloc, self.number, event, outcome);
    }
}
