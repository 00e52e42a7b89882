//! Runs under the lock: a call is begun, and makes several steps, which are counted together.

ghost use Rattle.std.specs.Prelude.{◌≡◌, ◌+◌, ◌-◌, ◌<◌, ◌≤◌, ◌^◌, ◌⊎◌, ◌↔◌, max, IsFalse, true, slice_index_or, slice_set};
ghost use Rattle.mt_types.specs.Numbers.{greatest_number};
ghost use Rattle.mt_types.specs.declared.event.Event.TheVariants.{Begin};
ghost use Rattle.mt_types.specs.Limited.{OutcomeIsLimited};
ghost use Rattle.mt_shared.specs.declared.trace.Trace.TheVariants.{Off};
ghost use Rattle.mt_shared.specs.Counters.{counters_after};
ghost use Rattle.mt_shared.specs.Drives.{HasGone, IsStarted, StartIsLimited};
ghost use Rattle.mt_shared.specs.Inner.{Does, IsInner, RunsFully, StartsFully, has_counters};
ghost use Rattle.mt_shared.specs.declared.counters.Counters.{Counters};
ghost use Rattle.mt_shared.specs.Passes.{IsTold, pass_after};

use crate::counters::Counters;
use crate::driving::Started;
use crate::inner::Inner;
use crate::pass::Pass;
use crate::trace::Trace;
use mt_index::calling::CallRun;
use mt_index::running::Run;
use mt_types::event::{Event, Outcome, Request};
use mt_types::numbers::CallNo;
use mt_types::refusal::Refusal;
use std::alloc::Global;

// Counts a run of a pass: in the pass, in its counters, and among all events. Returns the outcome of its last step.
fn count(counters: &mut Vec<Counters>, events: &mut u64, pass: &mut Pass, run: Run) -> Outcome
    requires there { has_counters pass.old.number counters.old.items ≡ true }
    requires own { (own : Counters) → own ≡ slice_index_or counters.old.items (pass.old.number.0 - 1) own
        → (own.events + run.steps < 2 ^ 64) × (own.commits + run.commits < 2 ^ 64) }
    requires events { events.old + run.steps < 2 ^ 64 }
    requires pass { pass.old.events + run.steps < 2 ^ 64 }
    requires commits { run.commits ≤ run.steps }
    ensures last { result ≡ run.last }
    ensures counters { (own : Counters) × (own ≡ slice_index_or counters.old.items (pass.old.number.0 - 1) own)
        × (counters.new.items ≡ slice_set counters.old.items (pass.old.number.0 - 1) (counters_after run own)) }
    ensures events { events.new ≡ events.old + run.steps }
    ensures pass { pass.new ≡ pass_after run pass.old }
{
    let at = pass.number().0 as usize - 1;
    counters[at] = counters[at].after(&run);
    *events += run.steps;
    pass.count_run(&run);
    run.last
}

impl Inner {
    // Returns how many events of the pass can still be counted.
    fn room(&self, pass: &Pass) -> u64
        ensures here { self.now.events + result < 2 ^ 64 }
        ensures there { pass.now.events + result < 2 ^ 64 }
        ensures greatest { (self.now.events + result ≡ greatest_number) ⊎ (pass.now.events + result ≡ greatest_number) }
    {
        (u64::MAX - self.events).min(u64::MAX - pass.events())
    }

    // Returns whether each event of the pass is to be traced.
    fn is_traced(&self, pass: &Pass) -> bool
        ensures { IsFalse result ↔ (self.now.trace ≡ Off) × (pass.now.trace ≡ Off) }
    {
        !matches!(self.trace, Trace::Off) || !matches!(pass.trace(), Trace::Off)
    }

    /// Makes at most `most` steps of a call of a pass, one after the other, until one of them ends the call or waits.
    /// At least one is made, also if `most` is 0. Returns the outcome of the last. The steps are counted together, in
    /// the pass and in its counters. If the index or the pass keeps a trace, one step is made.
    ///
    /// Costs what the steps cost, and O(log n) in the open calls.
    ///
    /// # Errors
    ///
    /// Those of [`Inner::event`] for a step.
    pub(crate) fn go(&mut self, alloc: Global, pass: &mut Pass, call: CallNo, most: u64) -> Outcome
        ensures goes { HasGone Does self.old pass.old call result self.new pass.new }
        ensures most { pass.new.events ≤ pass.old.events + max 1 most }
        ensures fully { RunsFully self.old pass.old most result self.new pass.new }
        ensures limited { OutcomeIsLimited result }
        ensures kept { IsInner self.old × IsInner self.new }
    {
        let step = Event::Step(call);
        let number = pass.number();
        let room = self.room(pass);
        if self.is_traced(pass) || self.is_wrong(number, &step) || room == 0 {
            return self.event(alloc, pass, &step);
        }
        let run = self.machine.go(alloc, call, most.min(room));
        let _commits = self.machine.commits();
        count(&mut self.counters, &mut self.events, pass, run)
    }

    // Begins a call of a pass, by one event.
    fn open_call(&mut self, alloc: Global, pass: &mut Pass, request: Request) -> Outcome
        ensures does { Does self.old pass.old (Begin pass.old.number request) result self.new pass.new }
        ensures told { IsTold pass.old (Begin pass.old.number request) result pass.new }
        ensures kept { IsInner self.old × IsInner self.new }
    {
        let begin = Event::Begin(pass.number(), request);
        self.event(alloc, pass, &begin)
    }

    // Begins a call of a pass and makes a run of it: at most `most` events, which are counted together.
    fn begin_and_go(
        &mut self,
        alloc: Global,
        pass: &mut Pass,
        request: Request,
        most: u64,
    ) -> Started
        requires some { 1 < most }
        requires there { has_counters pass.old.number self.old.counters ≡ true }
        requires off { (self.old.trace ≡ Off) × (pass.old.trace ≡ Off) }
        requires room { (self.old.events + 1 < greatest_number) × (pass.old.events + 1 < greatest_number) }
        ensures starts { IsStarted Does self.old pass.old request result self.new pass.new }
        ensures most { pass.new.events ≤ pass.old.events + max 1 most }
        ensures fully { StartsFully self.old pass.old most result self.new pass.new }
        ensures limited { StartIsLimited result }
        ensures kept { IsInner self.old × IsInner self.new }
    {
        let number = pass.number();
        let most = most.min(self.room(pass));
        let called = self.machine.call(alloc, number, request, most - 1);
        let _commits = self.machine.commits();
        match called {
            CallRun::Refused(refusal) => {
                let run = Run {
                    steps: 1,
                    commits: 0,
                    last: Outcome::Refused(refusal),
                };
                match count(&mut self.counters, &mut self.events, pass, run) {
                    Outcome::Refused(refusal) => Started::Refused(refusal),
                    _ => unreachable!(),
                }
            }
            CallRun::Ran(call, run) => {
                let run = Run {
                    steps: run.steps + 1,
                    ..run
                };
                let last = count(&mut self.counters, &mut self.events, pass, run);
                Started::Ran(call, last)
            }
        }
    }

    /// Begins a call of a pass, and makes a run of it: at most `most` events, the begin among them. The request is moved
    /// into the call, unless `most` is 0 or 1, or the index or the pass keeps a trace.
    ///
    /// # Errors
    ///
    /// Those of [`Inner::event`] for a begin.
    pub(crate) fn begin(
        &mut self,
        alloc: Global,
        pass: &mut Pass,
        request: Request,
        most: u64,
    ) -> Started
        ensures starts { IsStarted Does self.old pass.old request result self.new pass.new }
        ensures most { pass.new.events ≤ pass.old.events + max 1 most }
        ensures fully { StartsFully self.old pass.old most result self.new pass.new }
        ensures limited { StartIsLimited result }
        ensures kept { IsInner self.old × IsInner self.new }
    {
        if most > 1
            && self.room(pass) > 1
            && !self.is_traced(pass)
            && self.has_counters(pass.number())
        {
            return self.begin_and_go(alloc, pass, request, most);
        }
        match self.open_call(alloc, pass, request) {
            Outcome::Call(call) if most > 1 => {
                Started::Ran(call, self.go(alloc, pass, call, most - 1))
            }
            Outcome::Call(call) => Started::Begun(call),
            Outcome::Refused(refusal) => Started::Refused(refusal),
            _ => unreachable!(),
        }
    }
}
