//! Runs: steps of one call, one after the other, until one of them ends the call or waits.

ghost use Rattle.std.specs.Prelude.{◌≡◌, ◌≤◌, ◌<◌, ◌↔◌, IsTrue, max};
ghost use Rattle.mt_types.specs.declared.event.Event.TheVariants.{Begin};
ghost use Rattle.mt_types.specs.Limited.{OutcomeIsLimited};
ghost use Rattle.mt_index.specs.Events.{GoesOnAtOnce, GoesThrough, Makes, commit_count};

use crate::machine::Machine;
use mt_types::event::{Event, Outcome, Request};
use mt_types::numbers::{CallNo, PassNo};
use mt_types::refusal::Refusal;
use std::alloc::Global;

/// What a run of a call came to.
#[derive(Debug, Drop)]
pub struct Run {
    /// How many steps were made.
    pub steps: u64,
    /// How many of them were commits.
    pub commits: u64,
    /// The outcome of the last step.
    pub last: Outcome,
}

// Returns whether the call continues after a step with this outcome, and has not waited.
fn goes_on(outcome: &Outcome) -> bool
    ensures { IsTrue result ↔ GoesOnAtOnce outcome.now }
{
    matches!(outcome, Outcome::Moved | Outcome::Commit(_))
}

// Returns how many commits an outcome is.
pub(crate) fn commits_in(outcome: &Outcome) -> u64
    ensures { result ≡ commit_count outcome.now }
{
    match outcome {
        Outcome::Commit(_) => 1,
        _ => 0,
    }
}

impl Machine {
    /// Begins a call of a pass, as [`Machine::event`] does for a begin. The request is moved into the call, not copied.
    pub fn begin_call(&mut self, alloc: Global, pass: PassNo, request: Request) -> Outcome
        ensures makes { Makes self.old (Begin pass request) result self.new }
        ensures limited { OutcomeIsLimited result }
    {
        let _stands = self.is_idle();
        match self.fault_of(&request) {
            Some(refusal) => Outcome::Refused(refusal),
            None => self.admitted(alloc, pass, request),
        }
    }

    /// Makes steps of the call of this number, one after the other, until one of them ends the call or waits, or `most`
    /// are made. At least one is made, also if `most` is 0. Each is the event that [`Machine::event`] makes for it.
    ///
    /// Costs what the steps cost.
    pub fn go(&mut self, alloc: Global, call: CallNo, most: u64) -> Run
        ensures goes { GoesThrough self.old call result self.new }
        ensures most { result.steps ≤ max 1 most }
        ensures ends { result.steps < most → GoesOnAtOnce result.last → ⊥ }
        ensures limited { OutcomeIsLimited result.last }
    {
        let mut steps = 0;
        let mut commits = 0;
        loop {
            let last = self.event(alloc, &Event::Step(call));
            steps += 1;
            commits += commits_in(&last);
            if steps >= most || !goes_on(&last) {
                return Run {
                    steps,
                    commits,
                    last,
                };
            }
            drop(last);
        }
    }
}
