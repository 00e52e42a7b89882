//! The counters of a pass, and what an outcome adds to it.

ghost use Rattle.std.specs.Prelude.{◌≡◌, ◌+◌, ◌<◌, ◌^◌, max};
ghost use Rattle.mt_index.specs.Events.{commit_count};
ghost use Rattle.mt_shared.specs.Passes.{seen_in};
ghost use Rattle.mt_shared.specs.Counters.{counters_after, counters_with};

use mt_index::running::Run;
use mt_types::event::Outcome;

/// What the index has noted of the events of a pass.
#[derive(Debug, Clone, Copy, PartialEq, Eq)]
pub struct Counters {
    /// How many events the pass has made.
    pub events: u64,
    /// How many of these events were commits.
    pub commits: u64,
    /// The greatest number of commits that a reply to the pass has shown.
    pub seen: u64,
}

impl Counters {
    /// Returns the counters with one more event, which has this outcome.
    pub(crate) fn with(self, outcome: &Outcome) -> Counters
        requires events { self.events + 1 < 2 ^ 64 }
        requires commits { self.commits + commit_count outcome.now < 2 ^ 64 }
        ensures { result ≡ counters_with outcome.now self }
    {
        Counters {
            events: self.events + 1,
            commits: self.commits + commits_in(outcome),
            seen: self.seen.max(seen_in(outcome)),
        }
    }

    /// Returns the counters with the steps of a run more.
    pub(crate) fn after(self, run: &Run) -> Counters
        requires events { self.events + run.now.steps < 2 ^ 64 }
        requires commits { self.commits + run.now.commits < 2 ^ 64 }
        ensures { result ≡ counters_after run.now self }
    {
        Counters {
            events: self.events + run.steps,
            commits: self.commits + run.commits,
            seen: self.seen.max(seen_in(&run.last)),
        }
    }
}

pub(crate) fn commits_in(outcome: &Outcome) -> u64
    ensures { result ≡ commit_count outcome.now }
{
    match outcome {
        Outcome::Commit(_) => 1,
        _ => 0,
    }
}

pub(crate) fn seen_in(outcome: &Outcome) -> u64
    ensures { result ≡ seen_in outcome.now }
{
    match outcome {
        Outcome::Done(reply) => reply.to,
        _ => 0,
    }
}
