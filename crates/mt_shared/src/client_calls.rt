//! The methods of a client that make an event that is no part of a call.

ghost use Rattle.std.specs.Prelude.{◌≡◌};
ghost use Rattle.mt_types.specs.Limited.{OutcomeIsLimited};
ghost use Rattle.mt_types.specs.declared.event.Event.TheVariants.{Apply};
ghost use Rattle.mt_shared.specs.Passes.{IsTold};
ghost use Rattle.mt_shared.specs.Turns.{FreesSome, IsOutside, apply_outcome, freed_of};

use crate::client::Client;
use crate::driving::Shared;
use crate::views;
use mt_types::event::{Event, Outcome};
use mt_types::numbers::ViewNo;
use mt_types::refusal::Refusal;

// Returns how many nodes an event has freed. An outcome of another kind is of another index.
fn freed_of(outcome: Outcome) -> Result<u32, Refusal>
    ensures { result ≡ freed_of outcome }
{
    match outcome {
        Outcome::Freed(count) => Ok(count),
        Outcome::Refused(refusal) => Err(refusal),
        _ => Err(Refusal::WrongPass),
    }
}

impl<S: Shared> Client<S> {
    /// Makes an event that is no part of a call, for callers that choose it while they run.
    ///
    ///     let outcome = client.event(&Event::Advance);
    ///
    /// Costs what the event costs.
    pub fn event(&mut self, event: &Event) -> Outcome
        requires { IsOutside event.now }
        ensures does { S.does self.old.shared self.old.pass event.now result self.new.shared self.new.pass }
        ensures told { IsTold self.old.pass event.now result self.new.pass }
        ensures limited { OutcomeIsLimited result }
        ensures turns { self.new.turns ≡ self.old.turns }
    {
        self.shared.event(self.alloc, &mut self.pass, event)
    }

    /// Advances a view by one commit; for `ViewNo(0)` the view that is furthest behind. Returns the number of commits at
    /// which it then is, or `None` if it was at the newest commit, or if `view` is 0 and no view is behind. Makes one event.
    /// O(log n) in the rows of the view.
    ///
    ///     if let Some(at) = client.apply(view)? {
    ///         println!(rt; "at commit {at}")?;
    ///     }
    ///
    /// # Errors
    ///
    /// `NoSuchView` if no view has this number; `NoMemory`. `WrongPass` and `Spent` as for any event of a pass. Nothing has
    /// changed then.
    pub fn apply(&mut self, view: ViewNo) -> Result<Option<u64>, Refusal>
        ensures applies { S.does self.old.shared self.old.pass (Apply view) (apply_outcome result) self.new.shared
            self.new.pass }
        ensures turns { self.new.turns ≡ self.old.turns }
    {
        views::view_apply(self.alloc, &mut self.shared, &mut self.pass, view)
    }

    /// Frees the nodes that tidies have taken out and no open call can still visit, and returns how many. Makes two events:
    /// the first advances the epoch, so that a call that begins later doesn't keep a node that was taken out before. O(n) in
    /// the nodes that were taken out.
    ///
    ///     let freed = client.collect()?;
    ///
    /// # Errors
    ///
    /// `WrongPass` and `Spent` as for any event of a pass.
    pub fn collect(&mut self) -> Result<u32, Refusal>
        ensures frees { FreesSome S.does self.old.shared self.old.pass result self.new.shared self.new.pass }
        ensures turns { self.new.turns ≡ self.old.turns }
    {
        let _next = self
            .shared
            .event(self.alloc, &mut self.pass, &Event::Advance);
        let freed = self
            .shared
            .event(self.alloc, &mut self.pass, &Event::Collect);
        freed_of(freed)
    }
}
