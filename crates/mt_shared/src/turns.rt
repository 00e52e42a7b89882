//! Turns: the view that is furthest behind advances by one commit.

ghost use Rattle.mt_shared.specs.Inner.{Does, IsInner};
ghost use Rattle.mt_shared.specs.Turns.{furthest};

use crate::inner::Inner;
use crate::pass::Pass;
use mt_types::event::{Event, Outcome};
use mt_types::numbers::ViewNo;
use mt_types::refusal::Refusal;
use std::alloc::Global;

impl Inner {
    /// Makes a turn: one event, as [`Inner::event`] does. If there is no view, it is counted, and nothing else is done.
    ///
    /// Costs O(log n) in the rows of the view that advances, and a few additions if there is no view.
    ///
    /// # Errors
    ///
    /// Those of [`Inner::event`].
    pub(crate) fn turn(&mut self, alloc: Global, pass: &mut Pass) -> Outcome
        ensures does { Does self.old pass.old furthest result self.new pass.new }
        ensures kept { IsInner self.old × IsInner self.new }
    {
        let event = Event::Apply(ViewNo(0));
        let number = pass.number();
        if self.is_wrong(number, &event) || self.machine.has_views() {
            return self.event(alloc, pass, &event);
        }
        if self.events == u64::MAX || pass.events() == u64::MAX {
            return Outcome::Refused(Refusal::Spent);
        }
        let _commits = self.machine.commits();
        let at = number.0 as usize - 1;
        self.counters[at] = self.counters[at].with(&Outcome::Current);
        self.events += 1;
        self.trace.note(alloc, number, &event, &Outcome::Current);
        pass.count(alloc, &event, &Outcome::Current);
        Outcome::Current
    }
}
