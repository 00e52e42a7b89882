//! What the lock guards: the machine, with the counters of its passes.

ghost use Rattle.std.specs.Prelude.{◌≡◌, ◌≤◌, IfOk, All, length};
ghost use Rattle.mt_types.specs.Limited.{OutcomeIsLimited};
ghost use Rattle.mt_types.specs.Limits.{open_fault};
ghost use Rattle.mt_shared.specs.declared.counters.Counters.{Counters};
ghost use Rattle.mt_shared.specs.Traces.{IsNewTrace};
ghost use Rattle.mt_shared.specs.Counters.{counted_events, counted_commits};
ghost use Rattle.mt_shared.specs.Inner.{Does, IsInner, IsFresh, IsRefusedBy, is_wrong, has_counters};
ghost use Rattle.mt_shared.specs.Feeds.{Feeds, Copies};

use crate::counters::Counters;
use crate::pass::Pass;
use crate::trace::Trace;
use mt_index::machine::Machine;
use mt_index::options::Options;
use mt_types::event::{Event, Outcome};
use mt_types::numbers::{PassNo, ViewNo};
use mt_types::refusal::Refusal;
use mt_types::row::Delta;
use mt_view::state::ViewState;
use std::alloc::{AllocError, Global};
use std::marker::Model;

/// The machine, the number of events that were made, counters for each pass, and the trace.
#[derive(Drop)]
pub struct Inner {
    pub(crate) machine: Machine,
    pub(crate) events: u64,
    pub(crate) counters: Vec<Counters>,
    pub(crate) trace: Trace,
    /// Whether tidies follow removes.
    pub(crate) tidies: bool,
}

impl Model for Inner {
    ghost use Rattle.std.specs.Coded.{codes};
    ghost use Rattle.mt_scan.specs.CursorCode.{place_code};
    ghost use Rattle.mt_view.specs.StateCode.{state_code};
    ghost use Rattle.mt_shared.specs.Inner.{InnerView, IsInner};

    ghost Value = { InnerView };

    ghost coded = { Prim.hlevel (codes, place_code, state_code) };

    ghost use Rattle.mt_shared.specs.Inside.{inner_view};

    ghost view = { inner_view };

    ghost invariant = { λ k. IsInner (inner_view k) };
}

// The counters of a pass that has made no event.
pub(crate) const NOTHING: Counters = Counters {
    events: 0,
    commits: 0,
    seen: 0,
};

impl Inner {
    /// Opens a machine on which nothing has happened, with counters for each of `passes` passes, and a trace if `traced`.
    /// O(n) in the passes.
    ///
    /// # Errors
    ///
    /// Those of `Machine::open`; `NoMemory` if an allocation is refused.
    pub(crate) fn open(
        alloc: Global,
        options: Options,
        passes: u16,
        traced: bool,
    ) -> Result<Inner, Refusal>
        ensures opened { IfOk result (λ kept. IsFresh options passes kept) }
        ensures trace { IfOk result (λ kept. IsNewTrace traced kept.trace) }
        ensures fault { IsRefusedBy (open_fault options.columns options.log_capacity options.log_retention) result }
    {
        let machine = Machine::open(alloc, options)?;
        let counters = blank_counters(alloc, passes)?;
        Ok(Inner {
            machine,
            events: 0,
            counters,
            trace: Trace::new(alloc, traced),
            tidies: options.tidies,
        })
    }

    /// Makes one event of a pass, and returns its outcome: one event of the machine, which is counted in the pass and
    /// in its counters, and added to the trace if one is kept.
    ///
    /// Costs what the event of the machine costs, and for a step another O(log n) in the open calls. If a trace is
    /// kept, also two copies of the event and of its outcome.
    ///
    /// # Errors
    ///
    /// If the outcome is `WrongPass`, no event was made and nothing has changed: the pass has no counters here, the begin
    /// names another pass, or the step is of another pass's open call. The same holds if it is `Spent` because the
    /// count of events of the index or of the pass is at its greatest value. Every other refusal is one of the machine,
    /// and counts as an event.
    pub(crate) fn event(&mut self, alloc: Global, pass: &mut Pass, event: &Event) -> Outcome
        ensures does { Does self.old pass.old event.now result self.new pass.new }
        ensures limited { OutcomeIsLimited result }
        ensures kept { IsInner self.old × IsInner self.new }
    {
        let number = pass.number();
        if self.is_wrong(number, event) {
            return Outcome::Refused(Refusal::WrongPass);
        }
        if self.events == u64::MAX || pass.events() == u64::MAX {
            return Outcome::Refused(Refusal::Spent);
        }
        let outcome = self.machine.event(alloc, event);
        let _commits = self.machine.commits();
        let at = number.0 as usize - 1;
        self.counters[at] = self.counters[at].with(&outcome);
        self.events += 1;
        self.trace.note(alloc, number, event, &outcome);
        pass.count(alloc, event, &outcome);
        outcome
    }

    /// Returns the deltas of the commits after the first `from`, at most `limit`, as `Machine::feed` does. Makes no
    /// event.
    ///
    /// # Errors
    ///
    /// Those of `Machine::feed`.
    pub(crate) fn feed(&self, alloc: Global, from: u64, limit: u16) -> Result<Vec<Delta>, Refusal>
        ensures feeds { Feeds self.now.machine from limit result }
        ensures kept { IsInner self.now }
    {
        self.machine.feed(alloc, from, limit)
    }

    /// Returns the number of commits at which a view is, and a copy of its state, as `Machine::view_copy` does. Makes
    /// no event.
    ///
    /// # Errors
    ///
    /// Those of `Machine::view_copy`.
    pub(crate) fn view_copy(&self, alloc: Global, view: ViewNo) -> Result<(u64, ViewState), Refusal>
        ensures copies { Copies self.now.machine view.0 result }
        ensures kept { IsInner self.now }
    {
        self.machine.view_copy(alloc, view)
    }

    /// Returns how many columns a row has.
    pub(crate) fn columns(&self) -> u8
        ensures columns { result ≡ self.now.machine.columns }
        ensures kept { IsInner self.now }
    {
        self.machine.columns()
    }

    // Whether the event isn't one that this pass may make. O(log n) in the open calls.
    pub(crate) fn is_wrong(&self, pass: PassNo, event: &Event) -> bool
        ensures { result ≡ is_wrong self.now pass event.now }
    {
        if !self.has_counters(pass) {
            return true;
        }
        match event {
            Event::Begin(named, _) => named.0 != pass.0,
            Event::Step(call) => match self.machine.pass_of(*call) {
                Some(owner) => owner.0 != pass.0,
                None => false,
            },
            _ => false,
        }
    }

    pub(crate) fn has_counters(&self, pass: PassNo) -> bool
        ensures { result ≡ has_counters pass self.now.counters }
    {
        pass.0 != 0 && pass.0 as usize <= self.counters.len()
    }
}

// Returns the counters of `passes` passes that have made no event.
pub(crate) fn blank_counters(alloc: Global, passes: u16) -> Result<Vec<Counters>, AllocError>
    ensures count { IfOk result (λ counters. length counters.items ≡ passes) }
    ensures events { IfOk result (λ counters. counted_events counters.items ≡ 0) }
    ensures commits { IfOk result (λ counters. counted_commits counters.items ≡ 0) }
    ensures seen { IfOk result (λ counters. All (λ (own : Counters). own.seen ≤ 0) counters.items) }
{
    let mut counters = Vec::new(alloc);
    for _ in 0..passes {
        counters.push(NOTHING)?;
    }
    Ok(counters)
}
