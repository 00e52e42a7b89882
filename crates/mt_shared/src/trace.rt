//! Traces: a trace is the list of the events that were made, with their outcomes.

ghost use Rattle.std.specs.Prelude.{◌≡◌, ◌↔◌, ◌++◌, ◌∷◌, [], IsTrue, IfOk};
ghost use Rattle.mt_shared.specs.Traces.{entry, part, Gains, IsNewTrace};

use mt_promise::exact::Exact;
use mt_types::copying::TryCopy;
use mt_types::event::{Event, Outcome};
use mt_types::numbers::PassNo;
use mt_types::refusal::NoMemory;
use std::alloc::Global;

/// An event that a pass made, with its outcome.
#[derive(Debug, Drop)]
pub struct Entry {
    /// The number of the pass.
    pub pass: PassNo,
    /// The event.
    pub event: Event,
    /// The outcome of the event.
    pub outcome: Outcome,
}

/// The events that were made, the oldest first, if they are kept.
#[derive(Debug, Drop)]
pub enum Trace {
    /// No events are kept.
    Off,
    /// All events are kept.
    On(Vec<Entry>),
    /// Memory for a copy was refused. What was kept until then is dropped, and no event is kept from then on.
    Lost,
}

impl Trace {
    /// Returns a trace without entries: one that keeps events if `traced`, else one that doesn't. Allocates nothing.
    pub(crate) fn new(alloc: Global, traced: bool) -> Trace
        ensures { IsNewTrace traced result }
    {
        if traced {
            Trace::On(Vec::new(alloc))
        } else {
            Trace::Off
        }
    }

    /// Adds an event and its outcome, if events are kept. Costs a copy of each. If memory for a copy is refused, the
    /// trace is lost.
    pub(crate) fn note(&mut self, alloc: Global, pass: PassNo, event: &Event, outcome: &Outcome)
        ensures { Gains self.old (entry pass event.now outcome.now ∷ []) self.new }
    {
        if let Trace::On(entries) = self {
            if add(entries, alloc, pass, event, outcome).is_err() {
                *self = Trace::Lost;
            }
        }
    }
}

fn add(
    entries: &mut Vec<Entry>,
    alloc: Global,
    pass: PassNo,
    event: &Event,
    outcome: &Outcome,
) -> Result<(), NoMemory>
    ensures { IfOk result (λ _. entries.new.items ≡ entries.old.items ++ entry pass event.now outcome.now ∷ []) }
{
    let event = event.copy(alloc)?;
    let outcome = outcome.copy(alloc)?;
    entries.push(Entry {
        pass,
        event,
        outcome,
    })?;
    Ok(())
}

fn is_same(one: &Entry, other: &Entry) -> bool
    ensures { IsTrue result ↔ (one.now ≡ other.now) }
{
    one.pass.is_same(&other.pass)
        && one.event.is_same(&other.event)
        && one.outcome.is_same(&other.outcome)
}

/// Returns whether `list` is exactly the entries of this pass, in their order. O(n) in the entries, with one comparison
/// of each that the pass made.
pub(crate) fn is_part(list: &[Entry], pass: PassNo, entries: &[Entry]) -> bool
    ensures { IsTrue result → list.now ≡ part pass entries.now }
{
    let mut at = 0;
    for entry in entries {
        if entry.pass.0 == pass.0 {
            if at >= list.len() || !is_same(&list[at], entry) {
                return false;
            }
            at += 1;
        }
    }
    at == list.len()
}
