//! Drives a call from its begin to its end, run by run, on whatever shares a machine.

ghost use Rattle.std.specs.Prelude.{ℕ, ◌≡◌, ◌≤◌, Bool, List, Option, Result, IfOk, IfErr, IfSome};
ghost use Rattle.mt_types.specs.declared.numbers.PassNo.{PassNo};
ghost use Rattle.mt_types.specs.declared.numbers.ViewNo.{ViewNo};
ghost use Rattle.mt_types.specs.declared.refusal.Refusal.{Refusal};
ghost use Rattle.mt_types.specs.declared.view.Page.{Page};
ghost use Rattle.mt_types.specs.declared.event.Answer.{Answer};
ghost use Rattle.mt_types.specs.declared.event.Request.{Request};
ghost use Rattle.mt_types.specs.declared.event.Event.{Event};
ghost use Rattle.mt_types.specs.declared.event.Outcome.{Outcome};
ghost use Rattle.mt_types.specs.Limited.{AnswerIsLimited, OutcomeIsLimited, PageIsLimited};
ghost use Rattle.mt_reads.specs.Quiet.{QuietAnswerIsLimited};
ghost use Rattle.mt_reads.specs.declared.quiet.QuietAnswer.{QuietAnswer};
ghost use Rattle.mt_reads.specs.declared.quiet.QuietRead.{QuietRead};
ghost use Rattle.mt_shared.specs.Passes.{PassView, IsTold};
ghost use Rattle.mt_shared.specs.Changes.{ChangeIsLimited, IsChanged};
ghost use Rattle.mt_shared.specs.Reads.{IsReadAnswer};
ghost use Rattle.mt_shared.specs.Drives.{Finishes, HasGone, IsReplyTo, IsDriven, IsRefused, IsStarted, StartIsLimited, Ends};

use crate::changing::Changed;
use crate::pass::Pass;
use bytes::Bytes;
use mt_reads::quiet::{QuietAnswer, QuietRead};
use mt_types::event::{Answer, Event, Outcome, Reply, Request};
use mt_types::key::Key;
use mt_types::numbers::{CallNo, PassNo, ViewNo};
use mt_types::refusal::Refusal;
use mt_types::view::Page;
use std::alloc::Global;
use std::thread;

/// How a call was started.
#[derive(Debug, Drop)]
pub enum Started {
    /// Its begin was refused.
    Refused(Refusal),
    /// The call of this number has begun, and has made no step.
    Begun(CallNo),
    /// The call of this number has begun and made a run of steps, of which the last had this outcome.
    Ran(CallNo, Outcome),
}

/// What the next calls of a thread are, for which it may keep a lock.
#[derive(Clone, Copy, Debug, PartialEq, Eq)]
pub enum Hold {
    /// Unknown: no lock is kept.
    Nothing,
    /// Gets and ranges that are read at once: the lock is kept together with other reads.
    Reads,
    /// Changes: the lock is kept alone.
    Changes,
}

/// A machine on which passes make events: under a lock, or of one caller.
pub trait Shared {
    /// Says what the next calls are, so that a lock may be kept between them until `hold` is called again. Changes
    /// nothing.
    ///
    /// A thread that has said `Reads` or `Changes` must say `Nothing` before it waits for another thread, or uses
    /// another door of the same index.
    fn hold(&mut self, hold: Hold)
        ensures stays { self.new ≡ self.old };

    /// How many columns a row has.
    ghost columns: { Self → ℕ };

    /// Returns how many columns a row has.
    fn columns(&self) -> u8
        ensures { result ≡ columns self.now };

    /// What an event of a pass does, to what is shared and to the pass.
    ghost does: { Self → PassView → Event → Outcome → Self → PassView → Type 0 };

    /// Makes one event of a pass, and returns its outcome.
    fn event(&mut self, alloc: Global, pass: &mut Pass, event: &Event) -> Outcome
        ensures does { does self.old pass.old event.now result self.new pass.new }
        ensures told { IsTold pass.old event.now result pass.new }
        ensures limited { OutcomeIsLimited result };

    /// Begins a call of a pass, and may make a run of its steps: some of them, one after the other, until one ends the
    /// call or waits, or the run is long enough.
    fn begin(&mut self, alloc: Global, pass: &mut Pass, request: Request) -> Started
        ensures starts { IsStarted does self.old pass.old request result self.new pass.new }
        ensures limited { StartIsLimited result };

    /// Begins a call of a pass, as `begin` does. If the run ends the call by a change, it may then keep up views, in at
    /// most `turns` turns.
    fn change(&mut self, alloc: Global, pass: &mut Pass, request: Request, turns: u64) -> Changed
        ensures changes { IsChanged does self.old pass.old request turns result self.new pass.new }
        ensures limited { ChangeIsLimited result };

    /// Makes a run of a call of a pass: one step or more, one after the other, until one ends the call or waits, or the
    /// run is long enough. Returns the outcome of the last.
    fn go(&mut self, alloc: Global, pass: &mut Pass, call: CallNo) -> Outcome
        ensures goes { HasGone does self.old pass.old call result self.new pass.new }
        ensures limited { OutcomeIsLimited result };

    /// What a read at once of a pass may return for a request, of what is shared.
    ghost shows: { Self → PassNo → Request → Option (Result (ℕ × Answer) Refusal) → Type 0 };

    /// Answers a get or a range of a pass at once, if it may: returns the number of commits and the answer. Makes no event.
    fn read(
        &self,
        alloc: Global,
        pass: PassNo,
        request: &Request,
    ) -> Option<Result<(u64, Answer), Refusal>>
        ensures shows { shows self.now pass request.now result }
        ensures answer { IfSome result (λ read. IfOk read (λ now. IsReadAnswer now.1)) }
        ensures limited { IfSome result (λ read. IfOk read (λ now. AnswerIsLimited now.1)) };

    /// What a read of one moment may return, of what is shared.
    ghost glances: { Self → QuietRead → Option (Result (ℕ × QuietAnswer) Refusal) → Type 0 };

    /// Reads of one moment, if no put, remove or tidy is open, as `Inner::read_quiet` does. Makes no event.
    fn read_quiet(
        &self,
        alloc: Global,
        read: &QuietRead,
    ) -> Option<Result<(u64, QuietAnswer), Refusal>>
        ensures glances { glances self.now read.now result }
        ensures limited { IfSome result (λ found. IfOk found (λ now. QuietAnswerIsLimited now.1)) };

    /// What a page at once of a pass may be, of what is shared: by the view, the floor, the first key and the limit.
    ghost pages: { Self → PassNo → ViewNo → ℕ → List ℕ → ℕ → Option (Result Page Refusal) → Type 0 };

    /// Reads a page of a view at once, if it may, as `Inner::page` does. Makes no event.
    fn page(
        &self,
        alloc: Global,
        pass: PassNo,
        view: ViewNo,
        floor: u64,
        start: &Bytes,
        limit: u16,
    ) -> Option<Result<Page, Refusal>>
        ensures pages { pages self.now pass view floor start.now limit result }
        ensures floor { IfSome result (λ read. IfOk read (λ page. floor ≤ page.at)) }
        ensures limited { IfSome result (λ read. IfOk read PageIsLimited) };

    /// What a look says of a key's border, of what is shared.
    ghost looks: { Self → List ℕ → Bool → Type 0 };

    /// Returns whether tidies are to follow a remove of `key`, as `Inner::is_emptied` does. Makes no event.
    fn is_emptied(&self, key: &Key) -> bool
        ensures looks { looks self.now key.now result };
}

/// What is done between the runs of a call.
pub trait Gate {
    /// Called after each run of a call, with the outcome of its last step.
    fn between(&mut self, outcome: &Outcome);
}

/// A gate that does nothing.
#[derive(Debug, Clone, Copy, Default, PartialEq, Eq)]
pub struct NoGate;

impl Gate for NoGate {
    fn between(&mut self, _outcome: &Outcome) {}
}

/// Makes one call of a pass, from its begin to its reply: its begin, then runs of its steps until a step ends the call.
/// The gate is called after each run. If a step answers `Again`, the call could not use the node that it visited,
/// because another call has locked, changed or removed it. The thread then lets others run (`thread::yield_now`) before
/// the next run.
///
/// Over a `Door` the lock is held once for the begin and the first run together, and once for each further run. Between
/// two holdings events of other threads can come.
///
/// Costs what the events cost. Their number isn't bounded while other calls keep changing what this one visits.
///
/// # Errors
///
/// The refusal that ended the begin or the call. `WrongPass` also if the reply begins at fewer commits than the pass
/// had seen: then the pass is of another index. `Spent` if the count of events is at its greatest value: then the call
/// stays open. What the call has done until then stays done.
pub fn drive<S: Shared, G: Gate>(
    alloc: Global,
    shared: &mut S,
    pass: &mut Pass,
    gate: &mut G,
    request: Request,
) -> Result<Reply, Refusal>
    ensures reply { IfOk result (λ reply. IsReplyTo pass.old reply pass.new) }
    ensures number { pass.new.number ≡ pass.old.number }
    ensures seen { pass.old.seen ≤ pass.new.seen }
    ensures driven { IfOk result (λ reply. IsDriven S.does shared.old pass.old request reply shared.new pass.new) }
    ensures refused { IfErr result (λ refusal. IsRefused S.does shared.old pass.old request refusal shared.new pass.new) }
    ensures limited { IfOk result (λ reply. AnswerIsLimited reply.answer) }
{
    let seen = pass.seen();
    let started = shared.begin(alloc, pass, request);
    finish(alloc, shared, pass, gate, started, seen)
}

// Drives a call that was started to its end. `seen` is what the pass had seen before.
pub(crate) fn finish<S: Shared, G: Gate>(
    alloc: Global,
    shared: &mut S,
    pass: &mut Pass,
    gate: &mut G,
    started: Started,
    seen: u64,
) -> Result<Reply, Refusal>
    requires { StartIsLimited started }
    ensures drive { Finishes S.does seen started shared.old pass.old result shared.new pass.new }
    ensures limited { IfOk result (λ reply. AnswerIsLimited reply.answer) }
{
    let call = match started {
        Started::Refused(refusal) => return Err(refusal),
        Started::Begun(call) => call,
        Started::Ran(call, last) => {
            if let Some(end) = after_run(gate, last, seen) {
                return end;
            }
            call
        }
    };
    loop {
        let last = shared.go(alloc, pass, call);
        let _events = pass.events();
        if let Some(end) = after_run(gate, last, seen) {
            return end;
        }
    }
}

// After a run: calls the gate, and lets other threads run if the call waits. Returns the result with which the outcome
// of the run's last step ends the call, if it does.
fn after_run<G: Gate>(gate: &mut G, last: Outcome, seen: u64) -> Option<Result<Reply, Refusal>>
    ensures { Ends seen last result }
{
    gate.between(&last);
    if matches!(last, Outcome::Again) {
        thread::yield_now();
    }
    end_of(last, seen)
}

// Returns the result with which the outcome of a step ends its call, if it does. A reply that begins before what the
// pass had seen is of another index.
fn end_of(outcome: Outcome, seen: u64) -> Option<Result<Reply, Refusal>>
    ensures { Ends seen outcome result }
{
    match outcome {
        Outcome::Done(reply) if reply.from < seen => Some(Err(Refusal::WrongPass)),
        Outcome::Done(reply) => Some(Ok(reply)),
        Outcome::Refused(refusal) => Some(Err(refusal)),
        _ => None,
    }
}
