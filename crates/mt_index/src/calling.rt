//! Calls that begin and run in one function: a put or remove that ends within its run is never stored.

ghost use Rattle.std.specs.Prelude.{◌≡◌, true, None};
ghost use Rattle.mt_index.specs.declared.calling.CallRun.TheVariants.{Ran};
ghost use Rattle.mt_index.specs.Alone.{IsIdle};
ghost use Rattle.mt_index.specs.Stands.{fault_of, outcome_of};
ghost use Rattle.mt_index.specs.Runs.{BeginsOrNot, CallGoes, RunIsLimited, RunsAtMost, has_ended};
ghost use Rattle.mt_works.specs.Works.{is_write};

use crate::calls::Call;
use crate::machine::Machine;
use crate::running::Run;
use mt_steps::progress::Progress;
use mt_types::event::{Outcome, Reply, Request};
use mt_types::numbers::{CallNo, PassNo};
use mt_types::refusal::Refusal;
use mt_works::work::{Work, write_of};
use mt_write::running::WriteRun;
use std::alloc::Global;

/// What a call came to that was begun and run.
#[derive(Debug, Drop)]
pub enum CallRun {
    /// Its begin was refused, and nothing has changed.
    Refused(Refusal),
    /// The call of this number has begun and made a run.
    Ran(CallNo, Run),
}

pub(crate) fn is_write(request: &Request) -> bool
    ensures { result ≡ is_write request.now }
{
    matches!(
        request,
        Request::Put { .. } | Request::PutIf { .. } | Request::Remove { .. }
    )
}

// Returns whether a step has ended its call.
fn has_ended(progress: &Progress) -> bool
    ensures { result ≡ has_ended progress.now }
{
    matches!(progress, Progress::Answered(_) | Progress::Refused(_))
}

// Returns the outcome of a step of a call that began after `from` commits, when there are `to`.
fn outcome_of(number: u64, pass: PassNo, from: u64, to: u64, progress: Progress) -> Outcome
    ensures { result ≡ outcome_of number pass from to progress }
{
    match progress {
        Progress::Moved => Outcome::Moved,
        Progress::Waits => Outcome::Again,
        Progress::Committed(commit) => Outcome::Commit(commit),
        Progress::Answered(answer) => Outcome::Done(Reply {
            pass,
            call: CallNo(number),
            from,
            to,
            answer,
        }),
        Progress::Refused(refusal) => Outcome::Refused(refusal),
    }
}

// Returns what a call came to that began after `from` commits and has made a run, when there are `to`.
fn ran(number: u64, pass: PassNo, from: u64, to: u64, run: WriteRun) -> CallRun
    ensures { result ≡ Ran (record { 0 = number })
        (record { steps = run.steps; commits = run.commits; last = outcome_of number pass from to run.last }) }
{
    let run = Run {
        steps: run.steps,
        commits: run.commits,
        last: outcome_of(number, pass, from, to, run.last),
    };
    CallRun::Ran(CallNo(number), run)
}

impl Machine {
    // Begins a put or remove that nothing refuses, while no call is open, and makes a run of it. The call is stored
    // among the open ones only if it has not ended.
    pub(crate) fn run_write(
        &mut self,
        alloc: Global,
        pass: PassNo,
        request: Request,
        most: u64,
    ) -> CallRun
        requires idle { IsIdle self.old }
        requires none { fault_of self.old request ≡ None }
        requires write { is_write request ≡ true }
        ensures begins { BeginsOrNot self.old pass request result self.new }
        ensures most { RunsAtMost most result }
    {
        let from = self.log.number();
        let mut write = write_of(request);
        let run = write.run(alloc, self.columns, &mut self.tree, &mut self.log, most);
        let to = self.log.number();
        if has_ended(&run.last) {
            let number = self.calls.count_one();
            return ran(number, pass, from, to, run);
        }
        let number = self.calls.begin_first(Call {
            pass,
            from,
            epoch: self.epoch,
            work: Work::Write(write),
        });
        ran(number, pass, from, to, run)
    }

    /// Begins a call of a pass, and makes a run of it: steps, one after the other, until one of them ends the call or
    /// waits, or `most` are made. At least one is made, also if `most` is 0. The begin and each step are the events that
    /// [`Machine::event`] makes for them. The request is moved into the call, not copied. A put or remove that begins
    /// while no other call is open, and ends within its run, is never stored among the open calls.
    ///
    /// Costs what the steps cost.
    pub fn call(&mut self, alloc: Global, pass: PassNo, request: Request, most: u64) -> CallRun
        ensures goes { CallGoes self.old pass request result self.new }
        ensures most { RunsAtMost most result }
        ensures limited { RunIsLimited result }
    {
        let _stands = self.is_idle();
        if let Some(refusal) = self.fault_of(&request) {
            return CallRun::Refused(refusal);
        }
        if self.calls.len() == 0 && is_write(&request) {
            return self.run_write(alloc, pass, request, most);
        }
        match self.admit(alloc, pass, request) {
            Ok(call) => CallRun::Ran(call, self.go(alloc, call, most)),
            Err(_) => CallRun::Refused(Refusal::NoMemory),
        }
    }
}
