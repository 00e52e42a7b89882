//! How calls begin, advance step by step and end in the machine, and what they hold of the log and of the views
//! meanwhile.

ghost use Rattle.std.specs.Prelude.{◌≡◌, ◌<◌, IsTrue, Contains, OnOk, OnErr, length, IfOk, None};
ghost use Rattle.mt_promise.specs.Legal.{begin_fault, is_build};
ghost use Rattle.mt_view.specs.Views.{places};
ghost use Rattle.mt_types.specs.declared.limits.TheConstants.{MAX_VIEWS};
ghost use Rattle.mt_types.specs.declared.event.Outcome.TheVariants.{Call as Called};
ghost use Rattle.mt_commit.specs.Log.{newest};
ghost use Rattle.mt_commit.specs.declared.log.TheConstants.{MAX_HOLDERS};
ghost use Rattle.mt_index.specs.Calls.{call_at, IsBuiltCall};
ghost use Rattle.mt_index.specs.Stands.{Begins, Steps, EndsBuild, HasBounds, pinned, released, fault_of, outcome_of, built_outcome, calls_after, log_after, views_after, placed, vacated};

use crate::calls::{Call, Calls, Found, Stepped};
use crate::machine::Machine;
use crate::viewing::close_build;
use mt_commit::log::Log;
use mt_steps::progress::Progress;
use mt_types::copying::TryCopy;
use mt_types::event::{Answer, Outcome, Reply, Request};
use mt_types::limits::{MAX_OPEN_CALLS, MAX_VIEWS, request_fault};
use mt_types::numbers::{CallNo, PassNo, ViewNo};
use mt_types::refusal::{NoMemory, Refusal};
use mt_view::views::Views;
use mt_works::building::Building;
use mt_works::work::{Work, work_of};
use std::alloc::Global;

fn is_build(request: &Request) -> bool
    ensures { result ≡ is_build request.now }
{
    matches!(request, Request::Build { .. })
}

// Why a call with this request can't begin, if something refuses it: `begun` calls have begun, `opened` are open, and
// `places` places among the views are occupied.
fn begin_fault(
    columns: u8,
    begun: u64,
    opened: usize,
    places: usize,
    request: &Request,
) -> Option<Refusal>
    ensures { result ≡ begin_fault columns begun opened places request.now }
{
    if let Some(refusal) = request_fault(columns, request) {
        return Some(refusal);
    }
    if begun == u64::MAX {
        return Some(Refusal::Spent);
    }
    if opened >= MAX_OPEN_CALLS {
        return Some(Refusal::TooManyCalls);
    }
    (is_build(request) && places >= MAX_VIEWS).then_some(Refusal::TooManyViews)
}

// Reserves a place among the views for a call that begins, if it is a build.
fn occupy(views: &mut Views, builds: bool)
    requires { IsTrue builds → places views.old < MAX_VIEWS }
    ensures { views.new ≡ placed builds views.old }
{
    if builds {
        views.reserve();
    }
}

// Releases the place of a call that has ended, if it was a build.
fn vacate(views: &mut Views, builds: bool)
    requires { IsTrue builds → 0 < views.old.building }
    ensures { views.new ≡ vacated builds views.old }
{
    if builds {
        views.release();
    }
}

// Holds the log for a call that begins, if calls of its kind do. On an error nothing changes.
fn hold(log: &mut Log, reads: bool) -> Result<(), NoMemory>
    requires few { length log.old.holders < MAX_HOLDERS }
    ensures ok { OnOk result (log.new ≡ pinned reads log.old) }
    ensures err { OnErr result (log.new ≡ log.old) }
{
    if !reads {
        return Ok(());
    }
    let number = log.number();
    log.pin(number)
}

// Releases the log for a call that has ended, if calls of its kind hold it. `from` is the number of commits at its
// begin.
fn release(log: &mut Log, reads: bool, from: u64)
    requires { IsTrue reads → Contains log.old.holders from }
    ensures { log.new ≡ released reads from log.old }
{
    if reads {
        log.unpin(from);
    }
}

// Returns the outcome of a step. If the call has ended, it is open no longer, and releases the log and its place.
fn settle(
    calls: &mut Calls,
    log: &mut Log,
    views: &mut Views,
    number: u64,
    stepped: Stepped,
) -> Outcome
    requires holds { IsTrue stepped.reads → Contains log.old.holders stepped.from }
    requires place { IsTrue stepped.builds → 0 < views.old.building }
    ensures outcome { result ≡ outcome_of number stepped.pass stepped.from (newest log.old) stepped.progress }
    ensures calls { calls.new ≡ calls_after number stepped.progress calls.old }
    ensures log { log.new ≡ log_after stepped.reads stepped.from stepped.progress log.old }
    ensures views { views.new ≡ views_after stepped.builds stepped.progress views.old }
{
    let Stepped {
        pass,
        from,
        reads,
        builds,
        progress,
    } = stepped;
    let to = log.number();
    let outcome = match progress {
        Progress::Moved => return Outcome::Moved,
        Progress::Waits => return Outcome::Again,
        Progress::Committed(commit) => return Outcome::Commit(commit),
        Progress::Answered(answer) => Outcome::Done(Reply {
            pass,
            call: CallNo(number),
            from,
            to,
            answer,
        }),
        Progress::Refused(refusal) => Outcome::Refused(refusal),
    };
    calls.end(number);
    release(log, reads, from);
    vacate(views, builds);
    outcome
}

// Returns the outcome of the end of a build.
fn built_outcome(
    pass: PassNo,
    number: u64,
    from: u64,
    to: u64,
    opened: Result<u64, Refusal>,
) -> Outcome
    ensures { result ≡ built_outcome pass number from to opened }
{
    match opened {
        Ok(view) => Outcome::Done(Reply {
            pass,
            call: CallNo(number),
            from,
            to,
            answer: Answer::Built(ViewNo(view)),
        }),
        Err(refusal) => Outcome::Refused(refusal),
    }
}

impl Machine {
    // Returns why no call with this request can begin, if something refuses it.
    pub(crate) fn fault_of(&self, request: &Request) -> Option<Refusal>
        ensures { result ≡ fault_of self.now request.now }
    {
        let (begun, opened, places) = (self.calls.begun(), self.calls.len(), self.views.places());
        begin_fault(self.columns, begun, opened, places, request)
    }

    // Begins a call that nothing refuses, and returns its number. On an error nothing changes.
    pub(crate) fn admit(
        &mut self,
        alloc: Global,
        pass: PassNo,
        request: Request,
    ) -> Result<CallNo, NoMemory>
        requires { fault_of self.old request ≡ None }
        ensures begins { IfOk result (λ number. Begins self.old pass request (Called number) self.new) }
        ensures err { OnErr result (self.new ≡ self.old) }
        ensures bounds { HasBounds self.old.log.capacity self.old.log.retention self.new.log }
    {
        let from = self.log.number();
        let work = work_of(alloc, self.columns, from, request)?;
        let (reads, builds) = (work.reads_log(), work.is_build());
        hold(&mut self.log, reads)?;
        let call = Call {
            pass,
            from,
            epoch: self.epoch,
            work,
        };
        let Ok(number) = self.calls.begin(call) else {
            release(&mut self.log, reads, from);
            return Err(NoMemory);
        };
        occupy(&mut self.views, builds);
        Ok(CallNo(number))
    }

    // Begins a call that nothing refuses.
    pub(crate) fn admitted(&mut self, alloc: Global, pass: PassNo, request: Request) -> Outcome
        requires { fault_of self.old request ≡ None }
        ensures begins { Begins self.old pass request result self.new }
        ensures bounds { HasBounds self.old.log.capacity self.old.log.retention self.new.log }
    {
        match self.admit(alloc, pass, request) {
            Ok(number) => Outcome::Call(number),
            Err(_) => Outcome::Refused(Refusal::NoMemory),
        }
    }

    // Begins a call with a copy of a request, unless something refuses it.
    pub(crate) fn begin(&mut self, alloc: Global, pass: PassNo, request: &Request) -> Outcome
        ensures begins { Begins self.old pass request.now result self.new }
        ensures bounds { HasBounds self.old.log.capacity self.old.log.retention self.new.log }
    {
        if let Some(refusal) = self.fault_of(request) {
            return Outcome::Refused(refusal);
        }
        match request.copy(alloc) {
            Ok(request) => self.admitted(alloc, pass, request),
            Err(_) => Outcome::Refused(Refusal::NoMemory),
        }
    }

    // Makes a step of the call of this number, by which it advances, waits or ends.
    pub(crate) fn step(&mut self, alloc: Global, number: u64) -> Outcome
        ensures steps { Steps self.old number result self.new }
        ensures bounds { HasBounds self.old.log.capacity self.old.log.retention self.new.log }
    {
        let stepped = match self.calls.step(
            alloc,
            self.columns,
            self.epoch,
            number,
            &mut self.tree,
            &mut self.log,
        ) {
            Found::Missing => return Outcome::Refused(Refusal::NoSuchCall),
            Found::Built => return self.end_build(number),
            Found::Stepped(stepped) => stepped,
        };
        let outcome = settle(
            &mut self.calls,
            &mut self.log,
            &mut self.views,
            number,
            stepped,
        );
        let _sound = self.log.number();
        self.log.trim();
        outcome
    }

    // Ends a build that has taken all, and opens its view at the number of commits that the build has reached.
    #[inline(never)]
    fn end_build(&mut self, number: u64) -> Outcome
        requires { IsBuiltCall (call_at number self.old.calls.calls) }
        ensures ends { EndsBuild self.old number result self.new }
        ensures bounds { HasBounds self.old.log.capacity self.old.log.retention self.new.log }
    {
        let Some(call) = self.calls.remove(number) else {
            unreachable!()
        };
        let Call {
            pass,
            from,
            work,
            ..
        } = call;
        let Work::Build(building) = work else {
            unreachable!()
        };
        let Building { build, .. } = building;
        let to = self.log.number();
        let opened = close_build(&mut self.log, &mut self.views, from, build.finish());
        self.log.trim();
        built_outcome(pass, number, from, to, opened)
    }
}
