//! A machine of one caller, without a lock.

ghost use Rattle.std.specs.Prelude.{◌≤◌, false, IfOk, IfSome};
ghost use Rattle.mt_types.specs.Limited.{AnswerIsLimited, OutcomeIsLimited, PageIsLimited};
ghost use Rattle.mt_types.specs.Limits.{open_fault};
ghost use Rattle.mt_shared.specs.Passes.{IsNewPass};
ghost use Rattle.mt_shared.specs.Traces.{IsNewTrace};
ghost use Rattle.mt_shared.specs.Inner.{Does, IsInner, IsFresh, IsRefusedBy};
ghost use Rattle.mt_shared.specs.Changes.{ChangeIsLimited, IsChanged};
ghost use Rattle.mt_shared.specs.Drives.{HasGone, IsStarted, StartIsLimited};
ghost use Rattle.mt_shared.specs.Reads.{IsReadAnswer, ReadsNow};
ghost use Rattle.mt_reads.specs.Quiet.{QuietAnswerIsLimited};
ghost use Rattle.mt_shared.specs.Pages.{PagesNow};
ghost use Rattle.mt_shared.specs.Quiet.{QuietReadsNow};
ghost use Rattle.mt_shared.specs.Tidies.{Looks};
ghost use Rattle.mt_shared.specs.Passes.{IsTold};

use crate::changing::Changed;
use crate::driving::{Hold, Shared, Started};
use crate::inner::Inner;
use crate::pass::Pass;
use bytes::Bytes;
use mt_index::options::Options;
use mt_reads::quiet::{QuietAnswer, QuietRead};
use mt_types::event::{Answer, Event, Outcome, Request};
use mt_types::key::Key;
use mt_types::numbers::{CallNo, PassNo, ViewNo};
use mt_types::refusal::Refusal;
use mt_types::view::Page;
use std::alloc::Global;
use std::marker::Model;

/// The machine of one caller. Its calls never wait for another thread.
pub struct Lone {
    kept: Inner,
}

impl Model for Lone {
    ghost use Rattle.std.specs.Coded.{codes};
    ghost use Rattle.mt_scan.specs.CursorCode.{place_code};
    ghost use Rattle.mt_view.specs.StateCode.{state_code};
    ghost use Rattle.mt_shared.specs.Inner.{InnerView};

    ghost Value = { InnerView };

    ghost coded = { Prim.hlevel (codes, place_code, state_code) };

    ghost view = { λ l. l.kept };
}

// Written out so that its proof is made here only, and not again in each crate above.
impl Drop for Lone {
    fn drop(self) {
        let Lone { kept: _ } = self;
    }
}

impl Lone {
    /// Opens an empty machine, and returns it with pass 1, its only pass.
    ///
    /// # Errors
    ///
    /// Those of `Machine::open`.
    pub fn start(alloc: Global, options: Options) -> Result<(Lone, Pass), Refusal>
        ensures opened { IfOk result (λ r. IsFresh options 1 r.0) }
        ensures pass { IfOk result (λ r. IsNewPass false 1 r.1) }
        ensures trace { IfOk result (λ r. IsNewTrace false r.0.trace) }
        ensures fault { IsRefusedBy (open_fault options.columns options.log_capacity options.log_retention) result }
    {
        let kept = Inner::open(alloc, options, 1, false)?;
        Ok((Lone { kept }, Pass::new(alloc, 1, false)))
    }
}

impl Shared for Lone {
    /// Does nothing: nobody else uses the machine.
    fn hold(&mut self, _hold: Hold) {}

    ghost columns = { λ lone. lone.machine.columns };

    fn columns(&self) -> u8 {
        self.kept.columns()
    }

    ghost does = { Does };

    /// Does what `Inner::event` does.
    fn event(&mut self, alloc: Global, pass: &mut Pass, event: &Event) -> Outcome
        ensures does { Does self.old pass.old event.now result self.new pass.new }
        ensures told { IsTold pass.old event.now result pass.new }
        ensures limited { OutcomeIsLimited result }
        ensures kept { IsInner self.old × IsInner self.new }
    {
        self.kept.event(alloc, pass, event)
    }

    /// Does what `Inner::begin` does, without a limit of events.
    fn begin(&mut self, alloc: Global, pass: &mut Pass, request: Request) -> Started
        ensures starts { IsStarted Does self.old pass.old request result self.new pass.new }
        ensures limited { StartIsLimited result }
        ensures kept { IsInner self.old × IsInner self.new }
    {
        self.kept.begin(alloc, pass, request, u64::MAX)
    }

    /// Does what `Inner::change` does, without a limit of events.
    fn change(&mut self, alloc: Global, pass: &mut Pass, request: Request, turns: u64) -> Changed
        ensures changes { IsChanged Does self.old pass.old request turns result self.new pass.new }
        ensures limited { ChangeIsLimited result }
        ensures kept { IsInner self.old × IsInner self.new }
    {
        self.kept.change(alloc, pass, request, u64::MAX, turns)
    }

    /// Does what `Inner::go` does, without a limit of events.
    fn go(&mut self, alloc: Global, pass: &mut Pass, call: CallNo) -> Outcome
        ensures goes { HasGone Does self.old pass.old call result self.new pass.new }
        ensures limited { OutcomeIsLimited result }
        ensures kept { IsInner self.old × IsInner self.new }
    {
        self.kept.go(alloc, pass, call, u64::MAX)
    }

    ghost shows = { ReadsNow };

    /// Does what `Inner::read` does.
    fn read(
        &self,
        alloc: Global,
        pass: PassNo,
        request: &Request,
    ) -> Option<Result<(u64, Answer), Refusal>>
        ensures shows { ReadsNow self.now pass request.now result }
        ensures answer { IfSome result (λ read. IfOk read (λ now. IsReadAnswer now.1)) }
        ensures limited { IfSome result (λ read. IfOk read (λ now. AnswerIsLimited now.1)) }
        ensures kept { IsInner self.now }
    {
        self.kept.read(alloc, pass, request)
    }

    ghost glances = { QuietReadsNow };

    /// Does what `Inner::read_quiet` does.
    fn read_quiet(
        &self,
        alloc: Global,
        read: &QuietRead,
    ) -> Option<Result<(u64, QuietAnswer), Refusal>>
        ensures glances { QuietReadsNow self.now read.now result }
        ensures limited { IfSome result (λ found. IfOk found (λ now. QuietAnswerIsLimited now.1)) }
        ensures kept { IsInner self.now }
    {
        self.kept.read_quiet(alloc, read)
    }

    ghost pages = { PagesNow };

    /// Does what `Inner::page` does.
    fn page(
        &self,
        alloc: Global,
        pass: PassNo,
        view: ViewNo,
        floor: u64,
        start: &Bytes,
        limit: u16,
    ) -> Option<Result<Page, Refusal>>
        ensures pages { PagesNow self.now pass view floor start.now limit result }
        ensures floor { IfSome result (λ read. IfOk read (λ page. floor ≤ page.at)) }
        ensures limited { IfSome result (λ read. IfOk read PageIsLimited) }
        ensures kept { IsInner self.now }
    {
        self.kept.page(alloc, pass, view, floor, start, limit)
    }

    ghost looks = { Looks };

    /// Does what `Inner::is_emptied` does.
    fn is_emptied(&self, key: &Key) -> bool
        ensures looks { Looks self.now key.now result }
        ensures kept { IsInner self.now }
    {
        self.kept.is_emptied(key)
    }
}
