//! The access of one thread to a map that many threads share.

ghost use Rattle.mt_shared.specs.Feeds.{CopiesSomewhere, CountsNodesSomewhere, CountsRowsSomewhere, FeedsSomewhere};
ghost use Rattle.mt_shared.specs.Inner.{DoesSomewhere};
ghost use Rattle.mt_shared.specs.Pages.{PagesSomewhere};
ghost use Rattle.mt_shared.specs.Quiet.{QuietReadsSomewhere};
ghost use Rattle.mt_shared.specs.Reads.{ReadsSomewhere};
ghost use Rattle.mt_shared.specs.Tidies.{LooksSomewhere};

use crate::answers::At;
use crate::changing::Changed;
use crate::driving::{Hold, Shared, Started};
use crate::map::SharedMap;
use crate::moment::Moment;
use crate::pass::Pass;
use bytes::Bytes;
use mt_reads::quiet::{QuietAnswer, QuietRead};
use mt_types::event::{Answer, Event, Outcome, Request};
use mt_types::key::Key;
use mt_types::numbers::{CallNo, PassNo, ViewNo};
use mt_types::refusal::Refusal;
use mt_types::row::Delta;
use mt_types::view::Page;
use mt_view::state::ViewState;
use std::alloc::Global;
use std::sync::Wait;

/// The access of one thread to a map. It makes the begin of a call and its steps one after the other while it holds the
/// lock once, until the call ends or waits for another, or `most` events were made; and, by `change`, the turns of views
/// after a call that has changed rows. With more events in a holding fewer events of other threads come between them, and
/// other threads wait longer for the lock. A read at once shares the lock with other reads. Between two calls of its
/// methods the thread doesn't hold the lock.
#[derive(Drop)]
pub struct Door<'a, W> {
    pub(crate) index: &'a SharedMap,
    pub(crate) wait: &'a W,
    pub(crate) most: u64,
}

impl<'a, W> Door<'a, W> {
    /// Returns a door to `index` that makes at most `most` events of a call while it holds the lock once (one event if
    /// `most` is 0). `wait` is the permission to wait for the lock.
    pub fn new(index: &'a SharedMap, wait: &'a W, most: u32) -> Door<'a, W> {
        Door {
            index,
            wait,
            most: u64::from(most),
        }
    }
}

impl<'a, W: Wait> Door<'a, W> {
    /// Returns the deltas of the commits after the first `from`, at most `limit`, as `Machine::feed` does. Holds the
    /// lock once, together with other reads. Makes no event.
    ///
    /// # Errors
    ///
    /// Those of `Machine::feed`.
    pub fn feed(&self, alloc: Global, from: u64, limit: u16) -> Result<Vec<Delta>, Refusal>
        ensures { FeedsSomewhere from limit result }
    {
        let index = self.index;
        index.kept.read(self.wait).feed(alloc, from, limit)
    }

    /// Returns the number of commits at which a view is, and a copy of its state, as `Machine::view_copy` does. Holds
    /// the lock once, together with other reads. Makes no event.
    ///
    /// # Errors
    ///
    /// Those of `Machine::view_copy`.
    pub fn view_copy(&self, alloc: Global, view: ViewNo) -> Result<(u64, ViewState), Refusal>
        ensures { CopiesSomewhere view.0 result }
    {
        let index = self.index;
        index.kept.read(self.wait).view_copy(alloc, view)
    }

    /// Returns how many rows there are, and after how many commits. Holds the lock once, together with other reads. Makes no
    /// event.
    pub fn len(&self) -> At<usize>
        ensures { CountsRowsSomewhere result }
    {
        let index = self.index;
        index.kept.read(self.wait).count_rows()
    }

    /// Returns how many of the `MAX_NODES` node numbers are occupied, and after how many commits. Holds the lock once,
    /// together with other reads. Makes no event.
    pub fn nodes(&self) -> At<usize>
        ensures { CountsNodesSomewhere result }
    {
        let index = self.index;
        index.kept.read(self.wait).count_nodes()
    }

    /// Takes the lock, together with other reads, and returns the index as it is at this moment. The lock is held until
    /// the moment is dropped.
    pub fn moment(&self) -> Moment<'a> {
        let index = self.index;
        Moment {
            kept: index.kept.read(self.wait),
        }
    }
}

impl<'a, W: Wait> Shared for Door<'a, W> {
    /// Does nothing: between two calls of its methods the lock isn't held.
    fn hold(&mut self, _hold: Hold) {}

    ghost columns = { λ door. door.index.now };

    fn columns(&self) -> u8 {
        self.index.columns()
    }

    // somewhere in the order in which the lock is held it was an event on what lay there
    ghost does = { λ _ p event outcome _ q. DoesSomewhere p event outcome q };

    /// Holds the lock once, for one `Inner::event`.
    fn event(&mut self, alloc: Global, pass: &mut Pass, event: &Event) -> Outcome {
        let index = self.index;
        let _turn = index.turn.take();
        index.kept.write(self.wait).event(alloc, pass, event)
    }

    /// Holds the lock once, for one `Inner::begin`.
    fn begin(&mut self, alloc: Global, pass: &mut Pass, request: Request) -> Started {
        let index = self.index;
        let _turn = index.turn.take();
        let mut kept = index.kept.write(self.wait);
        kept.begin(alloc, pass, request, self.most)
    }

    /// Holds the lock once, for one `Inner::change`.
    fn change(&mut self, alloc: Global, pass: &mut Pass, request: Request, turns: u64) -> Changed {
        let index = self.index;
        let _turn = index.turn.take();
        let mut kept = index.kept.write(self.wait);
        kept.change(alloc, pass, request, self.most, turns)
    }

    /// Holds the lock once, for one `Inner::go`.
    fn go(&mut self, alloc: Global, pass: &mut Pass, call: CallNo) -> Outcome {
        let index = self.index;
        let _turn = index.turn.take();
        let mut kept = index.kept.write(self.wait);
        kept.go(alloc, pass, call, self.most)
    }

    // somewhere in the order in which the lock is held it was read of what lay there
    ghost shows = { λ _ pass request result. ReadsSomewhere pass request result };

    /// Holds the lock once, together with other reads, for one `Inner::read`.
    fn read(
        &self,
        alloc: Global,
        pass: PassNo,
        request: &Request,
    ) -> Option<Result<(u64, Answer), Refusal>> {
        let index = self.index;
        index.kept.read(self.wait).read(alloc, pass, request)
    }

    // somewhere in the order in which the lock is held it was read of what lay there
    ghost glances = { λ _ read result. QuietReadsSomewhere read result };

    /// Holds the lock once, together with other reads, for one `Inner::read_quiet`.
    fn read_quiet(
        &self,
        alloc: Global,
        read: &QuietRead,
    ) -> Option<Result<(u64, QuietAnswer), Refusal>> {
        let index = self.index;
        index.kept.read(self.wait).read_quiet(alloc, read)
    }

    // somewhere in the order in which the lock is held it was read of what lay there
    ghost pages = { λ _ pass view floor start limit result. PagesSomewhere pass view floor start limit result };

    /// Holds the lock once, together with other reads, for one `Inner::page`.
    fn page(
        &self,
        alloc: Global,
        pass: PassNo,
        view: ViewNo,
        floor: u64,
        start: &Bytes,
        limit: u16,
    ) -> Option<Result<Page, Refusal>> {
        let index = self.index;
        index
            .kept
            .read(self.wait)
            .page(alloc, pass, view, floor, start, limit)
    }

    // somewhere in the order in which the lock is held it was looked at what lay there
    ghost looks = { λ _ key empty. LooksSomewhere key empty };

    /// Holds the lock once, together with other reads, for one `Inner::is_emptied`.
    fn is_emptied(&self, key: &Key) -> bool {
        let index = self.index;
        index.kept.read(self.wait).is_emptied(key)
    }
}
