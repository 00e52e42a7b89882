//! The access to an index of the worker for long frames: between two runs of a call it lets the other workers in.

ghost use Rattle.mt_shared.specs.Inner.{DoesSomewhere};
ghost use Rattle.mt_shared.specs.Reads.{ReadsSomewhere};
ghost use Rattle.mt_shared.specs.Pages.{PagesSomewhere};
ghost use Rattle.mt_shared.specs.Quiet.{QuietReadsSomewhere};
ghost use Rattle.mt_shared.specs.Tidies.{LooksSomewhere};

use bytes::Bytes;
use mt_reads::quiet::{QuietAnswer, QuietRead};
use mt_shared::changing::Changed;
use mt_shared::driving::{Hold, Shared, Started};
use mt_shared::holding::HoldingDoor;
use mt_shared::map::SharedMap;
use mt_shared::pass::Pass;
use mt_types::event::{Answer, Event, Outcome, Request};
use mt_types::key::Key;
use mt_types::numbers::{CallNo, PassNo, ViewNo};
use mt_types::refusal::Refusal;
use mt_types::view::Page;
use std::alloc::Global;
use std::marker::Model;
use std::sync::Wait;
use std::thread;
use std::time::{Clock, Duration};

// How many events of one call are made in one holding of the lock.
const EVENTS: u32 = 512;

// For how many microseconds the lock is left to others after a run. A thread that waits for it takes some 50 to wake.
const GAP: u64 = 100;

/// A `HoldingDoor` that pauses after each run of a call. Without a pause its thread takes the lock again before one that
/// waits for it is awake.
#[derive(Drop)]
pub struct PatientDoor<'a, R> {
    door: HoldingDoor<'a, R>,
    rt: &'a R,
}

impl<'a, R> Model for PatientDoor<'a, R> {
    ghost use Rattle.mt_shared.specs.declared.door.Door.{Door};

    ghost Value = { Door R };

    ghost view = { λ p. p.door };
}

impl<'a, R> PatientDoor<'a, R> {
    /// Returns a door to `index` that keeps no lock yet.
    pub fn new(index: &'a SharedMap, rt: &'a R) -> PatientDoor<'a, R> {
        PatientDoor {
            door: HoldingDoor::new(index, rt, EVENTS),
            rt,
        }
    }
}

impl<'a, R: Wait + Clock> Shared for PatientDoor<'a, R> {
    fn hold(&mut self, hold: Hold) {
        self.door.hold(hold);
    }

    ghost columns = { λ door. door.index.now };

    fn columns(&self) -> u8 {
        self.door.columns()
    }

    ghost does = { λ _ p event outcome _ q. DoesSomewhere p event outcome q };

    fn event(&mut self, alloc: Global, pass: &mut Pass, event: &Event) -> Outcome {
        self.door.event(alloc, pass, event)
    }

    fn begin(&mut self, alloc: Global, pass: &mut Pass, request: Request) -> Started {
        self.door.begin(alloc, pass, request)
    }

    fn change(&mut self, alloc: Global, pass: &mut Pass, request: Request, turns: u64) -> Changed {
        self.door.change(alloc, pass, request, turns)
    }

    /// Makes a run, and then pauses.
    fn go(&mut self, alloc: Global, pass: &mut Pass, call: CallNo) -> Outcome {
        let last = self.door.go(alloc, pass, call);
        thread::sleep(self.rt, Duration::from_micros(GAP));
        last
    }

    ghost shows = { λ _ pass request result. ReadsSomewhere pass request result };

    fn read(
        &self,
        alloc: Global,
        pass: PassNo,
        request: &Request,
    ) -> Option<Result<(u64, Answer), Refusal>> {
        self.door.read(alloc, pass, request)
    }

    ghost glances = { λ _ read result. QuietReadsSomewhere read result };

    fn read_quiet(
        &self,
        alloc: Global,
        read: &QuietRead,
    ) -> Option<Result<(u64, QuietAnswer), Refusal>> {
        self.door.read_quiet(alloc, read)
    }

    ghost pages = { λ _ pass view floor start limit result. PagesSomewhere pass view floor start limit result };

    fn page(
        &self,
        alloc: Global,
        pass: PassNo,
        view: ViewNo,
        floor: u64,
        start: &Bytes,
        limit: u16,
    ) -> Option<Result<Page, Refusal>> {
        self.door.page(alloc, pass, view, floor, start, limit)
    }

    ghost looks = { λ _ key empty. LooksSomewhere key empty };

    fn is_emptied(&self, key: &Key) -> bool {
        self.door.is_emptied(key)
    }
}
