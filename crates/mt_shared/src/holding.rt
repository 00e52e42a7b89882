//! A door that may keep the lock between calls, for a list of calls that one thread makes one after the other.

ghost use Rattle.mt_shared.specs.Inner.{DoesSomewhere};
ghost use Rattle.mt_shared.specs.Reads.{ReadsSomewhere};
ghost use Rattle.mt_shared.specs.Pages.{PagesSomewhere};
ghost use Rattle.mt_shared.specs.Quiet.{QuietReadsSomewhere};
ghost use Rattle.mt_shared.specs.Tidies.{LooksSomewhere};

use crate::changing::Changed;
use crate::door::Door;
use crate::driving::{Hold, Shared, Started};
use crate::inner::Inner;
use crate::map::SharedMap;
use crate::pass::Pass;
use crate::turn::Taken;
use bytes::Bytes;
use mt_reads::quiet::{QuietAnswer, QuietRead};
use mt_types::event::{Answer, Event, Outcome, Request};
use mt_types::key::Key;
use mt_types::numbers::{CallNo, PassNo, ViewNo};
use mt_types::refusal::Refusal;
use mt_types::view::Page;
use std::alloc::Global;
use std::marker::Model;
use std::sync::{RwLockReadGuard, RwLockWriteGuard, Wait};

/// The access of one thread to an index, for lists of calls. It is a `Door` that may keep the lock: after
/// `hold(Hold::Reads)` gets and ranges at once are read in one holding, and after `hold(Hold::Changes)` changes, and the
/// turns of views and the tidies after them, are made in one. Any other call releases the lock first, and so does a change
/// or a tidy that has to wait for another call.
///
/// While the lock is kept, other threads wait. So a caller keeps it for a list of short calls, and then calls
/// `hold(Hold::Nothing)`. Before that its thread must not wait for another thread, or use another door of the index.
#[derive(Drop)]
pub struct HoldingDoor<'a, W> {
    door: Door<'a, W>,
    held: Held<'a>,
}

// How the lock is kept between two calls.
#[derive(Drop)]
enum Held<'a> {
    Nothing,
    Reads(RwLockReadGuard<'a, Inner>),
    // (the turn is given back after the lock)
    Changes(RwLockWriteGuard<'a, Inner>, Taken<'a>),
}

// (how the lock is kept is no part of what contracts see)
impl<'a, W> Model for HoldingDoor<'a, W> {
    ghost use Rattle.mt_shared.specs.declared.door.Door.{Door};

    ghost Value = { Door W };

    ghost view = { λ h. h.door };
}

impl<'a, W> HoldingDoor<'a, W> {
    /// Returns a door to `index` that keeps no lock yet. It makes at most `most` events of a call one after the other, as
    /// `Door::new` says. `wait` is the permission to wait for the lock.
    pub fn new(index: &'a SharedMap, wait: &'a W, most: u32) -> HoldingDoor<'a, W> {
        HoldingDoor {
            door: Door::new(index, wait, most),
            held: Held::Nothing,
        }
    }
}

impl<'a, W: Wait> Shared for HoldingDoor<'a, W> {
    /// Takes the lock for reads or for changes, unless it is kept so already. If it is kept for changes, reads are made
    /// under it too. After `Nothing` it isn't held.
    fn hold(&mut self, hold: Hold) {
        match (&self.held, hold) {
            (Held::Reads(_), Hold::Reads) | (Held::Changes(_, _), Hold::Reads | Hold::Changes) =>
                return,
            _ => {}
        }
        self.held = Held::Nothing;
        let index = self.door.index;
        let wait = self.door.wait;
        self.held = match hold {
            Hold::Nothing => Held::Nothing,
            Hold::Reads => Held::Reads(index.kept.read(wait)),
            Hold::Changes => {
                let turn = index.turn.take();
                Held::Changes(index.kept.write(wait), turn)
            }
        };
    }

    ghost columns = { λ door. door.index.now };

    fn columns(&self) -> u8 {
        self.door.columns()
    }

    // somewhere in the order in which the lock is held it was an event on what lay there
    ghost does = { λ _ p event outcome _ q. DoesSomewhere p event outcome q };

    /// Makes one `Inner::event`, if the event frees nodes or advances the epoch and the lock is kept for changes; otherwise
    /// releases it, and does what `Door::event` does.
    fn event(&mut self, alloc: Global, pass: &mut Pass, event: &Event) -> Outcome {
        if let (Held::Changes(kept, _), Event::Advance | Event::Collect) = (&mut self.held, event) {
            return kept.event(alloc, pass, event);
        }
        self.held = Held::Nothing;
        self.door.event(alloc, pass, event)
    }

    /// Makes one `Inner::begin`, if the request is a tidy and the lock is kept for changes; otherwise releases it, and does
    /// what `Door::begin` does.
    fn begin(&mut self, alloc: Global, pass: &mut Pass, request: Request) -> Started {
        if let (Held::Changes(kept, _), Request::Tidy { .. }) = (&mut self.held, &request) {
            let started = kept.begin(alloc, pass, request, self.door.most);
            if matches!(started, Started::Ran(_, Outcome::Again)) {
                self.held = Held::Nothing;
            }
            return started;
        }
        self.held = Held::Nothing;
        self.door.begin(alloc, pass, request)
    }

    /// Makes one `Inner::change`, if the lock is kept for changes; otherwise releases it, and does what
    /// `Door::change` does.
    fn change(&mut self, alloc: Global, pass: &mut Pass, request: Request, turns: u64) -> Changed {
        if let Held::Changes(kept, _) = &mut self.held {
            let changed = kept.change(alloc, pass, request, self.door.most, turns);
            if matches!(changed, Changed::Started(Started::Ran(_, Outcome::Again))) {
                self.held = Held::Nothing;
            }
            return changed;
        }
        self.held = Held::Nothing;
        self.door.change(alloc, pass, request, turns)
    }

    /// Releases the lock, and does what `Door::go` does.
    fn go(&mut self, alloc: Global, pass: &mut Pass, call: CallNo) -> Outcome {
        self.held = Held::Nothing;
        self.door.go(alloc, pass, call)
    }

    // somewhere in the order in which the lock is held it was read of what lay there
    ghost shows = { λ _ pass request result. ReadsSomewhere pass request result };

    /// Makes one `Inner::read`, if the lock is kept; otherwise does what `Door::read` does.
    fn read(
        &self,
        alloc: Global,
        pass: PassNo,
        request: &Request,
    ) -> Option<Result<(u64, Answer), Refusal>> {
        match &self.held {
            Held::Nothing => self.door.read(alloc, pass, request),
            Held::Reads(kept) => kept.read(alloc, pass, request),
            Held::Changes(kept, _) => kept.read(alloc, pass, request),
        }
    }

    // somewhere in the order in which the lock is held it was read of what lay there
    ghost glances = { λ _ read result. QuietReadsSomewhere read result };

    /// Makes one `Inner::read_quiet`, if the lock is kept; otherwise does what `Door::read_quiet` does.
    fn read_quiet(
        &self,
        alloc: Global,
        read: &QuietRead,
    ) -> Option<Result<(u64, QuietAnswer), Refusal>> {
        match &self.held {
            Held::Nothing => self.door.read_quiet(alloc, read),
            Held::Reads(kept) => kept.read_quiet(alloc, read),
            Held::Changes(kept, _) => kept.read_quiet(alloc, read),
        }
    }

    // somewhere in the order in which the lock is held it was read of what lay there
    ghost pages = { λ _ pass view floor start limit result. PagesSomewhere pass view floor start limit result };

    /// Makes one `Inner::page`, if the lock is kept; otherwise does what `Door::page` does.
    fn page(
        &self,
        alloc: Global,
        pass: PassNo,
        view: ViewNo,
        floor: u64,
        start: &Bytes,
        limit: u16,
    ) -> Option<Result<Page, Refusal>> {
        match &self.held {
            Held::Nothing => self.door.page(alloc, pass, view, floor, start, limit),
            Held::Reads(kept) => kept.page(alloc, pass, view, floor, start, limit),
            Held::Changes(kept, _) => kept.page(alloc, pass, view, floor, start, limit),
        }
    }

    // somewhere in the order in which the lock is held it was looked at what lay there
    ghost looks = { λ _ key empty. LooksSomewhere key empty };

    /// Makes one `Inner::is_emptied`, if the lock is kept; otherwise does what `Door::is_emptied` does.
    fn is_emptied(&self, key: &Key) -> bool {
        match &self.held {
            Held::Nothing => self.door.is_emptied(key),
            Held::Reads(kept) => kept.is_emptied(key),
            Held::Changes(kept, _) => kept.is_emptied(key),
        }
    }
}
