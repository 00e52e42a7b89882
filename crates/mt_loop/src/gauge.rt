//! What a server counts, and what it reads of its index for an operator.

ghost use Rattle.std.specs.Prelude.{◌≡◌, IfOk, IfSome, None, map};
ghost use Rattle.mt_shared.specs.Moments.{machine_of};
ghost use Rattle.mt_loop.specs.Listing.{listed, ListsSomewhere};

use crate::desk::Desk;
use mt_host::buffers::Buffers;
use mt_host::durability::{DiskState, Durability};
use mt_host::memory::Memory;
use mt_host::parking::{DURABLE, LATER, Parking};
use mt_host::reporting::Reporter;
use mt_shared::door::Door;
use mt_shared::map::SharedMap;
use mt_shared::moment::Moment;
use mt_talk::facts::Facts;
use mt_talk::listing::Listing;
use mt_types::copying::TryCopy;
use mt_types::limits::MAX_VIEWS;
use mt_types::numbers::ViewNo;
use mt_types::refusal::Refusal;
use mt_wire::server::{Awaited, ListedView, ServerQuery, ServerRefusal};
use std::alloc::Global;
use std::sync::Wait;
use std::sync::atomic::{AtomicUsize, Ordering};
use std::time::{Clock, Instant};

/// What the threads of a server count.
#[derive(Drop)]
pub struct Tally {
    /// The name of this run of the server.
    pub run: u128,
    accepted: AtomicUsize,
    turned_away: AtomicUsize,
    frames: AtomicUsize,
    queries: AtomicUsize,
    faults: AtomicUsize,
    input_bytes: AtomicUsize,
    output_bytes: AtomicUsize,
    wrong_secrets: AtomicUsize,
}

impl Tally {
    /// Returns counts of nothing, for the run of this name.
    pub fn new(run: u128) -> Tally {
        Tally {
            run,
            accepted: AtomicUsize::new(0),
            turned_away: AtomicUsize::new(0),
            frames: AtomicUsize::new(0),
            queries: AtomicUsize::new(0),
            faults: AtomicUsize::new(0),
            input_bytes: AtomicUsize::new(0),
            output_bytes: AtomicUsize::new(0),
            wrong_secrets: AtomicUsize::new(0),
        }
    }

    /// Counts a connection that was accepted, and returns its number, from 1 on.
    pub fn accept(&self) -> u64 {
        let earlier = self.accepted.fetch_add(1, Ordering::Relaxed);
        (earlier as u64).saturating_add(1)
    }

    /// Counts a connection that was one too many.
    pub fn turn_away(&self) {
        self.turned_away.fetch_add(1, Ordering::Relaxed);
    }

    /// Counts a frame of these queries that was answered.
    pub fn answer(&self, queries: u64) {
        self.frames.fetch_add(1, Ordering::Relaxed);
        self.queries.fetch_add(queries as usize, Ordering::Relaxed);
    }

    /// Counts bytes that were read and written.
    pub fn move_bytes(&self, read: usize, written: usize) {
        self.input_bytes.fetch_add(read, Ordering::Relaxed);
        self.output_bytes.fetch_add(written, Ordering::Relaxed);
    }

    /// Counts a hello with a wrong secret, and returns how many there were.
    pub fn refuse_secret(&self) -> u64 {
        let earlier = self.wrong_secrets.fetch_add(1, Ordering::Relaxed);
        (earlier as u64).saturating_add(1)
    }

    /// Counts a session that was broken off.
    pub fn break_off(&self) {
        self.faults.fetch_add(1, Ordering::Relaxed);
    }
}

/// What reads the facts of a server, for one of its workers.
#[derive(Clone, Copy)]
pub struct Gauge<'a, R> {
    pub rt: &'a R,
    pub index: &'a SharedMap,
    pub desks: &'a [Desk],
    pub tally: &'a Tally,
    /// What is kept for the connections.
    pub buffers: &'a Buffers,
    /// How much memory is used.
    pub memory: &'a Memory,
    /// What writes what is said of the server.
    pub reporter: &'a Reporter,
    pub start: Instant,
    /// What is known of the log, if commits go to one.
    pub durability: Option<&'a Durability>,
}

/// Returns how many connections are open.
pub fn open(desks: &[Desk]) -> u64 {
    let mut open = 0u64;
    for desk in desks {
        open = open.saturating_add(desk.load() as u64);
    }
    open
}

// The views of a moment.
fn listing_of(alloc: Global, moment: &Moment<'_>) -> Result<Listing, Refusal>
    ensures { IfOk result (λ listing. listing ≡ map listed (machine_of moment.now).views.views) }
{
    let mut listing = Listing::new(alloc);
    for (number, state) in moment.views() {
        listing.push(ListedView {
            number: ViewNo(*number),
            at: state.at(),
            rows: state.count(),
            spec: state.spec().copy(alloc)?,
        })?;
    }
    Ok(listing)
}

impl<'a, R: Wait + Clock> Gauge<'a, R> {
    /// Returns the time since the start, in milliseconds.
    pub fn now(&self) -> u64 {
        match self.start.elapsed(self.rt) {
            Ok(elapsed) => {
                let millis = u64::from(elapsed.subsec_millis());
                elapsed
                    .as_secs()
                    .saturating_mul(1000)
                    .saturating_add(millis)
            }
            Err(_) => 0,
        }
    }

    // What the index is at one moment. Its nodes and its log aren't counted while a change waits for another one.
    fn read_index(&self, alloc: Global, query: Option<&ServerQuery>, facts: &mut Facts)
        requires { facts.old.views ≡ None }
        ensures { IfSome facts.new.views ListsSomewhere }
    {
        let door = Door::new(self.index, self.rt, 1);
        let moment = door.moment();
        let machine = moment.machine();
        facts.commits = moment.commits();
        facts.rows = moment.len() as u64;
        facts.standing = moment.views().count() as u64;
        match query {
            Some(ServerQuery::Views) => facts.views = listing_of(alloc, &moment).ok(),
            Some(
                ServerQuery::Wait {
                    of: Awaited::View(view),
                    ..
                },
            ) => facts.watched = moment.view(*view).map(|state| state.at()),
            _ => {}
        }
        if let Some(machine) = machine {
            facts.nodes = machine.nodes() as u64;
            facts.logged = match machine.feed(alloc, 0, 1) {
                Err(Refusal::Behind(number)) => number,
                _ => 0,
            };
        }
    }

    /// Returns how many commits there are.
    pub fn commits(&self) -> u64 {
        Door::new(self.index, self.rt, 1).moment().commits()
    }

    /// Returns the number of the last commit that no crash undoes, if commits go to a log.
    pub fn durable(&self) -> Option<u64> {
        self.durability.map(|durability| durability.durable())
    }

    /// Returns whether the disk of the log has failed.
    pub fn has_lost_log(&self) -> bool {
        match self.durability {
            Some(durability) => durability.disk() == DiskState::Failed,
            None => false,
        }
    }

    /// Returns why rows can't be changed now, if they can't.
    pub fn hindrance(&self) -> Option<ServerRefusal> {
        let durability = self.durability?;
        match durability.disk() {
            DiskState::Usable => None,
            DiskState::Full => Some(ServerRefusal::DiskFull),
            DiskState::Failed => Some(ServerRefusal::DiskFailed {
                durable: durability.durable(),
            }),
        }
    }

    /// Returns whether changes are put off, since too many commits wait for the log.
    pub fn is_behind(&self) -> bool {
        match self.durability {
            Some(durability) => durability.is_behind() && durability.disk() == DiskState::Usable,
            None => false,
        }
    }

    /// After changes: notes how many commits there are, and calls the thread of the log. Returns the number of commits up to
    /// which they are durable when they may be answered, if they aren't yet.
    pub fn log_changes(&self) -> Option<u64> {
        let durability = self.durability?;
        let newest = self.commits();
        durability.note_newest(newest);
        durability.call(self.rt);
        (durability.is_waited_for() && newest > durability.durable()).then_some(newest)
    }

    /// Returns how many commits there are, under the number 0, at which commit each view is, under its number, and how many
    /// commits are durable, under `DURABLE`, of those that connections wait for. A view that isn't there has the greatest
    /// number.
    pub fn reached(&self, alloc: Global, parking: &Parking) -> Vec<(u64, u64)> {
        let door = Door::new(self.index, self.rt, 1);
        let moment = door.moment();
        let mut reached = Vec::new(alloc);
        let mut next = parking.next_view(0);
        for _ in 0..=MAX_VIEWS.saturating_add(2) {
            let Some(view) = next else {
                break;
            };
            let at = match (view, moment.view(ViewNo(view))) {
                (0, _) => moment.commits(),
                (DURABLE, _) => self.durable().unwrap_or(0),
                (LATER, _) => 0,
                (_, Some(state)) => state.at(),
                (_, None) => u64::MAX,
            };
            let _ = reached.push((view, at));
            next = match view.checked_add(1) {
                Some(from) => parking.next_view(from),
                None => None,
            };
        }
        reached
    }

    /// Returns the desks at which new connections are left: all but that of the worker for long frames, if there is one.
    pub fn first_desks(&self) -> &'a [Desk] {
        match self.desks.split_last() {
            Some((_, short)) if !short.is_empty() => short,
            _ => self.desks,
        }
    }

    /// Wakes the workers that have connections which wait for commits.
    pub fn wake_waiting(&self) {
        for desk in self.desks {
            if desk.is_waiting() {
                let _ = desk.wake();
            }
        }
    }

    /// Returns what the server is now, as far as this query asks for it: without one nothing of the index. The worker holds no
    /// lock.
    pub fn facts(&self, alloc: Global, query: Option<&ServerQuery>) -> Facts
        ensures lists { IfSome result.views ListsSomewhere }
    {
        let mut facts = Facts {
            run: self.tally.run,
            columns: self.index.columns(),
            commits: 0,
            rows: 0,
            logged: 0,
            nodes: 0,
            standing: 0,
            connections: open(self.desks),
            accepted: self.tally.accepted.load(Ordering::Relaxed) as u64,
            turned_away: self.tally.turned_away.load(Ordering::Relaxed) as u64,
            frames: self.tally.frames.load(Ordering::Relaxed) as u64,
            queries: self.tally.queries.load(Ordering::Relaxed) as u64,
            faults: self.tally.faults.load(Ordering::Relaxed) as u64,
            input_bytes: self.tally.input_bytes.load(Ordering::Relaxed) as u64,
            output_bytes: self.tally.output_bytes.load(Ordering::Relaxed) as u64,
            wrong_secrets: self.tally.wrong_secrets.load(Ordering::Relaxed) as u64,
            buffered_bytes: self.buffers.kept(),
            resident_bytes: self.memory.resident(),
            milliseconds: self.now(),
            views: None,
            watched: None,
            durable: self.durable(),
        };
        if query.is_some() {
            self.read_index(alloc, query, &mut facts);
        }
        facts
    }
}
