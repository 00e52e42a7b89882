//! The frames of a round: they are answered one after another, and then retired nodes are freed.

ghost use Rattle.std.specs.Prelude.{◌≡◌, ◌≢◌};
ghost use Rattle.mt_loop.specs.Working.{Works};

use crate::connection::{Connection, Front};
use crate::gauge::Gauge;
use mt_host::report::{Origin, Report};
use mt_host::weight::TURN;
use mt_serve::answerer::{Answerer, Keeping};
use mt_shared::driving::{Hold, Shared};
use mt_shared::pass::Pass;
use mt_talk::server::Keeper;
use mt_talk::serving::Server;
use mt_talk::tokens::Token;
use mt_types::event::Event;
use mt_wire::server::{Role, ServerQuery};
use slab::Slab;
use std::alloc::Global;
use std::mem;
use std::sync::Wait;
use std::time::Clock;

// How many queries are answered in one holding of the lock, if a frame of them doesn't have more.
const HELD: u64 = 512;

// After how many queries retired nodes are freed.
const SWEEP: u64 = 4096;

/// What answers the frames of a worker's connections.
#[derive(Drop)]
pub struct Turns {
    server: Server<Answerer>,
    // The pass by which all is done.
    pass: Pass,
    alloc: Global,
    // How many queries were answered since retired nodes were freed.
    queries: u64,
    /// Whether retired nodes are to be freed for another reason.
    pub is_due: bool,
    /// Whether no frame is to wait any longer.
    pub is_stopping: bool,
    // Whether frames that may change rows or views were answered since those that wait were last woken.
    has_changed: bool,
    // Which connection has asked that the server ends, and whether at once.
    stop: Option<(Origin, bool)>,
}

impl Turns {
    /// Returns what answers frames by this pass, for clients with these secrets.
    pub fn new(alloc: Global, pass: Pass, tokens: Vec<Token>) -> Turns {
        let answerer = Answerer::new(alloc, Keeping::Frame);
        Turns {
            server: Server::new(alloc, answerer, Keeper::new(alloc, tokens)),
            pass,
            alloc,
            queries: 0,
            is_due: false,
            is_stopping: false,
            has_changed: false,
            stop: None,
        }
    }

    /// Returns whether frames that may change rows or views were answered since the last call.
    pub fn take_change(&mut self) -> bool {
        mem::replace(&mut self.has_changed, false)
    }

    // Before a query of the server is answered: reads what the server is, without the lock. Returns whether the frame is
    // to wait.
    fn prepare<R: Wait + Clock, S: Shared>(
        &mut self,
        gauge: &Gauge<'_, R>,
        shared: &mut S,
        connection: &mut Connection,
    ) -> bool
        ensures shared { shared.new ≡ shared.old }
        ensures pass { self.new.pass ≡ self.old.pass }
    {
        let query = connection.server_query();
        if query.is_none() {
            return false;
        }
        shared.hold(Hold::Nothing);
        // (for a client that wasn't admitted the index is read for a hello alone)
        let is_hello = matches!(query, Some(ServerQuery::Hello { .. }));
        let asked = if is_hello || connection.role.is_some() {
            query
        } else {
            None
        };
        let facts = gauge.facts(self.alloc, asked);
        let is_lost = gauge.has_lost_log();
        let waits = !self.is_stopping && connection.waits(&facts, gauge.now(), is_lost);
        self.server.keeper.facts = facts;
        waits
    }

    // Before a frame with a put or a remove is answered: notes why rows can't be changed, if they can't, or puts it off while
    // the log lacks too many commits. Returns whether it is put off.
    fn puts_off<R: Wait + Clock>(
        &mut self,
        gauge: &Gauge<'_, R>,
        connection: &mut Connection,
    ) -> bool
        ensures pass { self.new.pass ≡ self.old.pass }
    {
        if !connection.changes {
            return false;
        }
        self.server.keeper.read_only = gauge.hindrance();
        let is_behind = !self.is_stopping && gauge.is_behind();
        if is_behind {
            connection.put_off(gauge.now());
        }
        is_behind
    }

    /// Returns what a client may do that has said no hello.
    pub fn first_role(&self) -> Option<Role> {
        self.server.keeper.first_role()
    }

    /// Returns which connection has asked that the server ends, and whether at once, if one has.
    pub fn take_stop(&mut self) -> Option<(Origin, bool)> {
        self.stop.take()
    }

    /// Returns the pass.
    pub fn into_pass(self) -> Pass {
        self.pass
    }

    /// Notes that a second has passed: retired nodes are to be freed if queries were answered.
    pub fn look(&mut self) {
        self.is_due = self.queries > 0;
    }

    // Answers the frame at the front of a connection. Returns how many queries were answered.
    fn answer_one<R: Wait + Clock + Eprint, S: Shared>(
        &mut self,
        gauge: &Gauge<'_, R>,
        shared: &mut S,
        connection: &mut Connection,
    ) -> u64
        ensures works { Works S.does S.shows S.pages S.glances S.looks shared.old self.old.pass shared.new self.new.pass }
    {
        self.server.inner.count = 0;
        self.server.keeper.is_memory_full = gauge.memory.is_full();
        let (server, pass) = (&mut self.server, &mut self.pass);
        if connection.answer(server, shared, pass, gauge.buffers) {
            refuse_secret(gauge, connection);
        }
        let count = self.server.inner.count;
        connection.queries = connection.queries.saturating_add(count);
        self.queries = self.queries.saturating_add(count);
        gauge.tally.answer(count);
        if let Some(is_at_once) = self.server.keeper.stop.take() {
            self.stop = Some((connection.origin, is_at_once));
        }
        count
    }

    // Answers the frames of one kind that `find_all` has found, in holdings of the lock that end after enough queries.
    fn answer_those<R: Wait + Clock + Eprint, S: Shared>(
        &mut self,
        gauge: &Gauge<'_, R>,
        shared: &mut S,
        connections: &mut Slab<Connection>,
        keys: &[usize],
        front: Front,
        keeping: Keeping,
    )
        ensures works { Works S.does S.shows S.pages S.glances S.looks shared.old self.old.pass shared.new self.new.pass }
    {
        self.server.inner.keeping = keeping;
        let mut held = 0u64;
        for key in keys {
            let Some(connection) = connections.get_mut(*key) else {
                continue;
            };
            if connection.front != front {
                continue;
            }
            if self.puts_off(gauge, connection) || self.prepare(gauge, shared, connection) {
                continue;
            }
            self.has_changed = self.has_changed || front == Front::Others;
            held = held.saturating_add(self.answer_one(gauge, shared, connection));
            if held >= HELD {
                shared.hold(Hold::Nothing);
                let _number = gauge.log_changes();
                held = 0;
            }
        }
        shared.hold(Hold::Nothing);
    }

    /// Answers frames of the connections of this round, one of each after the other, until none is to be answered. All that is
    /// done to the index meanwhile is what these frames ask, in the order in which they are answered.
    pub fn answer_all<R: Wait + Clock + Eprint, S: Shared>(
        &mut self,
        gauge: &Gauge<'_, R>,
        shared: &mut S,
        connections: &mut Slab<Connection>,
        keys: &[usize],
    )
        ensures works { Works S.does S.shows S.pages S.glances S.looks shared.old self.old.pass shared.new self.new.pass }
    {
        for _ in 0..=TURN {
            let (reads, others) = find_all(connections, keys);
            if reads == 0 && others == 0 {
                break;
            }
            if reads > 0 {
                let keeping = keeping_for(reads, Keeping::Reads);
                self.answer_those(gauge, shared, connections, keys, Front::Reads, keeping);
            }
            if others > 0 {
                let keeping = keeping_for(others, Keeping::Changes);
                self.answer_those(gauge, shared, connections, keys, Front::Others, keeping);
            }
        }
    }

    /// After enough queries, after the end of a connection, and once a second after any: raises the epoch, and frees
    /// retired nodes.
    pub fn sweep<S: Shared>(&mut self, shared: &mut S) {
        if self.is_due || self.queries >= SWEEP {
            self.is_due = false;
            self.queries = 0;
            let _epoch = shared.event(self.alloc, &mut self.pass, &Event::Advance);
            let _freed = shared.event(self.alloc, &mut self.pass, &Event::Collect);
        }
    }
}

// A hello had a wrong secret: that is counted and said, and the connection ends after a while.
fn refuse_secret<R: Wait + Clock + Eprint>(gauge: &Gauge<'_, R>, connection: &mut Connection) {
    connection.end_later(gauge.now());
    let report = Report::WrongSecret {
        origin: connection.origin,
        count: gauge.tally.refuse_secret(),
    };
    gauge.reporter.say(gauge.rt, &report);
}

// What the lock is kept for while `frames` frames of one kind are answered.
fn keeping_for(frames: usize, keeping: Keeping) -> Keeping
    ensures one { frames ≡ 1 → result ≡ Keeping.Frame }
    ensures several { frames ≢ 1 → result ≡ keeping }
{
    if frames == 1 { Keeping::Frame } else { keeping }
}

// Finds the next frame of each of these connections. Returns how many have gets and ranges alone, and how many others
// there are.
fn find_all(connections: &mut Slab<Connection>, keys: &[usize]) -> (usize, usize) {
    let mut reads = 0usize;
    let mut others = 0usize;
    for key in keys {
        if let Some(connection) = connections.get_mut(*key) {
            connection.find();
            match connection.front {
                Front::Nothing => {}
                Front::Reads => reads = reads.saturating_add(1),
                Front::Others => others = others.saturating_add(1),
            }
        }
    }
    (reads, others)
}
