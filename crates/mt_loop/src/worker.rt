//! A worker: it waits until some of its connections are ready, reads them, answers their frames, and writes.

use crate::connection::Connection;
use crate::desk::{Desk, WAKER};
use crate::gauge::Gauge;
use crate::moving::{Share, destination};
use crate::stop::Stop;
use crate::turns::Turns;
use mio::{Events, Poll, Token};
use mt_host::limits::Limits;
use mt_host::parking::Parking;
use mt_host::report::{Asker, Report};
use mt_shared::driving::Shared;
use mt_shared::pass::Pass;
use mt_talk::tokens::Token as Secret;
use slab::Slab;
use std::alloc::{AllocError, Global};
use std::io::ErrorKind;
use std::sync::Wait;
use std::time::{Clock, Duration};
use std::{io, mem};

// How many bytes a read asks for.
const PIECE: usize = 16_384;

// How many events one wait returns at most.
const EVENTS: usize = 256;

// How many milliseconds a wait lasts at most, while there are connections, and while the last answers go.
const LONGEST: u64 = 1000;

const LAST: u64 = 10;

// For how many rounds, and for how many seconds, a worker that is to stop answers and writes.
const LAST_ROUNDS: u32 = 100_000;

const LAST_SECONDS: u64 = 10;

/// What a worker keeps.
#[derive(Drop)]
pub struct Worker {
    pub(crate) poll: Poll,
    events: Events,
    pub(crate) connections: Slab<Connection>,
    piece: Vec<u8>,
    // Connections of this round, and those of the next one that aren't waited for.
    pub(crate) keys: Vec<usize>,
    pub(crate) again: Vec<usize>,
    pub(crate) turns: Turns,
    pub(crate) parking: Parking,
    limits: Limits,
    pub(crate) alloc: Global,
    // Seconds since the start, and at the last look for connections that are late.
    pub(crate) now: u64,
    looked: u64,
    // The number of its desk, and which frames it answers.
    pub(crate) number: usize,
    pub(crate) share: Share,
}

impl Worker {
    /// Returns a worker without connections, which waits by `poll`, for clients with these secrets. `place` is the number of
    /// its desk, and which frames it answers.
    pub fn new(
        alloc: Global,
        poll: Poll,
        pass: Pass,
        limits: Limits,
        tokens: Vec<Secret>,
        place: (usize, Share),
    ) -> Result<Worker, AllocError> {
        let (number, share) = place;
        Ok(Worker {
            poll,
            events: Events::with_capacity(alloc, EVENTS)?,
            connections: Slab::new(alloc),
            piece: Vec::from_elem(alloc, 0, PIECE)?,
            keys: Vec::new(alloc),
            again: Vec::new(alloc),
            turns: Turns::new(alloc, pass, tokens),
            parking: Parking::new(alloc),
            limits,
            alloc,
            now: 0,
            looked: 0,
            number,
            share,
        })
    }

    // Ends a connection, and says why if its session was broken off.
    fn end<R: Wait + Clock + Eprint>(&mut self, gauge: &Gauge<'_, R>, key: usize, desk: &Desk) {
        self.turns.is_due = true;
        let _parked = self.unpark(key, desk);
        if let Some(connection) = self.connections.try_remove(key) {
            gauge.buffers.note(connection.noted, 0);
            if let Some(report) = connection.broken_off() {
                gauge.tally.break_off();
                gauge.reporter.say(gauge.rt, &report);
            }
            desk.leave();
        }
    }

    // For how long to wait: at most a second if there are connections, or lines were left out, and no longer than the first
    // of those that wait.
    fn timeout<R: Wait + Clock>(&self, gauge: &Gauge<'_, R>, longest: u64) -> Option<Duration> {
        if !self.again.is_empty() {
            return Some(Duration::ZERO);
        }
        if self.connections.is_empty() && !gauge.reporter.has_left_out() {
            return None;
        }
        let longest = match self.parking.first_end() {
            Some(until) => longest.min(until.saturating_sub(gauge.now())),
            None => longest,
        };
        Some(Duration::from_millis(longest))
    }

    // Waits until a connection is ready, the time of one has come, or the worker is woken.
    fn wait<R: Wait + Clock>(&mut self, gauge: &Gauge<'_, R>, longest: u64) -> io::Result<()> {
        let timeout = self.timeout(gauge, longest);
        match self.poll.poll(&mut self.events, timeout) {
            Ok(()) => {}
            Err(error) if error.kind() == ErrorKind::Interrupted => {}
            Err(error) => return Err(error),
        }
        self.now = gauge.start.elapsed(gauge.rt)?.as_secs();
        Ok(())
    }

    // Collects the connections that are ready: those that weren't done with, and those that the wait has found. Returns
    // whether the desk has new ones.
    fn gather(&mut self) -> bool {
        self.keys.clear();
        mem::swap(&mut self.keys, &mut self.again);
        let mut is_woken = false;
        for event in self.events.iter() {
            let token = event.token();
            if token == WAKER {
                is_woken = true;
            } else if let Some(connection) = self.connections.get_mut(token.0) {
                let is_hung_up = event.is_read_closed() || event.is_error();
                connection.wake(event.is_readable(), is_hung_up);
                if !connection.is_listed {
                    connection.is_listed = true;
                    let _ = self.keys.push(token.0);
                }
            }
        }
        is_woken
    }

    // Writes and reads the connections of this round.
    fn begin_all<R: Wait + Clock>(&mut self, gauge: &Gauge<'_, R>, keys: &[usize]) {
        for key in keys {
            if let Some(connection) = self.connections.get_mut(*key) {
                let piece = self.piece.as_mut_slice();
                if connection.begin(piece, self.now, gauge.buffers) {
                    connection.read_later(gauge.now());
                }
            }
        }
    }

    // Writes the connections of this round, and ends those that are over.
    fn end_all<R: Wait + Clock + Eprint>(
        &mut self,
        gauge: &Gauge<'_, R>,
        keys: &[usize],
        desk: &Desk,
    ) {
        for key in keys {
            let Some(connection) = self.connections.get_mut(*key) else {
                continue;
            };
            connection.end(self.now);
            connection.note_kept(gauge.buffers);
            let (read, written) = connection.take_moved();
            gauge.tally.move_bytes(read, written);
            if connection.is_over() {
                self.end(gauge, *key, desk);
                continue;
            }
            if let Some(to) = destination(gauge, self.share, self.turns.is_stopping, connection) {
                self.send(gauge, *key, desk, to);
                continue;
            }
            if connection.is_ready() {
                self.list(*key);
            }
            self.park(*key, desk);
        }
    }

    // All connections, in the memory of `keys`.
    fn all_keys(&mut self) -> Vec<usize> {
        let mut keys = mem::replace(&mut self.keys, Vec::new(self.alloc));
        keys.clear();
        for (key, _) in self.connections.iter() {
            let _ = keys.push(key);
        }
        keys
    }

    // Once a second, ends the connections that are late.
    fn look<R: Wait + Clock + Eprint>(&mut self, gauge: &Gauge<'_, R>, desk: &Desk) {
        if self.now == self.looked {
            return;
        }
        self.looked = self.now;
        gauge.reporter.catch_up(gauge.rt);
        self.turns.look();
        let keys = self.all_keys();
        for key in &keys {
            let Some(connection) = self.connections.get_mut(*key) else {
                continue;
            };
            if connection.is_late(self.limits, self.now) {
                self.end(gauge, *key, desk);
            }
        }
        self.keys = keys;
    }

    // Ends all threads, if a client has asked for it.
    fn obey<R: Wait + Clock + Eprint>(&mut self, gauge: &Gauge<'_, R>, stop: &Stop) {
        let Some((origin, is_at_once)) = self.turns.take_stop() else {
            return;
        };
        if !stop.is_stopping() {
            let report = Report::Stopping(Asker::Query(origin));
            gauge.reporter.say(gauge.rt, &report);
        }
        if is_at_once {
            stop.stop_at_once(gauge.desks);
        } else {
            stop.stop(gauge.desks);
        }
    }

    // After changes: calls the thread of the log. Answers to changes wait until these are durable, if they are to.
    fn hold_all<R: Wait + Clock>(&mut self, gauge: &Gauge<'_, R>, keys: &[usize]) {
        let Some(number) = gauge.log_changes() else {
            return;
        };
        for key in keys {
            if let Some(connection) = self.connections.get_mut(*key) {
                connection.hold(number);
            }
        }
    }

    // One round: waits, reads, answers and writes.
    fn round<R: Wait + Clock + Eprint, S: Shared>(
        &mut self,
        gauge: &Gauge<'_, R>,
        desk: &Desk,
        shared: &mut S,
        stop: &Stop,
        longest: u64,
    ) -> io::Result<()> {
        self.wait(gauge, longest)?;
        self.look(gauge, desk);
        self.release_all(gauge, desk);
        if self.gather() {
            self.welcome_all(gauge, desk);
        }
        self.defer();
        let keys = mem::replace(&mut self.keys, Vec::new(self.alloc));
        self.begin_all(gauge, &keys);
        self.turns
            .answer_all(gauge, shared, &mut self.connections, &keys);
        if self.turns.take_change() {
            self.hold_all(gauge, &keys);
            gauge.wake_waiting();
        }
        self.obey(gauge, stop);
        self.end_all(gauge, &keys, desk);
        self.keys = keys;
        self.turns.sweep(shared);
        Ok(())
    }

    // Whether bytes are to go.
    fn has_output(&self) -> bool {
        for (_, connection) in self.connections.iter() {
            if connection.has_output() {
                return true;
            }
        }
        false
    }

    // Answers the frames that came, and writes what is to go, for at most ten seconds. Then all connections are ended.
    fn finish<R: Wait + Clock + Eprint, S: Shared>(
        &mut self,
        gauge: &Gauge<'_, R>,
        desk: &Desk,
        shared: &mut S,
        stop: &Stop,
    ) -> io::Result<()> {
        self.turns.is_stopping = true;
        let keys = self.all_keys();
        for key in &keys {
            if let Some(connection) = self.connections.get_mut(*key) {
                connection.is_listed = true;
                connection.moves = false;
                connection.wake(true, false);
                connection.end_wait();
                connection.end_delay();
            }
        }
        self.again = keys;
        let last = self.now.saturating_add(LAST_SECONDS);
        for _ in 0..LAST_ROUNDS {
            let is_done = self.again.is_empty() && !self.has_output();
            if self.now > last || is_done && desk.close(gauge.rt) {
                break;
            }
            self.round(gauge, desk, shared, stop, LAST)?;
        }
        Ok(())
    }
}

/// Serves the connections of a desk until it is to stop, and returns the pass.
///
/// # Errors
///
/// If a wait failed, or the clock.
pub fn work<R: Wait + Clock + Eprint, S: Shared>(
    gauge: &Gauge<'_, R>,
    worker: Worker,
    desk: &Desk,
    shared: &mut S,
    stop: &Stop,
) -> io::Result<Pass> {
    let mut worker = worker;
    for _ in gauge.rt.forever() {
        worker.round(gauge, desk, shared, stop, LONGEST)?;
        if stop.is_at_once() {
            break;
        }
        if stop.is_stopping() {
            worker.welcome_all(gauge, desk);
            worker.finish(gauge, desk, shared, stop)?;
            break;
        }
        if stop.is_closing() {
            worker.welcome_all(gauge, desk);
            if worker.connections.is_empty() && desk.close(gauge.rt) {
                break;
            }
        }
    }
    Ok(worker.turns.into_pass())
}
