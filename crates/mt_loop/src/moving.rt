//! How connections come to a worker, and move to another one: a long frame is answered by a worker of its own, so that the
//! other connections of a worker don't wait for it.

ghost use Rattle.std.specs.Prelude.{◌≡◌, ◌≢◌, ◌<◌, ◌≤◌, ◌+◌};

use crate::connection::Connection;
use crate::desk::{Arrival, Desk};
use crate::gauge::Gauge;
use crate::worker::Worker;
use mio::Token;
use mt_host::report::unserved;
use std::alloc::AllocError;
use std::io;
use std::io::ErrorKind;
use std::sync::Wait;
use std::time::Clock;

/// Which frames a worker answers.
#[derive(Clone, Copy, Debug, PartialEq, Eq)]
pub enum Share {
    /// All. It is the only worker.
    All,
    /// All but long ones.
    Short,
    /// Long ones.
    Long,
}

/// Returns which frames the worker with this number answers, of `count` workers: the last of several answers long ones.
pub fn share_of(number: usize, count: usize) -> Share
    ensures alone { count < 2 → result ≡ Share.All }
    ensures last { 2 ≤ count → number + 1 ≡ count → result ≡ Share.Long }
    ensures other { 2 ≤ count → number + 1 ≢ count → result ≡ Share.Short }
{
    if count < 2 {
        Share::All
    } else if number == count - 1 {
        Share::Long
    } else {
        Share::Short
    }
}

/// Returns the desk to which a connection is to go after a round: that for long frames, if its next frame is one, or back to
/// its own when it was answered. Those that wait stay, and all when the server stops.
pub fn destination<'a, R>(
    gauge: &Gauge<'a, R>,
    share: Share,
    is_stopping: bool,
    connection: &Connection,
) -> Option<&'a Desk> {
    if is_stopping || connection.is_waiting() {
        return None;
    }
    match share {
        Share::Short if connection.is_leaving => gauge.desks.last(),
        Share::Long => gauge.desks.get(connection.home),
        _ => None,
    }
}

impl Worker {
    // Keeps room for the keys of one connection more.
    fn make_room(&mut self) -> Result<(), AllocError> {
        let most = self.connections.len().saturating_add(1);
        self.keys.reserve(most)?;
        self.again.reserve(most)?;
        Ok(())
    }

    // Takes a connection, and waits for it. Returns its key.
    fn admit(&mut self, connection: Connection) -> io::Result<usize> {
        if self.make_room().is_err() {
            return Err(ErrorKind::OutOfMemory.into());
        }
        let Ok(key) = self.connections.insert(connection) else {
            return Err(ErrorKind::OutOfMemory.into());
        };
        let Some(connection) = self.connections.get_mut(key) else {
            return Ok(key);
        };
        if let Err(error) = connection.stream.register(self.poll.registry(), Token(key)) {
            let _ended = self.connections.try_remove(key);
            return Err(error);
        }
        Ok(key)
    }

    // Of long frames one is answered in a round, so that no answer waits for other frames: the connections after the first
    // are of the next round.
    pub(crate) fn defer(&mut self) {
        if self.share != Share::Long {
            return;
        }
        for key in self.keys.iter().skip(1) {
            let _ = self.again.push(*key);
        }
        self.keys.truncate(1);
    }

    // Takes a connection that was moved: it is of the next round, and its times begin. One that can't be served is closed.
    fn admit_moved<R: Wait + Clock + Eprint>(
        &mut self,
        gauge: &Gauge<'_, R>,
        connection: Connection,
        desk: &Desk,
    ) {
        let mut connection = connection;
        connection.begin_times(self.now);
        let (origin, noted) = (connection.origin, connection.noted);
        if let Ok(key) = self.admit(connection) {
            self.list(key);
        } else {
            gauge.buffers.note(noted, 0);
            gauge.reporter.say(gauge.rt, &unserved(origin));
            desk.leave();
        }
    }

    // Takes what was left at a desk. A connection that can't be served is closed.
    pub(crate) fn welcome_all<R: Wait + Clock + Eprint>(
        &mut self,
        gauge: &Gauge<'_, R>,
        desk: &Desk,
    ) {
        let moves = self.share == Share::Short && !self.turns.is_stopping;
        for arrival in desk.take(gauge.rt, self.alloc) {
            match arrival {
                Arrival::New { stream, origin } => {
                    let role = self.turns.first_role();
                    let mut fresh = Connection::new(self.alloc, stream, origin, self.now, role);
                    fresh.moves = moves;
                    if self.admit(fresh).is_err() {
                        gauge.reporter.say(gauge.rt, &unserved(origin));
                        desk.leave();
                    }
                }
                Arrival::Moved(connection) => {
                    let mut connection = connection;
                    connection.moves = moves;
                    self.admit_moved(gauge, connection, desk);
                }
            }
        }
    }

    // Leaves a connection at the desk of another worker. If that takes no more, it stays for good.
    pub(crate) fn send<R: Wait + Clock + Eprint>(
        &mut self,
        gauge: &Gauge<'_, R>,
        key: usize,
        desk: &Desk,
        to: &Desk,
    ) {
        let _parked = self.unpark(key, desk);
        let Some(connection) = self.connections.try_remove(key) else {
            return;
        };
        let mut connection = connection;
        let _ = connection.stream.deregister(self.poll.registry());
        connection.is_listed = false;
        if self.share == Share::Short {
            connection.home = self.number;
        }
        match to.put(gauge.rt, Arrival::Moved(connection)) {
            Err(Arrival::Moved(connection)) => {
                let mut connection = connection;
                connection.moves = false;
                connection.home = usize::MAX;
                self.admit_moved(gauge, connection, desk);
            }
            _ => desk.leave(),
        }
    }
}
