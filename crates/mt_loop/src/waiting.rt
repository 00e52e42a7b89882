//! The connections of a worker whose frames wait for commits: how a wait begins and ends.

use crate::desk::Desk;
use crate::gauge::Gauge;
use crate::worker::Worker;
use mt_host::parking::{DURABLE, LATER, Parked};
use std::sync::Wait;
use std::time::Clock;

impl Worker {
    // Takes a connection out of those that wait. Returns what it has waited for.
    pub(crate) fn unpark(&mut self, key: usize, desk: &Desk) -> Option<Parked> {
        let connection = self.connections.get_mut(key)?;
        let parked = connection.parked.take()?;
        self.parking.leave(key, parked);
        desk.end_wait();
        Some(parked)
    }

    // Puts a connection among those that wait, if it does, or takes it out. Then the worker looks again whether what it
    // waits for has come meanwhile.
    pub(crate) fn park(&mut self, key: usize, desk: &Desk) {
        let Some(connection) = self.connections.get_mut(key) else {
            return;
        };
        let awaited = connection.awaited();
        if awaited == connection.parked {
            return;
        }
        let _earlier = self.unpark(key, desk);
        let (Some(awaited), Some(connection)) = (awaited, self.connections.get_mut(key)) else {
            return;
        };
        if self.parking.put(key, awaited).is_ok() {
            connection.parked = Some(awaited);
            desk.begin_wait();
        } else {
            connection.end_wait();
            connection.end_delay();
            self.list(key);
        }
        let _ = desk.wake();
    }

    // The wait of a connection has ended: it is of the next round.
    fn release(&mut self, key: usize, desk: &Desk) {
        let parked = self.unpark(key, desk);
        if let Some(connection) = self.connections.get_mut(key) {
            match parked {
                Some(Parked { view: LATER, .. }) => connection.end_delay(),
                _ => {
                    connection.end_wait();
                    connection.let_go();
                }
            }
        }
        self.list(key);
    }

    // A connection is of the next round.
    pub(crate) fn list(&mut self, key: usize) {
        if let Some(connection) = self.connections.get_mut(key) {
            if !connection.is_listed {
                connection.is_listed = true;
                let _ = self.again.push(key);
            }
        }
    }

    // Releases the connections that wait for at most this number of commits of the index, or of a view.
    fn release_reached(&mut self, view: u64, at: u64, desk: &Desk) {
        for _ in 0..=self.connections.len() {
            match self.parking.reached(view, at) {
                Some(key) => self.release(key, desk),
                None => break,
            }
        }
    }

    // Releases the connections whose time has come, and those whose commits are there.
    pub(crate) fn release_all<R: Wait + Clock>(&mut self, gauge: &Gauge<'_, R>, desk: &Desk) {
        if self.parking.is_empty() {
            return;
        }
        let now = gauge.now();
        for _ in 0..=self.connections.len() {
            match self.parking.late(now) {
                Some(key) => self.release(key, desk),
                None => break,
            }
        }
        for (view, at) in gauge.reached(self.alloc, &self.parking) {
            self.release_reached(view, at, desk);
        }
        if gauge.has_lost_log() {
            self.lose_all(desk);
        }
    }

    // The disk of the log has failed: the connections whose changes wait for it are broken off, and no wait for it lasts.
    fn lose_all(&mut self, desk: &Desk) {
        for _ in 0..=self.connections.len() {
            let Some(key) = self.parking.reached(DURABLE, u64::MAX) else {
                break;
            };
            if let Some(connection) = self.connections.get_mut(key) {
                connection.lose();
            }
            self.release(key, desk);
        }
    }
}
