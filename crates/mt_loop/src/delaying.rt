//! What a connection waits for: the frame at its front for commits, or its answers until commits are durable.

use crate::connection::{Connection, Front};
use mt_host::fault::ConnectionFault;
use mt_host::parking::{DURABLE, LATER, Parked};
use mt_talk::facts::Facts;
use mt_wire::server::{Awaited, ServerQuery};
use std::mem;

// For how many milliseconds a change is put off when too many commits wait for the log.
const DELAY: u64 = 2;

// For how many milliseconds a connection whose hello had a wrong secret is kept before it ends.
const SECRET_DELAY: u64 = 1000;

// After how many milliseconds a connection is looked at again that isn't read, since too many bytes are kept.
const READ_DELAY: u64 = 20;

impl Connection {
    /// Notes that what it waits for has come, or its time.
    pub fn end_wait(&mut self) {
        self.is_woken = true;
    }

    // Whether its answers, or the frame at the front, wait.
    pub(crate) fn is_waiting(&self) -> bool {
        self.held.is_some()
            || self.ends_at.is_some()
            || self.unread_until.is_some()
            || self.awaited.is_some() && !self.is_woken
    }

    /// Its hello had a wrong secret: it ends after a while. Until then it isn't read, and its answers don't go.
    pub fn end_later(&mut self, now: u64) {
        self.fail(ConnectionFault::NoHello);
        self.ends_at = Some(now.saturating_add(SECRET_DELAY));
    }

    /// It isn't read for a while, since too many bytes are kept for all connections.
    pub fn read_later(&mut self, now: u64) {
        self.unread_until = Some(now.saturating_add(READ_DELAY));
    }

    /// If it is to end, it ends now. If it isn't read, it is.
    pub fn end_delay(&mut self) {
        self.ends_at = None;
        self.unread_until = None;
    }

    /// Returns what its answers wait for, or the frame at the front, if they wait.
    pub fn awaited(&self) -> Option<Parked> {
        if let Some(until) = self.ends_at.or(self.unread_until) {
            return Some(Parked {
                view: LATER,
                number: u64::MAX,
                until,
            });
        }
        if let Some(number) = self.held {
            return Some(Parked {
                view: DURABLE,
                number,
                until: u64::MAX,
            });
        }
        if self.is_waiting() {
            self.awaited
        } else {
            None
        }
    }

    /// If it may have changed rows in this round, its answers wait until as many commits are durable.
    pub fn hold(&mut self, number: u64) {
        if mem::replace(&mut self.has_changed, false) && !self.talk.output().is_empty() {
            self.held = Some(number);
        }
    }

    /// Its answers may go: what it was held for is durable.
    pub fn let_go(&mut self) {
        self.held = None;
    }

    /// If its answers wait for the disk, they never go, and its session is broken off.
    pub fn lose(&mut self) {
        if self.held.take().is_some() {
            self.drop_output();
            self.fail(ConnectionFault::NotDurable);
        }
    }

    /// Puts off the frame at the front, since too many commits wait for the log.
    pub fn put_off(&mut self, now: u64) {
        self.awaited = Some(Parked {
            view: DURABLE,
            number: u64::MAX,
            until: now.saturating_add(DELAY),
        });
        self.is_woken = false;
        self.front = Front::Nothing;
    }

    // What the frame at the front waits for, up to which number, and for how many milliseconds, if it is a wait.
    fn wait_asked(&self) -> Option<(Awaited, u64, u64)> {
        match self.server_query() {
            Some(
                ServerQuery::Wait {
                    of,
                    number,
                    milliseconds,
                },
            ) => Some((*of, *number, u64::from(*milliseconds))),
            _ => None,
        }
    }

    /// Returns whether the frame at the front is a wait whose end hasn't come. Then it is answered later. `is_lost` is
    /// whether no more commits become durable.
    pub fn waits(&mut self, facts: &Facts, now: u64, is_lost: bool) -> bool {
        let Some((of, number, lasts)) = self.wait_asked() else {
            return false;
        };
        let (view, at) = match of {
            Awaited::Commits => (0, Some(facts.commits)),
            Awaited::View(view) => (view.0, facts.watched),
            Awaited::Durable if is_lost => (DURABLE, None),
            Awaited::Durable => (DURABLE, facts.durable),
        };
        let is_reached = match at {
            Some(at) => number <= at,
            None => true,
        };
        let until = match self.awaited {
            Some(awaited) => awaited.until,
            None => now.saturating_add(lasts),
        };
        if is_reached || until <= now || self.is_hung_up || self.role.is_none() {
            return false;
        }
        self.awaited = Some(Parked {
            view,
            number,
            until,
        });
        self.is_woken = false;
        self.front = Front::Nothing;
        true
    }
}
