//! When a connection ends, and why.

use crate::connection::Connection;
use mt_host::fault::ConnectionFault;
use mt_host::limits::{Limits, is_over};
use mt_host::report::Report;

impl Connection {
    /// Begins its times at this second: its frame has waited for others.
    pub fn begin_times(&mut self, now: u64) {
        self.came = now;
        self.went = now;
        self.began = None;
    }

    /// Returns whether its session has ended and all of its answers have gone.
    pub fn is_over(&self) -> bool {
        self.talk.output().is_empty()
            && (self.fault.is_some() || self.has_ended && self.talk.is_between_frames())
    }

    /// Returns what is said of its end, if its session was broken off.
    pub fn broken_off(&self) -> Option<Report<'static>> {
        let fault = self.fault?;
        Some(Report::Ended {
            origin: self.origin,
            fault,
            queries: self.queries,
        })
    }

    /// If one of the limits is over, breaks the session off, and returns whether one is. A session that waits between
    /// frames ends without a fault.
    pub fn is_late(&mut self, limits: Limits, now: u64) -> bool {
        if self.held.is_some() || self.ends_at.is_some() {
            return false;
        }
        if self.has_output() {
            if is_over(limits.write, self.went, now) {
                self.fail(ConnectionFault::Write);
                return true;
            }
            return false;
        }
        if self.role.is_none() && is_over(limits.hello, self.accepted, now) {
            self.fail(ConnectionFault::NoHello);
            return true;
        }
        self.talk.free_output();
        if self.awaited.is_some() {
            return false;
        }
        match self.began {
            Some(began) if is_over(limits.frame, began, now) => {
                self.fail(ConnectionFault::Cut);
                true
            }
            Some(_) => false,
            None => is_over(limits.idle, self.came, now),
        }
    }
}
