//! The connections of a worker that wait: for a number of commits, of the index or of a view, or until a time.

use std::alloc::{AllocError, Global};
use std::collections::{BTreeMap, BTreeSet};

/// The number under which commits that are durable are waited for. No view has it.
pub const DURABLE: u64 = u64::MAX;

/// The number under which a time alone is waited for. No view has it.
pub const LATER: u64 = u64::MAX - 1;

/// What a connection waits for, and until when.
#[derive(Clone, Copy, Debug, PartialEq, Eq)]
pub struct Parked {
    /// The number of the view whose commits are waited for, or 0 for those of the index, or `DURABLE`, or `LATER`.
    pub view: u64,
    /// The number of commits.
    pub number: u64,
    /// The millisecond of the server at which the wait ends.
    pub until: u64,
}

/// The keys of the connections that wait, in the order of what they wait for, and in the order of their times.
#[derive(Drop)]
pub struct Parking {
    numbers: BTreeMap<(u64, u64, usize), u64>,
    times: BTreeSet<(u64, usize)>,
}

impl Parking {
    /// Returns that no connection waits.
    pub fn new(alloc: Global) -> Parking {
        Parking {
            numbers: BTreeMap::new(alloc),
            times: BTreeSet::new(alloc),
        }
    }

    /// Returns whether no connection waits.
    pub fn is_empty(&self) -> bool {
        self.numbers.is_empty()
    }

    /// Adds a connection. O(log n) in those that wait. On an error nothing changes.
    pub fn put(&mut self, key: usize, what: Parked) -> Result<(), AllocError> {
        let place = (what.view, what.number, key);
        self.numbers.insert(place, what.until)?;
        if let Err(refused) = self.times.insert((what.until, key)) {
            self.numbers.remove(&place);
            return Err(refused.into());
        }
        Ok(())
    }

    /// Takes a connection out. O(log n) in those that wait.
    pub fn leave(&mut self, key: usize, what: Parked) {
        self.numbers.remove(&(what.view, what.number, key));
        self.times.remove(&(what.until, key));
    }

    /// Returns the first time at which a wait ends.
    pub fn first_end(&self) -> Option<u64> {
        match self.times.first() {
            Some((until, _)) => Some(*until),
            None => None,
        }
    }

    /// Returns a connection whose time has come.
    pub fn late(&self, now: u64) -> Option<usize> {
        match self.times.first() {
            Some((until, key)) if *until <= now => Some(*key),
            _ => None,
        }
    }

    /// Returns the first number, from `view` on, of a view that is waited for. The index has the number 0, and what is
    /// durable has `DURABLE`.
    pub fn next_view(&self, view: u64) -> Option<u64> {
        match self.numbers.range((view, 0, 0)..).next() {
            Some(((next, _, _), _)) => Some(*next),
            None => None,
        }
    }

    /// Returns a connection that waits for at most `at` commits of this view.
    pub fn reached(&self, view: u64, at: u64) -> Option<usize> {
        match self.numbers.range((view, 0, 0)..).next() {
            Some(((next, number, key), _)) if *next == view && *number <= at => Some(*key),
            _ => None,
        }
    }
}
