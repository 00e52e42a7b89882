//! What the threads of a server know of its log: how far it is written and durable, and whether its disk fails.

use std::sync::atomic::{AtomicBool, AtomicUsize, Ordering};
use std::sync::{Condvar, Mutex, Wait};
use std::time::{Clock, Duration};

/// When the log is synced.
#[derive(Clone, Copy, Debug, PartialEq, Eq)]
pub enum Syncing {
    /// As soon as commits are written. Changes are answered when they are durable.
    Always,
    /// At most this number of milliseconds after the last sync, while there are new commits. Nobody waits.
    Every(u64),
    /// At the end of the server alone.
    Never,
}

/// Whether the disk takes commits.
#[derive(Clone, Copy, Debug, PartialEq, Eq)]
pub enum DiskState {
    Usable,
    /// It has no room, and is tried again.
    Full,
    /// It has failed, and isn't asked any more.
    Failed,
}

// The most commits that may be waiting to be written before changes are put off. An index keeps twice as many.
const MOST_UNWRITTEN: u64 = 32_768;

/// What the threads know of the log. Numbers are those of commits.
#[derive(Drop)]
pub struct Durability {
    syncing: Syncing,
    newest: AtomicUsize,
    written: AtomicUsize,
    durable: AtomicUsize,
    is_full: AtomicBool,
    has_failed: AtomicBool,
    is_ending: AtomicBool,
    // Whether there is something to do for the thread of the log.
    is_called: Mutex<bool>,
    call: Condvar,
}

impl Durability {
    /// Returns that all commits up to this number are durable.
    pub fn new(syncing: Syncing, durable: u64) -> Durability {
        let number = durable as usize;
        Durability {
            syncing,
            newest: AtomicUsize::new(number),
            written: AtomicUsize::new(number),
            durable: AtomicUsize::new(number),
            is_full: AtomicBool::new(false),
            has_failed: AtomicBool::new(false),
            is_ending: AtomicBool::new(false),
            is_called: Mutex::new(false),
            call: Condvar::new(),
        }
    }

    /// Returns when the log is synced.
    pub fn syncing(&self) -> Syncing {
        self.syncing
    }

    /// Returns whether changes are answered when they are durable.
    pub fn is_waited_for(&self) -> bool {
        self.syncing == Syncing::Always
    }

    /// Notes how many commits there are, as a worker has seen after its changes. (If two do so at once, the lower number may
    /// stay: it says only how far the log is behind.)
    pub fn note_newest(&self, newest: u64) {
        if newest > self.newest() {
            self.newest.store(newest as usize, Ordering::SeqCst);
        }
    }

    /// Returns how many commits workers have seen.
    pub fn newest(&self) -> u64 {
        self.newest.load(Ordering::SeqCst) as u64
    }

    /// Notes the number of the last commit that is in the log.
    pub fn note_written(&self, written: u64) {
        self.written.store(written as usize, Ordering::SeqCst);
    }

    /// Notes the number of the last commit that no crash undoes.
    pub fn note_durable(&self, durable: u64) {
        self.durable.store(durable as usize, Ordering::SeqCst);
    }

    /// Returns the number of the last commit that no crash undoes.
    pub fn durable(&self) -> u64 {
        self.durable.load(Ordering::SeqCst) as u64
    }

    /// Returns whether changes are put off, since more than `MOST_UNWRITTEN` commits wait to be written.
    pub fn is_behind(&self) -> bool {
        let written = self.written.load(Ordering::SeqCst) as u64;
        self.newest().saturating_sub(written) > MOST_UNWRITTEN
    }

    /// Notes whether the disk has room.
    pub fn note_full(&self, is_full: bool) {
        self.is_full.store(is_full, Ordering::SeqCst);
    }

    /// Notes that the disk has failed.
    pub fn note_failed(&self) {
        self.has_failed.store(true, Ordering::SeqCst);
    }

    /// Returns whether the disk takes commits.
    pub fn disk(&self) -> DiskState {
        if self.has_failed.load(Ordering::SeqCst) {
            DiskState::Failed
        } else if self.is_full.load(Ordering::SeqCst) {
            DiskState::Full
        } else {
            DiskState::Usable
        }
    }

    /// No more commits are made: the thread of the log writes those that are there, and ends.
    pub fn end<R: Wait>(&self, rt: &R) {
        self.is_ending.store(true, Ordering::SeqCst);
        self.call(rt);
    }

    /// Returns whether no more commits are made.
    pub fn is_ending(&self) -> bool {
        self.is_ending.load(Ordering::SeqCst)
    }

    /// Calls the thread of the log: there may be new commits.
    pub fn call<R: Wait>(&self, rt: &R) {
        *self.is_called.lock(rt) = true;
        self.call.notify_one();
    }

    /// Waits until the thread of the log is called, at most for this time.
    pub fn wait<R: Wait + Clock>(&self, rt: &R, longest: Duration) {
        let mut is_called = self.is_called.lock(rt);
        if !*is_called {
            is_called = self.call.wait_timeout(rt, is_called, longest).0;
        }
        *is_called = false;
    }
}
