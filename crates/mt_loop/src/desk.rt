//! Where connections are left for a worker: by the thread that accepts, and by other workers.

use crate::connection::Connection;
use mio::{Poll, Token, Waker};
use mt_host::report::Origin;
use mt_host::stream::Stream;
use std::alloc::Global;
use std::sync::atomic::{AtomicUsize, Ordering};
use std::sync::{Mutex, Wait};
use std::{io, mem};

/// The token of a desk's waker: no key of a slab.
pub const WAKER: Token = Token(usize::MAX);

/// What is left for a worker.
#[derive(Drop)]
pub enum Arrival {
    /// A connection that was accepted.
    New { stream: Stream, origin: Origin },
    /// A connection of another worker.
    Moved(Connection),
}

// What was left and isn't taken yet, and whether nothing may be left any more.
#[derive(Drop)]
struct Inbox {
    arrivals: Vec<Arrival>,
    is_closed: bool,
}

/// What was left for a worker, and how many connections it has.
#[derive(Drop)]
pub struct Desk {
    inbox: Mutex<Inbox>,
    waker: Waker,
    load: AtomicUsize,
    waiting: AtomicUsize,
}

impl Desk {
    /// Returns an empty desk of the worker that waits by `poll`.
    pub fn new(alloc: Global, poll: &Poll) -> io::Result<Desk> {
        Ok(Desk {
            inbox: Mutex::new(Inbox {
                arrivals: Vec::new(alloc),
                is_closed: false,
            }),
            waker: Waker::new(poll.registry(), WAKER)?,
            load: AtomicUsize::new(0),
            waiting: AtomicUsize::new(0),
        })
    }

    /// Returns how many connections the worker has, with those that it hasn't taken yet.
    pub fn load(&self) -> usize {
        self.load.load(Ordering::Relaxed)
    }

    /// Leaves a connection, and wakes the worker.
    ///
    /// # Errors
    ///
    /// The connection, if the desk is closed or out of memory.
    pub fn put<R: Wait>(&self, rt: &R, arrival: Arrival) -> Result<(), Arrival> {
        let mut inbox = self.inbox.lock(rt);
        if inbox.is_closed || inbox.arrivals.reserve(1).is_err() {
            return Err(arrival);
        }
        let _ = inbox.arrivals.push(arrival);
        self.load.fetch_add(1, Ordering::Relaxed);
        let _ = self.waker.wake();
        Ok(())
    }

    /// Closes the desk if nothing is left at it. Returns whether it is closed.
    pub fn close<R: Wait>(&self, rt: &R) -> bool {
        let mut inbox = self.inbox.lock(rt);
        inbox.is_closed = inbox.arrivals.is_empty();
        inbox.is_closed
    }

    /// Wakes the worker.
    pub fn wake(&self) -> io::Result<()> {
        self.waker.wake()
    }

    /// Takes all that was left.
    pub fn take<R: Wait>(&self, rt: &R, alloc: Global) -> Vec<Arrival> {
        let mut inbox = self.inbox.lock(rt);
        mem::replace(&mut inbox.arrivals, Vec::new(alloc))
    }

    /// Returns whether a connection of the worker waits for commits.
    pub fn is_waiting(&self) -> bool {
        self.waiting.load(Ordering::SeqCst) > 0
    }

    /// A connection waits for commits.
    pub fn begin_wait(&self) {
        self.waiting.fetch_add(1, Ordering::SeqCst);
    }

    /// A connection doesn't wait any longer.
    pub fn end_wait(&self) {
        self.waiting.fetch_sub(1, Ordering::SeqCst);
    }

    /// A connection has ended.
    pub fn leave(&self) {
        self.load.fetch_sub(1, Ordering::Relaxed);
    }
}
