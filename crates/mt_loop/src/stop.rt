//! When the threads of a server end.

use crate::desk::Desk;
use mio::{Poll, Token, Waker};
use std::io;
use std::sync::atomic::{AtomicBool, Ordering};

/// The token of the waker of the thread that accepts.
pub const STOPPED: Token = Token(2);

/// Says when the threads of a server end.
#[derive(Drop)]
pub struct Stop {
    closing: AtomicBool,
    stopping: AtomicBool,
    at_once: AtomicBool,
    waker: Waker,
}

impl Stop {
    /// Returns that no thread is to end. The thread that accepts waits by `poll`.
    pub fn new(poll: &Poll) -> io::Result<Stop> {
        Ok(Stop {
            closing: AtomicBool::new(false),
            stopping: AtomicBool::new(false),
            at_once: AtomicBool::new(false),
            waker: Waker::new(poll.registry(), STOPPED)?,
        })
    }

    /// Returns whether no more connections are handed over. Then a worker ends when its connections have ended.
    pub fn is_closing(&self) -> bool {
        self.closing.load(Ordering::SeqCst)
    }

    /// Returns whether all are to end, when the frames that came are answered.
    pub fn is_stopping(&self) -> bool {
        self.stopping.load(Ordering::SeqCst)
    }

    /// Returns whether all are to end without answering the frames that came.
    pub fn is_at_once(&self) -> bool {
        self.at_once.load(Ordering::SeqCst)
    }

    // Wakes all threads. A waker that fails belongs to a thread that has ended.
    fn wake_all(&self, desks: &[Desk]) {
        for desk in desks {
            let _ = desk.wake();
        }
        let _ = self.waker.wake();
    }

    /// No more connections are handed over to these desks.
    pub fn close(&self, desks: &[Desk]) {
        self.closing.store(true, Ordering::SeqCst);
        self.wake_all(desks);
    }

    /// All threads are to end, and answer no more frames.
    pub fn stop_at_once(&self, desks: &[Desk]) {
        self.at_once.store(true, Ordering::SeqCst);
        self.stop(desks);
    }

    /// All threads are to end.
    pub fn stop(&self, desks: &[Desk]) {
        self.stopping.store(true, Ordering::SeqCst);
        self.wake_all(desks);
    }
}
