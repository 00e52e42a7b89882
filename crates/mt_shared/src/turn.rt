//! Whose turn it is to change what threads share. A thread that waits for its turn doesn't ask for the lock, since a lock
//! that is asked for is passed on by a sleep and a wake, and meanwhile nobody can take it. The lock alone guards what is
//! shared: no proof rests on a turn.

use crossbeam_utils::Backoff;
use std::sync::atomic::{AtomicBool, Ordering};

// How often a thread looks whether it is its turn. The first looks are some pauses apart, the later ones a yield.
const LOOKS: u32 = 200;

/// Whether a thread has the turn.
#[derive(Drop)]
pub(crate) struct Turn {
    taken: AtomicBool,
}

/// The turn of one thread, until this is dropped. A thread that has looked in vain asks for the lock without it, so
/// that nobody waits for ever.
pub(crate) struct Taken<'a> {
    turn: Option<&'a Turn>,
}

impl<'a> Drop for Taken<'a> {
    fn drop(self) {
        let Taken { turn } = self;
        if let Some(turn) = turn {
            turn.taken.store(false, Ordering::Release);
        }
    }
}

impl Turn {
    pub(crate) fn new() -> Turn {
        Turn {
            taken: AtomicBool::new(false),
        }
    }

    // Takes the turn, if no thread has it.
    fn try_take(&self) -> bool {
        !self.taken.load(Ordering::Relaxed) && !self.taken.swap(true, Ordering::Acquire)
    }

    /// Waits for the turn, and takes it.
    pub(crate) fn take(&self) -> Taken<'_> {
        let backoff = Backoff::new();
        for _ in 0..LOOKS {
            if self.try_take() {
                return Taken { turn: Some(self) };
            }
            backoff.snooze();
        }
        Taken { turn: None }
    }
}
