//! The bytes of input and output that a server keeps for its connections, all together.

use std::sync::atomic::{AtomicUsize, Ordering};

/// How many bytes a connection may keep of its input, and of its output, whatever the others keep.
pub const SHARE: usize = 16_384;

/// How many bytes are kept for all connections, and how many may be.
#[derive(Drop)]
pub struct Buffers {
    most: usize,
    kept: AtomicUsize,
}

impl Buffers {
    /// Returns that no byte is kept, and at most this number may be; 0 is no limit.
    pub fn new(most: u64) -> Buffers {
        Buffers {
            most: most as usize,
            kept: AtomicUsize::new(0),
        }
    }

    /// Notes how many bytes are kept for a connection, for which `before` were noted.
    pub fn note(&self, before: usize, now: usize) {
        if now > before {
            self.kept
                .fetch_add(now.saturating_sub(before), Ordering::Relaxed);
        } else if now < before {
            self.kept
                .fetch_sub(before.saturating_sub(now), Ordering::Relaxed);
        }
    }

    /// Returns how many bytes are kept for all connections.
    pub fn kept(&self) -> u64 {
        self.kept.load(Ordering::Relaxed) as u64
    }

    /// Returns whether as many more bytes may be kept.
    pub fn has_room(&self, more: usize) -> bool {
        self.most == 0 || self.kept.load(Ordering::Relaxed).saturating_add(more) <= self.most
    }
}
