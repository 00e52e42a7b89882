//! The calls that a file has had, which only clauses read.

ghost use Rattle.std.specs.Prelude.{◌≡◌, List, [], ◌∷◌};
ghost use Rattle.std.specs.Borrow.{ftrue};
ghost use Rattle.sqlite_disk.specs.Events.{Event};
ghost use Rattle.mt_log_disk.specs.Noted.{event_of};

use std::marker::{Model, Send};

/// A call and its answer, without the bytes that it moved.
#[derive(Clone, Copy)]
pub(crate) enum Call {
    /// The file was synced at its opening.
    Settled,
    /// Its length was asked for.
    Measured {
        is_ok: bool,
        len: usize,
    },
    /// `wanted` bytes were to be read.
    Read {
        at: usize,
        wanted: usize,
        is_ok: bool,
    },
    /// `wanted` bytes were to be read, whose digest under `key` has to be `digest`.
    Tested {
        key: u64,
        digest: u64,
        at: usize,
        wanted: usize,
        is_ok: bool,
    },
    /// Bytes were to be written, and `taken` of them were. In a call that failed it is 1 if there was no room, else 0.
    Written {
        at: usize,
        is_ok: bool,
        taken: usize,
    },
    /// The length was to be changed.
    Cut {
        len: usize,
        is_ok: bool,
        no_room: bool,
    },
    /// What was written was to be synced.
    Flushed {
        is_ok: bool,
        no_room: bool,
    },
}

/// The calls that a file has had, the newest first. It takes no memory.
#[derive(Drop)]
pub struct Made {
    pub ghost events: { List Event },
}

impl Model for Made {
    ghost also_owns = { λ _. ftrue };
}

// It owns nothing, so another thread may have it.
unsafe impl Send for Made {}

impl Made {
    // Returns the record of a file that has had no call.
    pub(crate) fn new() -> Made
        ensures { result.events ≡ [] }
    {
        Made {}
    }

    // Notes a call, with the bytes that it moved or was given.
    pub(crate) fn note(&mut self, _call: &Call, _bytes: &[u8])
        ensures { self.new.events ≡ event_of _call.now _bytes.now ∷ self.old.events }
    {}
}
