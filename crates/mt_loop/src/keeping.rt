//! How many bytes are kept for a connection, of those that are kept for all.

ghost use Rattle.std.specs.Prelude.{◌≡◌, ◌⊎◌, [], IsSome};

use crate::connection::Connection;
use mt_host::buffers::{Buffers, SHARE};
use mt_host::fault::ConnectionFault;

impl Connection {
    /// Returns whether bytes are to go.
    pub fn has_output(&self) -> bool {
        !self.talk.output().is_empty()
    }

    // How many bytes are kept of its input. Frames before the one that the last read has ended were answered, so that what
    // comes after that one is of the last read.
    pub(crate) fn kept_input(&self) -> usize {
        if self.talk.is_between_frames() {
            0
        } else {
            self.input
        }
    }

    /// Notes how many bytes are kept for it.
    pub fn note_kept(&mut self, buffers: &Buffers)
        ensures talk { self.new.talk ≡ self.old.talk }
        ensures kept { (self.new.role ≡ self.old.role) × (self.new.fault ≡ self.old.fault) }
    {
        let kept = self.kept_input().saturating_add(self.talk.output().len());
        buffers.note(self.noted, kept);
        self.noted = kept;
    }

    // After an answer: if that makes too many bytes for all connections, they are dropped, and its session is broken off.
    pub(crate) fn limit_output(&mut self, buffers: &Buffers)
        ensures bytes { self.new.talk.bytes ≡ self.old.talk.bytes }
        ensures output { (self.new.talk.output ≡ self.old.talk.output) ⊎ (IsSome self.new.fault × (self.new.talk.output ≡ [])) }
        ensures fault { IsSome self.old.fault → IsSome self.new.fault }
        ensures role { self.new.role ≡ self.old.role }
    {
        if self.talk.output().len() <= SHARE {
            return;
        }
        self.note_kept(buffers);
        if !buffers.has_room(0) {
            self.fail(ConnectionFault::TooMuchOutput);
            self.drop_output();
            self.talk.free_output();
            self.note_kept(buffers);
        }
    }
}
