//! One connection: its stream, and its session.

ghost use Rattle.std.specs.Prelude.{◌≡◌, [], Some, IfSome, IsSome};
ghost use Rattle.mt_wire.specs.declared.query.Query.{Query};
ghost use Rattle.mt_wire.specs.declared.frame.Frame.{Frame};
ghost use Rattle.mt_talk.specs.Serving.{alone};
ghost use Rattle.mt_talk.specs.Turns.{HasFront};

use mt_host::buffers::Buffers;
use mt_host::fault::ConnectionFault;
use mt_host::parking::Parked;
use mt_host::report::Origin;
use mt_host::stream::Stream;
use mt_host::weight::{LONG, TURN, only_reads, server_query, weight_of};
use mt_talk::server::changes_rows;
use mt_talk::talk::Talk;
use mt_wire::server::{Role, ServerQuery};
use std::alloc::Global;
use std::io::{ErrorKind, Read, Write};
use std::mem;

// The most bytes of a frame that are kept before it is whole, of a client that wasn't admitted. A hello has fewer.
const MOST_UNADMITTED: usize = 2_048;

// From how many bytes on that are to go no more frames are answered.
const MOST_OUTPUT: usize = 1_048_576;

/// What the frame at the front of a connection asks for.
#[derive(Clone, Copy, Debug, PartialEq, Eq)]
pub enum Front {
    /// No frame is to be answered now.
    Nothing,
    /// Gets and ranges alone.
    Reads,
    /// Others too.
    Others,
}

/// A connection.
#[derive(Drop)]
pub struct Connection {
    pub stream: Stream,
    /// Which connection it is.
    pub origin: Origin,
    /// How many queries it was answered.
    pub queries: u64,
    pub(crate) talk: Talk,
    /// What the frame at the front asks for, as `find` has found.
    pub front: Front,
    /// Whether it is in the list of a round.
    pub is_listed: bool,
    /// Under what it is among the connections of the worker that wait, if it is.
    pub parked: Option<Parked>,
    // How many commits are to be durable before its answers go.
    pub(crate) held: Option<u64>,
    // How many bytes were read that may not be answered yet, of them by the last read, and how many are noted of it.
    pub(crate) input: usize,
    pub(crate) last_read: usize,
    pub(crate) noted: usize,
    // Until which millisecond it isn't read, since too many bytes are kept for all connections.
    pub(crate) unread_until: Option<u64>,
    // The millisecond at which it ends, since its hello had a wrong secret.
    pub(crate) ends_at: Option<u64>,
    // Whether a put or a remove was answered in this round that wasn't refused for the disk.
    pub(crate) has_changed: bool,
    // What the frame at the front waits for, since it was looked at.
    pub(crate) awaited: Option<Parked>,
    // Whether that has come, or can't come any more.
    pub(crate) is_woken: bool,
    // How many bytes were read and written since they were counted.
    moved: (usize, usize),
    // How many bytes at the front of what is to go have gone already.
    gone: usize,
    // What its client may do, if it was admitted.
    pub(crate) role: Option<Role>,
    /// Whether that frame has a put or a remove.
    pub changes: bool,
    // Whether long frames are for another worker, whether that frame is one, and at which desk the connection was before.
    pub(crate) moves: bool,
    pub(crate) is_leaving: bool,
    pub(crate) home: usize,
    // What that frame weighs, what may still be asked for in this round, and whether more frames may be there.
    pub(crate) weight: usize,
    pub(crate) budget: usize,
    has_more: bool,
    // Whether bytes may be there that weren't read, and whether the peer has ended its stream after them.
    is_unread: bool,
    pub(crate) is_hung_up: bool,
    // Whether all bytes were read.
    pub(crate) has_ended: bool,
    pub(crate) fault: Option<ConnectionFault>,
    // Seconds of the server: when it was accepted, when bytes came last, when the frame that is there in part began, and
    // when bytes went last.
    pub(crate) accepted: u64,
    pub(crate) came: u64,
    pub(crate) began: Option<u64>,
    pub(crate) went: u64,
}

impl Connection {
    /// Returns a connection that was accepted at this time, whose client may do what `role` says.
    pub fn new(
        alloc: Global,
        stream: Stream,
        origin: Origin,
        now: u64,
        role: Option<Role>,
    ) -> Connection {
        Connection {
            stream,
            origin,
            queries: 0,
            talk: Talk::new(alloc),
            front: Front::Nothing,
            is_listed: false,
            parked: None,
            held: None,
            input: 0,
            last_read: 0,
            noted: 0,
            unread_until: None,
            ends_at: None,
            has_changed: false,
            awaited: None,
            is_woken: false,
            moved: (0, 0),
            gone: 0,
            role,
            changes: false,
            moves: false,
            is_leaving: false,
            home: usize::MAX,
            weight: 0,
            budget: 0,
            has_more: false,
            is_unread: false,
            is_hung_up: false,
            has_ended: false,
            fault: None,
            accepted: now,
            came: now,
            began: None,
            went: now,
        }
    }

    /// Notes whether bytes are there, and whether the peer has ended its stream after them. Then it doesn't wait any longer.
    pub fn wake(&mut self, is_readable: bool, is_hung_up: bool) {
        self.is_unread = self.is_unread || is_readable || is_hung_up;
        self.is_hung_up = self.is_hung_up || is_hung_up;
        self.is_woken = self.is_woken || is_hung_up;
    }

    /// Returns the query of the server that is alone in the frame at the front.
    pub fn server_query(&self) -> Option<&ServerQuery>
        ensures { IfSome result (λ query. (frame : Frame Query) × HasFront frame self.now.talk.bytes × (alone frame.messages ≡ Some query.now)) }
    {
        match self.talk.front() {
            Some(frame) => server_query(frame),
            None => None,
        }
    }

    /// Returns how many bytes were read and written since the last call.
    pub fn take_moved(&mut self) -> (usize, usize) {
        mem::replace(&mut self.moved, (0, 0))
    }

    // The session ends with this fault, unless it has met another one before.
    pub(crate) fn fail(&mut self, fault: ConnectionFault)
        ensures fault { IsSome self.new.fault }
        ensures talk { self.new.talk ≡ self.old.talk }
        ensures role { self.new.role ≡ self.old.role }
    {
        if self.fault.is_none() {
            self.fault = Some(fault);
        }
    }

    // Whether so much is to go that no more is answered.
    fn is_full(&self) -> bool {
        self.talk.output().len() >= MOST_OUTPUT
    }

    // Takes what a read gave. A read of less than the buffer has given all that was there.
    fn take(&mut self, piece: &[u8], is_all: bool) {
        self.is_unread = !is_all || self.is_hung_up;
        if self.talk.feed(piece).is_err() {
            self.fail(ConnectionFault::NoMemory);
        }
    }

    // Reads one piece.
    fn read_piece(&mut self, piece: &mut [u8], now: u64) {
        match self.stream.read(piece) {
            Ok(0) => {
                self.is_unread = false;
                self.has_ended = true;
            }
            Ok(count) => {
                self.came = now;
                self.moved.0 = self.moved.0.saturating_add(count);
                self.input = self.kept_input().saturating_add(count);
                self.last_read = count;
                let is_all = count < piece.len();
                self.take(&piece[..count], is_all);
            }
            Err(error) if error.kind() == ErrorKind::WouldBlock => self.is_unread = false,
            Err(error) if error.kind() == ErrorKind::Interrupted => {}
            Err(_) => self.fail(ConnectionFault::Read),
        }
    }

    /// Begins a round: writes what is to go, and reads one piece if no whole frame is there and bytes may be. Returns
    /// whether it would read and may not, since too many bytes are kept for all connections.
    pub fn begin(&mut self, piece: &mut [u8], now: u64, buffers: &Buffers) -> bool {
        self.is_listed = false;
        self.budget = TURN;
        self.has_changed = false;
        if self.may_write() {
            self.flush(now);
        }
        self.find();
        if self.front == Front::Nothing
            && self.is_unread
            && !self.is_leaving
            && !self.is_waiting()
            && self.fault.is_none()
            && !self.is_full()
        {
            // (the input of a client that has ended its stream is soon answered, or cut)
            if self.kept_input() > 0 && !self.is_hung_up && !buffers.has_room(piece.len()) {
                return true;
            }
            self.read_piece(piece, now);
        }
        false
    }

    /// Finds the frame at the front, if one is to be answered in this round by this worker.
    pub fn find(&mut self) {
        self.front = Front::Nothing;
        self.is_leaving = false;
        self.has_more = !self.is_waiting() && (self.budget == 0 || self.is_full());
        if self.has_more || self.is_waiting() || self.fault.is_some() {
            return;
        }
        match self.talk.find() {
            Ok(true) => self.look(),
            Ok(false) => {
                if self.has_ended && !self.talk.is_between_frames() {
                    self.fail(ConnectionFault::Cut);
                } else if self.role.is_none() && self.kept_input() > MOST_UNADMITTED {
                    self.fail(ConnectionFault::NoHello);
                }
            }
            Err(fault) => self.fail(ConnectionFault::from(fault)),
        }
    }

    // Looks what the frame at the front asks for.
    fn look(&mut self) {
        if let Some(frame) = self.talk.front() {
            self.weight = weight_of(frame);
            self.changes = changes_rows(frame.messages.as_slice());
            self.is_leaving = self.moves && self.weight >= LONG && self.role.is_some();
            self.has_more = self.is_leaving;
            self.front = if self.is_leaving {
                Front::Nothing
            } else if only_reads(frame) {
                Front::Reads
            } else {
                Front::Others
            };
        }
    }

    // Whether bytes are to go, and may go.
    fn may_write(&self) -> bool {
        self.held.is_none() && self.ends_at.is_none() && !self.talk.output().is_empty()
    }

    // Writes what is to go, as much as the system takes. Returns the place up to which it has gone.
    fn write_some(&mut self) -> Result<usize, ConnectionFault> {
        let mut gone = self.gone;
        let len = self.talk.output().len();
        for _ in 0..=len {
            let output = self.talk.output();
            if gone >= output.len() {
                break;
            }
            match self.stream.write(&output[gone..]) {
                Ok(0) => return Err(ConnectionFault::Write),
                Ok(taken) => gone = gone.saturating_add(taken),
                Err(error) if error.kind() == ErrorKind::WouldBlock => break,
                Err(error) if error.kind() == ErrorKind::Interrupted => {}
                Err(_) => return Err(ConnectionFault::Write),
            }
        }
        Ok(gone)
    }

    // Nothing is to go any more.
    pub(crate) fn drop_output(&mut self)
        ensures gone { self.new.talk.output ≡ [] }
        ensures bytes { self.new.talk.bytes ≡ self.old.talk.bytes }
        ensures kept { (self.new.role ≡ self.old.role) × (self.new.fault ≡ self.old.fault) }
    {
        self.gone = 0;
        self.talk.clear_output();
    }

    // Takes off what has gone, once that is no less than the rest. So each byte is copied once at most, however slowly a
    // client reads.
    fn cut_output(&mut self) {
        let len = self.talk.output().len();
        let gone = self.gone.min(len);
        if gone < len - gone {
            return;
        }
        self.gone = 0;
        if self.talk.sent(gone).is_err() {
            self.fail(ConnectionFault::NoMemory);
            self.drop_output();
        }
    }

    // Writes what is to go, as much as the system takes. After a failed write nothing is to go.
    fn flush(&mut self, now: u64) {
        match self.write_some() {
            Ok(gone) => {
                let count = gone.saturating_sub(self.gone);
                if count > 0 {
                    self.went = now;
                    self.moved.1 = self.moved.1.saturating_add(count);
                }
                self.gone = gone;
                self.cut_output();
            }
            Err(fault) => {
                self.fail(fault);
                self.drop_output();
            }
        }
    }

    /// Ends a round: writes what is to go, and notes whether a frame has begun.
    pub fn end(&mut self, now: u64) {
        if self.may_write() {
            self.flush(now);
        } else {
            self.went = now;
        }
        if self.talk.is_between_frames() || self.awaited.is_some() {
            self.began = None;
        } else if self.began.is_none() {
            self.began = Some(now);
        }
    }

    /// Returns whether more is to be done at once: frames are there, or bytes that weren't read.
    pub fn is_ready(&self) -> bool {
        self.fault.is_none()
            && !self.is_full()
            && !self.is_waiting()
            && (self.is_unread || self.has_more)
    }
}
