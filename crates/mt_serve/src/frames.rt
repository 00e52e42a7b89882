//! The frames of queries in the bytes of a reader.

ghost use Rattle.std.specs.Prelude.{◌≡◌, ◌≢◌, ◌⊎◌, ◌<◌, ◌≤◌, ◌++◌, List, ℕ, [], None, IfOk, IfErr, IfSome, OnOk, OnErr, IsTrue, IsFalse, true};
ghost use Rattle.std.specs.Io.KnownBytes.{Appends, IsAtEnd, Consumes, Keeps};
ghost use Rattle.mt_types.specs.declared.limits.TheConstants.{MAX_REQUEST_BODY};
ghost use Rattle.mt_wire.specs.declared.query.Query.{Query};
ghost use Rattle.mt_wire.specs.declared.response.Response.{Response};
ghost use Rattle.mt_wire.specs.declared.frame.Frame.{Frame};
ghost use Rattle.mt_wire.specs.Frames.{IsBegun};
ghost use Rattle.mt_streams.specs.Readers.{calls_left};
ghost use Rattle.mt_streams.specs.Sinks.{sink_writer, write_failed};
ghost use Rattle.mt_serve.specs.Sources.{frames_rest, frames_unread, frames_left, read_failed, to_go, AnswersNext, StopsAt, FaultIsAt};
ghost use Rattle.mt_serve.specs.declared.frames.TheConstants.{MOST_FRAMES};
ghost use Rattle.mt_serve.specs.declared.fault.SessionFault.TheVariants.{Read as ReadFault, Write as WriteFault, Cut, NoMemory};

use crate::fault::SessionFault;
use mt_streams::counted::Counted;
use mt_streams::sink::Sink;
use mt_talk::talk::{Answers, Talk};
use mt_wire::laws::a_fault_stays;
use std::alloc::Global;
use std::io::{Read, Write};

// How many bytes a read asks for.
const PIECE: usize = 16384;

/// The most frames that are answered. All reads together return fewer bytes.
pub const MOST_FRAMES: u64 = 70_368_744_177_664;

/// The frames of queries in the bytes of a reader. The reader is called at most 4,294,967,295 times, for 16 KiB each
/// time.
#[derive(Drop)]
pub struct Frames<R> {
    reader: Counted<R>,
    talk: Talk,
    // What the last read gave. It is cleared once, and not for each read.
    piece: [u8; PIECE],
}

impl<R: Read> Frames<R> {
    /// Returns the frames of the bytes that are left in `reader`.
    pub fn new(alloc: Global, reader: R) -> Frames<R>
        ensures rest { frames_rest R.remaining result ≡ R.remaining reader }
        ensures left { frames_left result ≤ MOST_FRAMES }
    {
        Frames {
            reader: Counted::new(reader),
            talk: Talk::new(alloc),
            piece: [0; PIECE],
        }
    }

    // Reads one more piece of the input. Returns how many bytes it has: none at the end of the input.
    fn read_more(&mut self) -> Result<usize, SessionFault>
        requires { self.old.talk.fault ≡ None }
        ensures more { IfOk result (λ count. (piece : List ℕ)
            × (self.new.talk.bytes ≡ self.old.talk.bytes ++ piece)
            × Consumes (frames_unread R.remaining self.old) (frames_unread R.remaining self.new) piece
            × (count ≡ 0 → (piece ≡ []) × IsAtEnd (frames_unread R.remaining self.new))) }
        ensures running { OnOk result (self.new.talk.fault ≡ None) }
        ensures output { to_go self.new ≡ to_go self.old }
        ensures fewer { OnOk result (calls_left self.new.reader < calls_left self.old.reader) }
        ensures left { OnOk result (frames_left self.new ≤ frames_left self.old) }
        ensures read { IfErr result (λ fault. fault ≡ ReadFault → (read_failed self.new ≡ true)
            × (self.new.talk.bytes ≡ self.old.talk.bytes)
            × Keeps (frames_unread R.remaining self.old) (frames_unread R.remaining self.new)) }
        ensures only { IfErr result (λ fault. (fault ≡ ReadFault) ⊎ (fault ≡ NoMemory)) }
    {
        let Ok(count) = self.reader.read(self.piece.as_mut_slice()) else {
            return Err(SessionFault::Read);
        };
        if self.talk.feed(&self.piece[..count]).is_err() {
            return Err(SessionFault::NoMemory);
        }
        Ok(count)
    }

    // At the end of the input, if no whole frame is there: it ends between frames, or inside one.
    fn end(&self) -> Result<(), SessionFault>
        requires begun { IsBegun MAX_REQUEST_BODY self.now.talk.bytes }
        requires ended { IsAtEnd (frames_unread R.remaining self.now) }
        ensures between { OnOk result (IfSome (frames_rest R.remaining self.now) (λ bytes. bytes ≡ [])) }
        ensures cut { IfErr result (λ fault. (fault ≡ Cut)
            × IfSome (frames_rest R.remaining self.now) (FaultIsAt Cut (frames_unread R.remaining self.now))) }
    {
        if self.talk.is_between_frames() {
            Ok(())
        } else {
            Err(SessionFault::Cut)
        }
    }

    /// Answers the next frame: its answers are to go then. Returns whether there was one: `false` if the input ends
    /// between frames. Calls the reader only while no whole frame is there. The bytes of keys and columns are shared with
    /// the frame.
    ///
    /// # Errors
    ///
    /// `BadLength`, `BadVersion` or `BadBody` if the next bytes are no frame; `Cut` if the input ends inside a frame;
    /// `Read` if a read failed, or all reads were made, before the frame was whole; `NoMemory` if out of memory.
    pub fn answer_next<S, P, A: Answers<S, P>>(
        &mut self,
        answerer: &mut A,
        shared: &mut S,
        pass: &mut P,
    ) -> Result<bool, SessionFault>
        ensures some { IfOk result (λ some. IsTrue some → AnswersNext A.answers answerer.old shared.old pass.old
            (frames_rest R.remaining self.old) (to_go self.old)
            (frames_rest R.remaining self.new) (to_go self.new) answerer.new shared.new pass.new) }
        ensures end { IfOk result (λ some. IsFalse some
            → IfSome (frames_rest R.remaining self.old) (λ bytes. bytes ≡ [])
            × (to_go self.new ≡ to_go self.old)
            × (shared.new ≡ shared.old)
            × (pass.new ≡ pass.old)) }
        ensures fewer { IfOk result (λ some. IsTrue some → frames_left self.new < frames_left self.old) }
        ensures fault { IfErr result (λ fault. StopsAt (A.gives_up answerer.old) shared.old pass.old (frames_rest R.remaining self.old)
            fault (frames_unread R.remaining self.new) shared.new pass.new) }
        ensures read { IfErr result (λ fault. fault ≡ ReadFault → read_failed self.new ≡ true) }
        ensures only { IfErr result (λ fault. fault ≢ WriteFault) }
    {
        a_fault_stays();
        loop {
            if self.talk.turn(answerer, shared, pass)? {
                return Ok(true);
            }
            if self.read_more()? == 0 {
                self.end()?;
                return Ok(false);
            }
        }
    }

    /// Writes all bytes that are to go. After a fault none are to go any more.
    ///
    /// # Errors
    ///
    /// `Write` if a write failed, or wrote no bytes: then only the first of them have been written.
    pub fn send<W: Write>(&mut self, writer: &mut Sink<W>) -> Result<(), SessionFault>
        ensures sent { OnOk result (Appends (W.contents (sink_writer writer.old)) (W.contents (sink_writer writer.new))
            (to_go self.old)) }
        ensures part { OnErr result ((sent : List ℕ) × (unsent : List ℕ) × (to_go self.old ≡ sent ++ unsent)
            × Appends (W.contents (sink_writer writer.old)) (W.contents (sink_writer writer.new)) sent) }
        ensures write { IfErr result (λ fault. (fault ≡ WriteFault) × (write_failed writer.new ≡ true)) }
        ensures gone { to_go self.new ≡ [] }
        ensures rest { frames_rest R.remaining self.new ≡ frames_rest R.remaining self.old }
        ensures left { frames_left self.new ≡ frames_left self.old }
    {
        let sent = writer.send(self.talk.output());
        self.talk.clear_output();
        match sent {
            Ok(()) => Ok(()),
            Err(_) => Err(SessionFault::Write),
        }
    }

    /// Drops the bytes that are to go.
    pub fn forget(&mut self)
        ensures gone { to_go self.new ≡ [] }
        ensures rest { frames_rest R.remaining self.new ≡ frames_rest R.remaining self.old }
        ensures left { frames_left self.new ≡ frames_left self.old }
    {
        self.talk.clear_output();
    }
}
