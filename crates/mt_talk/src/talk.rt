//! A session without a reader and a writer: bytes that came are put in, and bytes that are to go are taken out.

ghost use Rattle.std.specs.Prelude.{◌≡◌, ◌≢◌, ◌≤◌, ◌++◌, ◌==◌, [], None, length, drop, true, IfOk, IfErr, IfSome, IfNone, IsOk, IsSome, IsErrOf, OnOk, OnErr, IsTrue, IsFalse};
ghost use Rattle.mt_types.specs.declared.limits.TheConstants.{MAX_REQUEST_BODY};
ghost use Rattle.mt_wire.specs.declared.query.Query.{Query};
ghost use Rattle.mt_wire.specs.declared.response.Response.{Response};
ghost use Rattle.mt_wire.specs.declared.frame.Frame.{Frame};
ghost use Rattle.mt_wire.specs.Frames.{IsBegun, RequestsFit, FaultStands, request_frame, reply_frame};
ghost use Rattle.mt_talk.specs.Turns.{nothing, HasFront, Takes, Waits, GivesUp};

use mt_wire::decoder::Decoder;
use mt_wire::fault::WireFault;
use mt_wire::frame::Frame;
use mt_wire::query::Query;
use std::alloc::{AllocError, Global};
use std::marker::Model;

/// What answers frames, on what is shared and for a pass.
pub trait Answers<S, P> {
    // what it does for a frame, with this reply
    ghost answers: { Self → S → P → Frame Query → Frame Response → Self → S → P → Type 0 };

    // what it may have done for a frame when memory ran out
    ghost gives_up: { Self → S → P → Frame Query → S → P → Type 0 };

    /// Answers a frame: appends the frame of its answers to `out`.
    ///
    /// # Errors
    ///
    /// If out of memory: then nothing is appended, and some queries of the frame may be done.
    fn answer(
        &mut self,
        shared: &mut S,
        pass: &mut P,
        frame: Frame<Query>,
        out: &mut Vec<u8>,
    ) -> Result<(), AllocError>
        requires { RequestsFit frame }
        ensures reply { OnOk result ((reply : Frame Response)
            × answers self.old shared.old pass.old frame reply self.new shared.new pass.new
            × (out.new.items ≡ out.old.items ++ reply_frame reply)) }
        ensures err { OnErr result (gives_up self.old shared.old pass.old frame shared.new pass.new
            × (out.new.items ≡ out.old.items)) };
}

/// A session: the bytes that came and are not answered yet, and the bytes that are to go.
#[derive(Drop)]
pub struct Talk {
    // The frame at the front, if it was read and not answered yet.
    front: Option<Frame<Query>>,
    decoder: Decoder,
    output: Vec<u8>,
    alloc: Global,
}

impl Model for Talk {
    ghost use Rattle.mt_talk.specs.Turns.{Kept};

    ghost Value = { Kept };

    ghost use Rattle.mt_talk.specs.KeptFields.{kept_of, IsKept};

    ghost view = { kept_of };

    ghost invariant = { IsKept };
}

// If the decoder keeps no byte, its memory is freed.
fn free_input(decoder: &mut Decoder, alloc: Global)
    requires { decoder.old.fault ≡ None }
    ensures bytes { decoder.new.bytes ≡ decoder.old.bytes }
    ensures running { decoder.new.fault ≡ None }
{
    if decoder.is_between_frames() {
        *decoder = Decoder::new(alloc);
    }
}

// The next frame of the bytes that came, taken off. Without a byte after it, the memory of the input is freed.
fn next_frame(decoder: &mut Decoder, alloc: Global) -> Result<Option<Frame<Query>>, WireFault>
    ensures frame { IfOk result (λ next. IfSome next (λ frame. RequestsFit frame
        × (decoder.old.bytes ≡ request_frame frame ++ decoder.new.bytes)
        × (decoder.new.fault ≡ None))) }
    ensures begun { IfOk result (λ next. IfNone next (IsBegun MAX_REQUEST_BODY decoder.old.bytes
        × (decoder.old.fault ≡ None)
        × (decoder.new ≡ decoder.old))) }
    ensures fault { IfErr result (λ fault. fault ≢ WireFault.NoMemory → FaultStands fault decoder.old.bytes) }
    ensures kept { IfErr result (λ fault. decoder.new.bytes ≡ decoder.old.bytes) }
{
    let Some(frame) = decoder.next()? else {
        return Ok(None);
    };
    free_input(decoder, alloc);
    Ok(Some(frame))
}

impl Talk {
    /// Returns a session to which nothing came. Allocates nothing.
    pub fn new(alloc: Global) -> Talk
        ensures { result ≡ nothing }
    {
        Talk {
            front: None,
            decoder: Decoder::new(alloc),
            output: Vec::new(alloc),
            alloc,
        }
    }

    /// Takes bytes that came. After a fault it takes none.
    ///
    /// # Errors
    ///
    /// If out of memory: then nothing changed.
    pub fn feed(&mut self, piece: &[u8]) -> Result<(), AllocError>
        ensures taken { OnOk result (self.old.fault ≡ None → (self.new.bytes ≡ self.old.bytes ++ piece.now)
            × (self.new.fault ≡ None)) }
        ensures output { (self.new.output ≡ self.old.output) × (self.new.is_found ≡ self.old.is_found) }
        ensures stopped { IsSome self.old.fault → IsOk result × (self.new ≡ self.old) }
        ensures err { OnErr result (self.new ≡ self.old) }
    {
        match self.decoder.feed(piece) {
            Ok(()) => Ok(()),
            Err(_) => Err(AllocError),
        }
    }

    // Takes the frame at the front off.
    fn take_front(&mut self) -> Result<Option<Frame<Query>>, WireFault>
        ensures frame { IfOk result (λ next. IfSome next (λ frame. RequestsFit frame
            × (self.old.bytes ≡ request_frame frame ++ self.new.bytes)
            × (self.new.fault ≡ None))) }
        ensures begun { IfOk result (λ next. IfNone next (IsBegun MAX_REQUEST_BODY self.old.bytes
            × (self.old.fault ≡ None)
            × (self.new ≡ self.old))) }
        ensures output { self.new.output ≡ self.old.output }
        ensures fault { IfErr result (λ fault. fault ≢ WireFault.NoMemory → FaultStands fault self.old.bytes) }
        ensures kept { IfErr result (λ fault. self.new.bytes ≡ self.old.bytes) }
    {
        if let Some(frame) = self.front.take() {
            return Ok(Some(frame));
        }
        next_frame(&mut self.decoder, self.alloc)
    }

    /// Reads the frame at the front, if a whole one is there, so that `front` returns it. It stays at the front. Returns
    /// whether there is one.
    ///
    /// # Errors
    ///
    /// The fault at the front; `NoMemory` if out of memory.
    pub fn find(&mut self) -> Result<bool, WireFault>
        ensures found { IfOk result (λ some. IsTrue some → (frame : Frame Query) × HasFront frame self.old.bytes) }
        ensures begun { IfOk result (λ some. IsFalse some → IsBegun MAX_REQUEST_BODY self.old.bytes) }
        ensures kept { IfOk result (λ some. self.new.is_found ≡ some) }
        ensures bytes { self.new.bytes ≡ self.old.bytes }
        ensures output { self.new.output ≡ self.old.output }
        ensures fault { IfErr result (λ fault. fault ≢ WireFault.NoMemory → FaultStands fault self.old.bytes) }
    {
        if self.front.is_some() {
            return Ok(true);
        }
        match next_frame(&mut self.decoder, self.alloc)? {
            Some(frame) => {
                self.front = Some(frame);
                Ok(true)
            }
            None => Ok(false),
        }
    }

    /// Returns the frame at the front, if `find` has read it and it wasn't answered since.
    pub fn front(&self) -> Option<&Frame<Query>>
        ensures frame { IfSome result (λ frame. HasFront frame.now self.now.bytes) }
        ensures found { self.now.is_found ≡ true → IsSome result }
    {
        self.front.as_ref()
    }

    /// Answers the frame at the front, if a whole one is there: takes it off, and appends the frame of its answers to what
    /// is to go. Returns whether there was one.
    ///
    /// # Errors
    ///
    /// The fault at the front: nothing is done then, and each later call returns it. `NoMemory` if out of memory.
    pub fn turn<S, P, A: Answers<S, P>>(
        &mut self,
        answerer: &mut A,
        shared: &mut S,
        pass: &mut P,
    ) -> Result<bool, WireFault>
        ensures took { IfOk result (λ some. IsTrue some → Takes A.answers answerer.old shared.old pass.old self.old self.new
            answerer.new shared.new pass.new) }
        ensures waits { IfOk result (λ some. IsFalse some → Waits answerer.old shared.old pass.old self.old self.new
            answerer.new shared.new pass.new) }
        ensures fault { IfErr result (λ fault. fault ≢ WireFault.NoMemory → FaultStands fault self.old.bytes
            × (self.new.bytes ≡ self.old.bytes) × (self.new.output ≡ self.old.output)
            × (shared.new ≡ shared.old) × (pass.new ≡ pass.old)) }
        ensures unasked { IfErr result (λ fault. fault ≢ WireFault.NoMemory → answerer.new ≡ answerer.old) }
        ensures memory { IsErrOf result WireFault.NoMemory
            → GivesUp (A.gives_up answerer.old) shared.old pass.old self.old self.new shared.new pass.new }
    {
        let Some(frame) = self.take_front()? else {
            return Ok(false);
        };
        if answerer
            .answer(shared, pass, frame, &mut self.output)
            .is_err()
        {
            return Err(WireFault::NoMemory);
        }
        Ok(true)
    }

    /// Returns whether no frame has begun, so that the stream may end here.
    pub fn is_between_frames(&self) -> bool
        ensures { result ≡ (length self.now.bytes == 0) }
    {
        self.front.is_none() && self.decoder.is_between_frames()
    }

    /// Returns the bytes that are to go.
    pub fn output(&self) -> &[u8]
        ensures { result.now ≡ self.now.output }
    {
        self.output.as_slice()
    }

    /// Takes off the first `count` bytes of those that are to go. If these are all, their memory is kept for the next
    /// answers, and nothing is copied.
    ///
    /// # Errors
    ///
    /// If out of memory: then nothing changed.
    pub fn sent(&mut self, count: usize) -> Result<(), AllocError>
        requires { count ≤ length self.old.output }
        ensures gone { OnOk result (self.new.output ≡ drop count self.old.output) }
        ensures bytes { (self.new.bytes ≡ self.old.bytes) × (self.new.fault ≡ self.old.fault) × (self.new.is_found ≡ self.old.is_found) }
        ensures all { count ≡ length self.old.output → IsOk result }
        ensures err { OnErr result (self.new ≡ self.old) }
    {
        if count == self.output.len() {
            self.output.clear();
            return Ok(());
        }
        let mut rest = Vec::new(self.alloc);
        rest.extend_from_slice(&self.output[count..])?;
        self.output = rest;
        Ok(())
    }

    /// Drops the bytes that are to go. Their memory is kept for the next answers.
    pub fn clear_output(&mut self)
        ensures gone { self.new.output ≡ [] }
        ensures bytes { (self.new.bytes ≡ self.old.bytes) × (self.new.fault ≡ self.old.fault) × (self.new.is_found ≡ self.old.is_found) }
    {
        self.output.clear();
    }

    /// Frees the memory that is kept for answers, if nothing is to go.
    pub fn free_output(&mut self)
        ensures { self.new ≡ self.old }
    {
        if self.output.is_empty() {
            self.output = Vec::new(self.alloc);
        }
    }
}
