//! Frames of queries, found in bytes that come in pieces.

ghost use Rattle.std.specs.Prelude.{◌≡◌, ◌≢◌, ◌+◌, ◌<◌, ◌≤◌, ◌++◌, ◌==◌, [], ℕ, List, length, Some, None, Ok, Err, IfOk, IfErr, IfSome, IfNone, IsErrOf, OnOk, OnErr, IsOk, IsSome, IsSomeAnd, MatchResult};
ghost use Rattle.mt_wire.specs.declared.query.Query.{Query};
ghost use Rattle.mt_wire.specs.declared.frame.Frame.{Frame};
ghost use Rattle.mt_wire.specs.declared.fault.WireFault.{WireFault};
ghost use Rattle.mt_wire.specs.Frames.{IsBegun, LengthFits, announced, FaultStands, IsOneFrame, RequestsFit, request_frame, Kept, stopping};
ghost use Rattle.mt_wire.specs.KeptFields.{cut_off};

use crate::body;
use crate::fault::WireFault;
use crate::frame::Frame;
use crate::query::Query;
use bytes::{Bytes, BytesMut};
use mt_types::limits::MAX_REQUEST_BODY;
use std::alloc::Global;
use std::marker::Model;

/// Finds the frames of queries in a stream of bytes, however it is cut into pieces. After a fault other than `NoMemory`
/// it has stopped: it keeps no more bytes, and returns that fault at each later call.
#[derive(Drop)]
pub struct Decoder {
    // A frame that was cut off and not read yet, since memory was refused.
    frame: Option<Bytes>,
    rest: BytesMut,
    stopped: Option<WireFault>,
    alloc: Global,
}

impl Model for Decoder {
    ghost use Rattle.mt_wire.specs.Frames.{Kept};

    ghost Value = { Kept };

    ghost use Rattle.mt_wire.specs.KeptFields.{kept_of, IsKept};

    ghost view = { kept_of };

    ghost invariant = { IsKept };
}

// The length that the first four bytes announce.
fn announced_in(bytes: &[u8]) -> usize
    requires { 4 ≤ length bytes.now }
    ensures { result ≡ announced bytes.now }
{
    u32::from_be_bytes([bytes[0], bytes[1], bytes[2], bytes[3]]) as usize
}

// Cuts a whole frame off the front. On an error nothing changes.
fn cut(rest: &mut BytesMut) -> Result<Option<Bytes>, WireFault>
    ensures begun { IfOk result (λ cut. IfNone cut (IsBegun MAX_REQUEST_BODY rest.old.items
        × (rest.new.items ≡ rest.old.items))) }
    ensures whole { IfOk result (λ cut. IfSome cut (λ frame. IsOneFrame MAX_REQUEST_BODY frame
        × (rest.old.items ≡ frame ++ rest.new.items))) }
    ensures err { IfErr result (λ fault. (rest.new.items ≡ rest.old.items)
        × (fault ≢ WireFault.NoMemory
        → (fault ≡ WireFault.BadLength) × FaultStands WireFault.BadLength rest.old.items)) }
    ensures waits { IsBegun MAX_REQUEST_BODY rest.old.items → result ≡ Ok None }
    ensures length { FaultStands WireFault.BadLength rest.old.items → result ≡ Err WireFault.BadLength }
{
    if rest.len() < 4 {
        return Ok(None);
    }
    let len = announced_in(rest.as_slice());
    if len < 2 || len > MAX_REQUEST_BODY as usize {
        return Err(WireFault::BadLength);
    }
    if rest.len() < 4 + len {
        return Ok(None);
    }
    Ok(Some(rest.freeze_to(4 + len)?))
}

// The frame that was cut off before, or else the next one.
fn find(frame: Option<Bytes>, rest: &mut BytesMut) -> Result<Option<Bytes>, WireFault>
    requires { IfSome frame (IsOneFrame MAX_REQUEST_BODY) }
    ensures begun { IfOk result (λ found. IfNone found (IsBegun MAX_REQUEST_BODY rest.old.items
        × (frame ≡ None)
        × (rest.new.items ≡ rest.old.items))) }
    ensures whole { IfOk result (λ found. IfSome found (λ whole. IsOneFrame MAX_REQUEST_BODY whole
        × (cut_off frame ++ rest.old.items ≡ whole ++ rest.new.items))) }
    ensures err { IfErr result (λ fault. (frame ≡ None)
        × (rest.new.items ≡ rest.old.items)
        × (fault ≢ WireFault.NoMemory
        → (fault ≡ WireFault.BadLength) × FaultStands WireFault.BadLength rest.old.items)) }
    ensures waits { IsBegun MAX_REQUEST_BODY (cut_off frame ++ rest.old.items) → result ≡ Ok None }
    ensures length { FaultStands WireFault.BadLength (cut_off frame ++ rest.old.items)
        → result ≡ Err WireFault.BadLength }
{
    match frame {
        Some(frame) => Ok(Some(frame)),
        None => cut(rest),
    }
}

// The queries of a frame, each of them one of its version.
fn queries_of(alloc: Global, frame: &Bytes) -> Result<Frame<Query>, WireFault>
    requires { IsOneFrame MAX_REQUEST_BODY frame.now }
    ensures found { IfOk result (λ found. RequestsFit found × (frame.now ≡ request_frame found)) }
    ensures fault { IfErr result (λ fault. fault ≢ WireFault.NoMemory
        → (rest : List ℕ) → FaultStands fault (frame.now ++ rest)) }
{
    let found: Frame<Query> = body::frame(alloc, frame)?;
    if !found.version.has_all(found.messages.as_slice()) {
        return Err(WireFault::BadBody);
    }
    Ok(found)
}

// The fault at which a decoder stops: it doesn't stop when out of memory.
fn stopping(fault: WireFault) -> Option<WireFault>
    ensures { result ≡ stopping fault }
{
    match fault {
        WireFault::NoMemory => None,
        _ => Some(fault),
    }
}

impl Decoder {
    /// Returns a decoder that has taken no bytes. Allocates nothing.
    pub fn new(alloc: Global) -> Decoder
        ensures { result ≡ record { bytes = []; fault = None } }
    {
        Decoder {
            frame: None,
            rest: BytesMut::new(alloc),
            stopped: None,
            alloc,
        }
    }

    /// Returns whether no byte is kept. If so, the stream so far is whole frames, and all of them were returned.
    pub fn is_between_frames(&self) -> bool
        ensures { result ≡ (length self.now.bytes == 0) }
    {
        self.frame.is_none() && self.rest.is_empty()
    }

    /// Takes the next piece of the stream. A decoder that has stopped takes none of it.
    ///
    /// # Errors
    ///
    /// Only `NoMemory`; then nothing changed.
    pub fn feed(&mut self, piece: &[u8]) -> Result<(), WireFault>
        ensures taken { OnOk result (self.old.fault ≡ None
            → self.new ≡ record { bytes = self.old.bytes ++ piece.now; fault = None }) }
        ensures stopped { IsSome self.old.fault → IsOk result × (self.new ≡ self.old) }
        ensures err { IfErr result (λ fault. (fault ≡ WireFault.NoMemory) × (self.new ≡ self.old)) }
    {
        if self.stopped.is_none() {
            self.rest.extend_from_slice(piece)?;
        }
        Ok(())
    }

    /// Returns the next frame, with its version and its queries, or `None` if no whole frame is at the front yet. The
    /// bytes of keys and columns are shared with the frame. O(n) in the bytes of the frame.
    ///
    /// # Errors
    ///
    /// The fault at the front, as soon as the four bytes of the length are there (`BadLength`), or the whole frame
    /// (`BadVersion`, `BadBody`). Each later call returns the same fault. On `NoMemory` nothing changed.
    pub fn next(&mut self) -> Result<Option<Frame<Query>>, WireFault>
        ensures frame { IfOk result (λ next. IfSome next (λ frame. RequestsFit frame
            × (self.old.bytes ≡ request_frame frame ++ self.new.bytes)
            × (self.new.fault ≡ None))) }
        ensures begun { IfOk result (λ next. IfNone next (IsBegun MAX_REQUEST_BODY self.old.bytes
            × (self.new ≡ self.old))) }
        ensures waits { self.old.fault ≡ None → IsBegun MAX_REQUEST_BODY self.old.bytes → result ≡ Ok None }
        ensures length { self.old.fault ≡ None → FaultStands WireFault.BadLength self.old.bytes
            → result ≡ Err WireFault.BadLength }
        ensures fault { IfErr result (λ fault. fault ≢ WireFault.NoMemory → FaultStands fault self.old.bytes
            × (self.new ≡ record { bytes = self.old.bytes; fault = Some fault })) }
        ensures memory { IsErrOf result WireFault.NoMemory → (self.new ≡ self.old) × (self.old.fault ≡ None) }
        ensures stopped { (fault : WireFault) → self.old.fault ≡ Some fault → result ≡ Err fault }
        ensures only { (frame : Frame Query) (rest : List ℕ) → RequestsFit frame → self.old.fault ≡ None
            → self.old.bytes ≡ request_frame frame ++ rest
            → MatchResult result
            (λ next. IsSomeAnd next (λ found. (found ≡ frame) × (self.new.bytes ≡ rest)))
            (λ fault. fault ≡ WireFault.NoMemory) }
    {
        self.advance()
    }

    // `next`, without the clause that follows from the others.
    fn advance(&mut self) -> Result<Option<Frame<Query>>, WireFault>
        ensures frame { IfOk result (λ next. IfSome next (λ frame. RequestsFit frame
            × (self.old.bytes ≡ request_frame frame ++ self.new.bytes)
            × (self.new.fault ≡ None))) }
        ensures begun { IfOk result (λ next. IfNone next (IsBegun MAX_REQUEST_BODY self.old.bytes
            × (self.new ≡ self.old))) }
        ensures waits { self.old.fault ≡ None → IsBegun MAX_REQUEST_BODY self.old.bytes → result ≡ Ok None }
        ensures length { self.old.fault ≡ None → FaultStands WireFault.BadLength self.old.bytes
            → result ≡ Err WireFault.BadLength }
        ensures fault { IfErr result (λ fault. fault ≢ WireFault.NoMemory → FaultStands fault self.old.bytes
            × (self.new ≡ record { bytes = self.old.bytes; fault = Some fault })) }
        ensures memory { IsErrOf result WireFault.NoMemory → (self.new ≡ self.old) × (self.old.fault ≡ None) }
        ensures stopped { (fault : WireFault) → self.old.fault ≡ Some fault → result ≡ Err fault }
    {
        if let Some(fault) = self.stopped {
            return Err(fault);
        }
        match find(self.frame.take(), &mut self.rest) {
            Ok(None) => Ok(None),
            Ok(Some(frame)) => match queries_of(self.alloc, &frame) {
                Ok(queries) => Ok(Some(queries)),
                Err(fault) => {
                    self.frame = Some(frame);
                    self.stopped = stopping(fault);
                    Err(fault)
                }
            },
            Err(fault) => {
                self.stopped = stopping(fault);
                Err(fault)
            }
        }
    }
}
