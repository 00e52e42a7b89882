//! The body of a frame: its version, and the messages that fill it.

ghost use Rattle.std.specs.Prelude.{◌≡◌, ◌≤◌, length, drop};
ghost use Rattle.mt_wire.specs.Reading.{Gives};
ghost use Rattle.mt_wire.specs.Bodies.{Reads, IsBytes, messages_at, body_at};

use crate::fault::{ReadError, WireFault};
use crate::frame::Frame;
use crate::reading::{Readable, byte, items};
use crate::version::WireVersion;
use bytes::Bytes;
use mt_types::items::Items;
use mt_types::limits::MAX_QUERIES;
use std::alloc::Global;

#[tactic(auto, unfolding(crate::specs::Bodies::messages_at))]
fn messages<T: Readable + Drop>(alloc: Global, input: &mut Bytes) -> Result<Vec<T>, ReadError>
    ensures { Gives (λ messages. messages.items) result (messages_at T.reading input.old) }
{
    let count = usize::from(byte(input)?);
    if count < 1 || MAX_QUERIES < count {
        return Err(ReadError::Misspelled);
    }
    let messages = items(alloc, input, count)?;
    if !input.is_empty() {
        return Err(ReadError::Misspelled);
    }
    Ok(messages)
}

// The frame of a body, all of it.
#[tactic(auto, unfolding(crate::specs::Bodies::body_at, crate::specs::Reading::byte_at))]
fn body<T: Readable + Drop>(alloc: Global, mut input: Bytes) -> Result<Frame<T>, WireFault>
    ensures { Reads (λ frame. frame) result (body_at T.reading input) }
{
    let Some(version) = WireVersion::of(byte(&mut input)?) else {
        return Err(WireFault::BadVersion);
    };
    let messages = Items::from_vec(messages(alloc, &mut input)?);
    Ok(Frame { version, messages })
}

// Does nothing: it tells the proof that the items of a slice of bytes are bytes.
fn hold_bytes(_bytes: &[u8])
    ensures { IsBytes _bytes.now }
{}

/// The version and the messages of a whole frame, which share its bytes.
pub fn frame<T: Readable + Drop>(alloc: Global, frame: &Bytes) -> Result<Frame<T>, WireFault>
    requires { 4 ≤ length frame.now }
    ensures read { Reads (λ frame. frame) result (body_at T.reading (drop 4 frame.now)) }
    ensures bytes { IsBytes frame.now }
{
    hold_bytes(frame.as_slice());
    body(alloc, frame.slice(4..)?)
}
