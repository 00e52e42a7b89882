//! The frame of answers, appended to the bytes that are to go.

ghost use Rattle.std.specs.Prelude.{◌≡◌, ◌++◌, OnOk, OnErr};
ghost use Rattle.mt_wire.specs.Spelling.{framed};
ghost use Rattle.mt_wire.specs.Limited.{ResponseIsLimited};
ghost use Rattle.mt_wire.specs.Frames.{Holds, reply_frame};

use mt_wire::encode::encode_replies_into;
use mt_wire::fault::EncodeError;
use mt_wire::laws::limited_replies_fit;
use mt_wire::response::Response;
use mt_wire::version::WireVersion;
use std::alloc::{AllocError, Global};

// Replaces what `out` has by the frame of these answers. Answers that keep the limits of an index are never too long
// for a frame.
fn encode(out: &mut Vec<u8>, version: WireVersion, responses: &[Response]) -> Result<(), AllocError>
    requires { Holds ResponseIsLimited responses.now }
    ensures frame { OnOk result (out.new.items ≡ reply_frame (framed version responses.now)) }
{
    limited_replies_fit();
    match encode_replies_into(out, version, responses) {
        Ok(()) => Ok(()),
        Err(EncodeError::NoMemory) => Err(AllocError),
        Err(EncodeError::TooLong) => unreachable!(),
    }
}

/// Appends the frame of these answers. If `out` is empty, the frame is made in its memory. O(n) in the bytes of the frame.
///
/// # Errors
///
/// If out of memory: then nothing is appended.
pub fn append(
    alloc: Global,
    out: &mut Vec<u8>,
    version: WireVersion,
    responses: &[Response],
) -> Result<(), AllocError>
    requires { Holds ResponseIsLimited responses.now }
    ensures frame { OnOk result (out.new.items ≡ out.old.items ++ reply_frame (framed version responses.now)) }
    ensures err { OnErr result (out.new.items ≡ out.old.items) }
{
    if out.is_empty() {
        let made = encode(out, version, responses);
        if made.is_err() {
            out.clear();
        }
        return made;
    }
    let mut frame = Vec::new(alloc);
    encode(&mut frame, version, responses)?;
    out.extend_from_slice(&frame)
}
