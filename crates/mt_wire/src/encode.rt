//! Frames, written.

ghost use Rattle.std.specs.Prelude.{◌≡◌, ◌<◌, ◌≤◌, ◌↔◌, ◌^◌, ◌++◌, ◌∷◌, length, drop, IsTrue, IfOk, OnOk, IsErrOf};
ghost use Rattle.std.specs.Int.{w32, to_be_bytes};
ghost use Rattle.mt_wire.specs.Spelling.{query_spelling, response_spelling, framed, body_of, frame_of};
ghost use Rattle.mt_wire.specs.Frames.{Holds, RequestsLengths, RepliesLengths, request_frame, reply_frame};

use crate::fault::EncodeError;
use crate::limits::MAX_REPLY_BODY;
use crate::query::Query;
use crate::response::Response;
use crate::version::WireVersion;
use crate::writing::{Writable, all_fit, counted};
use mt_types::limits::{MAX_QUERIES, MAX_REQUEST_BODY};
use std::alloc::{AllocError, Global};

fn hold<T: Writable>(messages: &[T]) -> bool
    ensures { IsTrue result ↔ Holds T.lengths messages.now }
{
    !messages.is_empty() && messages.len() <= MAX_QUERIES && all_fit(messages)
}

// Writes a length over the first four bytes.
fn put_length(out: &mut Vec<u8>, len: u32)
    requires { 4 ≤ length out.old.items }
    ensures { out.new.items ≡ to_be_bytes w32 len ++ drop 4 out.old.items }
{
    let [first, second, third, fourth] = len.to_be_bytes();
    out[0] = first;
    out[1] = second;
    out[2] = third;
    out[3] = fourth;
}

// A body after four bytes, over what was there.
fn body<T: Writable>(
    out: &mut Vec<u8>,
    version: WireVersion,
    messages: &[T],
) -> Result<(), AllocError>
    requires { Holds T.lengths messages.now }
    ensures { OnOk result (out.new.items
        ≡ 0 ∷ 0 ∷ 0 ∷ 0 ∷ body_of T.spelling (framed version messages.now)) }
{
    out.clear();
    out.extend_from_slice(&[0, 0, 0, 0])?;
    out.push(version.byte())?;
    counted(out, messages)
}

// A frame, over what was there: its length is known when its body is written.
fn frame<T: Writable>(
    out: &mut Vec<u8>,
    version: WireVersion,
    messages: &[T],
    most: u32,
) -> Result<(), EncodeError>
    requires { Holds T.lengths messages.now }
    ensures value { OnOk result (out.new.items ≡ frame_of T.spelling (framed version messages.now)) }
    ensures fits { OnOk result (length (body_of T.spelling (framed version messages.now)) ≤ most) }
    ensures long { IsErrOf result EncodeError.TooLong
        → most < length (body_of T.spelling (framed version messages.now)) }
{
    body(out, version, messages)?;
    let len = out.len() - 4;
    if len > most as usize {
        return Err(EncodeError::TooLong);
    }
    put_length(out, len as u32);
    Ok(())
}

/// Whether a frame of this version may hold these queries: there are 1 to `MAX_QUERIES`, each length fits its field, and
/// the version has each of them.
pub fn requests_fit(version: WireVersion, queries: &[Query]) -> bool
    ensures { IsTrue result ↔ RequestsLengths (framed version queries.now) }
{
    hold(queries) && version.has_all(queries)
}

/// Returns whether a frame may hold these answers: there are 1 to `MAX_QUERIES`, and each length fits its field.
pub fn replies_fit(responses: &[Response]) -> bool
    ensures { IsTrue result ↔ RepliesLengths responses.now }
{
    hold(responses)
}

/// Returns the frame of these queries. O(n) in its bytes.
///
/// # Errors
///
/// `TooLong` exactly if its body would have more than `MAX_REQUEST_BODY` bytes.
pub fn encode_requests(
    alloc: Global,
    version: WireVersion,
    queries: &[Query],
) -> Result<Vec<u8>, EncodeError>
    requires { RequestsLengths (framed version queries.now) }
    ensures value { IfOk result (λ bytes. bytes.items ≡ request_frame (framed version queries.now)) }
    ensures fits { OnOk result (length (body_of query_spelling (framed version queries.now)) ≤ MAX_REQUEST_BODY) }
    ensures long { IsErrOf result EncodeError.TooLong
        → MAX_REQUEST_BODY < length (body_of query_spelling (framed version queries.now)) }
{
    let mut out = Vec::new(alloc);
    frame(&mut out, version, queries, MAX_REQUEST_BODY)?;
    Ok(out)
}

/// Replaces what `out` has by the frame of these answers, and uses the memory of `out` again. O(n) in the bytes of the
/// frame.
///
/// # Errors
///
/// `TooLong` exactly if its body would have more than `MAX_REPLY_BODY` bytes. What `out` has then is no frame.
pub fn encode_replies_into(
    out: &mut Vec<u8>,
    version: WireVersion,
    responses: &[Response],
) -> Result<(), EncodeError>
    requires { RepliesLengths responses.now }
    ensures value { OnOk result (out.new.items ≡ reply_frame (framed version responses.now)) }
    ensures fits { OnOk result (length (body_of response_spelling (framed version responses.now)) ≤ MAX_REPLY_BODY) }
    ensures long { IsErrOf result EncodeError.TooLong
        → MAX_REPLY_BODY < length (body_of response_spelling (framed version responses.now)) }
{
    frame(out, version, responses, MAX_REPLY_BODY)
}

/// Returns the frame of these answers. O(n) in its bytes.
///
/// # Errors
///
/// `TooLong` exactly if its body would have more than `MAX_REPLY_BODY` bytes.
pub fn encode_replies(
    alloc: Global,
    version: WireVersion,
    responses: &[Response],
) -> Result<Vec<u8>, EncodeError>
    requires { RepliesLengths responses.now }
    ensures value { IfOk result (λ bytes. bytes.items ≡ reply_frame (framed version responses.now)) }
    ensures fits { OnOk result (length (body_of response_spelling (framed version responses.now)) ≤ MAX_REPLY_BODY) }
    ensures long { IsErrOf result EncodeError.TooLong
        → MAX_REPLY_BODY < length (body_of response_spelling (framed version responses.now)) }
{
    let mut out = Vec::new(alloc);
    encode_replies_into(&mut out, version, responses)?;
    Ok(out)
}
