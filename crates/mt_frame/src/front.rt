//! The length of a frame, written and read, and whether a whole frame is at the front of bytes.

ghost use Rattle.std.specs.Prelude.{◌≡◌, ◌+◌, ◌≤◌, ◌++◌, nat_le, IfOk, IfSome, length, take, drop, Some, None, if◌then◌else◌};
ghost use Rattle.std.specs.List.{list_all};
ghost use Rattle.mt_frame.specs.Spelling.{length_spelling};
ghost use Rattle.mt_frame.specs.Ends.{has_zero, is_length, announced};
ghost use Rattle.mt_frame.specs.Faults.{front};

use crate::fault::FrameFault;
use crate::limits::{LENGTH_BYTES, MAX_TEXT_BYTES};

// The first bytes, at most `count`.
fn first(bytes: &[u8], count: usize) -> &[u8]
    ensures { result.now ≡ take count bytes.now }
{
    if count < bytes.len() {
        &bytes[..count]
    } else {
        bytes
    }
}

/// Returns the bytes after the length of a frame.
pub fn after_length(bytes: &[u8]) -> &[u8]
    requires { LENGTH_BYTES ≤ length bytes.now }
    ensures { result.now ≡ drop LENGTH_BYTES bytes.now }
{
    bytes.split_at(LENGTH_BYTES).1
}

fn contains_zero(bytes: &[u8]) -> bool
    ensures { result ≡ has_zero bytes.now }
{
    bytes.iter().any(|byte| *byte == 0)
}

fn are_high(bytes: &[u8]) -> bool
    ensures { result ≡ list_all (λ byte. nat_le 128 byte) bytes.now }
{
    bytes.iter().all(|byte| 128 <= *byte)
}

// The length that these bytes spell, if it is within its bounds.
fn length_of(bytes: &[u8]) -> Option<usize>
    requires { length bytes.now ≡ LENGTH_BYTES }
    ensures { result ≡ (if is_length bytes.now then Some (announced bytes.now) else None) }
{
    if !are_high(bytes) {
        return None;
    }
    let length = usize::from(bytes[0] % 128) * 0x1000_0000
        + usize::from(bytes[1] % 128) * 0x20_0000
        + usize::from(bytes[2] % 128) * 0x4000
        + usize::from(bytes[3] % 128) * 0x80
        + usize::from(bytes[4] % 128);
    if length < 1 || MAX_TEXT_BYTES < length {
        return None;
    }
    Some(length)
}

/// Returns how many bytes the text of the frame has that is whole at the front, or `None` if a zero ends the log there.
pub fn front_of(bytes: &[u8]) -> Result<Option<usize>, FrameFault>
    ensures value { result ≡ front bytes.now }
    ensures within { IfOk result (λ ahead. IfSome ahead (λ count. LENGTH_BYTES + count ≤ length bytes.now)) }
{
    let head = first(bytes, LENGTH_BYTES);
    if contains_zero(head) {
        return Ok(None);
    }
    if head.len() < LENGTH_BYTES {
        return Err(FrameFault::Cut);
    }
    let Some(length) = length_of(head) else {
        return Err(FrameFault::Length);
    };
    let text = first(after_length(bytes), length);
    if contains_zero(text) {
        return Ok(None);
    }
    if text.len() < length {
        return Err(FrameFault::Cut);
    }
    Ok(Some(length))
}

/// Writes a length over the first five bytes.
pub fn put_length(out: &mut Vec<u8>, count: u32)
    requires { 5 ≤ length out.old.items }
    ensures { out.new.items ≡ length_spelling count ++ drop 5 out.old.items }
{
    out[0] = 128 + (count / 0x1000_0000 % 128) as u8;
    out[1] = 128 + (count / 0x20_0000 % 128) as u8;
    out[2] = 128 + (count / 0x4000 % 128) as u8;
    out[3] = 128 + (count / 0x80 % 128) as u8;
    out[4] = 128 + (count % 128) as u8;
}
