//! Frames, read.

ghost use Rattle.std.specs.Prelude.{◌≡◌, ◌++◌, ℕ, List, length, drop, Ok, IsTrue, IfOk, IfSome, IfNone, if◌then◌else◌};
ghost use Rattle.mt_frame.specs.declared.entry.Entry.{Entry};
ghost use Rattle.mt_frame.specs.Spelling.{frame_of};
ghost use Rattle.mt_frame.specs.Fits.{HasFrame};
ghost use Rattle.mt_frame.specs.Ends.{ends};
ghost use Rattle.mt_frame.specs.Reading.{content_at};
ghost use Rattle.mt_frame.specs.Faults.{Reads, has_other_format, entry_of as entry_in, opened, text_says, frame_at};

use crate::digest::digest_of;
use crate::entry::Entry;
use crate::escape::unescape;
use crate::fault::{DecodeError, FrameFault, ReadError};
use crate::front::{after_length, front_of};
use crate::limits::{DIGEST_BYTES, LENGTH_BYTES};
use crate::reading::read_content;
use bytes::Bytes;
use std::alloc::Global;

// Why no entry was read of a content.
fn why_unread(content: &[u8]) -> FrameFault
    ensures { result ≡ (if has_other_format content.now then FrameFault.UnknownFormat else FrameFault.Entry) }
{
    if content.starts_with(b"\x01rowanspan log")
        && !content.starts_with(b"\x01rowanspan log\0\x01")
    {
        return FrameFault::UnknownFormat;
    }
    FrameFault::Entry
}

fn entry_of(alloc: Global, content: &Bytes) -> Result<Entry, DecodeError>
    ensures { Reads (λ x. x) result (entry_in content.now (content_at content.now)) }
{
    match read_content(alloc, content.slice(..)?) {
        Ok(entry) => Ok(entry),
        Err(ReadError::NoMemory) => Err(DecodeError::NoMemory),
        Err(ReadError::Misspelled) => Err(DecodeError::Faulty(why_unread(content.as_slice()))),
    }
}

// The entry of a body, if its digest is right.
#[tactic(auto, unfolding(crate::specs::Faults::opened))]
fn open(alloc: Global, generation: u64, place: u64, body: Vec<u8>) -> Result<Entry, DecodeError>
    ensures { Reads (λ x. x) result (opened generation place body.items) }
{
    let at = body.len().saturating_sub(DIGEST_BYTES);
    let mut content = Bytes::from_vec(body)?;
    let digest = content.split_off(at)?;
    if digest.as_slice()
        != digest_of(generation, place, content.as_slice())
            .to_be_bytes()
            .as_slice()
    {
        return Err(DecodeError::Faulty(FrameFault::Digest));
    }
    entry_of(alloc, &content)
}

// The entry that a text says at its place.
#[tactic(auto, unfolding(crate::specs::Faults::text_says))]
fn entry_of_text(
    alloc: Global,
    generation: u64,
    place: u64,
    text: &[u8],
) -> Result<Entry, DecodeError>
    ensures { Reads (λ x. x) result (text_says generation place text.now) }
{
    match unescape(alloc, text) {
        Ok(body) => open(alloc, generation, place, body),
        Err(ReadError::NoMemory) => Err(DecodeError::NoMemory),
        Err(ReadError::Misspelled) => Err(DecodeError::Faulty(FrameFault::Escape)),
    }
}

// The entry at the front, and how many bytes its frame has.
#[tactic(auto, unfolding(crate::specs::Faults::frame_at))]
fn frame(
    alloc: Global,
    generation: u64,
    place: u64,
    bytes: &[u8],
) -> Result<Option<(Entry, usize)>, DecodeError>
    ensures { Reads (λ x. x) result (frame_at generation place bytes.now) }
{
    match front_of(bytes) {
        Err(fault) => Err(DecodeError::Faulty(fault)),
        Ok(None) => Ok(None),
        Ok(Some(count)) => {
            let end = LENGTH_BYTES + count;
            let text = &after_length(bytes)[..count];
            let entry = entry_of_text(alloc, generation, place, text)?;
            Ok(Some((entry, end)))
        }
    }
}

/// Returns the entry at the front of `bytes`, and how many bytes its frame has, or `None` if a zero ends the log there.
/// `place` is the place of the first byte in the log of this generation. A header has the generation 0 and the place 0.
/// O(n) in the bytes of the frame.
///
/// # Errors
///
/// `Faulty` if the bytes are no frame and no zero ends the log, with what is wrong first: the length, the end of the
/// file, a misspelled byte, the digest, the format, the entry. `NoMemory` if an allocation is refused.
pub fn decode(
    alloc: Global,
    generation: u64,
    place: u64,
    bytes: &[u8],
) -> Result<Option<(Entry, usize)>, DecodeError>
    ensures whole { IfOk result (λ read. IfSome read (λ found. HasFrame generation place found.0
        × (bytes.now ≡ frame_of generation place found.0 ++ drop found.1 bytes.now)
        × (found.1 ≡ length (frame_of generation place found.0)))) }
    ensures only { (entry : Entry) (rest : List ℕ) → HasFrame generation place entry
        → bytes.now ≡ frame_of generation place entry ++ rest
        → Reads (λ x. x) result (Ok (Some (entry, length (frame_of generation place entry)))) }
    ensures end { IfOk result (λ read. IfNone read (IsTrue (ends bytes.now))) }
    ensures ended { IsTrue (ends bytes.now) → Reads (λ x. x) result (Ok None) }
    ensures exact { Reads (λ x. x) result (frame_at generation place bytes.now) }
{
    frame(alloc, generation, place, bytes)
}
