//! Entries, written as frames.

ghost use Rattle.std.specs.Prelude.{◌≡◌, ◌↔◌, ◌<◌, length, IsTrue, IfOk, OnOk, IsErrOf};
ghost use Rattle.mt_frame.specs.Spelling.{entry_spelling, sealed, text_of, frame_of};
ghost use Rattle.mt_frame.specs.Fits.{CountFits, EntryFits, HasFrame};

use crate::digest::digest_of;
use crate::entry::Entry;
use crate::escape::push_escaped;
use crate::fault::EncodeError;
use crate::front::put_length;
use crate::limits::{LENGTH_BYTES, MAX_RECORDS, MAX_TEXT_BYTES};
use crate::writing::{number64, write_entry};
use std::alloc::{AllocError, Global};

fn count_fits(entry: &Entry) -> bool
    ensures { IsTrue result ↔ CountFits entry.now }
{
    match entry {
        Entry::Commits(commits) => commits.records.len() <= MAX_RECORDS,
        Entry::Rows(part) => part.rows.len() <= MAX_RECORDS,
        Entry::Header(_) | Entry::Sealed(_) | Entry::Closed(_) => true,
    }
}

// The body of a frame.
fn body(alloc: Global, generation: u64, place: u64, entry: &Entry) -> Result<Vec<u8>, AllocError>
    requires { CountFits entry.now }
    ensures value { IfOk result (λ body. body.items ≡ sealed generation place (entry_spelling entry.now)) }
    ensures fits { OnOk result (EntryFits entry.now) }
{
    let mut body = Vec::new(alloc);
    write_entry(&mut body, entry)?;
    let digest = digest_of(generation, place, &body);
    number64(&mut body, digest)?;
    Ok(body)
}

/// Returns the frame of `entry` at this place of the log of this generation. A header has the generation 0 and the place
/// 0. O(n) in the bytes of the frame.
///
/// # Errors
///
/// `TooLong` exactly if there are more than `MAX_RECORDS` records or rows, or if the text would have more than
/// `MAX_TEXT_BYTES` bytes.
pub fn encode(
    alloc: Global,
    generation: u64,
    place: u64,
    entry: &Entry,
) -> Result<Vec<u8>, EncodeError>
    ensures value { IfOk result (λ frame. frame.items ≡ frame_of generation place entry.now) }
    ensures fits { OnOk result (HasFrame generation place entry.now) }
    ensures long { IsErrOf result EncodeError.TooLong → HasFrame generation place entry.now → ⊥ }
    ensures many { (CountFits entry.now → ⊥) → IsErrOf result EncodeError.TooLong }
    ensures text { IsErrOf result EncodeError.TooLong → CountFits entry.now
        → MAX_TEXT_BYTES < length (text_of generation place entry.now) }
{
    if !count_fits(entry) {
        return Err(EncodeError::TooLong);
    }
    let body = body(alloc, generation, place, entry)?;
    let mut frame = Vec::new(alloc);
    frame.extend_from_slice(&[0; LENGTH_BYTES])?;
    push_escaped(&mut frame, &body)?;
    let count = frame.len() - LENGTH_BYTES;
    if count > MAX_TEXT_BYTES {
        return Err(EncodeError::TooLong);
    }
    put_length(&mut frame, count as u32);
    Ok(frame)
}
