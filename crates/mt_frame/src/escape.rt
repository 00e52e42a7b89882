//! Bytes without a zero: 0 is written 1 1, and 1 is written 1 2.

ghost use Rattle.std.specs.Prelude.{◌≡◌, ◌++◌, ◌∷◌, ℕ, List, OnOk, MatchResult, false};
ghost use Rattle.mt_frame.specs.Spelling.{escaped};
ghost use Rattle.mt_frame.specs.Reading.{before, unescaped, Fails, Gives};

use crate::fault::ReadError;
use std::alloc::{AllocError, Global};

/// Writes the text of `bytes` at the end of `out`. On an error some of it may be there.
#[tactic(auto, unfolding(crate::specs::Spelling::escaped))]
pub fn push_escaped(out: &mut Vec<u8>, bytes: &[u8]) -> Result<(), AllocError>
    ensures { OnOk result (out.new.items ≡ out.old.items ++ escaped bytes.now) }
{
    for byte in bytes {
        match *byte {
            0 => out.extend_from_slice(&[1, 1])?,
            1 => out.extend_from_slice(&[1, 2])?,
            other => out.push(other)?,
        }
    }
    Ok(())
}

// Takes the next byte of a text: pushes what it stands for, and returns whether it begins an escape.
#[tactic(auto, unfolding(crate::specs::Reading::unescaped), using(crate::proofs::Unescaping::before_byte))]
fn push_unescaped(bytes: &mut Vec<u8>, is_escape: bool, byte: u8) -> Result<bool, ReadError>
    ensures { MatchResult result
        (λ next. (rest : List ℕ) → before bytes.new.items (unescaped next rest)
        ≡ before bytes.old.items (unescaped is_escape (byte ∷ rest)))
        (λ error. (rest : List ℕ) → Fails error (unescaped is_escape (byte ∷ rest))) }
{
    match (is_escape, byte) {
        (true, 1) => bytes.push(0)?,
        (true, 2) => bytes.push(1)?,
        (true, _) | (false, 0) => return Err(ReadError::Misspelled),
        (false, 1) => return Ok(true),
        (false, other) => bytes.push(other)?,
    }
    Ok(false)
}

/// Returns the bytes of which `text` is the text. `Misspelled` if there are none.
#[tactic(auto, unfolding(crate::specs::Reading::unescaped))]
pub fn unescape(alloc: Global, text: &[u8]) -> Result<Vec<u8>, ReadError>
    ensures { Gives (λ bytes. bytes.items) result (unescaped false text.now) }
{
    let mut bytes = Vec::new(alloc);
    bytes.reserve(text.len())?;
    let mut is_escape = false;
    for byte in text {
        is_escape = push_unescaped(&mut bytes, is_escape, *byte)?;
    }
    if is_escape {
        return Err(ReadError::Misspelled);
    }
    Ok(bytes)
}
