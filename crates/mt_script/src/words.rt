//! Words, numbers and bytes in a text, and lists of them between stops.

ghost use Rattle.std.specs.Prelude.{◌≡◌, ◌≤◌, ◌<◌, length, MatchOption, IfSome, IfOk};
ghost use Rattle.mt_script.specs.Words.{Gives, Pushes, word_at, last_word_at, number_of, bytes_of, each, parts};

use crate::fault::LineError;
use bytes::Bytes;
use hex::FromHexError;
use std::alloc::Global;

/// Returns what is before the first stop, and what is after it, if there is a stop.
pub fn halves(text: &[u8], stop: u8) -> Option<(&[u8], &[u8])>
    ensures found { MatchOption result (word_at stop text.now ≡ None)
        (λ x. word_at stop text.now ≡ Some (x.0.now, x.1.now)) }
    ensures shorter { IfSome result (λ x. length x.1.now < length text.now) }
{
    for (i, b) in text.iter().enumerate() {
        if *b == stop {
            return Some((&text[..i], &text[i + 1..]));
        }
    }
    None
}

// What is before the last stop, and what is after it, if there is a stop.
fn last_halves(text: &[u8], stop: u8) -> Option<(&[u8], &[u8])>
    ensures { MatchOption result (last_word_at stop text.now ≡ None)
        (λ x. last_word_at stop text.now ≡ Some (x.0.now, x.1.now)) }
{
    let mut end = text.len();
    while end > 0 {
        end -= 1;
        if text[end] == stop {
            return Some((&text[..end], &text[end + 1..]));
        }
    }
    None
}

/// Returns what is before the first stop, and what is after it. If there is no stop, the line is bad.
pub fn cut(text: &[u8], stop: u8) -> Result<(&[u8], &[u8]), LineError>
    ensures { Gives (λ x. (x.0.now, x.1.now)) result (word_at stop text.now) }
{
    match halves(text, stop) {
        Some(found) => Ok(found),
        None => Err(LineError::Bad),
    }
}

/// Returns what is before the last stop, and what is after it. If there is no stop, the line is bad.
pub fn cut_last(text: &[u8], stop: u8) -> Result<(&[u8], &[u8]), LineError>
    ensures { Gives (λ x. (x.0.now, x.1.now)) result (last_word_at stop text.now) }
{
    match last_halves(text, stop) {
        Some(found) => Ok(found),
        None => Err(LineError::Bad),
    }
}

/// A number in decimal digits, at least one, that is at most this.
pub fn large_number(word: &[u8], most: u128) -> Result<u128, LineError>
    ensures value { Gives (λ n. n) result (number_of most word.now) }
    ensures bound { IfOk result (λ n. n ≤ most) }
{
    if word.is_empty() {
        return Err(LineError::Bad);
    }
    let mut n: u128 = 0;
    for c in word {
        if !c.is_ascii_digit() {
            return Err(LineError::Bad);
        }
        let digit = u128::from(*c - b'0');
        n = match n.checked_mul(10) {
            Some(tens) => match tens.checked_add(digit) {
                Some(m) => m,
                None => return Err(LineError::Bad),
            },
            None => return Err(LineError::Bad),
        };
        if n > most {
            return Err(LineError::Bad);
        }
    }
    Ok(n)
}

/// A number in decimal digits, at least one, that is at most this.
pub fn number(word: &[u8], most: u64) -> Result<u64, LineError>
    ensures value { Gives (λ n. n) result (number_of most word.now) }
    ensures bound { IfOk result (λ n. n ≤ most) }
{
    let n = large_number(word, u128::from(most))?;
    Ok(n as u64)
}

/// Returns a key or the bytes of a column: hex of either case, or `-` for none. Makes an allocation or two.
pub fn bytes_from(alloc: Global, word: &[u8]) -> Result<Bytes, LineError>
    ensures { Gives (λ b. b) result (bytes_of word.now) }
{
    if word == b"-".as_slice() {
        return Ok(Bytes::new());
    }
    if word.is_empty() {
        return Err(LineError::Bad);
    }
    match hex::decode(alloc, word) {
        Ok(bytes) => Ok(Bytes::from_vec(bytes)?),
        Err(FromHexError::OutOfMemory) => Err(LineError::Memory),
        Err(_) => Err(LineError::Bad),
    }
}

/// A value that is written between the stops of a list.
pub trait Part: Drop {
    ghost use Rattle.std.specs.Prelude.{ℕ, List, Option};

    /// What a text says.
    ghost part_of: { List ℕ → Option Self };

    /// Returns what `text` says.
    fn read(alloc: Global, text: &[u8]) -> Result<Self, LineError>
        ensures { Gives (λ x. x) result (part_of text.now) };
}

impl Part for u8 {
    ghost use Rattle.mt_script.specs.Words.{number_of};

    ghost part_of = { number_of 255 };

    fn read(_alloc: Global, text: &[u8]) -> Result<u8, LineError> {
        let n = number(text, 255)?;
        Ok(n as u8)
    }
}

impl Part for u128 {
    ghost use Rattle.std.specs.Prelude.{◌-◌, ◌^◌};
    ghost use Rattle.mt_script.specs.Words.{number_of};

    ghost part_of = { number_of (2 ^ 128 - 1) };

    fn read(_alloc: Global, text: &[u8]) -> Result<u128, LineError> {
        large_number(text, u128::MAX)
    }
}

impl Part for Bytes {
    ghost use Rattle.mt_script.specs.Words.{bytes_of};

    ghost part_of = { bytes_of };

    fn read(alloc: Global, text: &[u8]) -> Result<Bytes, LineError> {
        bytes_from(alloc, text)
    }
}

// Reads one more part.
fn push_part<T: Part>(alloc: Global, read: &mut Vec<T>, text: &[u8]) -> Result<(), LineError>
    ensures { Pushes (T.part_of text.now) read.old.items read.new.items result }
{
    let part = T::read(alloc, text)?;
    read.push(part)?;
    Ok(())
}

/// Returns the parts between stops. Costs what they cost, and a list of them that doubles as it grows.
pub fn read_parts<T: Part>(alloc: Global, text: &[u8], stop: u8) -> Result<Vec<T>, LineError>
    ensures { Gives (λ v. v.items) result (each T.part_of (parts stop text.now)) }
{
    let mut read = Vec::new(alloc);
    let mut rest = text;
    while let Some((word, more)) = halves(rest, stop) {
        push_part(alloc, &mut read, word)?;
        rest = more;
    }
    push_part(alloc, &mut read, rest)?;
    Ok(read)
}
