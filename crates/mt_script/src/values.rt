//! What the words of rows with their keys say.

ghost use Rattle.std.specs.Prelude.{◌≡◌};
ghost use Rattle.mt_script.specs.Words.{Gives};
ghost use Rattle.mt_script.specs.Values.{key_of, values_of, row_of, no_rows_of, some_rows_of, rows_of};

use crate::fault::LineError;
use crate::words::{Part, bytes_from, cut, halves, number, read_parts};
use bytes::Bytes;
use mt_types::items::Items;
use mt_types::key::Key;
use mt_types::row::{Columns, Pairs, Row};
use std::alloc::Global;

/// A key: hex of either case, or `-`, of at most as many bytes as a key may have.
#[tactic(auto, unfolding(crate::specs::Values::key_of))]
pub fn key_from(alloc: Global, word: &[u8]) -> Result<Key, LineError>
    ensures { Gives (λ k. k) result (key_of word.now) }
{
    let bytes = bytes_from(alloc, word)?;
    match Key::new(bytes) {
        Ok(key) => Ok(key),
        Err(_) => Err(LineError::Bad),
    }
}

// Columns joined by commas: at most 255, of at most 255 bytes. Takes an allocation or two for each, and two more.
#[tactic(auto, unfolding(crate::specs::Values::values_of))]
fn values(alloc: Global, text: &[u8]) -> Result<Columns, LineError>
    ensures { Gives (λ c. c) result (values_of text.now) }
{
    let columns: Vec<Bytes> = read_parts(alloc, text, b',')?;
    match Columns::pack(alloc, columns.as_slice()) {
        Ok(Some(columns)) => Ok(columns),
        Ok(None) => Err(LineError::Bad),
        Err(_) => Err(LineError::Memory),
    }
}

/// A row: its version, a stop, and its columns joined by commas.
#[tactic(auto, unfolding(crate::specs::Values::row_of))]
pub fn row_from(alloc: Global, text: &[u8], stop: u8) -> Result<Row, LineError>
    ensures { Gives (λ r. r) result (row_of stop text.now) }
{
    let (word, rest) = cut(text, stop)?;
    let version = number(word, u64::MAX)?;
    let columns = values(alloc, rest)?;
    Ok(Row { version, columns })
}

impl Part for (Key, Row) {
    ghost use Rattle.mt_script.specs.Values.{pair_of};

    ghost part_of = { pair_of };

    #[tactic(auto, unfolding(crate::specs::Values::pair_of))]
    fn read(alloc: Global, text: &[u8]) -> Result<(Key, Row), LineError> {
        let (word, rest) = cut(text, b':')?;
        let key = key_from(alloc, word)?;
        let row = row_from(alloc, rest, b':')?;
        Ok((key, row))
    }
}

#[tactic(auto, unfolding(crate::specs::Values::no_rows_of))]
fn no_rows(alloc: Global, text: &[u8]) -> Result<Pairs, LineError>
    ensures { Gives (λ p. p) result (no_rows_of text.now) }
{
    let count = number(text, u64::MAX)?;
    if count == 0 {
        Ok(Items::new(alloc))
    } else {
        Err(LineError::Bad)
    }
}

#[tactic(auto, unfolding(crate::specs::Values::some_rows_of))]
fn some_rows(alloc: Global, word: &[u8], text: &[u8]) -> Result<Pairs, LineError>
    ensures { Gives (λ p. p) result (some_rows_of word.now text.now) }
{
    let count = number(word, u64::MAX)?;
    let pairs: Vec<(Key, Row)> = read_parts(alloc, text, b' ')?;
    if pairs.len() as u64 == count {
        Ok(Items::from_vec(pairs))
    } else {
        Err(LineError::Bad)
    }
}

/// Rows with their keys: how many, and then each after a space as `KEY:VERSION:VALUES`. Takes some allocations for
/// each.
pub fn rows_from(alloc: Global, text: &[u8]) -> Result<Pairs, LineError>
    ensures { Gives (λ p. p) result (rows_of text.now) }
{
    match halves(text, b' ') {
        Some((word, rest)) => some_rows(alloc, word, rest),
        None => no_rows(alloc, text),
    }
}
