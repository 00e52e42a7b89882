//! A line that reads of one moment: what its words say, and the text of its answer.

ghost use Rattle.std.specs.Prelude.{◌≡◌, ◌++◌, OnOk, string_bytes};
ghost use Rattle.std.specs.List.{flat_map};
ghost use Rattle.mt_script.specs.Reads.{back_of, count_of, found_text, gets_of, quiet_text, read_of};
ghost use Rattle.mt_script.specs.Words.{Gives};

use crate::fault::LineError;
use crate::reading::{columns, end};
use crate::showing::{push_row_or_none, push_rows};
use crate::words::{bytes_from, cut, number, read_parts};
use bytes::Bytes;
use mt_reads::quiet::{QuietAnswer, QuietRead};
use mt_types::items::Items;
use mt_types::row::Row;
use std::alloc::{AllocError, Global};

#[tactic(auto, unfolding(crate::specs::Reads::gets_of))]
fn gets(alloc: Global, text: &[u8]) -> Result<QuietRead, LineError>
    ensures { Gives (λ r. r) result (gets_of text.now) }
{
    let (word, rest) = cut(text, b' ')?;
    let keys: Vec<Bytes> = read_parts(alloc, word, b',')?;
    let columns = columns(alloc, rest)?;
    Ok(QuietRead::Gets {
        keys: Items::from_vec(keys),
        columns,
    })
}

#[tactic(auto, unfolding(crate::specs::Reads::back_of))]
fn back(alloc: Global, text: &[u8]) -> Result<QuietRead, LineError>
    ensures { Gives (λ r. r) result (back_of text.now) }
{
    let (word, rest) = cut(text, b' ')?;
    let before = end(alloc, word)?;
    let (word, rest) = cut(rest, b' ')?;
    let limit = number(word, 65535)? as u16;
    let columns = columns(alloc, rest)?;
    Ok(QuietRead::RangeBack {
        before,
        limit,
        columns,
    })
}

#[tactic(auto, unfolding(crate::specs::Reads::count_of))]
fn count(alloc: Global, text: &[u8]) -> Result<QuietRead, LineError>
    ensures { Gives (λ r. r) result (count_of text.now) }
{
    let (word, rest) = cut(text, b' ')?;
    let from = bytes_from(alloc, word)?;
    let (word, rest) = cut(rest, b' ')?;
    let to = end(alloc, word)?;
    let most = number(rest, 4_294_967_295)? as u32;
    Ok(QuietRead::Count { from, to, most })
}

/// Returns the read that a first word and the text after it say: `gets KEYS COLS`, in which the keys are joined by commas,
/// `back END LIMIT COLS` or `count START END MOST`, in which END is a key or `none`.
#[tactic(auto, unfolding(crate::specs::Reads::read_of))]
pub(crate) fn read_quiet_of(alloc: Global, word: &[u8], text: &[u8]) -> Result<QuietRead, LineError>
    ensures { Gives (λ r. r) result (read_of word.now text.now) }
{
    if word == b"gets".as_slice() {
        gets(alloc, text)
    } else if word == b"back".as_slice() {
        back(alloc, text)
    } else if word == b"count".as_slice() {
        count(alloc, text)
    } else {
        Err(LineError::Bad)
    }
}

// Writes a space and a row, or `none`.
fn push_found(alloc: Global, out: &mut String, row: &Option<Row>) -> Result<(), AllocError>
    ensures { OnOk result (string_bytes out.new ≡ string_bytes out.old ++ found_text row.now) }
{
    out.push_str(" ")?;
    push_row_or_none(alloc, out, row)
}

fn push_each(alloc: Global, out: &mut String, found: &[Option<Row>]) -> Result<(), AllocError>
    ensures { OnOk result (string_bytes out.new ≡ string_bytes out.old ++ flat_map found_text found.now) }
{
    for row in found {
        push_found(alloc, out, row)?;
    }
    Ok(())
}

/// Writes the text of an answer at the end, without a line feed: `found N` and each row or `none`, `rows N` and each row
/// with its key, or `count N`.
pub(crate) fn push_quiet(
    alloc: Global,
    out: &mut String,
    answer: &QuietAnswer,
) -> Result<(), AllocError>
    ensures { OnOk result (string_bytes out.new ≡ string_bytes out.old ++ quiet_text answer.now) }
{
    match answer {
        QuietAnswer::Rows(found) => {
            let many = found.len();
            write!(out, "found {many}")?;
            push_each(alloc, out, found.as_slice())
        }
        QuietAnswer::Pairs(pairs) => {
            out.push_str("rows ")?;
            push_rows(alloc, out, pairs.as_slice())
        }
        QuietAnswer::Count(count) => {
            let count = *count;
            write!(out, "count {count}")
        }
    }
}
