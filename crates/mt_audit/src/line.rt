//! What a line of an audit says.

ghost use Rattle.std.specs.Prelude.{◌≡◌, nat_lt, length, IfOk};
ghost use Rattle.std.specs.List.{list_any};
ghost use Rattle.mt_types.specs.declared.limits.TheConstants.{MAX_COLUMN_BYTES};
ghost use Rattle.mt_script.specs.Words.{Gives};
ghost use Rattle.mt_audit.specs.Book.{IsTaken};
ghost use Rattle.mt_audit.specs.Lines.{is_whole, whole_row_of, state_of, delta_of, logged_of, kept_of, line_of};

use crate::receipts::read_receipt;
use mt_check::receipt::Receipt;
use mt_script::fault::LineError;
use mt_script::values::{key_from, row_from};
use mt_script::words::{cut, number};
use mt_types::limits::MAX_COLUMN_BYTES;
use mt_types::row::{Columns, Delta, Row};
use std::alloc::Global;

/// What a line of an audit says.
#[derive(Drop)]
pub(crate) enum Line {
    /// A delta of the log.
    Logged(Delta),
    /// A receipt that was kept.
    Kept(Receipt),
}

fn has_long_column(columns: &Columns) -> bool
    ensures { result ≡ list_any (λ bytes. nat_lt MAX_COLUMN_BYTES (length bytes)) columns.now }
{
    columns.iter().any(|column| column.len() > MAX_COLUMN_BYTES)
}

// Whether a row has all its columns, none of them too long.
fn is_whole(columns: u8, row: &Row) -> bool
    ensures { result ≡ is_whole columns row.now }
{
    row.columns.len() == columns as usize && !has_long_column(&row.columns)
}

#[tactic(auto, unfolding(crate::specs::Lines::whole_row_of))]
fn whole_row(alloc: Global, columns: u8, word: &[u8]) -> Result<Row, LineError>
    ensures { Gives (λ r. r) result (whole_row_of columns word.now) }
{
    let row = row_from(alloc, word, b':')?;
    if is_whole(columns, &row) {
        Ok(row)
    } else {
        Err(LineError::Bad)
    }
}

#[tactic(auto, unfolding(crate::specs::Lines::state_of))]
fn state(alloc: Global, columns: u8, word: &[u8]) -> Result<Option<Row>, LineError>
    ensures { Gives (λ r. r) result (state_of columns word.now) }
{
    if word == b"none".as_slice() {
        return Ok(None);
    }
    let row = whole_row(alloc, columns, word)?;
    Ok(Some(row))
}

#[tactic(auto, unfolding(crate::specs::Lines::delta_of))]
fn delta(alloc: Global, columns: u8, text: &[u8]) -> Result<Delta, LineError>
    ensures { Gives (λ d. d) result (delta_of columns text.now) }
{
    let (word, rest) = cut(text, b' ')?;
    let number = number(word, u64::MAX)?;
    let (word, rest) = cut(rest, b' ')?;
    let key = key_from(alloc, word)?;
    let (word, rest) = cut(rest, b' ')?;
    let before = state(alloc, columns, word)?;
    let after = state(alloc, columns, rest)?;
    Ok(Delta {
        number,
        key,
        before,
        after,
    })
}

#[tactic(auto, unfolding(crate::specs::Lines::logged_of))]
fn logged(alloc: Global, columns: u8, text: &[u8]) -> Result<Line, LineError>
    ensures value { Gives (λ l. l) result (logged_of columns text.now) }
    ensures taken { IfOk result (IsTaken columns) }
{
    let delta = delta(alloc, columns, text)?;
    Ok(Line::Logged(delta))
}

#[tactic(auto, unfolding(crate::specs::Lines::kept_of))]
fn kept(alloc: Global, columns: u8, text: &[u8]) -> Result<Line, LineError>
    ensures value { Gives (λ l. l) result (kept_of columns text.now) }
    ensures taken { IfOk result (IsTaken columns) }
{
    let receipt = read_receipt(alloc, columns, text)?;
    Ok(Line::Kept(receipt))
}

/// Returns what a line says, of an index of `columns` columns: `delta N KEY BEFORE AFTER` or
/// `receipt FROM TO REQUEST => ANSWER`.
#[tactic(auto, unfolding(crate::specs::Lines::line_of))]
pub(crate) fn read_line(alloc: Global, columns: u8, line: &[u8]) -> Result<Line, LineError>
    ensures value { Gives (λ l. l) result (line_of columns line.now) }
    ensures taken { IfOk result (IsTaken columns) }
{
    let (word, rest) = cut(line, b' ')?;
    if word == b"delta".as_slice() {
        logged(alloc, columns, rest)
    } else if word == b"receipt".as_slice() {
        kept(alloc, columns, rest)
    } else {
        Err(LineError::Bad)
    }
}
