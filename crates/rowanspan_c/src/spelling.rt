//! Answers as bytes, each written at the end of those before it.

ghost use Rattle.std.specs.Prelude.{◌≡◌, ◌++◌, ℕ, List, OnOk, IfOk};
ghost use Rattle.std.specs.List.{flat_map};
ghost use Rattle.mt_types.specs.Rows.{chosen};
ghost use Rattle.rowanspan_c.specs.Spelling.{number_spelling, bytes_spelling, list_spelling, row_spelling, maybe_spelling, page_spelling, pairs_spelling, deltas_spelling};

use crate::placing::{column, count};
use mt_types::items::Items;
use mt_types::key::Key;
use mt_types::row::{Columns, Delta, Row};
use mt_types::view::Page;
use std::alloc::{AllocError, Global};

/// A part of an answer, which can be written as bytes.
pub(crate) trait Spelled {
    ghost spelling: { Self → List ℕ };

    /// Writes the bytes at the end of `out`. On an error some of them may have been written.
    fn write(&self, out: &mut Vec<u8>) -> Result<(), AllocError>
        ensures { OnOk result (out.new.items ≡ out.old.items ++ spelling self.now) };
}

/// Writes a number.
pub(crate) fn number(out: &mut Vec<u8>, number: u64) -> Result<(), AllocError>
    ensures { OnOk result (out.new.items ≡ out.old.items ++ number_spelling number) }
{
    out.extend_from_slice(&number.to_be_bytes())
}

/// Writes bytes, with how many there are before them.
pub(crate) fn bytes(out: &mut Vec<u8>, bytes: &[u8]) -> Result<(), AllocError>
    ensures { OnOk result (out.new.items ≡ out.old.items ++ bytes_spelling bytes.now) }
{
    number(out, bytes.len() as u64)?;
    out.extend_from_slice(bytes)
}

fn items<T: Spelled>(out: &mut Vec<u8>, items: &[T]) -> Result<(), AllocError>
    ensures { OnOk result (out.new.items ≡ out.old.items ++ flat_map T.spelling items.now) }
{
    for item in items {
        item.write(out)?;
    }
    Ok(())
}

fn list<T: Spelled>(out: &mut Vec<u8>, list: &[T]) -> Result<(), AllocError>
    ensures { OnOk result (out.new.items ≡ out.old.items ++ list_spelling T.spelling list.now) }
{
    number(out, list.len() as u64)?;
    items(out, list)
}

/// Writes the columns that are asked for, or all if none is asked for, with how many there are before them.
pub(crate) fn columns(out: &mut Vec<u8>, columns: &Columns, asked: &[u8]) -> Result<(), AllocError>
    ensures { OnOk result (out.new.items
        ≡ out.old.items ++ list_spelling bytes_spelling (chosen asked.now columns.now)) }
{
    let count = count(columns, asked);
    number(out, count as u64)?;
    for place in 0..count {
        bytes(out, column(columns, asked, place))?;
    }
    Ok(())
}

fn maybe(out: &mut Vec<u8>, row: &Option<Row>) -> Result<(), AllocError>
    ensures { OnOk result (out.new.items ≡ out.old.items ++ maybe_spelling row.now) }
{
    match row {
        None => number(out, 0),
        Some(row) => {
            number(out, 1)?;
            row.write(out)
        }
    }
}

impl Spelled for u128 {
    ghost use Rattle.rowanspan_c.specs.Spelling.{sum_spelling};

    ghost spelling = { sum_spelling };

    fn write(&self, out: &mut Vec<u8>) -> Result<(), AllocError> {
        let sum = *self;
        number(out, (sum / 0x1_0000_0000_0000_0000) as u64)?;
        number(out, (sum % 0x1_0000_0000_0000_0000) as u64)
    }
}

impl Spelled for Row {
    ghost use Rattle.rowanspan_c.specs.Spelling.{row_spelling};

    ghost spelling = { row_spelling };

    fn write(&self, out: &mut Vec<u8>) -> Result<(), AllocError> {
        number(out, self.version)?;
        columns(out, &self.columns, &[])
    }
}

impl Spelled for (Key, Row) {
    ghost use Rattle.rowanspan_c.specs.Spelling.{pair_spelling};

    ghost spelling = { pair_spelling };

    fn write(&self, out: &mut Vec<u8>) -> Result<(), AllocError> {
        bytes(out, self.0.as_slice())?;
        self.1.write(out)
    }
}

impl Spelled for Delta {
    ghost use Rattle.rowanspan_c.specs.Spelling.{delta_spelling};

    ghost spelling = { delta_spelling };

    fn write(&self, out: &mut Vec<u8>) -> Result<(), AllocError> {
        number(out, self.number)?;
        bytes(out, self.key.as_slice())?;
        maybe(out, &self.before)?;
        maybe(out, &self.after)
    }
}

impl Spelled for Page {
    ghost use Rattle.rowanspan_c.specs.Spelling.{page_spelling};

    ghost spelling = { page_spelling };

    fn write(&self, out: &mut Vec<u8>) -> Result<(), AllocError> {
        number(out, self.at)?;
        number(out, self.count)?;
        list(out, self.sums.as_slice())?;
        list(out, self.rows.as_slice())
    }
}

/// Returns the bytes of one answer. O(n) in these bytes.
pub(crate) fn bytes_of<T: Spelled>(alloc: Global, answer: &T) -> Result<Items<u8>, AllocError>
    ensures { IfOk result (λ bytes. bytes ≡ T.spelling answer.now) }
{
    let mut out = Vec::new(alloc);
    answer.write(&mut out)?;
    Ok(Items::from_vec(out))
}

/// Returns the bytes of a list of answers. O(n) in these bytes.
pub(crate) fn list_bytes_of<T: Spelled>(
    alloc: Global,
    answers: &[T],
) -> Result<Items<u8>, AllocError>
    ensures { IfOk result (λ bytes. bytes ≡ list_spelling T.spelling answers.now) }
{
    let mut out = Vec::new(alloc);
    list(&mut out, answers)?;
    Ok(Items::from_vec(out))
}
