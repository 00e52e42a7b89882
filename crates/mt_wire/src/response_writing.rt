//! Answers, written at the end of bytes.

ghost use Rattle.std.specs.Prelude.{◌≡◌, ◌∷◌, ◌++◌, ◌↔◌, IsTrue, OnOk};
ghost use Rattle.mt_wire.specs.Spelling.{columns_spelling, row_spelling, pairs_spelling, refusal_spelling, rule_spelling, span_spelling, response_spelling};
ghost use Rattle.mt_wire.specs.Fits.{RowLengths, PairsLengths, EndLengthsOf, ResponseLengths};
ghost use Rattle.mt_wire.specs.declared.response.Response.TheVariants.{Done, View};

use crate::response::{End, Response};
use crate::writing::{
    Writable, counted, counted_fits, counted16, counted16_fits, head, key, number32, number64,
    short, short_fits,
};
use mt_types::event::TidyRule;
use mt_types::key::Key;
use mt_types::refusal::Refusal;
use mt_types::row::{Columns, Row};
use mt_types::view::Page;
use std::alloc::AllocError;

impl Writable for u128 {
    ghost use Rattle.mt_wire.specs.Spelling.{sum_spelling};

    ghost spelling = { sum_spelling };

    ghost lengths = { λ _. Unit {0} };

    fn write(&self, out: &mut Vec<u8>) -> Result<(), AllocError> {
        let sum = *self;
        number64(out, (sum / 0x1_0000_0000_0000_0000) as u64)?;
        number64(out, (sum % 0x1_0000_0000_0000_0000) as u64)
    }

    fn fits(&self) -> bool {
        true
    }
}

// Columns are kept as they are spelled.
fn write_columns(out: &mut Vec<u8>, columns: &Columns) -> Result<(), AllocError>
    ensures { OnOk result (out.new.items ≡ out.old.items ++ columns_spelling columns.now) }
{
    out.extend_from_slice(columns.as_packed())
}

pub fn write_row(out: &mut Vec<u8>, row: &Row) -> Result<(), AllocError>
    ensures { OnOk result (out.new.items ≡ out.old.items ++ row_spelling row.now) }
{
    number64(out, row.version)?;
    write_columns(out, &row.columns)
}

// The lengths of a row are bytes already.
pub fn row_fits(row: &Row) -> bool
    ensures { IsTrue result ↔ RowLengths row.now }
{
    let _packable = row.columns.len();
    true
}

impl Writable for (Key, Row) {
    ghost use Rattle.mt_wire.specs.Spelling.{pair_spelling};
    ghost use Rattle.mt_wire.specs.Fits.{RowLengths};

    ghost spelling = { pair_spelling };

    ghost lengths = { λ pair. RowLengths pair.1 };

    fn write(&self, out: &mut Vec<u8>) -> Result<(), AllocError> {
        key(out, self.0.as_slice())?;
        write_row(out, &self.1)
    }

    fn fits(&self) -> bool {
        row_fits(&self.1)
    }
}

fn write_pairs(out: &mut Vec<u8>, pairs: &[(Key, Row)]) -> Result<(), AllocError>
    requires { PairsLengths pairs.now }
    ensures { OnOk result (out.new.items ≡ out.old.items ++ pairs_spelling pairs.now) }
{
    counted16(out, pairs)
}

fn write_refusal(out: &mut Vec<u8>, refusal: &Refusal) -> Result<(), AllocError>
    ensures { OnOk result (out.new.items ≡ out.old.items ++ refusal_spelling refusal.now) }
{
    out.push(refusal.number())?;
    number64(out, refusal.detail().unwrap_or(0))
}

fn write_rule(out: &mut Vec<u8>, rule: TidyRule) -> Result<(), AllocError>
    ensures { OnOk result (out.new.items ≡ out.old.items ++ rule_spelling rule) }
{
    out.push(rule.number())?;
    Ok(())
}

fn write_done(out: &mut Vec<u8>, from: u64, to: u64, end: &End) -> Result<(), AllocError>
    requires { EndLengthsOf end.now }
    ensures { OnOk result (out.new.items ≡ out.old.items ++ response_spelling (Done from to end.now)) }
{
    match end {
        End::Absent => head(out, 1, from, to),
        End::Found(row) => {
            head(out, 2, from, to)?;
            write_row(out, row)
        }
        End::Committed(number) => {
            head(out, 3, from, to)?;
            number64(out, *number)
        }
        End::Rows(pairs) => {
            head(out, 4, from, to)?;
            write_pairs(out, pairs.as_slice())
        }
        End::Tidied(rule) => {
            head(out, 5, from, to)?;
            write_rule(out, *rule)
        }
        End::Built(view) => {
            head(out, 6, from, to)?;
            number64(out, view.0)
        }
        End::Counted(number) => {
            head(out, 14, from, to)?;
            number32(out, *number)
        }
    }
}

fn write_page(out: &mut Vec<u8>, page: &Page) -> Result<(), AllocError>
    requires { ResponseLengths (View page.now) }
    ensures { OnOk result (out.new.items ≡ out.old.items ++ response_spelling (View page.now)) }
{
    head(out, 7, page.at, page.count)?;
    counted(out, page.sums.as_slice())?;
    write_pairs(out, page.rows.as_slice())
}

fn pairs_fit(pairs: &[(Key, Row)]) -> bool
    ensures { IsTrue result ↔ PairsLengths pairs.now }
{
    counted16_fits(pairs)
}

fn end_fits(end: &End) -> bool
    ensures { IsTrue result ↔ EndLengthsOf end.now }
{
    match end {
        End::Found(row) => row_fits(row),
        End::Rows(pairs) => pairs_fit(pairs.as_slice()),
        End::Absent | End::Committed(_) | End::Tidied(_) | End::Built(_) | End::Counted(_) => true,
    }
}

impl Writable for Response {
    ghost use Rattle.mt_wire.specs.Spelling.{response_spelling};
    ghost use Rattle.mt_wire.specs.Fits.{ResponseLengths};

    ghost spelling = { response_spelling };

    ghost lengths = { ResponseLengths };

    fn write(&self, out: &mut Vec<u8>) -> Result<(), AllocError> {
        match self {
            Response::Refused(refusal) => {
                out.push(0)?;
                write_refusal(out, refusal)
            }
            Response::Done { from, to, end } => write_done(out, *from, *to, end),
            Response::View(page) => write_page(out, page),
            Response::Dropped => Ok(out.push(8)?),
            Response::FoundAll { at, rows } => {
                out.push(13)?;
                number64(out, *at)?;
                counted16(out, rows.as_slice())
            }
            Response::Server(response) => response.write(out),
        }
    }

    fn fits(&self) -> bool {
        match self {
            Response::Done { end, .. } => end_fits(end),
            Response::View(page) => page.sums.as_slice().len() < 0x100
                && pairs_fit(page.rows.as_slice()),
            Response::FoundAll { rows, .. } => counted16_fits(rows.as_slice()),
            Response::Refused(_) | Response::Dropped => true,
            Response::Server(response) => response.fits(),
        }
    }
}
