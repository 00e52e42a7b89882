//! Reads of one moment and rows that they have found, written at the end of bytes.

ghost use Rattle.std.specs.Prelude.{IfSome};

use crate::query_writing::{end_fits, write_end};
use crate::read::ReadQuery;
use crate::response_writing::{row_fits, write_row};
use crate::writing::{
    Writable, counted16, counted16_fits, key, key_fits, number16, number32, short, short_fits,
};
use bytes::Bytes;
use mt_types::row::Row;
use std::alloc::AllocError;

impl Writable for Bytes {
    ghost use Rattle.mt_wire.specs.Spelling.{key_spelling};
    ghost use Rattle.mt_wire.specs.Fits.{KeyFits};

    ghost spelling = { key_spelling };

    ghost lengths = { KeyFits };

    fn write(&self, out: &mut Vec<u8>) -> Result<(), AllocError> {
        key(out, self)
    }

    fn fits(&self) -> bool {
        key_fits(self)
    }
}

impl Writable for ReadQuery {
    ghost use Rattle.mt_wire.specs.Spelling.{read_spelling};
    ghost use Rattle.mt_wire.specs.Fits.{ReadLengths};

    ghost spelling = { read_spelling };

    ghost lengths = { ReadLengths };

    fn write(&self, out: &mut Vec<u8>) -> Result<(), AllocError> {
        match self {
            ReadQuery::Gets { keys, columns } => {
                out.push(13)?;
                counted16(out, keys.as_slice())?;
                short(out, columns.as_slice())
            }
            ReadQuery::RangeBack {
                before,
                limit,
                columns,
            } => {
                out.push(14)?;
                write_end(out, before)?;
                number16(out, *limit)?;
                short(out, columns.as_slice())
            }
            ReadQuery::Count { from, to, most } => {
                out.push(15)?;
                key(out, from)?;
                write_end(out, to)?;
                number32(out, *most)
            }
        }
    }

    fn fits(&self) -> bool {
        match self {
            ReadQuery::Gets { keys, columns } => {
                counted16_fits(keys.as_slice()) && short_fits(columns.as_slice())
            }
            ReadQuery::RangeBack {
                before,
                columns,
                ..
            } => end_fits(before) && short_fits(columns.as_slice()),
            ReadQuery::Count { from, to, .. } => key_fits(from) && end_fits(to),
        }
    }
}

impl Writable for Option<Row> {
    ghost use Rattle.mt_wire.specs.Spelling.{found_spelling};
    ghost use Rattle.mt_wire.specs.Fits.{RowLengths};

    ghost spelling = { found_spelling };

    ghost lengths = { λ found. IfSome found RowLengths };

    fn write(&self, out: &mut Vec<u8>) -> Result<(), AllocError> {
        match self {
            None => Ok(out.push(0)?),
            Some(row) => {
                out.push(1)?;
                write_row(out, row)
            }
        }
    }

    fn fits(&self) -> bool {
        match self {
            None => true,
            Some(row) => row_fits(row),
        }
    }
}
