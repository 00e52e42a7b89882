//! Queries, written at the end of bytes.

ghost use Rattle.std.specs.Prelude.{◌≡◌, ◌++◌, ◌↔◌, IsTrue, OnOk};
ghost use Rattle.mt_wire.specs.Spelling.{test_spelling, end_spelling, spec_spelling, query_spelling};
ghost use Rattle.mt_wire.specs.Fits.{TestLengths, EndLengths, SpecLengths, QueryLengths};
ghost use Rattle.mt_wire.specs.declared.query.Query.TheVariants.{Call};

use crate::query::Query;
use crate::writing::{
    Writable, counted, counted_fits, head, key, key_fits, number16, number64, short, short_fits,
};
use bytes::Bytes;
use mt_types::event::Request;
use mt_types::row::Column;
use mt_types::view::{RowTest, ViewSpec};
use std::alloc::AllocError;

impl Writable for (u8, Column) {
    ghost use Rattle.mt_wire.specs.Spelling.{set_spelling};
    ghost use Rattle.mt_wire.specs.Fits.{ShortFits};

    ghost spelling = { set_spelling };

    ghost lengths = { λ set. ShortFits set.1 };

    fn write(&self, out: &mut Vec<u8>) -> Result<(), AllocError> {
        out.push(self.0)?;
        short(out, &self.1)
    }

    fn fits(&self) -> bool {
        short_fits(&self.1)
    }
}

fn write_test(out: &mut Vec<u8>, test: &RowTest) -> Result<(), AllocError>
    requires { TestLengths test.now }
    ensures { OnOk result (out.new.items ≡ out.old.items ++ test_spelling test.now) }
{
    match test {
        RowTest::Any => out.push(0)?,
        RowTest::Equals(column, bytes) => {
            out.extend_from_slice(&[1, *column])?;
            short(out, bytes)?;
        }
        RowTest::AtLeast(column, least) => {
            out.extend_from_slice(&[2, *column])?;
            number64(out, *least)?;
        }
    }
    Ok(())
}

pub fn write_end(out: &mut Vec<u8>, end: &Option<Bytes>) -> Result<(), AllocError>
    requires { EndLengths end.now }
    ensures { OnOk result (out.new.items ≡ out.old.items ++ end_spelling end.now) }
{
    match end {
        None => out.push(0)?,
        Some(hi) => {
            out.push(1)?;
            key(out, hi)?;
        }
    }
    Ok(())
}

pub fn write_spec(out: &mut Vec<u8>, spec: &ViewSpec) -> Result<(), AllocError>
    requires { SpecLengths spec.now }
    ensures { OnOk result (out.new.items ≡ out.old.items ++ spec_spelling spec.now) }
{
    match spec {
        ViewSpec::Range { lo, hi, test } => {
            out.push(0)?;
            key(out, lo)?;
            write_end(out, hi)?;
            write_test(out, test)
        }
        ViewSpec::Prefix { key: prefix, test } => {
            out.push(1)?;
            key(out, prefix)?;
            write_test(out, test)
        }
    }
}

fn write_request(out: &mut Vec<u8>, request: &Request) -> Result<(), AllocError>
    requires { QueryLengths (Call request.now) }
    ensures { OnOk result (out.new.items ≡ out.old.items ++ query_spelling (Call request.now)) }
{
    match request {
        Request::Get {
            key: asked,
            columns,
        } => {
            out.push(1)?;
            key(out, asked)?;
            short(out, columns.as_slice())
        }
        Request::Put { key: changed, sets } => {
            out.push(2)?;
            key(out, changed)?;
            counted(out, sets.as_slice())
        }
        Request::PutIf {
            key: changed,
            sets,
            version,
        } => {
            out.push(9)?;
            key(out, changed)?;
            number64(out, *version)?;
            counted(out, sets.as_slice())
        }
        Request::Remove { key: removed } => {
            out.push(3)?;
            key(out, removed)
        }
        Request::Range {
            start,
            limit,
            columns,
        } => {
            out.push(4)?;
            key(out, start)?;
            number16(out, *limit)?;
            short(out, columns.as_slice())
        }
        Request::Tidy { key: place } => {
            out.push(5)?;
            key(out, place)
        }
        Request::Build { spec } => {
            out.push(6)?;
            write_spec(out, spec)
        }
    }
}

fn test_fits(test: &RowTest) -> bool
    ensures { IsTrue result ↔ TestLengths test.now }
{
    match test {
        RowTest::Equals(_, bytes) => short_fits(bytes),
        RowTest::Any | RowTest::AtLeast(_, _) => true,
    }
}

pub fn end_fits(end: &Option<Bytes>) -> bool
    ensures { IsTrue result ↔ EndLengths end.now }
{
    match end {
        None => true,
        Some(hi) => key_fits(hi),
    }
}

pub fn spec_fits(spec: &ViewSpec) -> bool
    ensures { IsTrue result ↔ SpecLengths spec.now }
{
    match spec {
        ViewSpec::Range { lo, hi, test } => key_fits(lo) && end_fits(hi) && test_fits(test),
        ViewSpec::Prefix { key, test } => key_fits(key) && test_fits(test),
    }
}

fn request_fits(request: &Request) -> bool
    ensures { IsTrue result ↔ QueryLengths (Call request.now) }
{
    match request {
        Request::Get { key, columns } => key_fits(key) && short_fits(columns.as_slice()),
        Request::Put { key, sets } | Request::PutIf { key, sets, .. } => {
            key_fits(key) && counted_fits(sets.as_slice())
        }
        Request::Range { start, columns, .. } => {
            key_fits(start) && short_fits(columns.as_slice())
        }
        Request::Remove { key } | Request::Tidy { key } => key_fits(key),
        Request::Build { spec } => spec_fits(spec),
    }
}

impl Writable for Query {
    ghost use Rattle.mt_wire.specs.Spelling.{query_spelling};
    ghost use Rattle.mt_wire.specs.Fits.{QueryLengths};

    ghost spelling = { query_spelling };

    ghost lengths = { QueryLengths };

    fn write(&self, out: &mut Vec<u8>) -> Result<(), AllocError> {
        match self {
            Query::Call(request) => write_request(out, request),
            Query::ViewRead {
                view,
                floor,
                start,
                limit,
            } => {
                head(out, 7, view.0, *floor)?;
                key(out, start)?;
                number16(out, *limit)
            }
            Query::ViewDrop(view) => {
                out.push(8)?;
                number64(out, view.0)
            }
            Query::Read(query) => query.write(out),
            Query::Server(query) => query.write(out),
        }
    }

    fn fits(&self) -> bool {
        match self {
            Query::Call(request) => request_fits(request),
            Query::ViewRead { start, .. } => key_fits(start),
            Query::ViewDrop(_) => true,
            Query::Read(query) => query.fits(),
            Query::Server(query) => query.fits(),
        }
    }
}
