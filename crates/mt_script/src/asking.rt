//! Requests and specifications of views as text.

ghost use Rattle.std.specs.Prelude.{◌≡◌, ◌++◌, OnOk, IfOk, string_bytes};
ghost use Rattle.mt_script.specs.Showing.{columns_text, set_text, sets_text, test_text, end_text, spec_text, request_text};
ghost use Rattle.mt_types.specs.declared.view.RowTest.TheVariants.{Equals};
ghost use Rattle.mt_types.specs.declared.event.Request.TheVariants.{PutIf, Range};

use crate::showing::{push_bytes, push_comma};
use bytes::Bytes;
use mt_types::event::Request;
use mt_types::row::{Column, ColumnNumbers, Sets};
use mt_types::view::{RowTest, ViewSpec};
use std::alloc::{AllocError, Global};

#[tactic(auto, unfolding(crate::specs::Showing::columns_text))]
fn push_columns(out: &mut String, columns: &[u8]) -> Result<(), AllocError>
    ensures { OnOk result (string_bytes out.new ≡ string_bytes out.old ++ columns_text columns.now) }
{
    if columns.is_empty() {
        return out.push_str("all");
    }
    for (i, column) in columns.iter().enumerate() {
        push_comma(out, i)?;
        let column = *column;
        write!(out, "{column}")?;
    }
    Ok(())
}

#[tactic(auto, unfolding(crate::specs::Showing::set_text))]
fn push_set(alloc: Global, out: &mut String, set: &(u8, Column)) -> Result<(), AllocError>
    ensures { OnOk result (string_bytes out.new ≡ string_bytes out.old ++ set_text set.now) }
{
    let column = set.0;
    write!(out, "{column}=")?;
    push_bytes(alloc, out, set.1.as_slice())
}

#[tactic(auto, unfolding(crate::specs::Showing::sets_text))]
fn push_sets(alloc: Global, out: &mut String, sets: &[(u8, Column)]) -> Result<(), AllocError>
    ensures { OnOk result (string_bytes out.new ≡ string_bytes out.old ++ sets_text sets.now) }
{
    if sets.is_empty() {
        return out.push_str("-");
    }
    for (i, set) in sets.iter().enumerate() {
        push_comma(out, i)?;
        push_set(alloc, out, set)?;
    }
    Ok(())
}

fn push_equals(alloc: Global, out: &mut String, column: u8, bytes: &Bytes) -> Result<(), AllocError>
    ensures { OnOk result (string_bytes out.new ≡ string_bytes out.old ++ test_text (Equals column bytes.now)) }
{
    write!(out, "equals {column} ")?;
    push_bytes(alloc, out, bytes.as_slice())
}

fn push_test(alloc: Global, out: &mut String, test: &RowTest) -> Result<(), AllocError>
    ensures { OnOk result (string_bytes out.new ≡ string_bytes out.old ++ test_text test.now) }
{
    match test {
        RowTest::Any => out.push_str("any"),
        RowTest::Equals(column, bytes) => push_equals(alloc, out, *column, bytes),
        RowTest::AtLeast(column, least) => {
            let column = *column;
            let least = *least;
            write!(out, "atleast {column} {least}")
        }
    }
}

#[tactic(auto, unfolding(crate::specs::Showing::end_text))]
fn push_end(alloc: Global, out: &mut String, hi: &Option<Bytes>) -> Result<(), AllocError>
    ensures { OnOk result (string_bytes out.new ≡ string_bytes out.old ++ end_text hi.now) }
{
    match hi {
        Some(hi) => push_bytes(alloc, out, hi.as_slice()),
        None => out.push_str("none"),
    }
}

fn push_spec(alloc: Global, out: &mut String, spec: &ViewSpec) -> Result<(), AllocError>
    ensures { OnOk result (string_bytes out.new ≡ string_bytes out.old ++ spec_text spec.now) }
{
    match spec {
        ViewSpec::Range { lo, hi, test } => {
            out.push_str("range ")?;
            push_bytes(alloc, out, lo.as_slice())?;
            out.push_str(" ")?;
            push_end(alloc, out, hi)?;
            out.push_str(" ")?;
            push_test(alloc, out, test)
        }
        ViewSpec::Prefix { key, test } => {
            out.push_str("prefix ")?;
            push_bytes(alloc, out, key.as_slice())?;
            out.push_str(" ")?;
            push_test(alloc, out, test)
        }
    }
}

fn push_put_if(
    alloc: Global,
    out: &mut String,
    key: &Bytes,
    sets: &Sets,
    version: u64,
) -> Result<(), AllocError>
    ensures { OnOk result (string_bytes out.new
        ≡ string_bytes out.old ++ request_text (PutIf key.now sets.now version)) }
{
    out.push_str("putif ")?;
    push_bytes(alloc, out, key.as_slice())?;
    write!(out, " {version} ")?;
    push_sets(alloc, out, sets.as_slice())
}

fn push_range(
    alloc: Global,
    out: &mut String,
    start: &Bytes,
    limit: u16,
    columns: &ColumnNumbers,
) -> Result<(), AllocError>
    ensures { OnOk result (string_bytes out.new
        ≡ string_bytes out.old ++ request_text (Range start.now limit columns.now)) }
{
    out.push_str("range ")?;
    push_bytes(alloc, out, start.as_slice())?;
    write!(out, " {limit} ")?;
    push_columns(out, columns.as_slice())
}

fn push_request(alloc: Global, out: &mut String, request: &Request) -> Result<(), AllocError>
    ensures { OnOk result (string_bytes out.new ≡ string_bytes out.old ++ request_text request.now) }
{
    match request {
        Request::Get { key, columns } => {
            out.push_str("get ")?;
            push_bytes(alloc, out, key.as_slice())?;
            out.push_str(" ")?;
            push_columns(out, columns.as_slice())
        }
        Request::Put { key, sets } => {
            out.push_str("put ")?;
            push_bytes(alloc, out, key.as_slice())?;
            out.push_str(" ")?;
            push_sets(alloc, out, sets.as_slice())
        }
        Request::PutIf { key, sets, version } => push_put_if(alloc, out, key, sets, *version),
        Request::Remove { key } => {
            out.push_str("remove ")?;
            push_bytes(alloc, out, key.as_slice())
        }
        Request::Range {
            start,
            limit,
            columns,
        } => push_range(alloc, out, start, *limit, columns),
        Request::Tidy { key } => {
            out.push_str("tidy ")?;
            push_bytes(alloc, out, key.as_slice())
        }
        Request::Build { spec } => {
            out.push_str("build ")?;
            push_spec(alloc, out, spec)
        }
    }
}

/// Returns the text of a request, as `read_request` reads it. O(n) in the text.
pub fn request_text(alloc: Global, request: &Request) -> Result<String, AllocError>
    ensures { IfOk result (λ text. string_bytes text ≡ request_text request.now) }
{
    let mut text = String::new(alloc);
    push_request(alloc, &mut text, request)?;
    Ok(text)
}
