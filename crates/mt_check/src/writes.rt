//! Whether the answer of a put or a remove is right over a span of numbers.

ghost use Rattle.std.specs.Prelude.{◌≡◌, ◌↔◌, ◌-◌, ◌&&◌, nat_lt, nat_le, if◌then◌else◌, slice_get, None, IsTrue, IfOk};
ghost use Rattle.std.specs.Option.{option_copied};
ghost use Rattle.mt_types.specs.Rows.{new_columns, columns_before, version_of};
ghost use Rattle.mt_types.specs.declared.row.Change.TheVariants.{Put, Drop as DropChange};
ghost use Rattle.mt_check.specs.Receipts.{IsSoundLog, IsCommit, IsOfVersion};
ghost use Rattle.mt_check.specs.Judging.{MadeBy, MadeOver};

use crate::ranges::Span;
use bytes::Bytes;
use mt_promise::exact::Exact;
use mt_rows::columns::{new_row, rewritten};
use mt_types::refusal::NoMemory;
use mt_types::row::{Delta, Row, Sets};
use std::alloc::Global;

/// What a conditional put puts under its key, over a row of this version; 0: over none.
#[derive(Drop)]
pub(crate) struct ConditionalPut<'a> {
    pub(crate) key: &'a Bytes,
    pub(crate) sets: &'a Sets,
    pub(crate) version: u64,
}

// A row's version; 0 if there is none.
fn version_of(row: &Option<Row>) -> u64
    ensures { result ≡ version_of row.now }
{
    match row {
        Some(row) => row.version,
        None => 0,
    }
}

// The row that a put by the commit of this number makes of the row before it.
fn put_row(
    alloc: Global,
    columns: u8,
    number: u64,
    before: &Option<Row>,
    sets: &Sets,
) -> Result<Row, NoMemory>
    ensures { IfOk result (λ row. row ≡ record {
      version = number;
      columns = new_columns sets.now 0 (columns_before columns before.now);
    }) }
{
    match before {
        Some(row) => rewritten(alloc, row, number, sets),
        None => new_row(alloc, columns, number, sets),
    }
}

fn is_put(
    alloc: Global,
    columns: u8,
    delta: &Delta,
    key: &Bytes,
    sets: &Sets,
) -> Result<bool, NoMemory>
    ensures { IfOk result (λ yes. IsTrue yes ↔ MadeBy columns delta.now (Put key.now sets.now)) }
{
    match &delta.after {
        Some(after) if delta.key.as_slice() == key.as_slice() => {
            let made = put_row(alloc, columns, delta.number, &delta.before, sets)?;
            Ok(after.is_same(&made))
        }
        _ => Ok(false),
    }
}

fn is_conditional_put(
    alloc: Global,
    columns: u8,
    delta: &Delta,
    put: &ConditionalPut<'_>,
) -> Result<bool, NoMemory>
    ensures { IfOk result (λ yes. IsTrue yes
        ↔ MadeOver columns delta.now (Put put.now.key.now put.now.sets.now) put.now.version) }
{
    if version_of(&delta.before) != put.version {
        return Ok(false);
    }
    is_put(alloc, columns, delta, put.key, put.sets)
}

fn is_drop(columns: u8, delta: &Delta, key: &Bytes) -> bool
    ensures { IsTrue result ↔ MadeBy columns delta.now (DropChange key.now) }
{
    delta.key.as_slice() == key.as_slice() && delta.after.is_none()
}

// The delta of a number, if the number is after the begin of a span and not after its end.
fn commit_at(deltas: &[Delta], span: Span, number: u64) -> Option<&Delta>
    ensures { option_copied result ≡ (if nat_lt span.from number && nat_le number span.to
        then slice_get deltas.now (number - 1)
        else None) }
{
    if span.from < number && number <= span.to {
        deltas.get((number - 1) as usize)
    } else {
        None
    }
}

/// Whether the commit of this number is in the span and put these bytes under the key. O(n) in the columns, with an
/// allocation for the row that the put makes.
pub(crate) fn is_put_at(
    alloc: Global,
    columns: u8,
    deltas: &[Delta],
    span: Span,
    number: u64,
    key: &Bytes,
    sets: &Sets,
) -> Result<bool, NoMemory>
    requires { IsSoundLog deltas.now }
    ensures { IfOk result (λ yes. IsTrue yes
        ↔ IsCommit columns deltas.now span.from span.to number (Put key.now sets.now)) }
{
    match commit_at(deltas, span, number) {
        Some(delta) => is_put(alloc, columns, delta, key, sets),
        None => Ok(false),
    }
}

/// The same of a conditional put, whose commit also found a row of the version asked. O(n) in the columns, with an
/// allocation for the row that the put makes.
pub(crate) fn is_conditional_put_at(
    alloc: Global,
    columns: u8,
    deltas: &[Delta],
    span: Span,
    number: u64,
    put: &ConditionalPut<'_>,
) -> Result<bool, NoMemory>
    requires { IsSoundLog deltas.now }
    ensures { IfOk result (λ yes. IsTrue yes
        ↔ (IsCommit columns deltas.now span.from span.to number (Put put.now.key.now put.now.sets.now)
        × IsOfVersion deltas.now put.now.key.now put.now.version (number - 1))) }
{
    match commit_at(deltas, span, number) {
        Some(delta) => is_conditional_put(alloc, columns, delta, put),
        None => Ok(false),
    }
}

/// Whether the commit of this number is in the span and took the key's row away. O(1).
pub(crate) fn is_drop_at(
    columns: u8,
    deltas: &[Delta],
    span: Span,
    number: u64,
    key: &Bytes,
) -> bool
    requires { IsSoundLog deltas.now }
    ensures { IsTrue result ↔ IsCommit columns deltas.now span.from span.to number (DropChange key.now) }
{
    match commit_at(deltas, span, number) {
        Some(delta) => is_drop(columns, delta, key),
        None => false,
    }
}
