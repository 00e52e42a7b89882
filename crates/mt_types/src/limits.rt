//! The limits of an index, each with the refusal that guards it, and the tests of requests and options against them.
//! A call is tested when it begins, and its steps rely on that. `mt_map` has tests of its own with the same results: it
//! tests borrowed bytes before it copies them.

ghost use Rattle.std.specs.Prelude.{◌≡◌, ◌==◌, Some, nat_lt, length, map};
ghost use Rattle.std.specs.List.{list_any};
ghost use Rattle.mt_types.specs.Limits.{request_fault, page_fault, open_fault, passes_fault, limit_fault, key_fault, columns_fault, sets_fault, test_fault, end_fault, spec_fault, misnames};
ghost use Rattle.mt_types.specs.declared.view.ViewSpec.TheVariants.{Range as RangeOf};

use crate::event::Request;
use crate::refusal::Refusal;
use crate::row::Column;
use crate::view::{RowTest, ViewSpec};
use bytes::Bytes;

/// The most bytes of a key. Guarded by `KeyTooLong`.
pub const MAX_KEY_BYTES: usize = 1024;

/// The most columns of an index; the least is 1. Guarded by `BadColumn`.
pub const MAX_COLUMNS: u64 = 16;

/// The most bytes of a column. Guarded by `ColumnTooLong`.
pub const MAX_COLUMN_BYTES: usize = 64;

/// The most rows of a range or a page; the least is 1. Guarded by `BadLimit`.
pub const MAX_RANGE: u16 = 1000;

/// The most commits that the log may be opened to hold for the slowest of its readers; the least is 1. Guarded by
/// `BadLimit`.
pub const MAX_LOG_CAPACITY: u64 = 65_536;

/// The most commits that the log may be opened to keep for no reader. Guarded by `BadLimit`.
pub const MAX_LOG_RETENTION: u64 = 65_536;

/// The most passes of an index, and the most readers of a published view; the least is 1. Guarded by `BadLimit`.
pub const MAX_PASSES: u64 = 255;

/// The most calls that are open at once. Guarded by `TooManyCalls`.
pub const MAX_OPEN_CALLS: usize = 1024;

/// The most views at once, those that are being built included. Guarded by `TooManyViews`.
pub const MAX_VIEWS: usize = 64;

/// How many numbers of nodes exist: as many as a `u32` can count, so that memory ends first. A retired node still occupies
/// its number. Guarded by `ArenaFull`.
pub const MAX_NODES: u32 = 4_294_967_295;

/// The highest level of an interior node. A border node has level 0. A node that would get a higher level is not
/// posted.
pub const MAX_LEVEL: u8 = 15;

/// The number of the deepest layer, counted from 0. A key of `MAX_KEY_BYTES` bytes has its last slice in this layer.
/// Guarded by `KeyTooLong`.
pub const MAX_LAYER: usize = 127;

/// The most queries of a frame; the least is 1. A frame with another number of queries is a bad frame.
pub const MAX_QUERIES: usize = 64;

/// The most bytes of the body of a frame of requests. A frame with a longer body is a bad frame.
pub const MAX_REQUEST_BODY: u32 = 262_144;

fn key_fault(key: &[u8]) -> Option<Refusal>
    ensures { result ≡ key_fault key.now }
{
    (key.len() > MAX_KEY_BYTES).then_some(Refusal::KeyTooLong)
}

// Whether one of these numbers of columns is not less than `columns`, or is named twice.
fn misnames(columns: u8, names: &[u8]) -> bool
    ensures { result ≡ misnames columns names.now }
{
    for (i, name) in names.iter().enumerate() {
        if columns <= *name || names[i + 1..].contains(name) {
            return true;
        }
    }
    false
}

/// Returns `BadColumn` if one of these numbers is not less than `columns`, the number of columns of the index, or is
/// named twice. O(n) in the numbers, times `columns`, since the search ends at the first number that is named twice.
pub fn columns_fault(columns: u8, names: &[u8]) -> Option<Refusal>
    ensures { result ≡ columns_fault columns names.now }
{
    misnames(columns, names).then_some(Refusal::BadColumn)
}

fn names(sets: &[(u8, Column)], name: u8) -> bool
    ensures { result ≡ list_any (λ other. other == name) (map (λ set. set.0) sets.now) }
{
    for set in sets {
        if set.0 == name {
            return true;
        }
    }
    false
}

// Whether the sets name a column that is not less than `columns`, or name one twice.
fn sets_misname(columns: u8, sets: &[(u8, Column)]) -> bool
    ensures { result ≡ misnames columns (map (λ set. set.0) sets.now) }
{
    for (i, set) in sets.iter().enumerate() {
        if columns <= set.0 || names(&sets[i + 1..], set.0) {
            return true;
        }
    }
    false
}

fn has_long_column(sets: &[(u8, Column)]) -> bool
    ensures { result ≡ list_any (λ set. nat_lt MAX_COLUMN_BYTES (length set.1)) sets.now }
{
    for set in sets {
        if set.1.len() > MAX_COLUMN_BYTES {
            return true;
        }
    }
    false
}

fn sets_fault(columns: u8, sets: &[(u8, Column)]) -> Option<Refusal>
    ensures { result ≡ sets_fault columns sets.now }
{
    if sets_misname(columns, sets) {
        Some(Refusal::BadColumn)
    } else {
        has_long_column(sets).then_some(Refusal::ColumnTooLong)
    }
}

/// Returns `BadLimit` unless the limit of a range, a page or a feed is from 1 to `MAX_RANGE`.
pub fn limit_fault(limit: u16) -> Option<Refusal>
    ensures { result ≡ limit_fault limit }
{
    (limit < 1 || limit > MAX_RANGE).then_some(Refusal::BadLimit)
}

fn test_fault(columns: u8, test: &RowTest) -> Option<Refusal>
    ensures { result ≡ test_fault columns test.now }
{
    match test {
        RowTest::Any => None,
        RowTest::Equals(column, bytes) => {
            if columns <= *column {
                Some(Refusal::BadColumn)
            } else {
                (bytes.len() > MAX_COLUMN_BYTES).then_some(Refusal::ColumnTooLong)
            }
        }
        RowTest::AtLeast(column, _) => (columns <= *column).then_some(Refusal::BadColumn),
    }
}

fn end_fault(lo: &Bytes, hi: &Bytes) -> Option<Refusal>
    ensures { result ≡ end_fault lo.now (Some hi.now) }
{
    if lo < hi {
        None
    } else {
        Some(Refusal::BadRange)
    }
}

fn range_fault(columns: u8, lo: &Bytes, hi: &Bytes, test: &RowTest) -> Option<Refusal>
    ensures { result ≡ spec_fault columns (RangeOf lo.now (Some hi.now) test.now) }
{
    key_fault(lo)
        .or_else(|| key_fault(hi))
        .or_else(|| test_fault(columns, test))
        .or_else(|| end_fault(lo, hi))
}

/// Returns the first limit that the specification of a view breaks in an index of `columns` columns, if it breaks one:
/// the limits of its keys first, then those of its test, then `BadRange` unless its range ends after its start. O(n) in
/// the bytes of the ends of a range.
pub fn spec_fault(columns: u8, spec: &ViewSpec) -> Option<Refusal>
    ensures { result ≡ spec_fault columns spec.now }
{
    match spec {
        ViewSpec::Range { lo, hi, test } => match hi {
            Some(hi) => range_fault(columns, lo, hi, test),
            None => key_fault(lo).or_else(|| test_fault(columns, test)),
        },
        ViewSpec::Prefix { key, test } => key_fault(key).or_else(|| test_fault(columns, test)),
    }
}

/// Returns the first limit that a request breaks in an index of `columns` columns, if it breaks one: the limits of its
/// key first, then those of its columns, then those of numbers. A specification of a view is tested as by
/// [`spec_fault`].
///
/// O(n) in the columns that it names, times `columns`, since the search ends at the first number that is named twice.
pub fn request_fault(columns: u8, request: &Request) -> Option<Refusal>
    ensures { result ≡ request_fault columns request.now }
{
    match request {
        Request::Get {
            key,
            columns: asked,
        } => key_fault(key).or_else(|| columns_fault(columns, asked.as_slice())),
        Request::Put { key, sets } | Request::PutIf { key, sets, .. } => {
            key_fault(key).or_else(|| sets_fault(columns, sets.as_slice()))
        }
        Request::Range {
            start,
            limit,
            columns: asked,
        } => key_fault(start)
            .or_else(|| columns_fault(columns, asked.as_slice()))
            .or_else(|| limit_fault(*limit)),
        Request::Remove { key } | Request::Tidy { key } => key_fault(key),
        Request::Build { spec } => spec_fault(columns, spec),
    }
}

/// Returns the first limit that the request for a page of a view breaks, if it breaks one: that of its key, then that
/// of its number of rows.
pub fn page_fault(start: &[u8], limit: u16) -> Option<Refusal>
    ensures { result ≡ page_fault start.now limit }
{
    key_fault(start).or_else(|| limit_fault(limit))
}

/// Returns the first limit that the options of an index break, if they break one: `BadColumn` for `columns`, the number
/// of its columns, then `BadLimit` for `capacity`, the most commits that its log holds for the slowest of its readers, or
/// for `retention`, the number of commits that its log keeps for no reader.
pub fn open_fault(columns: u64, capacity: u64, retention: u64) -> Option<Refusal>
    ensures { result ≡ open_fault columns capacity retention }
{
    if columns < 1 || columns > MAX_COLUMNS {
        Some(Refusal::BadColumn)
    } else {
        (capacity < 1 || capacity > MAX_LOG_CAPACITY || retention > MAX_LOG_RETENTION).then_some(
            Refusal::BadLimit,
        )
    }
}

/// Returns `BadLimit` unless `passes` is from 1 to `MAX_PASSES`: the number of passes of an index, or of readers of a
/// published view.
pub fn passes_fault(passes: u64) -> Option<Refusal>
    ensures { result ≡ passes_fault passes }
{
    (passes < 1 || passes > MAX_PASSES).then_some(Refusal::BadLimit)
}
