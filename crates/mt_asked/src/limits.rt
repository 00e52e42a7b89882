//! The first limit that a call breaks, found before its bytes are copied. `mt_types` has the same tests of bytes that a
//! request owns.

ghost use Rattle.std.specs.Prelude.{◌≡◌, ◌==◌, nat_lt, length, map, Some as SomeOf};
ghost use Rattle.std.specs.List.{list_any};
ghost use Rattle.std.specs.Option.{option_or};
ghost use Rattle.mt_types.specs.Limits.{request_fault, key_fault, sets_fault, test_fault, end_fault, spec_fault, misnames};
ghost use Rattle.mt_types.specs.declared.event.Request.TheVariants.{Get, Put, Range};
ghost use Rattle.mt_types.specs.declared.view.ViewSpec.TheVariants.{Range as RangeOf};
ghost use Rattle.mt_asked.specs.Borrowed.{request_of, sets_of, spec_of, test_of};

use crate::asked::Asked;
use crate::borrowed::{Set, Spec, Test};
use mt_types::limits::{MAX_COLUMN_BYTES, MAX_KEY_BYTES, columns_fault, limit_fault};
use mt_types::refusal::Refusal;
use std::cmp::Ordering;

/// Returns `KeyTooLong` if the key has more than `MAX_KEY_BYTES` bytes.
pub fn key_fault(key: &[u8]) -> Option<Refusal>
    ensures { result ≡ key_fault key.now }
{
    (key.len() > MAX_KEY_BYTES).then_some(Refusal::KeyTooLong)
}

/// Returns the first limit that a get breaks in an index of `columns` columns, if it breaks one: that of its key, then
/// that of the columns that are asked for.
pub fn get_fault(columns: u8, key: &[u8], asked: &[u8]) -> Option<Refusal>
    ensures { result ≡ request_fault columns (Get key.now asked.now) }
{
    key_fault(key).or_else(|| columns_fault(columns, asked))
}

/// Returns the first limit that a range breaks in an index of `columns` columns, if it breaks one: that of its key,
/// then that of the columns that are asked for, then that of its number of rows.
pub fn range_fault(columns: u8, start: &[u8], limit: u16, asked: &[u8]) -> Option<Refusal>
    ensures { result ≡ request_fault columns (Range start.now limit asked.now) }
{
    key_fault(start)
        .or_else(|| columns_fault(columns, asked))
        .or_else(|| limit_fault(limit))
}

// ---- changes

fn names(sets: &[Set<'_>], name: u8) -> bool
    ensures { result ≡ list_any (λ other. other == name) (map (λ set. set.0) (sets_of sets.now)) }
{
    for set in sets {
        if set.column == name {
            return true;
        }
    }
    false
}

// Whether the sets name a column that is not less than `columns`, or name one twice.
fn sets_misname(columns: u8, sets: &[Set<'_>]) -> bool
    ensures { result ≡ misnames columns (map (λ set. set.0) (sets_of sets.now)) }
{
    for (i, set) in sets.iter().enumerate() {
        if columns <= set.column || names(&sets[i + 1..], set.column) {
            return true;
        }
    }
    false
}

fn has_long_column(sets: &[Set<'_>]) -> bool
    ensures { result ≡ list_any (λ set. nat_lt MAX_COLUMN_BYTES (length set.1)) (sets_of sets.now) }
{
    for set in sets {
        if set.bytes.len() > MAX_COLUMN_BYTES {
            return true;
        }
    }
    false
}

fn sets_fault(columns: u8, sets: &[Set<'_>]) -> Option<Refusal>
    ensures { result ≡ sets_fault columns (sets_of sets.now) }
{
    if sets_misname(columns, sets) {
        Some(Refusal::BadColumn)
    } else {
        has_long_column(sets).then_some(Refusal::ColumnTooLong)
    }
}

fn put_fault(columns: u8, key: &[u8], sets: &[Set<'_>]) -> Option<Refusal>
    ensures { result ≡ request_fault columns (Put key.now (sets_of sets.now)) }
{
    if let Some(refusal) = key_fault(key) {
        return Some(refusal);
    }
    sets_fault(columns, sets)
}

// ---- builds

fn test_fault(columns: u8, test: &Test<'_>) -> Option<Refusal>
    ensures { result ≡ test_fault columns (test_of test.now) }
{
    match test {
        Test::Any => None,
        Test::Equals(column, bytes) => {
            if columns <= *column {
                Some(Refusal::BadColumn)
            } else {
                (bytes.len() > MAX_COLUMN_BYTES).then_some(Refusal::ColumnTooLong)
            }
        }
        Test::AtLeast(column, _) => (columns <= *column).then_some(Refusal::BadColumn),
    }
}

fn end_fault(lo: &[u8], hi: &[u8]) -> Option<Refusal>
    ensures { result ≡ end_fault lo.now (SomeOf hi.now) }
{
    match lo.cmp(hi) {
        Ordering::Less => None,
        Ordering::Equal => Some(Refusal::BadRange),
        Ordering::Greater => Some(Refusal::BadRange),
    }
}

fn bound_fault(columns: u8, bound: &[u8], test: &Test<'_>) -> Option<Refusal>
    ensures { result ≡ option_or (key_fault bound.now) (test_fault columns (test_of test.now)) }
{
    if let Some(refusal) = key_fault(bound) {
        return Some(refusal);
    }
    test_fault(columns, test)
}

fn between_fault(columns: u8, lo: &[u8], hi: &[u8], test: &Test<'_>) -> Option<Refusal>
    ensures { result ≡ spec_fault columns (RangeOf lo.now (SomeOf hi.now) (test_of test.now)) }
{
    if let Some(refusal) = key_fault(lo) {
        return Some(refusal);
    }
    if let Some(refusal) = bound_fault(columns, hi, test) {
        return Some(refusal);
    }
    end_fault(lo, hi)
}

fn spec_fault(columns: u8, spec: &Spec<'_>) -> Option<Refusal>
    ensures { result ≡ spec_fault columns (spec_of spec.now) }
{
    match spec {
        Spec::Prefix { key, test } => bound_fault(columns, key, test),
        Spec::From { lo, test } => bound_fault(columns, lo, test),
        Spec::Between { lo, hi, test } => between_fault(columns, lo, hi, test),
    }
}

impl<'a> Asked<'a> {
    /// Returns the first limit that the call breaks in an index of `columns` columns, if it breaks one. Allocates nothing.
    ///
    ///     let refusal = Asked::Tidy { key: b"apple" }.fault(1);
    pub fn fault(&self, columns: u8) -> Option<Refusal>
        ensures { result ≡ request_fault columns (request_of self.now) }
    {
        match self {
            Asked::Get {
                key,
                columns: asked,
            } => get_fault(columns, key, asked),
            Asked::Range {
                start,
                limit,
                columns: asked,
            } => range_fault(columns, start, *limit, asked),
            Asked::Put { key, sets } => put_fault(columns, key, sets),
            Asked::PutIf { key, sets, .. } => put_fault(columns, key, sets),
            Asked::Remove { key } => key_fault(key),
            Asked::Tidy { key } => key_fault(key),
            Asked::Build { spec } => spec_fault(columns, spec),
        }
    }
}
