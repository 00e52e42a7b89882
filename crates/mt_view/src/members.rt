//! Which rows belong to a view, and what their columns amount to.

ghost use Rattle.std.specs.Prelude.{◌≡◌};
ghost use Rattle.std.specs.Ordering.{is_ge};
ghost use Rattle.mt_types.specs.Keys.{key_cmp};
ghost use Rattle.mt_types.specs.Views.{amount, column_of, passes, is_before, belongs};

use bytes::Bytes;
use mt_types::key::Key;
use mt_types::row::Row;
use mt_types::view::{RowTest, ViewSpec};

// The most bytes that are read as a number.
const MAX_AMOUNT_BYTES: usize = 8;

fn amount(bytes: &[u8]) -> u64
    ensures { result ≡ amount bytes.now }
{
    if bytes.len() > MAX_AMOUNT_BYTES {
        return 0;
    }
    let mut number = 0u64;
    for byte in bytes {
        number = number * 256 + u64::from(*byte);
    }
    number
}

fn column_of(row: &Row, column: usize) -> &[u8]
    ensures { result.now ≡ column_of column row.now }
{
    row.columns.get_or_empty(column)
}

/// Returns the amount of a column of a row: its bytes as a big-endian number if there are at most eight, else 0.
pub(crate) fn amount_of(row: &Row, column: usize) -> u64
    ensures { result ≡ amount (column_of column row.now) }
{
    amount(column_of(row, column))
}

fn passes(test: &RowTest, row: &Row) -> bool
    ensures { result ≡ passes test.now row.now }
{
    match test {
        RowTest::Any => true,
        RowTest::Equals(column, bytes) => column_of(row, *column as usize) == bytes.as_slice(),
        RowTest::AtLeast(column, least) => *least <= amount_of(row, *column as usize),
    }
}

fn is_from(key: &Key, lo: &Bytes) -> bool
    ensures { result ≡ is_ge (key_cmp key.now lo.now) }
{
    key.as_slice() >= lo.as_slice()
}

fn is_before(key: &Key, hi: &Option<Bytes>) -> bool
    ensures { result ≡ is_before key.now hi.now }
{
    match hi {
        Some(hi) => key.as_slice() < hi.as_slice(),
        None => true,
    }
}

/// Whether a row, by its key and its columns, belongs to a view. O(n) in the bytes of the keys.
pub(crate) fn belongs(spec: &ViewSpec, key: &Key, row: &Row) -> bool
    ensures { result ≡ belongs spec.now (key.now, row.now) }
{
    match spec {
        ViewSpec::Range { lo, hi, test } => {
            is_from(key, lo) && is_before(key, hi) && passes(test, row)
        }
        ViewSpec::Prefix { key: prefix, test } => {
            key.as_slice().starts_with(prefix.as_slice()) && passes(test, row)
        }
    }
}
