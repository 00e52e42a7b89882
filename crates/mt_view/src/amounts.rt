//! The sums of a view as a row comes and goes: one sum for each column.

ghost use Rattle.std.specs.Prelude.{◌≡◌, ℕ, ◌+◌, ◌^◌, ◌<◌, ◌≤◌, length, slice_index};
ghost use Rattle.mt_types.specs.Views.{amount, column_of};

use crate::members::amount_of;
use mt_types::row::Row;

/// Adds the amounts of a row to the sums. O(n) in the columns.
pub(crate) fn add(sums: &mut [u128], row: &Row)
    requires { (column : ℕ) → column < length sums.old
        → slice_index sums.old column + 2 ^ 64 ≤ 2 ^ 128 }
    ensures same_length { length sums.new ≡ length sums.old }
    ensures added { (column : ℕ) → column < length sums.old
        → slice_index sums.new column ≡ slice_index sums.old column + amount (column_of column row.now) }
    ensures small { (column : ℕ) → column < length sums.old
        → amount (column_of column row.now) < 2 ^ 64 }
{
    for (column, sum) in sums.iter_mut().enumerate() {
        *sum += u128::from(amount_of(row, column));
    }
}

// Takes the amounts of a row away from the sums. O(n) in the columns.
fn subtract(sums: &mut [u128], row: &Row)
    requires { (column : ℕ) → column < length sums.old
        → amount (column_of column row.now) ≤ slice_index sums.old column }
    ensures same_length { length sums.new ≡ length sums.old }
    ensures subtracted { (column : ℕ) → column < length sums.old
        → slice_index sums.new column + amount (column_of column row.now) ≡ slice_index sums.old column }
{
    for (column, sum) in sums.iter_mut().enumerate() {
        *sum -= u128::from(amount_of(row, column));
    }
}

/// Takes the amounts of a row that goes away from the sums. O(n) in the columns.
pub(crate) fn take_away(sums: &mut [u128], old: Row)
    requires { (column : ℕ) → column < length sums.old
        → amount (column_of column old) ≤ slice_index sums.old column }
    ensures same_length { length sums.new ≡ length sums.old }
    ensures subtracted { (column : ℕ) → column < length sums.old
        → slice_index sums.new column + amount (column_of column old) ≡ slice_index sums.old column }
{
    subtract(sums, &old);
}

/// Takes the amounts of a row that goes away from the sums, and adds those of another. O(n) in the columns.
pub(crate) fn replace(sums: &mut [u128], old: Row, row: &Row)
    requires covered { (column : ℕ) → column < length sums.old
        → amount (column_of column old) ≤ slice_index sums.old column }
    requires room { (column : ℕ) → column < length sums.old
        → slice_index sums.old column + 2 ^ 64 ≤ 2 ^ 128 }
    ensures same_length { length sums.new ≡ length sums.old }
    ensures replaced { (column : ℕ) → column < length sums.old
        → slice_index sums.new column + amount (column_of column old)
        ≡ slice_index sums.old column + amount (column_of column row.now) }
    ensures small { (column : ℕ) → column < length sums.old
        → amount (column_of column row.now) < 2 ^ 64 }
{
    take_away(sums, old);
    add(sums, row);
}
