//! A row, copied from the index into the caller's buffer. Nothing is allocated.

ghost use Rattle.std.specs.Prelude.{◌≡◌, ◌+◌, ◌<◌, ◌≤◌, ◌^◌, [], length, slice_index_or};
ghost use Rattle.std.specs.List.{flat_map};
ghost use Rattle.mt_types.specs.Limited.{RowIsLimited};
ghost use Rattle.mt_types.specs.Rows.{chosen, shown};
ghost use Rattle.rowanspan_c.specs.Spelling.{number_spelling, bytes_spelling, list_spelling, row_spelling};
ghost use Rattle.rowanspan_c.specs.Placed.{Writes};

use mt_types::row::{Columns, Row};

/// How many bytes a number has.
pub(crate) const NUMBER_BYTES: usize = 8;

/// Returns how many columns are shown.
pub(crate) fn count(columns: &Columns, asked: &[u8]) -> usize
    ensures { result ≡ length (chosen asked.now columns.now) }
{
    if asked.is_empty() {
        columns.len()
    } else {
        asked.len()
    }
}

/// Returns the bytes of one of the columns that are shown.
pub(crate) fn column<'a>(columns: &'a Columns, asked: &[u8], place: usize) -> &'a [u8]
    requires { place < length (chosen asked.now columns.now) }
    ensures { result.now ≡ slice_index_or (chosen asked.now columns.now) place [] }
{
    let number = if asked.is_empty() {
        place
    } else {
        asked[place] as usize
    };
    columns.get_or_empty(number)
}

// How many bytes the columns that are shown have, with the number before each.
fn columns_length(columns: &Columns, asked: &[u8]) -> usize
    requires { length (flat_map bytes_spelling (chosen asked.now columns.now)) < 2 ^ 32 }
    ensures { result ≡ length (flat_map bytes_spelling (chosen asked.now columns.now)) }
{
    let mut length = 0;
    for place in 0..count(columns, asked) {
        length += NUMBER_BYTES + column(columns, asked, place).len();
    }
    length
}

/// Returns how many bytes an answer with this row has, with the columns that are asked for.
pub(crate) fn row_length(row: &Row, asked: &[u8]) -> usize
    requires { RowIsLimited (shown asked.now row.now) }
    ensures { result ≡ length (row_spelling (shown asked.now row.now)) }
{
    2 * NUMBER_BYTES + columns_length(&row.columns, asked)
}

// ---- each of these writes at a place of the buffer, and returns the place after what it has written

fn bytes(into: &mut [u8], at: usize, bytes: &[u8]) -> usize
    requires { at + length bytes.now ≤ length into.old }
    ensures { Writes bytes.now at into.old into.new result }
{
    let after = at + bytes.len();
    into[at..after].copy_from_slice(bytes);
    after
}

/// Writes a number at a place.
pub(crate) fn number(into: &mut [u8], at: usize, number: u64) -> usize
    requires { at + NUMBER_BYTES ≤ length into.old }
    ensures { Writes (number_spelling number) at into.old into.new result }
{
    bytes(into, at, &number.to_be_bytes())
}

fn counted(into: &mut [u8], at: usize, column: &[u8]) -> usize
    requires { at + NUMBER_BYTES + length column.now ≤ length into.old }
    ensures { Writes (bytes_spelling column.now) at into.old into.new result }
{
    let at = number(into, at, column.len() as u64);
    bytes(into, at, column)
}

fn each(into: &mut [u8], from: usize, columns: &Columns, asked: &[u8]) -> usize
    requires { from + length (flat_map bytes_spelling (chosen asked.now columns.now)) ≤ length into.old }
    ensures { Writes (flat_map bytes_spelling (chosen asked.now columns.now)) from into.old into.new result }
{
    let mut at = from;
    for place in 0..count(columns, asked) {
        at = counted(into, at, column(columns, asked, place));
    }
    at
}

fn list(into: &mut [u8], at: usize, columns: &Columns, asked: &[u8]) -> usize
    requires { at + length (list_spelling bytes_spelling (chosen asked.now columns.now)) ≤ length into.old }
    ensures { Writes (list_spelling bytes_spelling (chosen asked.now columns.now)) at into.old into.new result }
{
    let at = number(into, at, count(columns, asked) as u64);
    each(into, at, columns, asked)
}

/// Writes a row at the start of the buffer, with the columns that are asked for. Returns where it ends.
pub(crate) fn row(into: &mut [u8], row: &Row, asked: &[u8]) -> usize
    requires { length (row_spelling (shown asked.now row.now)) ≤ length into.old }
    ensures { Writes (row_spelling (shown asked.now row.now)) 0 into.old into.new result }
{
    let at = number(into, 0, row.version);
    list(into, at, &row.columns, asked)
}
