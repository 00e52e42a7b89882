//! What a put does to one row.

ghost use Rattle.std.specs.Prelude.{◌≡◌, [], replicate, IfOk};
ghost use Rattle.mt_types.specs.Rows.{new_columns};

use mt_types::columns::Columns;
use mt_types::refusal::NoMemory;
use mt_types::row::{Row, Sets};
use std::alloc::Global;

/// Returns what a put by the commit of this number makes of a row. O(n) in the bytes of the columns, with two
/// allocations.
pub fn rewritten(alloc: Global, row: &Row, number: u64, sets: &Sets) -> Result<Row, NoMemory>
    ensures { IfOk result (λ made. made ≡ record { version = number; columns = new_columns sets.now 0 row.now.columns }) }
{
    Ok(Row {
        version: number,
        columns: row.columns.with_sets(alloc, sets.as_slice())?,
    })
}

/// Returns the row of `count` columns that a put by the commit of this number makes if there was no row. O(n) in the
/// bytes of the columns, with two allocations.
pub fn new_row(alloc: Global, count: u8, number: u64, sets: &Sets) -> Result<Row, NoMemory>
    ensures { IfOk result (λ row. row ≡ record {
      version = number;
      columns = new_columns sets.now 0 (replicate count []);
    }) }
{
    Ok(Row {
        version: number,
        columns: Columns::of_new_row(alloc, count, sets.as_slice())?,
    })
}
