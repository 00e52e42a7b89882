//! The columns that a put makes.

ghost use Rattle.std.specs.Prelude.{◌≡◌, IfOk};
ghost use Rattle.std.specs.Option.{option_copied};
ghost use Rattle.mt_types.specs.Rows.{new_columns, columns_before};

use mt_types::refusal::NoMemory;
use mt_types::row::{Columns, Row, Sets};
use std::alloc::Global;

/// Returns the columns that a put makes of the row `old`, or of none. O(n) in their bytes, with two allocations.
pub fn made_columns(
    alloc: Global,
    count: u8,
    old: Option<&Row>,
    sets: &Sets,
) -> Result<Columns, NoMemory>
    ensures { IfOk result (λ columns. columns ≡ new_columns sets.now 0 (columns_before count (option_copied old.entry))) }
{
    match old {
        None => Columns::of_new_row(alloc, count, sets.as_slice()),
        Some(row) => row.columns.with_sets(alloc, sets.as_slice()),
    }
}
