//! The rows that the logs of a folder leave.

ghost use Rattle.std.specs.Prelude.{◌≡◌, IfOk};
ghost use Rattle.std.specs.FinMap.{empty};
ghost use Rattle.mt_folder.specs.Logs.{Continues, HasRows, HasRowsOfBoth};

use crate::log::LogRead;
use mt_replay::reading::read_rows;
use mt_rows::rows::Rows;
use mt_types::refusal::Refusal;
use std::alloc::Global;

/// The rows of a folder.
#[derive(Drop)]
pub struct RowsRead {
    pub rows: Rows,
    /// How many commits led to the rows.
    pub commits: u64,
}

/// Returns the rows of a log that has them all. They share the bytes of its entries. O(n log n) in the commits and the listed
/// rows.
///
/// # Errors
///
/// `Spent` if the number of the last commit doesn't fit; `NoMemory`.
pub fn rows_of(alloc: Global, log: &LogRead) -> Result<RowsRead, Refusal>
    ensures { IfOk result (HasRows log.now) }
{
    let mut rows = Rows::open(alloc);
    let commits = read_rows(alloc, &mut rows, log.header.base, &log.entries)?;
    Ok(RowsRead { rows, commits })
}

/// Returns the rows of a log that continues another one: those of the other one, and then its commits. They share the bytes of
/// the entries. O(n log n) in the commits and the listed rows.
///
/// # Errors
///
/// `Spent` if the number of the last commit doesn't fit; `NoMemory`.
pub fn rows_of_both(alloc: Global, newer: &LogRead, older: &LogRead) -> Result<RowsRead, Refusal>
    requires { Continues newer.now older.now }
    ensures { IfOk result (HasRowsOfBoth newer.now older.now) }
{
    let RowsRead { mut rows, .. } = rows_of(alloc, older)?;
    let commits = read_rows(alloc, &mut rows, newer.header.base, &newer.entries)?;
    Ok(RowsRead { rows, commits })
}
