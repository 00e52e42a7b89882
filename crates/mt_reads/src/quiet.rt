//! Reads of one moment that are neither gets nor ranges in the order of the keys, as one type.

ghost use Rattle.std.specs.Prelude.{◌≡◌, IfErr, IfOk, MatchOption, Err};
ghost use Rattle.mt_promise.specs.History.{History, moment, rows};
ghost use Rattle.mt_index.specs.Alone.{IsQuiet};
ghost use Rattle.mt_index.specs.Stands.{Stands};
ghost use Rattle.mt_reads.specs.Quiet.{IsQuietAnswer, QuietAnswerIsLimited, quiet_fault};

use crate::counting::count;
use crate::gets::get_many;
use crate::ranging::pairs_back;
use crate::reading::bound;
use bytes::Bytes;
use mt_index::machine::Machine;
use mt_types::items::Items;
use mt_types::refusal::Refusal;
use mt_types::row::{ColumnNumbers, Pairs, Row};
use std::alloc::Global;

/// A read of one moment, while no put, remove or tidy is open.
#[derive(Debug, PartialEq, Eq, Drop)]
pub enum QuietRead {
    /// The rows of keys: [`get_many`].
    Gets {
        keys: Items<Bytes>,
        columns: ColumnNumbers,
    },
    /// The last rows before a bound, or of all, against the order of the keys: [`pairs_back`].
    RangeBack {
        before: Option<Bytes>,
        limit: u16,
        columns: ColumnNumbers,
    },
    /// How many rows have keys from one key on and before another, counted up to a number: [`count`].
    Count {
        from: Bytes,
        to: Option<Bytes>,
        most: u32,
    },
}

/// The answer to a [`QuietRead`].
#[derive(Debug, PartialEq, Eq, Drop)]
pub enum QuietAnswer {
    /// The row of each key, or `None` if it has none.
    Rows(Items<Option<Row>>),
    /// Rows with their keys, the greatest key first.
    Pairs(Pairs),
    /// How many rows there are.
    Count(u32),
}

/// Answers a read of a machine on which no put, remove or tidy is open, as the function that its variant names.
///
/// # Errors
///
/// Those of that function.
pub fn read_quiet(
    alloc: Global,
    machine: &Machine,
    read: &QuietRead,
) -> Result<QuietAnswer, Refusal>
    requires { IsQuiet machine.now }
    ensures answer { IfOk result (λ answer. (h : History) → Stands machine.now h
        → IsQuietAnswer (rows machine.now.columns (moment h)) read.now answer) }
    ensures fault { MatchOption (quiet_fault machine.now.columns read.now)
        (IfErr result (λ refusal. refusal ≡ Refusal.NoMemory)) (λ refusal. result ≡ Err refusal) }
    ensures limited { IfOk result QuietAnswerIsLimited }
{
    match read {
        QuietRead::Gets { keys, columns } => {
            let found = get_many(alloc, machine, keys.as_slice(), columns.as_slice())?;
            Ok(QuietAnswer::Rows(found))
        }
        QuietRead::RangeBack {
            before,
            limit,
            columns,
        } => {
            let pairs = pairs_back(alloc, machine, bound(before), *limit, columns.as_slice())?;
            Ok(QuietAnswer::Pairs(pairs))
        }
        QuietRead::Count { from, to, most } => {
            let count = count(alloc, machine, from.as_slice(), bound(to), *most)?;
            Ok(QuietAnswer::Count(count))
        }
    }
}
