//! Questions to an index that change nothing, answered in bytes. Limits are checked before bytes are copied.

ghost use Rattle.std.specs.Prelude.{◌≡◌, ℕ, List, Option, Result, MatchResult, OnOk, None};
ghost use Rattle.std.specs.Option.{option_copied};
ghost use Rattle.mt_types.specs.Limits.{request_fault};
ghost use Rattle.mt_types.specs.declared.event.Request.TheVariants.{Get};
ghost use Rattle.mt_types.specs.declared.event.Outcome.TheVariants.{View};
ghost use Rattle.mt_index.specs.Stands.{ReadsView};
ghost use Rattle.rowanspan_c.specs.Questions.{CountsTo, IsAnswer, IsCausedBy, ReadsRow, ReadsRows, ReadsRowsBack, ReadsMany, ReadsPage, ReadsDeltas, page_refusal};
ghost use Rattle.rowanspan_c.specs.Keys.{keys_of};
ghost use Rattle.rowanspan_c.specs.Told.{TellsRead};

use crate::gathering::{BorrowedKey, found_bytes, gets_fault};
use crate::handing::{tell_absent, tell_refusal, tell_row};
use crate::ranging::{range_back_bytes, range_bytes};
use crate::spelling::{bytes_of, list_bytes_of};
use mt_asked::limits::{get_fault, range_fault};
use mt_map::map::Map;
use mt_types::items::Items;
use mt_types::numbers::ViewNo;
use mt_types::refusal::Refusal;
use mt_types::view::Page;
use std::alloc::Global;

/// What a reader asks for. All bytes are borrowed.
#[derive(Drop)]
pub(crate) enum Question<'a> {
    /// The first rows whose keys are at or after a key, with the columns that are asked for, or with all if none is
    /// asked for.
    Rows {
        start: &'a [u8],
        limit: u16,
        columns: &'a [u8],
    },
    /// The last rows whose keys are before a bound, or the last of all, with the columns that are asked for, or with all
    /// if none is asked for.
    RowsBack {
        before: Option<&'a [u8]>,
        limit: u16,
        columns: &'a [u8],
    },
    /// The rows of these keys, with the columns that are asked for, or with all if none is asked for.
    Many {
        keys: &'a [BorrowedKey<'a>],
        columns: &'a [u8],
    },
    /// A page of a view that is at `floor` commits or more.
    Page {
        view: ViewNo,
        floor: u64,
        start: &'a [u8],
        limit: u16,
    },
    /// The deltas of the commits after a number.
    Deltas {
        from: u64,
        limit: u16,
    },
}

// Reports the row of a key, copied into the buffer, with the columns that are asked for, or with all if none is asked for.
fn tell_row_of(index: &Map, key: &[u8], columns: &[u8], into: &mut [u8], told: &mut u64) -> u16
    requires { request_fault index.now.machine.columns (Get key.now columns.now) ≡ None }
    ensures { (read : Result (Option (List ℕ)) Refusal) × ReadsRow index.now.machine key.now columns.now read
        × TellsRead read into.old into.new result told.new }
{
    // (so there is a history that the index is at, by which its rows keep their limits)
    let _commits = index.commits();
    match index.get(key) {
        Ok(Some(row)) => tell_row(row, columns, into, told),
        Ok(None) => tell_absent(told),
        Err(_) => unreachable!(),
    }
}

/// Copies the row of a key from the index into a buffer, with the columns that are asked for, or with all if none is
/// asked for. Allocates nothing, and refuses only for the first limit that is broken.
pub(crate) fn get(index: &Map, key: &[u8], columns: &[u8], into: &mut [u8], told: &mut u64) -> u16
    ensures { (read : Result (Option (List ℕ)) Refusal) × ReadsRow index.now.machine key.now columns.now read
        × TellsRead read into.old into.new result told.new }
{
    if let Some(refusal) = get_fault(index.columns(), key, columns) {
        return tell_refusal(refusal, told);
    }
    tell_row_of(index, key, columns, into, told)
}

/// Returns how many rows have keys at or after `start` and before `end`, or before no bound, counted up to `most`.
pub(crate) fn count(
    index: &Map,
    start: &[u8],
    end: Option<&[u8]>,
    most: u32,
) -> Result<u64, Refusal>
    ensures { CountsTo index.now.machine start.now (option_copied end.entry) most result }
{
    let count = index.count(start, end, most)?;
    Ok(u64::from(count))
}

fn rows(
    alloc: Global,
    index: &Map,
    start: &[u8],
    limit: u16,
    columns: &[u8],
    room: usize,
) -> Result<Option<Items<u8>>, Refusal>
    ensures { ReadsRows index.now.machine start.now limit columns.now result }
{
    if let Some(refusal) = range_fault(index.columns(), start, limit, columns) {
        return Err(refusal);
    }
    let bytes = range_bytes(alloc, index, start, limit, columns, room)?;
    Ok(Some(bytes))
}

fn rows_back(
    alloc: Global,
    index: &Map,
    before: Option<&[u8]>,
    limit: u16,
    columns: &[u8],
    room: usize,
) -> Result<Option<Items<u8>>, Refusal>
    ensures { ReadsRowsBack index.now.machine (option_copied before.entry) limit columns.now result }
{
    let key = before.unwrap_or(b"");
    if let Some(refusal) = range_fault(index.columns(), key, limit, columns) {
        return Err(refusal);
    }
    let bytes = range_back_bytes(alloc, index, before, limit, columns, room)?;
    Ok(Some(bytes))
}

fn many(
    alloc: Global,
    index: &Map,
    keys: &[BorrowedKey<'_>],
    columns: &[u8],
    room: usize,
) -> Result<Option<Items<u8>>, Refusal>
    ensures { ReadsMany index.now.machine (keys_of keys.now) columns.now result }
{
    if let Some(refusal) = gets_fault(index.columns(), keys, columns) {
        return Err(refusal);
    }
    let bytes = found_bytes(alloc, index, keys, columns, room)?;
    Ok(Some(bytes))
}

fn page_from(
    index: &Map,
    view: ViewNo,
    floor: u64,
    start: &[u8],
    limit: u16,
) -> Result<Page, Refusal>
    ensures answer { MatchResult result (λ page. ReadsView index.now.machine view.0 floor start.now limit (View page))
        (λ refusal. IsCausedBy (page_refusal index.now.machine view.0 floor start.now limit) refusal) }
    ensures fits { OnOk result (page_refusal index.now.machine view.0 floor start.now limit ≡ None) }
{
    match index.page(view, floor, start, limit) {
        Ok(page) => Ok(page),
        Err(refusal) => Err(refusal),
    }
}

fn page(
    alloc: Global,
    index: &Map,
    view: ViewNo,
    floor: u64,
    start: &[u8],
    limit: u16,
) -> Result<Option<Items<u8>>, Refusal>
    ensures { ReadsPage index.now.machine view.0 floor start.now limit result }
{
    let page = page_from(index, view, floor, start, limit)?;
    let bytes = bytes_of(alloc, &page)?;
    Ok(Some(bytes))
}

fn deltas(alloc: Global, index: &Map, from: u64, limit: u16) -> Result<Option<Items<u8>>, Refusal>
    ensures { ReadsDeltas index.now.machine from limit result }
{
    let deltas = index.feed(from, limit)?;
    let bytes = list_bytes_of(alloc, &deltas)?;
    Ok(Some(bytes))
}

/// Returns the answer to a question, for a buffer with this room. Changes nothing.
pub(crate) fn read(
    alloc: Global,
    index: &Map,
    question: &Question<'_>,
    room: usize,
) -> Result<Option<Items<u8>>, Refusal>
    ensures { IsAnswer index.now.machine question.now result }
{
    match question {
        Question::Rows {
            start,
            limit,
            columns,
        } => rows(alloc, index, start, *limit, columns, room),
        Question::RowsBack {
            before,
            limit,
            columns,
        } => rows_back(alloc, index, *before, *limit, columns, room),
        Question::Many { keys, columns } => many(alloc, index, keys, columns, room),
        Question::Page {
            view,
            floor,
            start,
            limit,
        } => page(alloc, index, *view, *floor, start, *limit),
        Question::Deltas { from, limit } => deltas(alloc, index, *from, *limit),
    }
}
