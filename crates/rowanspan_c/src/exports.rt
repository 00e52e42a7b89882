//! The functions that C calls, but for those of views. Each returns a status: 0, the number of a refusal, or one of `status`
//! from 100 on.
//!
//! The header, `include/rowanspan.h`, says what each does, what it costs and when it is refused.

ghost use Rattle.std.specs.Prelude.{◌≡◌, None as NoneOf, true};
ghost use Rattle.mt_types.specs.declared.event.Request.TheVariants.{Put, PutIf, Remove, Tidy};
ghost use Rattle.mt_types.specs.declared.event.Event.TheVariants.{Advance, Collect};
ghost use Rattle.mt_commit.specs.Log.{newest};
ghost use Rattle.mt_arena.specs.Node.{occupied};
ghost use Rattle.mt_asked.specs.Borrowed.{sets_of};
ghost use Rattle.mt_reads.specs.Back.{bound_of};
ghost use Rattle.rowanspan_c.specs.Questions.{ReadsRow, ReadsRows, ReadsRowsBack, ReadsMany, ReadsDeltas};
ghost use Rattle.rowanspan_c.specs.Keys.{keys_of};
ghost use Rattle.rowanspan_c.specs.Calls.{Opens, Changes, Reads, Meets, Counts, CountsAll, CountsRows, close_status};

use crate::changing::{answer, change, meet};
use crate::gathering::BorrowedKey;
use crate::handing::tell_count;
use crate::handle::{Handle, opened};
use crate::reading::{Question, count, get};
use crate::status::{CLOSED, DONE, HELD};
use mt_asked::asked::Asked;
use mt_asked::borrowed::Set;
use mt_index::options::Options;
use mt_types::event::Event;
use std::alloc::Global;

// ---- the handle

/// Opens an index.
#[unsafe(no_mangle)]
pub extern "C" fn rowanspan_open(
    handle: &mut Handle,
    alloc: Global,
    columns: u64,
    log_capacity: u64,
    log_retention: u64,
) -> u16
    ensures { Opens handle.old.held (record { columns = columns; log_capacity = log_capacity; log_retention = log_retention; tidies = true }) handle.new.held result }
{
    if let Some(index) = handle.take(alloc) {
        handle.fill(index);
        return HELD;
    }
    let options = Options {
        columns,
        log_capacity,
        log_retention,
        tidies: true,
    };
    match opened(alloc, options) {
        Ok(index) => {
            handle.fill(index);
            DONE
        }
        Err(refusal) => u16::from(refusal.number()),
    }
}

/// Closes an index.
#[unsafe(no_mangle)]
pub extern "C" fn rowanspan_close(handle: &mut Handle, alloc: Global) -> u16
    ensures emptied { handle.new.held ≡ NoneOf }
    ensures told { result ≡ close_status handle.old.held }
{
    match handle.take(alloc) {
        Some(_) => DONE,
        None => CLOSED,
    }
}

// ---- rows

/// Sets columns of a key's row.
#[unsafe(no_mangle)]
pub extern "C" fn rowanspan_raw_put<'a>(
    handle: &mut Handle,
    alloc: Global,
    key: &[u8],
    sets: &[Set<'a>],
    told: &mut u64,
) -> u16
    ensures { Changes handle.old.held (Put key.now (sets_of sets.now)) handle.new.held result told.new }
{
    change(handle, alloc, &Asked::Put { key, sets }, told)
}

/// Sets columns of a key's row if the row has this version.
#[unsafe(no_mangle)]
pub extern "C" fn rowanspan_raw_put_if<'a>(
    handle: &mut Handle,
    alloc: Global,
    key: &[u8],
    sets: &[Set<'a>],
    version: u64,
    told: &mut u64,
) -> u16
    ensures { Changes handle.old.held (PutIf key.now (sets_of sets.now) version) handle.new.held result told.new }
{
    change(handle, alloc, &Asked::PutIf { key, sets, version }, told)
}

/// Removes a key's row.
#[unsafe(no_mangle)]
pub extern "C" fn rowanspan_raw_remove(
    handle: &mut Handle,
    alloc: Global,
    key: &[u8],
    told: &mut u64,
) -> u16
    ensures { Changes handle.old.held (Remove key.now) handle.new.held result told.new }
{
    change(handle, alloc, &Asked::Remove { key }, told)
}

/// Removes a node that is no longer needed.
#[unsafe(no_mangle)]
pub extern "C" fn rowanspan_raw_tidy(
    handle: &mut Handle,
    alloc: Global,
    key: &[u8],
    told: &mut u64,
) -> u16
    ensures { Changes handle.old.held (Tidy key.now) handle.new.held result told.new }
{
    change(handle, alloc, &Asked::Tidy { key }, told)
}

/// Gets the row of a key. It is refused only for the first limit that it breaks, never as out of memory.
#[unsafe(no_mangle)]
pub extern "C" fn rowanspan_raw_get(
    handle: &mut Handle,
    alloc: Global,
    key: &[u8],
    columns: &[u8],
    into: &mut [u8],
    told: &mut u64,
) -> u16
    ensures row { Reads handle.old.held (λ index. ReadsRow index.machine key.now columns.now) into.old into.new result told.new }
    ensures kept { handle.new.held ≡ handle.old.held }
{
    let Some(index) = handle.take(alloc) else {
        *told = 0;
        return CLOSED;
    };
    let status = get(&index, key, columns, into, told);
    handle.fill(index);
    status
}

/// Gets the rows of many keys, each of which may have none.
#[unsafe(no_mangle)]
pub extern "C" fn rowanspan_raw_get_many<'a>(
    handle: &mut Handle,
    alloc: Global,
    keys: &[BorrowedKey<'a>],
    columns: &[u8],
    into: &mut [u8],
    told: &mut u64,
) -> u16
    ensures rows { Reads handle.old.held (λ index. ReadsMany index.machine (keys_of keys.now) columns.now) into.old into.new
        result told.new }
    ensures kept { handle.new.held ≡ handle.old.held }
{
    answer(handle, alloc, &Question::Many { keys, columns }, into, told)
}

/// Gets the first rows whose keys are at or after a key.
#[unsafe(no_mangle)]
pub extern "C" fn rowanspan_raw_range(
    handle: &mut Handle,
    alloc: Global,
    start: &[u8],
    limit: u16,
    columns: &[u8],
    into: &mut [u8],
    told: &mut u64,
) -> u16
    ensures rows { Reads handle.old.held (λ index. ReadsRows index.machine start.now limit columns.now) into.old into.new
        result told.new }
    ensures kept { handle.new.held ≡ handle.old.held }
{
    answer(
        handle,
        alloc,
        &Question::Rows {
            start,
            limit,
            columns,
        },
        into,
        told,
    )
}

/// Gets the last rows whose keys are before a key, or the last of all if `bounded` is false, the greatest key first.
#[unsafe(no_mangle)]
pub extern "C" fn rowanspan_raw_range_back(
    handle: &mut Handle,
    alloc: Global,
    bounded: bool,
    before: &[u8],
    limit: u16,
    columns: &[u8],
    into: &mut [u8],
    told: &mut u64,
) -> u16
    ensures rows { Reads handle.old.held (λ index. ReadsRowsBack index.machine (bound_of bounded before.now)
        limit columns.now) into.old into.new result told.new }
    ensures kept { handle.new.held ≡ handle.old.held }
{
    let before = if bounded { Some(before) } else { None };
    answer(
        handle,
        alloc,
        &Question::RowsBack {
            before,
            limit,
            columns,
        },
        into,
        told,
    )
}

/// Counts the rows whose keys are at or after a key, and before another one or, if `bounded` is false, before no bound.
#[unsafe(no_mangle)]
pub extern "C" fn rowanspan_raw_count(
    handle: &mut Handle,
    alloc: Global,
    start: &[u8],
    bounded: bool,
    end: &[u8],
    most: u32,
    told: &mut u64,
) -> u16
    ensures count { CountsRows handle.old.held start.now (bound_of bounded end.now) most result told.new }
    ensures kept { handle.new.held ≡ handle.old.held }
{
    let Some(index) = handle.take(alloc) else {
        *told = 0;
        return CLOSED;
    };
    let end = if bounded { Some(end) } else { None };
    let status = tell_count(count(&index, start, end, most), told);
    handle.fill(index);
    status
}

// ---- commits and nodes

/// Reads the deltas of the commits after a number.
#[unsafe(no_mangle)]
pub extern "C" fn rowanspan_raw_feed(
    handle: &mut Handle,
    alloc: Global,
    from: u64,
    limit: u16,
    into: &mut [u8],
    told: &mut u64,
) -> u16
    ensures deltas { Reads handle.old.held (λ index. ReadsDeltas index.machine from limit) into.old into.new result told.new }
    ensures kept { handle.new.held ≡ handle.old.held }
{
    answer(handle, alloc, &Question::Deltas { from, limit }, into, told)
}

/// Begins the next epoch.
#[unsafe(no_mangle)]
pub extern "C" fn rowanspan_advance(handle: &mut Handle, alloc: Global, told: &mut u64) -> u16
    ensures { Meets handle.old.held Advance handle.new.held result told.new }
{
    meet(handle, alloc, &Event::Advance, told)
}

/// Frees retired nodes.
#[unsafe(no_mangle)]
pub extern "C" fn rowanspan_collect(handle: &mut Handle, alloc: Global, told: &mut u64) -> u16
    ensures { Meets handle.old.held Collect handle.new.held result told.new }
{
    meet(handle, alloc, &Event::Collect, told)
}

/// Reports how many commits were made.
#[unsafe(no_mangle)]
pub extern "C" fn rowanspan_commits(handle: &mut Handle, alloc: Global, told: &mut u64) -> u16
    ensures number { Counts handle.old.held (λ index. newest index.machine.log) result told.new }
    ensures kept { handle.new.held ≡ handle.old.held }
{
    let Some(index) = handle.take(alloc) else {
        *told = 0;
        return CLOSED;
    };
    *told = index.commits();
    handle.fill(index);
    DONE
}

/// Reports how many rows there are.
#[unsafe(no_mangle)]
pub extern "C" fn rowanspan_len(handle: &mut Handle, alloc: Global, told: &mut u64) -> u16
    ensures number { CountsAll handle.old.held result told.new }
    ensures kept { handle.new.held ≡ handle.old.held }
{
    let Some(index) = handle.take(alloc) else {
        *told = 0;
        return CLOSED;
    };
    *told = index.len() as u64;
    handle.fill(index);
    DONE
}

/// Reports how many node numbers are occupied.
#[unsafe(no_mangle)]
pub extern "C" fn rowanspan_nodes(handle: &mut Handle, alloc: Global, told: &mut u64) -> u16
    ensures number { Counts handle.old.held (λ index. occupied index.machine.tree.nodes) result told.new }
    ensures kept { handle.new.held ≡ handle.old.held }
{
    let Some(index) = handle.take(alloc) else {
        *told = 0;
        return CLOSED;
    };
    *told = index.nodes() as u64;
    handle.fill(index);
    DONE
}

/// Reports how many columns a row has.
#[unsafe(no_mangle)]
pub extern "C" fn rowanspan_columns(handle: &mut Handle, alloc: Global, told: &mut u64) -> u16
    ensures number { Counts handle.old.held (λ index. index.machine.columns) result told.new }
    ensures kept { handle.new.held ≡ handle.old.held }
{
    let Some(index) = handle.take(alloc) else {
        *told = 0;
        return CLOSED;
    };
    *told = u64::from(index.columns());
    handle.fill(index);
    DONE
}
