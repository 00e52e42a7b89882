//! Crashes of a map over a folder: after each call of the disks, in all lists of up to some turns. The rows that are there
//! again come from a list of changes, not from the map.

use crate::leaving::{File, WHOLES, file_after};
use crate::recording::{Numbered, Recorder};
use mt_asked::borrowed::Set;
use mt_index::options::Options;
use mt_map::map::Map;
use mt_map_folder::log::MapLog;
use mt_map_folder::opening::{OpenedMap, open};
use mt_types::refusal::Refusal;
use sqlite_disk::{Disk, Memory};
use std::alloc::Global;
use std::sync::atomic::{AtomicU64, Ordering};
use std::test::Fail;

// A turn is a put of key a, one of key b, a remove of key a, a sync or a round of a checkpoint.
const TURNS: u64 = 5;

pub const PUT_A: u64 = 0;

pub const PUT_B: u64 = 1;

pub const REMOVE_A: u64 = 2;

pub const SYNC: u64 = 3;

pub const ROUND: u64 = 4;

// What was done before each list: nothing, a checkpoint, or the first round of a second one.
const STARTS: [&[u64]; 3] = [
    &[],
    &[PUT_A, PUT_B, SYNC, ROUND, ROUND, ROUND],
    &[PUT_A, PUT_B, ROUND, ROUND, ROUND, PUT_B, ROUND],
];

// How many turns the longest lists have. By hand up to 6: of 5 turns the crashes take some minutes, of 6 more than a quarter of an hour.
const LONGEST: u32 = 2;

// How many turns the longest lists have of which each byte is tried.
const SHORT: u32 = 1;

const KEYS: [&[u8]; 2] = [b"a", b"b"];

/// What a commit left: the first byte of its key, and the byte of the row's column, or none.
pub type Change = (u8, Option<u8>);

// A change of the rows, written to the log. The value of a row is the number of its commit.
fn put<D: Disk + Drop>(
    map: &mut Map,
    log: &mut MapLog<D>,
    key: &'static [u8],
) -> Result<Change, Fail> {
    let value = (map.commits() % 255) as u8 + 1;
    let _ = map.put(key, &[Set::new(0, &[value])])?;
    log.write(map)?;
    Ok((key.first().copied().unwrap_or(0), Some(value)))
}

// Takes a turn.
fn take<D: Disk + Drop>(
    map: &mut Map,
    log: &mut MapLog<D>,
    changes: &mut Vec<Change>,
    turn: u64,
) -> Result<(), Fail> {
    match turn {
        0 => changes.push(put(map, log, b"a")?)?,
        1 => changes.push(put(map, log, b"b")?)?,
        2 => {
            if map.remove(b"a")?.is_some() {
                changes.push((b'a', None))?;
            }
            log.write(map)?;
        }
        3 => {
            let _ = log.sync()?;
        }
        _ => {
            let _ = log.advance(map, true)?;
        }
    }
    Ok(())
}

/// What a list of turns has done: the calls of both files, the changes, and of the last turn the calls before it and up to its
/// end, with the number of the last durable commit at each.
#[derive(Drop)]
pub struct Taken {
    pub even: Vec<Numbered>,
    pub odd: Vec<Numbered>,
    pub changes: Vec<Change>,
    before: (u64, u64),
    after: (u64, u64),
}

// How many calls there were, and the last durable commit.
fn moment<D: Disk + Drop>(clock: &AtomicU64, log: &MapLog<D>) -> (u64, u64) {
    (clock.load(Ordering::SeqCst), log.durable())
}

// The turns of a list after a start: the digits of its number.
fn turns_of(alloc: Global, start: &[u64], length: u32, list: u64) -> Result<Vec<u64>, Fail> {
    let mut turns = Vec::new(alloc);
    turns.extend_from_slice(start)?;
    let mut rest = list;
    for _ in 0..length {
        turns.push(rest % TURNS)?;
        rest /= TURNS;
    }
    Ok(turns)
}

/// Takes turns over an empty folder.
pub fn take_all(alloc: Global, turns: &[u64]) -> Result<Taken, Fail> {
    let clock = AtomicU64::new(0);
    let even = Recorder::new(alloc, Memory::new(alloc), &clock, true);
    let odd = Recorder::new(alloc, Memory::new(alloc), &clock, false);
    let OpenedMap { mut map, mut log } = open(alloc, even, odd, Options::default(), 0)?;
    let mut changes = Vec::new(alloc);
    let mut before = (0, 0);
    let mut after = moment(&clock, &log);
    for turn in turns {
        before = after;
        take(&mut map, &mut log, &mut changes, *turn)?;
        after = moment(&clock, &log);
    }
    let (first, second) = log.into_disks();
    let second = second.ok_or("the other file")?;
    let is_even = first.is_even();
    let (even, odd) = if is_even {
        (first, second)
    } else {
        (second, first)
    };
    Ok(Taken {
        even: even.into_calls(),
        odd: odd.into_calls(),
        changes,
        before,
        after,
    })
}

// The version and the value of a key's row after the first changes.
fn row_after(changes: &[Change], count: u64, key: &[u8]) -> Option<(u64, u8)> {
    let mut row = None;
    for ((changed, value), number) in changes.iter().zip(1..=count) {
        if key.first() == Some(changed) {
            row = value.map(|value| (number, value));
        }
    }
    row
}

// The version and the value of a key's row in a map.
fn row_in(map: &Map, key: &[u8]) -> Result<Option<(u64, u8)>, Refusal> {
    let Some(row) = map.get(key)? else {
        return Ok(None);
    };
    let value = row.columns.get_or_empty(0).first().copied();
    Ok(Some((row.version, value.unwrap_or(0))))
}

/// Returns whether a map has exactly the rows after its number of commits.
pub fn has_rows(map: &Map, changes: &[Change]) -> Result<bool, Refusal> {
    let mut count = 0;
    for key in KEYS {
        let row = row_in(map, key)?;
        if row != row_after(changes, map.commits(), key) {
            return Ok(false);
        }
        count = usize::from(row.is_some()).saturating_add(count);
    }
    Ok(map.len() == count && map.pairs(b"", 1000, &[])?.len() == count)
}

// Opens what a crash leaves of the two files in some way. Returns whether the rows are those after the first changes, up to
// the durable one at least.
fn is_right(
    alloc: Global,
    files: &(File, File),
    way: usize,
    taken: &Taken,
    durable: u64,
) -> Result<bool, Fail> {
    let even = files.0.crashed(alloc, way)?;
    let odd = files.1.crashed(alloc, way)?;
    let opened = open(alloc, even, odd, Options::default(), 0)?;
    let commits = opened.map.commits();
    let is_front = durable <= commits && commits <= taken.changes.len() as u64;
    Ok(is_front && has_rows(&opened.map, &taken.changes)?)
}

// How many ways of a crash are tried: those of no chosen place, or all.
fn ways(files: &(File, File), all: bool) -> usize {
    if all {
        files.0.ways().max(files.1.ways())
    } else if files.0.is_synced() && files.1.is_synced() {
        1
    } else {
        WHOLES
    }
}

// Stops the disks after a call of the last turn. Returns the number of crashes.
fn stop_after(alloc: Global, taken: &Taken, call: u64, all: bool) -> Result<u64, Fail> {
    let durable = if call < taken.after.0 {
        taken.before.1
    } else {
        taken.after.1
    };
    let files = (
        file_after(alloc, &taken.even, call)?,
        file_after(alloc, &taken.odd, call)?,
    );
    let mut crashes: u64 = 0;
    for way in 0..ways(&files, all) {
        if !is_right(alloc, &files, way, taken, durable)? {
            return Err(Fail::new(format_args!("after call {call}, in way {way}")));
        }
        crashes = crashes.wrapping_add(1);
    }
    Ok(crashes)
}

// Stops the disks after each call of the last of these turns. Returns the number of crashes.
fn crash_in_last(alloc: Global, turns: &[u64], all: bool) -> Result<u64, Fail> {
    let taken = take_all(alloc, turns)?;
    let mut crashes: u64 = 0;
    for call in taken.before.0..taken.after.0 {
        crashes = crashes.wrapping_add(stop_after(alloc, &taken, call.wrapping_add(1), all)?);
    }
    Ok(crashes)
}

// Tries all lists of this length after a start. Returns the number of crashes.
fn all_lists(alloc: Global, start: &[u64], length: u32, all: bool) -> Result<u64, Fail> {
    let mut crashes: u64 = 0;
    for list in 0..TURNS.saturating_pow(length) {
        let turns = turns_of(alloc, start, length, list)?;
        crashes = crashes.wrapping_add(crash_in_last(alloc, &turns, all)?);
    }
    Ok(crashes)
}

// Tries all lists of up to this length after a start. Returns the number of crashes.
fn all_up_to(alloc: Global, start: &[u64], longest: u32, all: bool) -> Result<u64, Fail> {
    let mut crashes: u64 = 0;
    for length in 0..=longest {
        crashes = crashes.wrapping_add(all_lists(alloc, start, length, all)?);
    }
    Ok(crashes)
}

#[test]
fn each_byte_of_short_lists(rt: HostRuntime) -> Result<(), Fail> {
    for start in STARTS {
        let crashes = all_up_to(rt.alloc(), start, SHORT, true)?;
        assert!(rt; crashes > 100, "{crashes} crashes");
    }
    Ok(())
}

#[test]
fn all_lists_of_turns(rt: HostRuntime) -> Result<(), Fail> {
    for start in STARTS {
        let crashes = all_up_to(rt.alloc(), start, LONGEST, false)?;
        assert!(rt; crashes > 50, "{crashes} crashes");
    }
    Ok(())
}
