//! A map whose rows are in a folder, from one life to the next: what a crash undoes, and what it doesn't.

use mt_asked::asked::Asked;
use mt_asked::borrowed::Set;
use mt_index::options::Options;
use mt_lives::life::begin_life;
use mt_lives::taking::{Taken, take_turns};
use mt_lives::turn::{Told, Turn};
use mt_types::event::Answer;
use sqlite_disk::{Crash, Fuse, Memory};
use std::alloc::Global;
use std::test::Fail;

type Disk = Fuse<Memory>;

// What turns have answered, and the two files after the crash that follows them.
#[derive(Drop)]
struct Life {
    taken: Taken,
    log: Disk,
    other: Disk,
}

// A file, of which the first calls succeed.
fn file(alloc: Global, calls: u64) -> Disk {
    Fuse::new(Memory::new(alloc), calls)
}

// Opens a map over these files, takes the turns, and crashes.
fn live(alloc: Global, even: Disk, odd: Disk, turns: &[Turn<'_>]) -> Result<Life, Fail> {
    let mut opened = begin_life(alloc, even, odd, Options::default(), 0)?;
    let taken = take_turns(alloc, &mut opened, turns)?;
    let (log, other) = opened.log.into_disks();
    let mut log = log;
    let mut other = other.ok_or("the other file")?;
    log.crash();
    other.crash();
    Ok(Life { taken, log, other })
}

fn put<'a>(key: &'a [u8], sets: &'a [Set<'a>]) -> Turn<'a> {
    Turn::Ask(Asked::Put { key, sets })
}

fn get(key: &[u8]) -> Turn<'_> {
    Turn::Ask(Asked::Get { key, columns: &[] })
}

fn stored(commit: u64) -> Told {
    Told::Answered(Ok(Answer::Stored(commit)))
}

// Whether a get has found a row of this version.
fn has_found(told: Option<&Told>, version: u64) -> bool {
    match told {
        Some(Told::Answered(Ok(Answer::Found(row)))) => row.version == version,
        _ => false,
    }
}

// A put is durable, the next one is written, and one is only in memory; then all rows are copied. A crash undoes what follows
// the sync of the checkpoint.
#[test]
fn a_crash_leaves_what_is_durable(rt: HostRuntime) -> Result<(), Fail> {
    let alloc = rt.alloc();
    let red = [Set::new(0, b"red")];
    let round = Turn::Advance { begins: true };
    let turns = [
        put(b"apple", &red),
        Turn::Write,
        Turn::Sync,
        put(b"pear", &red),
        Turn::Write,
        round,
        round,
        round,
        put(b"plum", &red),
        Turn::Write,
    ];
    let first = live(alloc, file(alloc, u64::MAX), file(alloc, u64::MAX), &turns)?;
    assert!(rt; first.taken.stopped.is_none());
    assert_eq!(rt; first.taken.told.len(), 10);
    assert_eq!(rt; first.taken.told.get(2), Some(&Told::Durable(1)));
    assert_eq!(rt; first.taken.told.get(3), Some(&stored(2)));
    assert_eq!(rt; first.taken.told.get(8), Some(&stored(3)));
    let turns = [
        get(b"apple"),
        get(b"pear"),
        get(b"plum"),
        put(b"plum", &red),
        Turn::Write,
        Turn::Sync,
    ];
    let next = live(alloc, first.log, first.other, &turns)?;
    assert!(rt; has_found(next.taken.told.get(0), 1) && has_found(next.taken.told.get(1), 2));
    assert_eq!(rt;
        next.taken.told.get(2),
        Some(&Told::Answered(Ok(Answer::Absent)))
    );
    assert_eq!(rt; next.taken.told.get(3), Some(&stored(3)));
    assert_eq!(rt; next.taken.told.get(5), Some(&Told::Durable(3)));
    let last = live(alloc, next.log, next.other, &[get(b"plum")])?;
    assert!(rt; has_found(last.taken.told.get(0), 3));
    Ok(())
}

// How many turns are taken over files of which the first calls succeed.
fn taken_over(alloc: Global, calls: u64) -> Result<Option<(usize, bool)>, Fail> {
    let red = [Set::new(0, b"red")];
    let Ok(mut opened) = begin_life(
        alloc,
        file(alloc, calls),
        file(alloc, u64::MAX),
        Options::default(),
        0,
    ) else {
        return Ok(None);
    };
    let taken = take_turns(
        alloc,
        &mut opened,
        &[put(b"apple", &red), Turn::Write, Turn::Sync],
    )?;
    Ok(Some((taken.told.len(), taken.stopped.is_some())))
}

// If the disk fails, the turns that follow are left.
#[test]
fn turns_end_where_the_disk_fails(rt: HostRuntime) -> Result<(), Fail> {
    let mut ends = [false; 4];
    for calls in 0..40 {
        if let Some((told, stopped)) = taken_over(rt.alloc(), calls)? {
            assert!(rt; stopped == (told < 3));
            if let Some(end) = ends.get_mut(told) {
                *end = true;
            }
        }
    }
    assert_eq!(rt; ends, [false, true, true, true]);
    Ok(())
}
