//! A disk that fails at each of its calls in turn.

use bytes::Bytes;
use mt_frame::entry::{LogHeader, Record};
use mt_journal::error::JournalError;
use mt_journal::journal::Journal;
use mt_journal::opening::{create, open};
use mt_types::items::Items;
use mt_types::key::Key;
use mt_types::refusal::Refusal;
use sqlite_disk::{Disk, Fuse, Memory};
use std::alloc::Global;
use std::test::Fail;

// How many records each group has that is appended, or a sync; an end follows. The log begins after four commits.
const TURNS: [usize; 6] = [1, SYNC, 2, 1, SYNC, 2];

const SYNC: usize = 0;

fn records(alloc: Global, count: usize) -> Result<Items<Record>, Refusal> {
    let mut records = Vec::new(alloc);
    for _ in 0..count {
        records.push(Record::Removed(Key::new(Bytes::from_static(b"k"))?))?;
    }
    Ok(Items::from_vec(records))
}

// Takes the turns, until the disk fails.
fn take_turns<D: Disk + Drop>(
    alloc: Global,
    journal: &mut Journal<D>,
) -> Result<Result<(), JournalError>, Refusal> {
    for count in TURNS {
        let done = if count == SYNC {
            journal.sync()
        } else {
            journal.append(alloc, records(alloc, count)?)
        };
        if let Err(error) = done {
            return Ok(Err(error));
        }
    }
    Ok(journal.append_end(alloc))
}

// The number of the last commit in a file.
fn last_of(alloc: Global, bytes: &[u8]) -> Result<u64, Fail> {
    let mut disk = Memory::new(alloc);
    disk.write_at(0, bytes)?;
    disk.sync()?;
    Ok(open(alloc, disk, 1)?.journal.position().newest)
}

// The number of the last durable commit of a journal whose disk fails after `calls` calls, and that of the last commit in its
// file. `None` if no journal was made.
fn left_after(alloc: Global, calls: u64) -> Result<Option<(u64, u64)>, Fail> {
    let header = LogHeader {
        columns: 1,
        generation: 3,
        base: 4,
        run: 9,
    };
    let Ok(mut journal) = create(alloc, Fuse::new(Memory::new(alloc), calls), header) else {
        return Ok(None);
    };
    let _ended = take_turns(alloc, &mut journal)?;
    let durable = journal.position().durable;
    let disk = journal.into_disk();
    Ok(Some((durable, last_of(alloc, disk.inner().bytes())?)))
}

#[test]
fn each_call_fails(rt: HostRuntime) -> Result<(), Fail> {
    let mut reports = Vec::new(rt.alloc());
    for calls in 0..14 {
        if let Some((durable, last)) = left_after(rt.alloc(), calls)? {
            assert!(rt; durable <= last);
            reports.push(durable)?;
        }
    }
    assert_eq!(rt; reports.as_slice(), [4, 4, 5, 5, 5, 8, 8, 8, 8].as_slice());
    Ok(())
}
