//! Commits that can't be written: the index has left them out, or the disk fails. A checkpoint of an index, and its rows again.

use mt_asked::borrowed::Set;
use mt_folder::opening::{OpenedLog, Spare, open_log};
use mt_folder_log::log::FolderLog;
use mt_frame::entry::LogHeader;
use mt_index::options::Options;
use mt_journal::error::JournalError;
use mt_journal::opening::create;
use mt_logger::checkpoint::Advanced;
use mt_logger::error::LoggerError;
use mt_logger::logger::Logger;
use mt_shared::client::Client;
use mt_shared::door::Door;
use mt_shared::map::SharedMap;
use mt_types::refusal::Refusal;
use sqlite_disk::{Disk, Fuse, Memory};
use std::alloc::Global;
use std::sync::Wait;
use std::test::Fail;

// A new log on this disk, which moves to the other one when it has `least` bytes.
fn new_logger<D: Disk + Drop>(
    alloc: Global,
    disk: D,
    other: D,
    least: usize,
) -> Result<Logger<D>, JournalError> {
    let header = LogHeader {
        columns: 1,
        generation: 0,
        base: 0,
        run: 0,
    };
    let journal = create(alloc, disk, header)?;
    let spare = Spare::Free {
        disk: other,
        size: 0,
    };
    let log = FolderLog::new(alloc, 1, journal, spare, least);
    Ok(Logger::new(alloc, log))
}

// An index that has made this many commits, and whose own log keeps `kept` commits for a logger.
fn changed_index<W: Wait>(
    rt: &W,
    alloc: Global,
    commits: u16,
    kept: u64,
) -> Result<SharedMap, Fail> {
    let options = Options {
        log_retention: kept,
        ..Options::default()
    };
    let (index, mut passes) = SharedMap::start(alloc, options, 1)?;
    let pass = passes.pop().ok_or("pass")?;
    let mut client = Client::new(alloc, Door::new(&index, rt, 64), pass);
    for number in 0..commits {
        let _ = client.put(&number.to_be_bytes(), &[Set::new(0, b"red")])?;
    }
    drop(client);
    Ok(index)
}

#[test]
fn commits_that_the_index_has_left_out(rt: HostRuntime) -> Result<(), Fail> {
    let alloc = rt.alloc();
    let index = changed_index(&rt, alloc, 1, 0)?;
    let mut logger = new_logger(alloc, Memory::new(alloc), Memory::new(alloc), 0)?;
    let door = Door::new(&index, &rt, 1);
    let written = logger.write(&door);
    assert!(rt; matches!(written, Err(LoggerError::Fed(Refusal::Behind(1)))));
    assert!(rt; matches!(logger.advance(&door), Ok(Advanced::Waits)));
    Ok(())
}

// Whether a commit is written and synced on a disk that fails after `calls` calls. It isn't if no log can be made. `None` if
// what the log says is durable isn't that.
fn is_durable<W: Wait>(alloc: Global, door: &Door<'_, W>, calls: u64) -> Option<bool> {
    let disk = Fuse::new(Memory::new(alloc), calls);
    let other = Fuse::new(Memory::new(alloc), calls);
    let Ok(mut logger) = new_logger(alloc, disk, other, 0) else {
        return Some(false);
    };
    let written = logger.write(door).is_ok();
    let synced = logger.sync().is_ok();
    let durable = logger.position().durable;
    (durable == u64::from(written && synced)).then_some(durable == 1)
}

#[test]
fn a_disk_that_fails(rt: HostRuntime) -> Result<(), Fail> {
    let index = changed_index(&rt, rt.alloc(), 1, 100)?;
    let door = Door::new(&index, &rt, 1);
    for calls in 0..12 {
        assert!(rt; is_durable(rt.alloc(), &door, calls).is_some());
    }
    assert_eq!(rt; is_durable(rt.alloc(), &door, 12), Some(true));
    Ok(())
}

// Makes a checkpoint. Returns how many rows it has, and how many steps it took.
fn shorten<W: Wait, D: Disk + Drop>(
    logger: &mut Logger<D>,
    door: &Door<'_, W>,
) -> Result<(u64, u32), LoggerError> {
    for step in 1..100 {
        if let Advanced::Ends { rows } = logger.advance(door)? {
            return Ok((rows, step));
        }
    }
    Ok((0, 0))
}

#[test]
fn a_checkpoint_of_rows_that_are_not_written_yet(rt: HostRuntime) -> Result<(), Fail> {
    let alloc = rt.alloc();
    let index = changed_index(&rt, alloc, 600, 1000)?;
    let mut logger = new_logger(alloc, Memory::new(alloc), Memory::new(alloc), 1)?;
    let door = Door::new(&index, &rt, 1);
    // (an empty log stays where it is)
    assert!(rt; matches!(logger.advance(&door), Ok(Advanced::Waits)));
    assert_eq!(rt; logger.write(&door)?, 600);
    // (a move, then three parts, of which each is read and copied, and the seal)
    assert_eq!(rt; shorten(&mut logger, &door)?, (600, 8));
    assert_eq!(rt; logger.position().newest, 600);
    let (log, other) = logger.into_disks();
    let other = other.ok_or("no other file")?;
    let OpenedLog { read, journal, .. } = open_log(alloc, other, log, 1)?;
    assert_eq!(rt; (read.rows.len(), read.commits), (600, 600));
    assert_eq!(rt; journal.position().generation, 1);
    Ok(())
}

#[test]
fn a_checkpoint_with_the_commits_that_the_log_lacks(rt: HostRuntime) -> Result<(), Fail> {
    let alloc = rt.alloc();
    let before = changed_index(&rt, alloc, 1, 1000)?;
    let mut logger = new_logger(alloc, Memory::new(alloc), Memory::new(alloc), 1)?;
    assert_eq!(rt; logger.write(&Door::new(&before, &rt, 1))?, 1);
    let index = changed_index(&rt, alloc, 3, 1000)?;
    let door = Door::new(&index, &rt, 1);
    assert_eq!(rt; shorten(&mut logger, &door)?, (3, 4));
    assert_eq!(rt;
        (logger.position().newest, logger.position().durable),
        (3, 3)
    );
    Ok(())
}
