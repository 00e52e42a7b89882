//! The thread of the log: it writes the commits of all workers, and syncs them in groups.

use crate::checkpointing::may_pass;
use crate::gauge::Gauge;
use crate::watching::Watch;
use mt_folder_log::log::FolderLog;
use mt_host::durability::{DiskState, Durability, Syncing};
use mt_host::report::{LogCause, Report};
use mt_journal::error::JournalError;
use mt_logger::checkpoint::Advanced;
use mt_logger::error::LoggerError;
use mt_logger::logger::Logger;
use mt_shared::door::Door;
use mt_types::refusal::Refusal;
use sqlite_disk::Disk;
use std::alloc::Global;
use std::rt::Files;
use std::sync::Wait;
use std::thread;
use std::time::{Clock, Duration, Instant};

// How many milliseconds it lets commits gather if nobody waits for them.
const GATHERING: u64 = 5;

// After how many milliseconds it tries again, out of memory or on a full disk.
const PAUSE: u64 = 20;

// How many groups of commits it writes between two syncs at most.
const GROUPS: u32 = 64;

// How often it tries at most when no more commits are made.
const LAST_TRIES: u32 = 500;

/// A log to which the commits of a server go, and when it is synced.
#[derive(Drop)]
pub struct Log<D: Disk + Drop> {
    pub logger: Logger<D>,
    pub syncing: Syncing,
}

impl<D: Disk + Drop> Log<D> {
    /// Returns what continues this log, and syncs it so.
    pub fn new(alloc: Global, log: FolderLog<D>, syncing: Syncing) -> Log<D> {
        Log {
            logger: Logger::new(alloc, log),
            syncing,
        }
    }
}

// What is said of an error of the log.
fn cause_of(error: &LoggerError) -> LogCause<'_> {
    match error {
        LoggerError::Fed(refusal) => LogCause::Fed(*refusal),
        LoggerError::Journal(error) => LogCause::Journal(error),
    }
}

// The result of an attempt to write.
enum Written {
    // All commits are written, or as many as one sync is for.
    All,
    // The next attempt may succeed.
    Later,
    // No attempt will.
    Never,
}

// The result of an attempt that failed with this error. Says so if the disk is full, or if no attempt will succeed.
fn judge<R: Wait + Clock + Eprint>(
    gauge: &Gauge<'_, R>,
    durability: &Durability,
    error: &LoggerError,
) -> Written {
    match error {
        LoggerError::Fed(Refusal::NoMemory) | LoggerError::Journal(JournalError::NoMemory) => {
            Written::Later
        }
        LoggerError::Journal(JournalError::DiskFull) => {
            if durability.disk() == DiskState::Usable {
                gauge.reporter.say(gauge.rt, &Report::DiskFull);
            }
            durability.note_full(true);
            Written::Later
        }
        _ => {
            gauge
                .reporter
                .say(gauge.rt, &Report::LogFailed(cause_of(error)));
            Written::Never
        }
    }
}

// The disk has room.
fn note_room<R: Wait + Clock + Eprint>(gauge: &Gauge<'_, R>, durability: &Durability) {
    if durability.disk() == DiskState::Full {
        gauge.reporter.say(gauge.rt, &Report::DiskUsable);
    }
    durability.note_full(false);
}

// Writes the commits that the log lacks.
fn write_all<R: Wait + Clock + Eprint, D: Disk + Drop>(
    gauge: &Gauge<'_, R>,
    door: &Door<'_, R>,
    durability: &Durability,
    logger: &mut Logger<D>,
) -> Written {
    for _ in 0..GROUPS {
        match logger.write(door) {
            Ok(count) => {
                note_room(gauge, durability);
                durability.note_written(logger.position().newest);
                if count == 0 {
                    break;
                }
            }
            Err(error) => return judge(gauge, durability, &error),
        }
    }
    Written::All
}

// Whether commits are to be synced now that were written and aren't durable.
fn is_due<R: Clock>(rt: &R, durability: &Durability, last: Instant) -> bool {
    match durability.syncing() {
        Syncing::Always => true,
        Syncing::Every(milliseconds) => match last.elapsed(rt) {
            Ok(elapsed) => elapsed >= Duration::from_millis(milliseconds),
            Err(_) => true,
        },
        Syncing::Never => durability.is_ending(),
    }
}

// Makes what was written durable. Returns whether it is.
fn sync<R: Wait + Clock + Eprint, D: Disk + Drop>(
    gauge: &Gauge<'_, R>,
    durability: &Durability,
    logger: &mut Logger<D>,
) -> bool {
    match logger.sync() {
        Ok(number) => {
            durability.note_durable(number);
            true
        }
        Err(error) => {
            let error = LoggerError::Journal(error);
            gauge
                .reporter
                .say(gauge.rt, &Report::LogFailed(cause_of(&error)));
            false
        }
    }
}

// Waits until the next round: until the thread is called, or the memory is to be read.
fn pause<R: Wait + Clock>(gauge: &Gauge<'_, R>, durability: &Durability, has_unsynced: bool) {
    let rt = gauge.rt;
    let most = gauge.memory.interval();
    let longest = match durability.syncing() {
        Syncing::Always => most,
        Syncing::Every(milliseconds) => {
            thread::sleep(rt, Duration::from_millis(GATHERING));
            if has_unsynced {
                milliseconds.min(most)
            } else {
                most
            }
        }
        Syncing::Never => {
            thread::sleep(rt, Duration::from_millis(GATHERING));
            most
        }
    };
    durability.wait(rt, Duration::from_millis(longest));
}

// Syncs what was written, if it is time for that. Returns the time of the last sync, or `None` if the disk has failed.
fn sync_if_due<R: Wait + Clock + Eprint, D: Disk + Drop>(
    gauge: &Gauge<'_, R>,
    durability: &Durability,
    logger: &mut Logger<D>,
    last: Instant,
) -> Option<Instant> {
    let at = logger.position();
    if at.durable > durability.durable() {
        // (by a checkpoint, or with zeros that were written ahead)
        durability.note_durable(at.durable);
        gauge.wake_waiting();
    }
    let is_due = durability.is_ending() || is_due(gauge.rt, durability, last);
    if at.durable >= at.newest || !is_due {
        return Some(last);
    }
    if !sync(gauge, durability, logger) {
        return None;
    }
    gauge.wake_waiting();
    match Instant::now(gauge.rt) {
        Ok(now) => Some(now),
        Err(_) => Some(last),
    }
}

// Makes some steps of a checkpoint. Returns whether there are more to make now, or `None` if the disk has failed.
fn shorten<R: Wait + Clock + Eprint, D: Disk + Drop>(
    gauge: &Gauge<'_, R>,
    door: &Door<'_, R>,
    log: &mut Log<D>,
) -> Option<bool> {
    match log.move_on(door) {
        Ok(Advanced::Waits) => Some(false),
        Ok(Advanced::Goes) => Some(true),
        Ok(Advanced::Ends { rows }) => {
            let commits = log.logger.position().newest;
            gauge
                .reporter
                .say(gauge.rt, &Report::Shortened { rows, commits });
            Some(false)
        }
        Err(error) if log.is_moving() => {
            if may_pass(&error) {
                return Some(false);
            }
            gauge
                .reporter
                .say(gauge.rt, &Report::LogFailed(cause_of(&error)));
            None
        }
        Err(error) => {
            gauge
                .reporter
                .say(gauge.rt, &Report::NotShortened(cause_of(&error)));
            Some(false)
        }
    }
}

// Writes commits and syncs them until no more are made, or the disk fails.
fn keep<R: Wait + Clock + Files + Eprint, D: Disk + Drop>(
    gauge: &Gauge<'_, R>,
    durability: &Durability,
    log: &mut Log<D>,
    watch: &mut Watch,
) -> bool {
    let rt = gauge.rt;
    let door = Door::new(gauge.index, rt, 1);
    let mut last = gauge.start;
    let mut tries = 0u32;
    for _ in rt.forever() {
        let is_ending = durability.is_ending();
        gauge.reporter.catch_up(rt);
        watch.look_if_due(gauge);
        match write_all(gauge, &door, durability, &mut log.logger) {
            Written::All => {}
            Written::Later => thread::sleep(rt, Duration::from_millis(PAUSE)),
            Written::Never => return false,
        }
        tries = if is_ending {
            tries.saturating_add(1)
        } else {
            0
        };
        if tries > LAST_TRIES {
            gauge.reporter.say(rt, &Report::Unwritten);
            return false;
        }
        let Some(synced) = sync_if_due(gauge, durability, &mut log.logger, last) else {
            return false;
        };
        last = synced;
        if is_ending {
            if log.logger.position().durable >= gauge.commits() {
                return true;
            }
            continue;
        }
        let Some(goes_on) = shorten(gauge, &door, log) else {
            return false;
        };
        if !goes_on {
            let at = log.logger.position();
            pause(gauge, durability, at.durable < at.newest);
        }
    }
    true
}

/// Keeps a log until no more commits are made, and returns whether all are durable then. If the disk fails, changes are
/// refused from then on, and those that wait for it are woken. Meanwhile it reads how much memory is used.
pub fn keep_log<R: Wait + Clock + Files + Eprint, D: Disk + Drop>(
    gauge: &Gauge<'_, R>,
    log: Log<D>,
    watch: &mut Watch,
) -> bool {
    let Some(durability) = gauge.durability else {
        return false;
    };
    let mut log = log;
    let is_kept = keep(gauge, durability, &mut log, watch);
    if !is_kept {
        durability.note_failed();
        gauge.wake_waiting();
    }
    is_kept
}
