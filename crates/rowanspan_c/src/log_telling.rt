//! What a call of a log returns to its caller: a status, a number, and the text of an error.

ghost use Rattle.std.specs.Prelude.{◌≡◌};
ghost use Rattle.rowanspan_c.specs.Logs.{journal_status, log_end, log_status, open_status, folder_status, load_status, unopened_file_status, unopened_status, TellsRound, TellsSynced};

use crate::status::{DISK_FAILED, DISK_FULL, DONE, FOLDER_BUSY, FOLDER_DAMAGED, FOLDER_FAILED};
use mt_folder::error::FolderError;
use mt_journal::error::JournalError;
use mt_load::error::LoadError;
use mt_map_folder::error::{LogError, OpenError};
use sqlite_disk::is_no_room;
use std::alloc::Global;
use std::fmt::Display;
use std::io;

// Out of memory, and a counter at its greatest value: the numbers of these refusals.
const NO_MEMORY: u16 = 1;

const SPENT: u16 = 14;

// The status of a call of a log that failed.
fn journal_status(error: &JournalError) -> u16
    ensures { result ≡ journal_status error.now }
{
    match error {
        JournalError::NoMemory => NO_MEMORY,
        JournalError::TooLong => SPENT,
        JournalError::DiskFull => DISK_FULL,
        _ => DISK_FAILED,
    }
}

// The status of commits or rows that weren't written.
fn log_status(error: &LogError) -> u16
    ensures { result ≡ log_status error.now }
{
    match error {
        LogError::Refused(refusal) => u16::from(refusal.number()),
        LogError::Journal(error) => journal_status(error),
    }
}

// The status of a call of a file that failed as a folder was opened.
fn unopened_file_status(error: &io::Error) -> u16
    ensures { result ≡ unopened_file_status error.now }
{
    if is_no_room(error) {
        DISK_FULL
    } else {
        FOLDER_FAILED
    }
}

// The status of a log that wasn't opened.
fn unopened_status(error: &JournalError) -> u16
    ensures { result ≡ unopened_status error.now }
{
    match error {
        JournalError::NoMemory => NO_MEMORY,
        JournalError::DiskFull => DISK_FULL,
        JournalError::Disk(error) => unopened_file_status(error),
        JournalError::GivenUp => FOLDER_FAILED,
        _ => FOLDER_DAMAGED,
    }
}

// The status of a folder whose logs weren't opened.
fn folder_status(error: &FolderError) -> u16
    ensures { result ≡ folder_status error.now }
{
    match error {
        FolderError::Io(error) => unopened_file_status(error),
        FolderError::Busy => FOLDER_BUSY,
        FolderError::Journal { error, .. } => unopened_status(error),
        FolderError::Lost { .. } | FolderError::Begins { .. } => FOLDER_DAMAGED,
        FolderError::Refused(refusal) => u16::from(refusal.number()),
    }
}

// The status of rows that weren't loaded.
fn load_status(error: &LoadError) -> u16
    ensures { result ≡ load_status error.now }
{
    match error {
        LoadError::Refused(refusal) => u16::from(refusal.number()),
        LoadError::Impossible(_) => FOLDER_DAMAGED,
    }
}

/// Returns the status of an index that wasn't opened over its folder.
pub(crate) fn open_status(error: &OpenError) -> u16
    ensures { result ≡ open_status error.now }
{
    match error {
        OpenError::Refused(refusal) => u16::from(refusal.number()),
        OpenError::Folder(error) => folder_status(error),
        OpenError::Load(error) => load_status(error),
    }
}

/// Reports what came of a sync.
pub(crate) fn tell_synced(synced: Result<u64, JournalError>, told: &mut u64) -> u16
    ensures { TellsSynced synced result told.new }
{
    match synced {
        Ok(number) => {
            *told = number;
            DONE
        }
        Err(error) => {
            *told = 0;
            journal_status(&error)
        }
    }
}

/// Returns the status of a write of commits.
pub(crate) fn tell_written(written: Result<(), LogError>) -> u16
    ensures { result ≡ log_end written }
{
    match written {
        Ok(()) => DONE,
        Err(error) => log_status(&error),
    }
}

/// Reports what came of a round of a checkpoint.
pub(crate) fn tell_round(advanced: Result<bool, LogError>, told: &mut u64) -> u16
    ensures { TellsRound advanced result told.new }
{
    match advanced {
        Ok(true) => {
            *told = 1;
            DONE
        }
        Ok(false) => {
            *told = 0;
            DONE
        }
        Err(error) => {
            *told = 0;
            log_status(&error)
        }
    }
}

/// Writes what an error says to a buffer, cut to its room, and returns how many bytes that are. None if out of memory.
pub(crate) fn tell_why<E: Display>(alloc: Global, error: &E, into: &mut [u8]) -> usize {
    let Ok(text) = format!(in alloc; "{error}") else {
        return 0;
    };
    let length = text.len().min(into.len());
    into[..length].copy_from_slice(&text.as_bytes()[..length]);
    length
}
