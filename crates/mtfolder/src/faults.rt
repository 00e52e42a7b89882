//! What is wrong with a folder.

ghost use Rattle.std.specs.Prelude.{◌≡◌};
ghost use Rattle.mtfolder.specs.Statuses.{status_of, status_of_no_cut, status_of_cut};

use crate::copies::{FolderCopy, disk_of};
use mt_folder::error::{FolderError, LogFile};
use mt_folder::looking::{header_of, look};
use mt_journal::error::JournalError;
use sqlite_disk::Disk;
use std::alloc::{AllocError, Global};
use std::io;
use thiserror::Error;

/// Why nothing is cut off the logs of a folder.
#[derive(Debug, Error, Drop)]
pub enum NoCut {
    /// A server opens the folder as it is.
    #[error("a server opens the folder as it is")]
    Sound,
    /// The last commit that would be left is another one.
    #[error("the last commit that would be left is {last}")]
    OtherCommit { last: u64 },
    /// No log would be left that a server opens.
    #[error("no log would be left that a server opens")]
    Useless,
    /// No cut helps against this fault.
    #[error("{0}")]
    Folder(FolderError),
}

impl From<FolderError> for NoCut {
    fn from(error: FolderError) -> NoCut {
        NoCut::Folder(error)
    }
}

impl From<AllocError> for NoCut {
    fn from(error: AllocError) -> NoCut {
        NoCut::Folder(FolderError::from(error))
    }
}

/// Why the logs of a folder weren't cut.
#[derive(Debug, Error, Drop)]
pub enum CutError {
    /// Nothing was written.
    #[error("nothing was cut: {0}")]
    Refused(NoCut),
    /// A write or a sync failed. The same cut can be made again.
    #[error("the cut was broken off, and can be made again: {0}")]
    Unfinished(io::Error),
}

impl From<FolderError> for CutError {
    fn from(error: FolderError) -> CutError {
        CutError::Refused(NoCut::Folder(error))
    }
}

/// Returns the status of a run that this error ends: 3 if the folder could not be read or memory was refused, 1 if the files are
/// at fault.
pub fn status_of(error: &FolderError) -> u8
    ensures { result ≡ status_of error.now }
{
    match error {
        FolderError::Io(_) | FolderError::Busy | FolderError::Refused(_) => 3,
        FolderError::Journal { error, .. } => match error {
            JournalError::Disk(_)
            | JournalError::DiskFull
            | JournalError::GivenUp
            | JournalError::NoMemory => 3,
            _ => 1,
        },
        FolderError::Lost { .. } | FolderError::Begins { .. } => 1,
    }
}

/// Returns the status of a run in which nothing is cut: 4 if another commit would be the last one, 1 if no cut helps or none is
/// needed, 3 if the folder could not be read or memory was refused.
pub fn status_of_no_cut(why: &NoCut) -> u8
    ensures { result ≡ status_of_no_cut why.now }
{
    match why {
        NoCut::Sound | NoCut::Useless => 1,
        NoCut::OtherCommit { .. } => 4,
        NoCut::Folder(error) => status_of(error),
    }
}

/// Returns the status of a run that this error ends: that of a refused cut, or 3 if a write failed.
pub fn status_of_cut(error: &CutError) -> u8
    ensures { result ≡ status_of_cut error.now }
{
    match error {
        CutError::Refused(why) => status_of_no_cut(why),
        CutError::Unfinished(_) => 3,
    }
}

// Looks at the log of a file alone, if it has one.
fn look_at(alloc: Global, file: LogFile, bytes: &[u8], columns: u8) -> Result<(), FolderError> {
    let mut disk = disk_of(alloc, bytes)?;
    if disk.may_be_used() && header_of(alloc, &mut disk, file, columns)?.is_some() {
        look(alloc, &mut disk, file, columns)?;
    }
    Ok(())
}

/// Returns the faults of the two logs of a folder, each looked at alone, at most one of each.
///
/// # Errors
///
/// If out of memory.
pub fn own_faults(alloc: Global, folder: &FolderCopy) -> io::Result<Vec<FolderError>> {
    let columns = folder.columns(alloc);
    let mut faults = Vec::new(alloc);
    for (file, bytes) in [(LogFile::Even, &folder.even), (LogFile::Odd, &folder.odd)] {
        if let Err(fault) = look_at(alloc, file, bytes, columns) {
            faults.push(fault)?;
        }
    }
    Ok(faults)
}
