//! The folder on a disk of this machine: its files are made, locked and opened.

use crate::error::{FolderError, LogFile};
use crate::opening::{OpenedLog, open_sides};
use crate::side::Side;
use sqlite_std_file::{FileFrom, OpenError, Unknown};
use std::alloc::AllocError;
use std::io::ErrorKind;
use std::{fs, io};

/// A file of a folder.
pub type FileDisk = FileFrom<Unknown>;

// Makes the folder if it is missing, so that it survives a crash.
fn make_folder(rt: &HostRuntime, folder: &str) -> io::Result<()> {
    match fs::create_dir(rt, folder) {
        Ok(()) => {
            let parent = format!(in rt.alloc(); "{folder}/..")?;
            fs::File::open(rt, parent.as_str())?.sync_all()
        }
        Err(error) if error.kind() == ErrorKind::AlreadyExists => Ok(()),
        Err(error) => Err(error),
    }
}

/// Opens a file of a folder, locked. Makes it if it is missing.
///
/// # Errors
///
/// `Busy` if another process has it; `Io` if it can't be made or opened.
pub fn open_file(rt: &HostRuntime, folder: &str, file: LogFile) -> Result<FileDisk, FolderError> {
    let path = format!(in rt.alloc(); "{folder}/{}", file.stem())?;
    match sqlite_std_file::open(rt, path.as_str(), Unknown) {
        Ok(files) => Ok(files.log),
        Err(OpenError::Busy) => Err(FolderError::Busy),
        Err(OpenError::OutOfMemory) => Err(FolderError::from(AllocError)),
        Err(OpenError::Io(error)) => Err(FolderError::Io(error)),
        Err(OpenError::HotJournal) => Err(FolderError::Io(ErrorKind::AlreadyExists.into())),
    }
}

/// Opens the current log of a folder for an index with `columns` columns. Makes the folder and the log if there is none.
///
/// # Errors
///
/// Those of `open_log`; and if the folder can't be made or its files not be opened, or another process has it.
pub fn open_folder(
    rt: &HostRuntime,
    folder: &str,
    columns: u8,
) -> Result<OpenedLog<FileDisk>, FolderError> {
    let alloc = rt.alloc();
    make_folder(rt, folder)?;
    let disk = open_file(rt, folder, LogFile::Even)?;
    let even = Side::new(alloc, LogFile::Even, disk, columns)?;
    let disk = open_file(rt, folder, LogFile::Odd)?;
    let odd = Side::new(alloc, LogFile::Odd, disk, columns)?;
    open_sides(alloc, even, odd, columns)
}
