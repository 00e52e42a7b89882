//! The two files of a folder, copied into memory: what is done with the copies changes no file.

ghost use Rattle.std.specs.Prelude.{◌≡◌, IfOk};
ghost use Rattle.sqlite_disk.specs.Memory.{memory_bytes};
ghost use Rattle.mtfolder.specs.Cuts.{bytes_in, Finds};

use mt_folder::error::{FolderError, LogFile};
use mt_folder::opening::{OpenedLog, open_log};
use mt_frame::entry::LogHeader;
use mt_journal::error::JournalError;
use mt_journal::recovery::read_header;
use os::RangeLock;
use sqlite_disk::{Disk, Memory};
use std::alloc::Global;
use std::io::{ErrorKind, Read};
use std::os::fd::AsRawFd;
use std::{fs, io};

// The first of the bytes at which a server locks a file, and how many they are (those of SQLite).
const LOCK: u64 = 1 << 30;

const LOCK_BYTES: u64 = 512;

/// The bytes of the two files of a folder; none for one that is missing.
#[derive(Drop)]
pub struct FolderCopy {
    pub even: Vec<u8>,
    pub odd: Vec<u8>,
}

/// Returns a disk in memory with these bytes.
///
/// # Errors
///
/// If out of memory.
pub fn disk_of(alloc: Global, bytes: &[u8]) -> io::Result<Memory>
    ensures { IfOk result (λ disk. memory_bytes disk ≡ bytes.now) }
{
    let mut disk = Memory::new(alloc);
    if !bytes.is_empty() {
        disk.write_at(0, bytes)?;
    }
    Ok(disk)
}

/// Returns the header of the log that a file with these bytes has. `None` if it has none.
///
/// # Errors
///
/// If the bytes have something else, or out of memory.
pub fn header_in(alloc: Global, bytes: &[u8]) -> Result<Option<LogHeader>, JournalError> {
    let read = match read_header(alloc, bytes, 1) {
        Err(JournalError::OtherColumns { found }) => read_header(alloc, bytes, found),
        read => read,
    };
    match read {
        Ok((header, _)) => Ok(Some(header)),
        Err(JournalError::NoLog) => Ok(None),
        Err(error) => {
            if bytes.is_empty() {
                return Ok(None);
            }
            Err(error)
        }
    }
}

// The header, if the bytes have one that can be read.
fn header_or_none(alloc: Global, bytes: &[u8]) -> Option<LogHeader> {
    header_in(alloc, bytes).ok().flatten()
}

impl FolderCopy {
    /// Returns the bytes of a file.
    pub fn bytes(&self, file: LogFile) -> &[u8]
        ensures { result.now ≡ bytes_in file self.now }
    {
        match file {
            LogFile::Even => &self.even,
            LogFile::Odd => &self.odd,
        }
    }

    /// Returns how many columns the newer log has; 1 if there is none.
    pub fn columns(&self, alloc: Global) -> u8 {
        let even = header_or_none(alloc, &self.even);
        let odd = header_or_none(alloc, &self.odd);
        match (even, odd) {
            (Some(even), Some(odd)) if odd.generation > even.generation => odd.columns,
            (Some(even), _) => even.columns,
            (None, Some(odd)) => odd.columns,
            (None, None) => 1,
        }
    }

    /// Opens a copy of the folder, as a server opens the folder.
    ///
    /// # Errors
    ///
    /// Those of a server.
    pub fn opened(&self, alloc: Global) -> Result<OpenedLog<Memory>, FolderError>
        ensures { IfOk result (λ opened. Finds self.now.even.items self.now.odd.items opened.source opened.read) }
    {
        let even = disk_of(alloc, &self.even)?;
        let odd = disk_of(alloc, &self.odd)?;
        open_log(alloc, even, odd, self.columns(alloc))
    }
}

// Opens a file, and locks it against servers. `None` if it is missing.
fn open_locked(
    rt: &HostRuntime,
    folder: &str,
    file: LogFile,
) -> Result<Option<fs::File>, FolderError> {
    let path = format!(in rt.alloc(); "{folder}/{file}")?;
    let found = match fs::File::open(rt, path.as_str()) {
        Ok(found) => found,
        Err(error) if error.kind() == ErrorKind::NotFound => return Ok(None),
        Err(error) => return Err(FolderError::Io(error)),
    };
    if os::try_lock_range(found.as_raw_fd(), RangeLock::Shared, LOCK, LOCK_BYTES) == 0 {
        return Ok(Some(found));
    }
    let error = io::Error::from_raw_os_error(os::errno());
    if error.kind() == ErrorKind::WouldBlock {
        return Err(FolderError::Busy);
    }
    Err(FolderError::Io(error))
}

// The bytes of a file; none if it is missing.
fn bytes_of(alloc: Global, file: &mut Option<fs::File>) -> io::Result<Vec<u8>> {
    let mut bytes = Vec::new(alloc);
    if let Some(file) = file {
        file.read_to_end(&mut bytes)?;
    }
    Ok(bytes)
}

/// Returns a copy of a folder. Both files are locked until they are read, so they are of one moment.
///
/// # Errors
///
/// `Busy` if a server has the folder; `Io` if it is missing, is no folder, or can't be read.
pub fn copy_folder(rt: &HostRuntime, folder: &str) -> Result<FolderCopy, FolderError> {
    if !fs::metadata(rt, folder)?.is_dir() {
        return Err(FolderError::Io(ErrorKind::NotADirectory.into()));
    }
    let mut even = open_locked(rt, folder, LogFile::Even)?;
    let mut odd = open_locked(rt, folder, LogFile::Odd)?;
    Ok(FolderCopy {
        even: bytes_of(rt.alloc(), &mut even)?,
        odd: bytes_of(rt.alloc(), &mut odd)?,
    })
}
