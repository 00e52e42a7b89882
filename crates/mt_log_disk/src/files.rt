//! The opening of the two log files of a data folder: they are made, locked and synced.

ghost use Rattle.std.specs.Prelude.{IsTrue, IfOk};
ghost use Rattle.mt_log_disk.specs.Disks.{log_is_usable, IsFresh};

use crate::host::HostFile;
use crate::path::join;
use crate::system::{checked, last_error, owned};
use libc::{O_CREAT, O_EXCL, O_RDWR, PATH_MAX};
use os::RangeLock;
use sqlite_disk::{Modelled, Unknown};
use std::io::{self, ErrorKind};
use std::marker::Send;
use std::os::fd::{AsRawFd, OwnedFd};
use thiserror::Error;

/// A log file of a data folder.
pub type LogDisk = Modelled<HostFile, Unknown>;

/// The two log files of a data folder. The folder is locked until both are dropped.
#[derive(Drop)]
pub struct LogDisks {
    /// `even-wal`.
    pub even: LogDisk,
    /// `odd-wal`.
    pub odd: LogDisk,
}

/// Why the log files of a folder can't be opened.
#[derive(Debug, Error, Drop)]
pub enum OpenError {
    /// The folder or a file of it can't be made, opened, locked or synced.
    #[error("the data folder: {0}")]
    Io(#[from] io::Error),
    /// Another process or another handle has the folder open.
    #[error("the data folder is in use")]
    Busy,
}

// Where the lock of a file begins, and how many bytes it has. A server that has the folder open holds the same lock.
const LOCK: u64 = 1 << 30;

const LOCK_BYTES: u64 = 512;

/// Opens the log files of the data folder at `folder`, a path without a NUL.
///
/// Makes the folder and its files if they are missing. The disks that it returns are locked, and the device has what
/// their files have. This takes about twenty calls of the system, of which up to five wait for the device, and no heap
/// memory.
///
/// # Errors
///
/// `Busy` if another process or another handle has the folder open. `Io` if:
///
/// - the folder or a file of it can't be made, opened, locked or synced;
/// - `folder` is empty, has a NUL, or is so long that the path of a file would have more than 4,095 bytes;
/// - `even-wal` or `odd-wal` is a link (`Unsupported`), a directory or a pipe.
pub fn open(folder: &[u8]) -> Result<LogDisks, OpenError>
    ensures even { IfOk result (λ disks. IsTrue (log_is_usable disks.even)) }
    ensures odd { IfOk result (λ disks. IsTrue (log_is_usable disks.odd)) }
    ensures fresh { IfOk result (λ disks. IsFresh disks.even × IsFresh disks.odd) }
{
    make_folder(folder)?;
    let directory = open_directory(folder, b".")?;
    let even = open_locked(folder, b"even-wal")?;
    let odd = open_locked(folder, b"odd-wal")?;
    let even = HostFile::settle(even, &directory)?;
    let odd = HostFile::settle(odd, &directory)?;
    Ok(LogDisks {
        even: Modelled::new(even, true, 0),
        odd: Modelled::new(odd, true, 0),
    })
}

fn is_send<T: Send>(_value: &T) {}

// The disks may be moved to another thread. Never called: its proof is that of `Send`.
fn may_move(disks: &LogDisks) {
    is_send(disks)
}

// Makes the folder if it is missing, so that it survives a crash.
fn make_folder(folder: &[u8]) -> io::Result<()> {
    match checked(os::mkdir(folder)) {
        Ok(()) => {
            let parent = open_directory(folder, b"..")?;
            checked(libc::fsync(parent.as_raw_fd()))
        }
        Err(error) if error.kind() == ErrorKind::AlreadyExists => Ok(()),
        Err(error) => Err(error),
    }
}

// Opens the directory that `name` is in the folder.
fn open_directory(folder: &[u8], name: &[u8]) -> io::Result<OwnedFd> {
    let mut room = [0; PATH_MAX];
    let path = join(folder, name, &mut room)?;
    owned(os::open_dir_at(libc::AT_FDCWD, path))
}

// Opens a file of the folder, or makes it, and locks it.
fn open_locked(folder: &[u8], name: &[u8]) -> Result<OwnedFd, OpenError> {
    let mut room = [0; PATH_MAX];
    let path = join(folder, name, &mut room)?;
    let file = above_streams(open_or_make(path)?)?;
    lock(&file)?;
    Ok(file)
}

// Opens the file, or makes it. A link is not followed.
fn open_or_make(path: &[u8]) -> io::Result<OwnedFd> {
    match owned(os::open_with(path, O_RDWR | O_CREAT | O_EXCL, 0o600)) {
        Err(error) if error.kind() == ErrorKind::AlreadyExists => {
            if is_link(path)? {
                Err(ErrorKind::Unsupported.into())
            } else {
                owned(os::open_with(path, O_RDWR, 0))
            }
        }
        made => made,
    }
}

// Returns whether the path ends in a link.
fn is_link(path: &[u8]) -> io::Result<bool> {
    let mut target = [0; 1];
    if os::readlink(path, &mut target) >= 0 {
        return Ok(true);
    }
    let error = last_error();
    if error.kind() == ErrorKind::InvalidInput {
        Ok(false)
    } else {
        Err(error)
    }
}

// Moves a descriptor of 0 to 2 above them: what is written to a standard stream that was closed must not land in a log.
fn above_streams(file: OwnedFd) -> io::Result<OwnedFd> {
    if file.as_raw_fd() > 2 {
        Ok(file)
    } else {
        owned(os::duplicate(file.as_raw_fd()))
    }
}

// Takes the lock of a file that is open. It is given up when the file is closed.
fn lock(file: &OwnedFd) -> Result<(), OpenError> {
    if os::try_lock_range(file.as_raw_fd(), RangeLock::Exclusive, LOCK, LOCK_BYTES) == 0 {
        return Ok(());
    }
    let error = last_error();
    if error.kind() == ErrorKind::WouldBlock {
        Err(OpenError::Busy)
    } else {
        Err(OpenError::Io(error))
    }
}
