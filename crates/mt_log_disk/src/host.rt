//! A log file of this machine: each method makes one call of the system, and notes it with its answer.

ghost use Rattle.std.specs.Prelude.{◌≡◌, ◌<◌, ◌≤◌, ◌^◌, [], ◌∷◌, length, is_ok, IfOk};
ghost use Rattle.sqlite_disk.specs.Events.{settled};
ghost use Rattle.sqlite_disk.specs.Refusal.{finds_no_room};
ghost use Rattle.mt_log_disk.specs.Disks.{events_of};

use crate::record::{Call, Made};
use crate::system::{checked, last_error, moved, offset_of};
use sqlite_disk::{Calls, is_no_room};
use std::io::{self, ErrorKind};
use std::os::fd::{AsRawFd, OwnedFd};

/// An open log file, and the calls that it has had. The file is closed when it is dropped.
#[derive(Drop)]
pub struct HostFile {
    file: OwnedFd,
    made: Made,
}

impl HostFile {
    // Syncs the file and its folder, and drops the kernel's copies of its pages: after a failed sync of an earlier
    // process they may differ from what the device has.
    pub(crate) fn settle(file: OwnedFd, folder: &OwnedFd) -> io::Result<HostFile>
        ensures { IfOk result (λ host. events_of host ≡ settled 0 ∷ []) }
    {
        checked(libc::fsync(file.as_raw_fd()))?;
        let advised = libc::posix_fadvise(file.as_raw_fd(), 0, 0, libc::POSIX_FADV_DONTNEED);
        if advised != 0 {
            return Err(io::Error::from_raw_os_error(advised));
        }
        checked(libc::fsync(folder.as_raw_fd()))?;
        let mut made = Made::new();
        made.note(&Call::Settled, &[]);
        Ok(HostFile { file, made })
    }
}

fn measure(file: &OwnedFd) -> io::Result<usize> {
    let end = libc::lseek(file.as_raw_fd(), 0, libc::SEEK_END);
    if end < 0 {
        Err(last_error())
    } else {
        Ok(end as usize)
    }
}

fn read(file: &OwnedFd, at: usize, buf: &mut [u8]) -> io::Result<usize>
    ensures { IfOk result (λ n. (0 < n) × (n ≤ length buf.old) × (at < 2 ^ 63)) }
{
    let offset = offset_of(at)?;
    let count = libc::pread(file.as_raw_fd(), buf, offset);
    moved(count, buf.len(), ErrorKind::UnexpectedEof)
}

fn write(file: &OwnedFd, at: usize, bytes: &[u8]) -> io::Result<usize>
    ensures { IfOk result (λ n. (0 < n) × (n ≤ length bytes.now) × (at < 2 ^ 63)) }
{
    let offset = offset_of(at)?;
    let count = libc::pwrite(file.as_raw_fd(), bytes, offset);
    moved(count, bytes.len(), ErrorKind::WriteZero)
}

fn cut(file: &OwnedFd, len: usize) -> io::Result<()> {
    let len = offset_of(len)?;
    checked(libc::ftruncate(file.as_raw_fd(), len))
}

// Returns whether the call succeeded, and whether it found no room.
fn told(answer: &io::Result<()>) -> (bool, bool)
    ensures { (result.0 ≡ is_ok answer.now) × (result.1 ≡ finds_no_room answer.now) }
{
    match answer {
        Ok(()) => (true, false),
        Err(error) => (false, is_no_room(error)),
    }
}

impl Calls for HostFile {
    ghost history = { λ host. events_of host };

    fn len(&mut self) -> io::Result<usize> {
        let answer = measure(&self.file);
        let (is_ok, len) = match answer {
            Ok(len) => (true, len),
            Err(_) => (false, 0),
        };
        self.made.note(&Call::Measured { is_ok, len }, &[]);
        answer
    }

    fn read_some(&mut self, at: usize, buf: &mut [u8]) -> io::Result<usize> {
        let wanted = buf.len();
        let answer = read(&self.file, at, buf);
        let (is_ok, len) = match answer {
            Ok(len) => (true, len),
            Err(_) => (false, 0),
        };
        self.made
            .note(&Call::Read { at, wanted, is_ok }, &buf[..len]);
        answer
    }

    fn read_under(
        &mut self,
        key: u64,
        digest: u64,
        at: usize,
        buf: &mut [u8],
    ) -> io::Result<usize> {
        let wanted = buf.len();
        let answer = read(&self.file, at, buf);
        let (is_ok, len) = match answer {
            Ok(len) => (true, len),
            Err(_) => (false, 0),
        };
        let call = Call::Tested {
            key,
            digest,
            at,
            wanted,
            is_ok,
        };
        self.made.note(&call, &buf[..len]);
        answer
    }

    fn write_some(&mut self, at: usize, bytes: &[u8]) -> io::Result<usize> {
        let answer = write(&self.file, at, bytes);
        let (is_ok, taken) = match answer {
            Ok(taken) => (true, taken),
            Err(error) => (false, usize::from(is_no_room(&error))),
        };
        self.made.note(&Call::Written { at, is_ok, taken }, bytes);
        answer
    }

    fn resize(&mut self, len: usize) -> io::Result<()> {
        let answer = cut(&self.file, len);
        let (is_ok, no_room) = told(&answer);
        self.made.note(
            &Call::Cut {
                len,
                is_ok,
                no_room,
            },
            &[],
        );
        answer
    }

    fn sync(&mut self) -> io::Result<()> {
        let answer = checked(libc::fdatasync(self.file.as_raw_fd()));
        let (is_ok, no_room) = told(&answer);
        self.made.note(&Call::Flushed { is_ok, no_room }, &[]);
        answer
    }
}
