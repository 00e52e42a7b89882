//! What a call of the system returned, as a `Result`.

ghost use Rattle.std.specs.Prelude.{◌<◌, ◌≤◌, ◌^◌, IfOk};
ghost use Rattle.libc.specs.Io.{Moved};

use os::FromRawFd;
use std::io::{self, ErrorKind};
use std::os::fd::OwnedFd;

// Returns the error of the call that has just failed.
pub(crate) fn last_error() -> io::Error {
    io::Error::from_raw_os_error(os::errno())
}

// Turns -1 into the error of the call.
pub(crate) fn checked(status: i32) -> io::Result<()> {
    if status < 0 {
        Err(last_error())
    } else {
        Ok(())
    }
}

// Turns -1 into the error of the call, and 0 into `none`. At most `most` bytes were to be moved.
pub(crate) fn moved(count: isize, most: usize, none: ErrorKind) -> io::Result<usize>
    requires { Moved most count }
    ensures { IfOk result (λ n. (0 < n) × (n ≤ most)) }
{
    if count < 0 {
        Err(last_error())
    } else if count == 0 {
        Err(none.into())
    } else {
        Ok(count as usize)
    }
}

// Returns the offset or length as the system takes it, which is below 2^63.
pub(crate) fn offset_of(at: usize) -> io::Result<i64>
    ensures { IfOk result (λ _. at < 2 ^ 63) }
{
    match i64::try_from(at) {
        Ok(offset) => Ok(offset),
        Err(_) => Err(ErrorKind::InvalidInput.into()),
    }
}

// Takes the descriptor that a call has just opened. It is closed when it is dropped.
pub(crate) fn owned(descriptor: i32) -> io::Result<OwnedFd> {
    if descriptor < 0 {
        Err(last_error())
    } else {
        Ok(unsafe { OwnedFd::from_raw_fd(descriptor) })
    }
}
