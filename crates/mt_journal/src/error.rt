//! Why a log was not opened, and why nothing was written.

ghost use Rattle.std.specs.Prelude.{◌≡◌};

use mt_frame::fault::{EncodeError, FrameFault};
use std::alloc::{AllocError, AllocFailed};
use std::io;
use thiserror::Error;

/// What is wrong at a place of a log. A crash never causes it.
#[derive(Clone, Copy, Debug, PartialEq, Eq, Error)]
pub enum Damage {
    /// The bytes are no frame.
    #[error("{0}")]
    Frame(FrameFault),
    /// The numbers of the commits do not follow those before, or a second header is there.
    #[error("a frame does not follow the one before it")]
    Order,
}

/// Why a log was not opened, and why nothing was written.
#[derive(Debug, Drop, Error)]
pub enum JournalError {
    /// A zero ends the file before its header: no log has been made there, or its making was cut short.
    #[error("no log has been made in the file")]
    NoLog,
    /// The file does not begin with the header of a log.
    #[error("the file is not a log")]
    NotALog,
    /// The log has a format that this code does not read.
    #[error("the log has an unknown format")]
    UnknownFormat,
    /// The log is of an index with another number of columns.
    #[error("the log is of an index with {found} columns")]
    OtherColumns { found: u8 },
    /// The log is damaged at this place of the file.
    #[error("the log is damaged at byte {place}: {damage}")]
    Damaged { place: usize, damage: Damage },
    /// The disk has no room for zeros ahead. The journal is as before, and the call can be made again.
    #[error("the disk is full")]
    DiskFull,
    /// The disk failed.
    #[error("the disk failed: {0}")]
    Disk(io::Error),
    /// A call of the disk failed before. Nothing more is asked of the file.
    #[error("the log was given up after a failure of the disk")]
    GivenUp,
    /// There are too many records for one frame, or the numbers or places are spent. Nothing was written.
    #[error("a group of commits is too long")]
    TooLong,
    /// A growth was refused. Nothing was written.
    #[error("out of memory")]
    NoMemory,
}

impl From<AllocError> for JournalError {
    ghost use Rattle.mt_journal.specs.declared.error.JournalError.TheVariants.{NoMemory};

    ghost from_gives = { λ _ error. error ≡ NoMemory };

    fn from(_: AllocError) -> JournalError {
        JournalError::NoMemory
    }
}

impl<T: Drop> From<AllocFailed<T>> for JournalError {
    ghost use Rattle.mt_journal.specs.declared.error.JournalError.TheVariants.{NoMemory};

    ghost from_gives = { λ _ error. error ≡ NoMemory };

    fn from(_: AllocFailed<T>) -> JournalError {
        JournalError::NoMemory
    }
}

impl From<io::Error> for JournalError {
    ghost use Rattle.mt_journal.specs.declared.error.JournalError.TheVariants.{Disk};

    ghost from_gives = { λ error made. made ≡ Disk error };

    fn from(error: io::Error) -> JournalError {
        JournalError::Disk(error)
    }
}

impl From<EncodeError> for JournalError {
    ghost use Rattle.mt_journal.specs.Causes.{of_encoding};

    ghost from_gives = { λ error made. made ≡ of_encoding error };

    fn from(error: EncodeError) -> JournalError {
        match error {
            EncodeError::TooLong => JournalError::TooLong,
            EncodeError::NoMemory => JournalError::NoMemory,
        }
    }
}
