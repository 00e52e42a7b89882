//! Why the rows of a folder can't be read.

use mt_journal::error::JournalError;
use mt_types::refusal::Refusal;
use std::alloc::AllocError;
use std::io::ErrorKind;
use std::{fmt, io};
use thiserror::Error;

/// A file of a folder. The logs of generations 0, 2, 4 and so on are in the first, the others in the second.
#[derive(Clone, Copy, Debug, PartialEq, Eq)]
pub enum LogFile {
    /// `even-wal`.
    Even,
    /// `odd-wal`.
    Odd,
}

impl LogFile {
    /// Returns the other file of the folder.
    pub fn other(self) -> LogFile {
        match self {
            LogFile::Even => LogFile::Odd,
            LogFile::Odd => LogFile::Even,
        }
    }

    /// Returns the name of the file without `-wal`, which is the name of the file with its lock.
    pub fn stem(self) -> &'static str {
        match self {
            LogFile::Even => "even",
            LogFile::Odd => "odd",
        }
    }
}

impl fmt::Display for LogFile {
    fn fmt<W: fmt::Write>(&self, f: &mut fmt::Formatter<W>) -> fmt::Result {
        write!(f, "{}-wal", self.stem())
    }
}

/// Why the rows of a folder can't be read.
#[derive(Debug, Error, Drop)]
pub enum FolderError {
    /// The folder or its files can't be made, opened or read.
    #[error("the data folder: {0}")]
    Io(io::Error),
    /// Another process, or another handle of this one, has it.
    #[error("the data folder is already in use")]
    Busy,
    /// A log was not opened.
    #[error("the data folder: {file}: {error}")]
    Journal {
        file: LogFile,
        error: JournalError,
    },
    /// Commits that were durable are missing.
    #[error("the data folder: {file}: commits after {commit} are missing that were durable: the frame at byte {place} says so")]
    Lost {
        file: LogFile,
        commit: u64,
        place: usize,
    },
    /// The log begins after this commit, and has no rows of before.
    #[error("the data folder: {file}: the log begins after commit {commit}, and what came before is missing")]
    Begins {
        file: LogFile,
        commit: u64,
    },
    /// Out of memory, or the rows can't be made.
    #[error("the data folder: {0}")]
    Refused(#[from] Refusal),
}

impl From<io::Error> for FolderError {
    ghost use Rattle.std.specs.Prelude.{◌≡◌, ◌⊎◌};
    ghost use Rattle.mt_types.specs.declared.refusal.Refusal.TheVariants.{NoMemory};
    ghost use Rattle.mt_folder.specs.declared.error.FolderError.TheVariants.{Io, Refused};

    ghost from_gives = { λ error made. (made ≡ Io error) ⊎ (made ≡ Refused NoMemory) };

    fn from(error: io::Error) -> FolderError {
        if error.kind() == ErrorKind::OutOfMemory {
            FolderError::Refused(Refusal::NoMemory)
        } else {
            FolderError::Io(error)
        }
    }
}

impl From<AllocError> for FolderError {
    ghost use Rattle.std.specs.Prelude.{◌≡◌};
    ghost use Rattle.mt_types.specs.declared.refusal.Refusal.TheVariants.{NoMemory};
    ghost use Rattle.mt_folder.specs.declared.error.FolderError.TheVariants.{Refused};

    ghost from_gives = { λ _ made. made ≡ Refused NoMemory };

    fn from(_: AllocError) -> FolderError {
        FolderError::Refused(Refusal::NoMemory)
    }
}
