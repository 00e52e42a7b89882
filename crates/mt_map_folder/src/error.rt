//! Why a map was not opened over a folder, or its commits were not written there.

use mt_folder::error::FolderError;
use mt_journal::error::JournalError;
use mt_load::error::LoadError;
use mt_types::refusal::{NoMemory, Refusal};
use thiserror::Error;

/// Why a map was not opened over a folder.
#[derive(Debug, Drop, Error)]
pub enum OpenError {
    /// The options break a limit.
    #[error("{0}")]
    Refused(Refusal),
    /// The logs of the folder were not opened.
    #[error("{0}")]
    Folder(#[from] FolderError),
    /// No map has the rows of the folder, or out of memory.
    #[error("{0}")]
    Load(#[from] LoadError),
}

/// Why commits or rows of a map were not written to its log.
#[derive(Debug, Drop, Error)]
pub enum LogError {
    /// The map refused to say which commits or rows come next: out of memory, or it has left the commits out.
    #[error("the next commits could not be read: {0}")]
    Refused(#[from] Refusal),
    /// A call of the log failed.
    #[error("{0}")]
    Journal(#[from] JournalError),
}

impl From<NoMemory> for LogError {
    fn from(_: NoMemory) -> LogError {
        LogError::Refused(Refusal::NoMemory)
    }
}
