//! Why a call of a store failed.

use mt_journal::error::JournalError;
use mt_types::refusal::Refusal;
use thiserror::Error;

/// Why a call of a store failed.
#[derive(Debug, Drop, Error)]
pub enum StoreError {
    /// The index refused the call. Nothing has changed.
    #[error("{0}")]
    Refused(Refusal),
    /// An earlier commit is not in the log yet. Nothing has changed. `Store::write` writes it.
    #[error("an earlier commit is not in the log")]
    Behind,
    /// The call has made this commit in memory, and it could not be written to the log. No other change is made before it
    /// is there.
    #[error("commit {commit} is not in the log: {error}")]
    NotWritten { commit: u64, error: JournalError },
    /// A call of the log failed. Nothing has changed in memory.
    #[error("{0}")]
    Journal(JournalError),
    /// The log's commit of this number can't be made again: it is a remove of a key that has no row.
    #[error("commit {commit} of the log can't be made again")]
    Damaged { commit: u64 },
}
