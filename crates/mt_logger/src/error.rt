//! Why commits or rows were not written to a log.

use mt_journal::error::JournalError;
use mt_types::refusal::Refusal;
use thiserror::Error;

/// Why commits or rows were not written to a log.
#[derive(Debug, Drop, Error)]
pub enum LoggerError {
    /// The index refused to say which commits or rows come next: out of memory, or it has left the commits out of its own log.
    #[error("the next commits could not be read: {0}")]
    Fed(Refusal),
    /// A call of the log failed.
    #[error("{0}")]
    Journal(JournalError),
}
