//! Why rows were not loaded.

use mt_types::refusal::Refusal;
use thiserror::Error;

/// Why rows were not loaded.
#[derive(Debug, Drop, Error)]
pub enum LoadError {
    /// The options or a row break a limit of the index, or memory was refused.
    #[error("{0}")]
    Refused(Refusal),
    /// No index has such rows after this number of commits.
    #[error("no index has these rows: {0}")]
    Impossible(Flaw),
}

/// What is wrong with rows that no index can have.
#[derive(Clone, Copy, Debug, PartialEq, Eq, Drop, Error)]
pub enum Flaw {
    /// The version is 0 or greater than the number of commits, or two rows have it.
    #[error("a row has the version {0}, which is of no commit or of another row")]
    Version(u64),
    /// The row of this version has more or fewer columns than the index.
    #[error("the row of version {0} has another number of columns")]
    Columns(u64),
    /// Each commit but the last left a row, and the last left none.
    #[error("the last commit, {0}, removed a row that no commit can have put")]
    Last(u64),
}
