//! What a frame of a log says, as a value.

use mt_types::items::Items;
use mt_types::key::Key;
use mt_types::row::{Columns, Pairs};

/// What a frame of a log says.
#[derive(Debug, PartialEq, Eq, Drop)]
pub enum Entry {
    /// The first frame of a log.
    Header(LogHeader),
    /// Commits, in the order of their numbers.
    Commits(Commits),
    /// Rows of a checkpoint, as they were after a number of commits.
    Rows(Part),
    /// The checkpoint of this log is complete: the parts before this have all rows, this many.
    Sealed(u64),
    /// The log was closed after this number of commits: nothing was in progress.
    Closed(u64),
}

/// Which log this is.
#[derive(Clone, Copy, Debug, PartialEq, Eq)]
pub struct LogHeader {
    /// How many columns each row has.
    pub columns: u8,
    /// The generation of the files that the log belongs to.
    pub generation: u64,
    /// The number of the last commit before those of this log.
    pub base: u64,
    /// The number of the run that began the log.
    pub run: u64,
}

/// Commits whose numbers follow one another.
#[derive(Debug, PartialEq, Eq, Drop)]
pub struct Commits {
    /// The number of the first of them.
    pub first: u64,
    /// The number of the last commit that was durable when this was written.
    pub durable: u64,
    /// What each commit left.
    pub records: Items<Record>,
}

/// Some of the rows of an index, in the order of their keys: all from the end of the part before, or from the first key
/// on, to the last of these.
#[derive(Debug, PartialEq, Eq, Drop)]
pub struct Part {
    /// After how many commits the index had them.
    pub at: u64,
    /// The rows with their versions.
    pub rows: Pairs,
}

/// What one commit left of one key.
#[derive(Debug, PartialEq, Eq, Drop)]
pub enum Record {
    /// The key has a row of these columns, whose version is the number of the commit.
    Row(Key, Columns),
    /// The key has no row.
    Removed(Key),
}
