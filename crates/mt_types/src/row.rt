//! Rows of columns, and what changes them.

ghost use Rattle.std.specs.Prelude.{◌≡◌, [], IfOk};

pub use crate::columns::Columns;
use crate::copying::TryCopy;
use crate::items::Items;
use crate::key::Key;
use crate::refusal::NoMemory;
use bytes::Bytes;
use std::alloc::Global;

/// The bytes of one column: in a row at most `MAX_COLUMN_BYTES`.
pub type Column = Bytes;

/// The numbers of the columns that are asked for, in the order of the answer. An empty list asks for all.
pub type ColumnNumbers = Items<u8>;

/// New bytes for columns, each with the number of its column.
pub type Sets = Items<(u8, Column)>;

/// Rows, each with its key.
pub type Pairs = Items<(Key, Row)>;

/// The row of a key.
#[derive(Debug, PartialEq, Eq, Drop)]
pub struct Row {
    /// The number of the row's last commit.
    pub version: u64,
    /// The columns: one for each column of the index, or those that were asked for.
    pub columns: Columns,
}

impl Row {
    /// Returns the row of no commit, without columns. Allocates nothing.
    pub fn none() -> Row
        ensures { result ≡ record { version = 0; columns = [] } }
    {
        Row {
            version: 0,
            columns: Columns::none(),
        }
    }
}

/// A change of the rows.
#[derive(Debug, PartialEq, Eq, Drop)]
pub enum Change {
    /// The named columns get new bytes. The others keep theirs, or are empty if the row is new.
    Put(Key, Sets),
    /// The key has no row after this.
    Drop(Key),
}

/// What one commit did to the row of one key.
#[derive(Debug, PartialEq, Eq, Drop)]
pub struct Delta {
    /// The number of the commit. Commits are numbered from 1.
    pub number: u64,
    /// The key whose row was changed.
    pub key: Key,
    /// The row before the commit, if there was one.
    pub before: Option<Row>,
    /// The row after the commit, if there is one.
    pub after: Option<Row>,
}

impl TryCopy for Row {
    /// Shares the bytes. Allocates nothing.
    fn copy(&self, alloc: Global) -> Result<Row, NoMemory> {
        Ok(Row {
            version: self.version,
            columns: self.columns.copy(alloc)?,
        })
    }
}

impl TryCopy for Change {
    /// Shares the bytes. O(n) in the columns that it names, with at most one allocation for them.
    fn copy(&self, alloc: Global) -> Result<Change, NoMemory> {
        match self {
            Change::Put(key, sets) => Ok(Change::Put(key.copy(alloc)?, sets.copy(alloc)?)),
            Change::Drop(key) => Ok(Change::Drop(key.copy(alloc)?)),
        }
    }
}

impl TryCopy for Delta {
    /// Shares the bytes.
    fn copy(&self, alloc: Global) -> Result<Delta, NoMemory> {
        Ok(Delta {
            number: self.number,
            key: self.key.copy(alloc)?,
            before: self.before.copy(alloc)?,
            after: self.after.copy(alloc)?,
        })
    }
}
