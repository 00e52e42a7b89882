//! What a batch is: conditions on rows, and changes; and what it came to.

ghost use Rattle.std.specs.Prelude.{◌≡◌};
ghost use Rattle.mt_asked.specs.Borrowed.{request_of};
ghost use Rattle.mt_batch.specs.Changes.{key_of, request_of_change};

use mt_asked::asked::Asked;
use mt_asked::borrowed::Set;
use mt_types::refusal::Refusal;
use thiserror::Error;

/// The most conditions of a batch, and the most changes.
pub const MAX_BATCH: usize = 1000;

/// A condition of a batch: the row of `key` has this version, or, for version 0, `key` has no row.
#[repr(C)]
#[derive(Clone, Copy)]
pub struct Condition<'a> {
    pub key: &'a [u8],
    pub version: u64,
}

impl<'a> Condition<'a> {
    /// Returns the condition that the row of `key` has this version, or, for version 0, that `key` has no row.
    pub fn new(key: &'a [u8], version: u64) -> Condition<'a>
        ensures { (result.key.now ≡ key.now) × (result.version ≡ version) }
    {
        Condition { key, version }
    }
}

/// A change of a batch.
#[derive(Clone, Copy)]
pub enum Change<'a> {
    /// New bytes for columns of the row of `key`, as a put makes them.
    Put { key: &'a [u8], sets: &'a [Set<'a>] },
    /// The row of `key` is removed, if there is one.
    Remove { key: &'a [u8] },
}

impl<'a> Change<'a> {
    /// Returns the key whose row is to change.
    pub fn key(&self) -> &'a [u8]
        ensures { result.now ≡ key_of self.now }
    {
        match self {
            Change::Put { key, .. } => key,
            Change::Remove { key } => key,
        }
    }

    // The change as a call of its own.
    pub(crate) fn asked(&self) -> Asked<'a>
        ensures { request_of result ≡ request_of_change self.now }
    {
        match self {
            Change::Put { key, sets } => Asked::Put { key, sets },
            Change::Remove { key } => Asked::Remove { key },
        }
    }
}

/// What a batch has made.
#[derive(Debug, PartialEq, Eq, Drop)]
pub struct Made {
    /// The number of commits before it.
    pub from: u64,
    /// The number of commits after it.
    pub to: u64,
    /// For each change the number of its commit, or 0 for a remove that found no row.
    pub numbers: Vec<u64>,
}

/// What a batch came to.
#[derive(Debug, PartialEq, Eq, Drop)]
pub enum Batched {
    /// All conditions held, and all changes are made.
    Made(Made),
    /// The condition at this place, the first that didn't hold, found this version: 0 means no row. Nothing has changed.
    Unmet { place: usize, found: u64 },
}

/// Why a batch was refused. Nothing has changed.
#[derive(Clone, Copy, Debug, PartialEq, Eq, Error)]
pub enum BatchError {
    /// It has more than `MAX_BATCH` conditions or changes, or changes a key twice.
    #[error("a batch has more than 1,000 conditions or changes, or changes a key twice")]
    BadBatch,
    /// A limit that it breaks, or what a change of it was refused for.
    #[error("{0}")]
    Refused(Refusal),
}

impl From<Refusal> for BatchError {
    fn from(refusal: Refusal) -> BatchError
        ensures { result ≡ BatchError.Refused refusal }
    {
        BatchError::Refused(refusal)
    }
}
