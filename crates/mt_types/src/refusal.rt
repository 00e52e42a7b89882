//! Why the index refuses: the causes, each with its number and its message.

ghost use Rattle.std.specs.Prelude.{◌≡◌};
ghost use Rattle.mt_types.specs.RefusalNumbers.{refusal_number, refusal_detail, refusal_of};

use std::alloc::{AllocError, AllocFailed};
use thiserror::Error;

/// An allocation was refused.
#[derive(Clone, Copy, Debug, PartialEq, Eq, Error)]
#[error("out of memory")]
pub struct NoMemory;

/// Why an event, a call or an opening was refused. An event that is refused changes no rows, commits or views.
#[derive(Clone, Copy, Debug, PartialEq, Eq, Error)]
pub enum Refusal {
    /// An allocation was refused.
    #[error("out of memory")]
    NoMemory,
    /// A key has more than `MAX_KEY_BYTES` bytes.
    #[error("a key has more than 1,024 bytes")]
    KeyTooLong,
    /// A number of a column is not less than the number of columns, or is named twice; or an index was to be opened
    /// with no columns, or with more than `MAX_COLUMNS`.
    #[error("a column doesn't exist or is named twice; an index has 1 to 16 columns")]
    BadColumn,
    /// A column was to get, or to be compared with, more than `MAX_COLUMN_BYTES` bytes.
    #[error("a column has more than 64 bytes")]
    ColumnTooLong,
    /// A limit is out of its bounds.
    #[error("a limit is not from 1 to 1000, or an option is out of its bounds")]
    BadLimit,
    /// Each number of a node is occupied.
    #[error("too few of the 4,294,967,295 nodes are free")]
    ArenaFull,
    /// The log of commits is full. It is held from this number of commits on.
    #[error("the log is full: views or open calls hold it from commit {0} on")]
    FeedFull(u64),
    /// `MAX_OPEN_CALLS` calls are open.
    #[error("too many calls are open")]
    TooManyCalls,
    /// No open call has this number.
    #[error("no open call has this number")]
    NoSuchCall,
    /// `MAX_VIEWS` views exist, those that are being built included.
    #[error("there are already 64 views")]
    TooManyViews,
    /// No view has this number.
    #[error("no view has this number")]
    NoSuchView,
    /// The view is at this number of commits, which is less than what was asked for; or the log has only the deltas
    /// after this number, and an earlier one was asked for.
    #[error("the view is at commit {0}, or the log begins after it")]
    Behind(u64),
    /// The end of a range is not after its start.
    #[error("the end of a range is not after its start")]
    BadRange,
    /// A number that has to rise is at its greatest value.
    #[error("a counter is at its greatest value")]
    Spent,
    /// The pass is not one of this index, or not that of the call.
    #[error("the pass is not of this index, or the call is of another pass")]
    WrongPass,
    /// The row has this version, and not the one that was asked for. 0 means that the key has no row.
    #[error("the row has version {0}, not the one asked for; 0 means no row")]
    OtherVersion(u64),
}

impl Refusal {
    /// Returns the refusal of this number, with its detail, or `None` if no refusal has them. The detail of a refusal
    /// that has none is 0.
    #[tactic(auto, unfolding(crate::specs::RefusalNumbers::refusal_of))]
    pub fn of(number: u8, detail: u64) -> Option<Refusal>
        ensures { result ≡ refusal_of number detail }
    {
        let refusal = match number {
            1 => Refusal::NoMemory,
            2 => Refusal::KeyTooLong,
            3 => Refusal::BadColumn,
            4 => Refusal::ColumnTooLong,
            5 => Refusal::BadLimit,
            6 => Refusal::ArenaFull,
            7 => return Some(Refusal::FeedFull(detail)),
            8 => Refusal::TooManyCalls,
            9 => Refusal::NoSuchCall,
            10 => Refusal::TooManyViews,
            11 => Refusal::NoSuchView,
            12 => return Some(Refusal::Behind(detail)),
            13 => Refusal::BadRange,
            14 => Refusal::Spent,
            15 => Refusal::WrongPass,
            16 => return Some(Refusal::OtherVersion(detail)),
            _ => return None,
        };
        if detail == 0 { Some(refusal) } else { None }
    }

    /// Returns the number of the cause, as texts and frames write it.
    pub fn number(&self) -> u8
        ensures { result ≡ refusal_number self.now }
    {
        match self {
            Refusal::NoMemory => 1,
            Refusal::KeyTooLong => 2,
            Refusal::BadColumn => 3,
            Refusal::ColumnTooLong => 4,
            Refusal::BadLimit => 5,
            Refusal::ArenaFull => 6,
            Refusal::FeedFull(_) => 7,
            Refusal::TooManyCalls => 8,
            Refusal::NoSuchCall => 9,
            Refusal::TooManyViews => 10,
            Refusal::NoSuchView => 11,
            Refusal::Behind(_) => 12,
            Refusal::BadRange => 13,
            Refusal::Spent => 14,
            Refusal::WrongPass => 15,
            Refusal::OtherVersion(_) => 16,
        }
    }

    /// Returns the number of a commit that goes with the cause, if one does: from which the log is held or has its
    /// deltas, at which the view is, or which version was found.
    pub fn detail(&self) -> Option<u64>
        ensures { result ≡ refusal_detail self.now }
    {
        match self {
            Refusal::FeedFull(at) | Refusal::Behind(at) | Refusal::OtherVersion(at) => Some(*at),
            _ => None,
        }
    }
}

impl From<NoMemory> for Refusal {
    ghost use Rattle.mt_types.specs.declared.refusal.Refusal.TheVariants.{NoMemory};

    ghost from_gives = { λ _ refusal. refusal ≡ NoMemory };

    fn from(_: NoMemory) -> Refusal {
        Refusal::NoMemory
    }
}

impl From<AllocError> for NoMemory {
    fn from(_: AllocError) -> NoMemory {
        NoMemory
    }
}

impl<T: Drop> From<AllocFailed<T>> for NoMemory {
    fn from(_: AllocFailed<T>) -> NoMemory {
        NoMemory
    }
}

impl From<AllocError> for Refusal {
    ghost use Rattle.mt_types.specs.declared.refusal.Refusal.TheVariants.{NoMemory};

    ghost from_gives = { λ _ refusal. refusal ≡ NoMemory };

    fn from(_: AllocError) -> Refusal {
        Refusal::NoMemory
    }
}

impl<T: Drop> From<AllocFailed<T>> for Refusal {
    ghost use Rattle.mt_types.specs.declared.refusal.Refusal.TheVariants.{NoMemory};

    ghost from_gives = { λ _ refusal. refusal ≡ NoMemory };

    fn from(_: AllocFailed<T>) -> Refusal {
        Refusal::NoMemory
    }
}
