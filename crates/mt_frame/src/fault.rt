//! Why an entry was not written, and why bytes are no frame.

ghost use Rattle.std.specs.Prelude.{◌≡◌};

use bytes::TryGetError;
use mt_types::refusal::NoMemory as NoRoom;
use std::alloc::{AllocError, AllocFailed};
use thiserror::Error;

/// What is wrong with bytes without a zero that are no frame. A crash never causes it.
#[derive(Clone, Copy, Debug, PartialEq, Eq, Error)]
pub enum FrameFault {
    /// The first five bytes are not a length within its bounds.
    #[error("the length of a frame is out of its bounds")]
    Length,
    /// The bytes end before the frame does.
    #[error("the file ends within a frame")]
    Cut,
    /// A byte of 1 is not followed by 1 or 2.
    #[error("a frame has a misspelled byte")]
    Escape,
    /// The digest is not that of the frame at its place.
    #[error("the digest of a frame is wrong")]
    Digest,
    /// The frame begins a log of another format.
    #[error("the log has an unknown format")]
    UnknownFormat,
    /// The body is not an entry.
    #[error("a frame does not spell an entry")]
    Entry,
}

/// Why no entry was read.
#[derive(Clone, Copy, Debug, PartialEq, Eq, Error)]
pub enum DecodeError {
    /// The bytes are no frame.
    #[error("{0}")]
    Faulty(FrameFault),
    /// A growth was refused. The call can be made again.
    #[error("out of memory")]
    NoMemory,
}

/// Why an entry was not written as a frame.
#[derive(Clone, Copy, Debug, PartialEq, Eq, Error)]
pub enum EncodeError {
    /// There are more records or rows than a frame may have, or its text would have more bytes.
    #[error("a frame would be too long")]
    TooLong,
    /// A growth was refused.
    #[error("out of memory")]
    NoMemory,
}

/// Why a value could not be read.
#[derive(Clone, Copy, Debug, PartialEq, Eq)]
pub(crate) enum ReadError {
    /// A growth was refused.
    NoMemory,
    /// The bytes spell no value.
    Misspelled,
}

impl From<AllocError> for DecodeError {
    ghost use Rattle.mt_frame.specs.declared.fault.DecodeError.TheVariants.{NoMemory};

    ghost from_gives = { λ _ error. error ≡ NoMemory };

    fn from(_: AllocError) -> DecodeError {
        DecodeError::NoMemory
    }
}

impl<T: Drop> From<AllocFailed<T>> for DecodeError {
    ghost use Rattle.mt_frame.specs.declared.fault.DecodeError.TheVariants.{NoMemory};

    ghost from_gives = { λ _ error. error ≡ NoMemory };

    fn from(_: AllocFailed<T>) -> DecodeError {
        DecodeError::NoMemory
    }
}

impl From<AllocError> for EncodeError {
    ghost use Rattle.mt_frame.specs.declared.fault.EncodeError.TheVariants.{NoMemory};

    ghost from_gives = { λ _ error. error ≡ NoMemory };

    fn from(_: AllocError) -> EncodeError {
        EncodeError::NoMemory
    }
}

impl From<AllocError> for ReadError {
    ghost use Rattle.mt_frame.specs.declared.fault.ReadError.TheVariants.{NoMemory};

    ghost from_gives = { λ _ error. error ≡ NoMemory };

    fn from(_: AllocError) -> ReadError {
        ReadError::NoMemory
    }
}

impl<T: Drop> From<AllocFailed<T>> for ReadError {
    ghost use Rattle.mt_frame.specs.declared.fault.ReadError.TheVariants.{NoMemory};

    ghost from_gives = { λ _ error. error ≡ NoMemory };

    fn from(_: AllocFailed<T>) -> ReadError {
        ReadError::NoMemory
    }
}

impl From<NoRoom> for ReadError {
    ghost use Rattle.mt_frame.specs.declared.fault.ReadError.TheVariants.{NoMemory};

    ghost from_gives = { λ _ error. error ≡ NoMemory };

    fn from(_: NoRoom) -> ReadError {
        ReadError::NoMemory
    }
}

impl From<TryGetError> for ReadError {
    ghost use Rattle.mt_frame.specs.declared.fault.ReadError.TheVariants.{Misspelled};

    ghost from_gives = { λ _ error. error ≡ Misspelled };

    fn from(_: TryGetError) -> ReadError {
        ReadError::Misspelled
    }
}
