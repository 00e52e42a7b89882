//! Why bytes are no messages, and why messages were not written.

ghost use Rattle.std.specs.Prelude.{◌≡◌};
ghost use Rattle.mt_wire.specs.FaultNumbers.{fault_number};

use bytes::TryGetError;
use std::alloc::{AllocError, AllocFailed};
use thiserror::Error;

/// Why a frame was not read. After `NoMemory` the call can be made again. The other faults stay.
#[derive(Clone, Copy, Debug, PartialEq, Eq, Error)]
pub enum WireFault {
    /// The length of a frame's body is not within its bounds.
    #[error("the length of a frame is out of its bounds")]
    BadLength,
    /// The first byte of a frame's body is not a version.
    #[error("a frame has an unknown version")]
    BadVersion,
    /// A frame's body does not spell messages of its version.
    #[error("the body of a frame is not a list of messages")]
    BadBody,
    /// A growth was refused.
    #[error("out of memory")]
    NoMemory,
}

impl WireFault {
    /// The number of the fault.
    pub fn number(&self) -> u8
        ensures { result ≡ fault_number self.now }
    {
        match self {
            WireFault::BadLength => 4,
            WireFault::BadVersion => 5,
            WireFault::BadBody => 6,
            WireFault::NoMemory => 7,
        }
    }
}

/// Why messages were not written as a frame.
#[derive(Clone, Copy, Debug, PartialEq, Eq, Error)]
pub enum EncodeError {
    /// The body would have more bytes than a body may have.
    #[error("a frame would be too long")]
    TooLong,
    /// A growth was refused.
    #[error("out of memory")]
    NoMemory,
}

/// Why a value could not be read.
#[derive(Clone, Copy, Debug, PartialEq, Eq)]
pub(crate) enum ReadError {
    /// A growth was refused.
    NoMemory,
    /// The bytes spell no value.
    Misspelled,
}

impl From<ReadError> for WireFault {
    ghost use Rattle.mt_wire.specs.FaultNumbers.{fault_of};

    ghost from_gives = { λ error fault. fault ≡ fault_of error };

    fn from(error: ReadError) -> WireFault {
        match error {
            ReadError::NoMemory => WireFault::NoMemory,
            ReadError::Misspelled => WireFault::BadBody,
        }
    }
}

impl From<AllocError> for WireFault {
    ghost use Rattle.mt_wire.specs.declared.fault.WireFault.TheVariants.{NoMemory};

    ghost from_gives = { λ _ fault. fault ≡ NoMemory };

    fn from(_: AllocError) -> WireFault {
        WireFault::NoMemory
    }
}

impl<T: Drop> From<AllocFailed<T>> for WireFault {
    ghost use Rattle.mt_wire.specs.declared.fault.WireFault.TheVariants.{NoMemory};

    ghost from_gives = { λ _ fault. fault ≡ NoMemory };

    fn from(_: AllocFailed<T>) -> WireFault {
        WireFault::NoMemory
    }
}

impl From<AllocError> for EncodeError {
    ghost use Rattle.mt_wire.specs.declared.fault.EncodeError.TheVariants.{NoMemory};

    ghost from_gives = { λ _ error. error ≡ NoMemory };

    fn from(_: AllocError) -> EncodeError {
        EncodeError::NoMemory
    }
}

impl<T: Drop> From<AllocFailed<T>> for EncodeError {
    ghost use Rattle.mt_wire.specs.declared.fault.EncodeError.TheVariants.{NoMemory};

    ghost from_gives = { λ _ error. error ≡ NoMemory };

    fn from(_: AllocFailed<T>) -> EncodeError {
        EncodeError::NoMemory
    }
}

impl From<AllocError> for ReadError {
    ghost use Rattle.mt_wire.specs.declared.fault.ReadError.TheVariants.{NoMemory};

    ghost from_gives = { λ _ error. error ≡ NoMemory };

    fn from(_: AllocError) -> ReadError {
        ReadError::NoMemory
    }
}

impl<T: Drop> From<AllocFailed<T>> for ReadError {
    ghost use Rattle.mt_wire.specs.declared.fault.ReadError.TheVariants.{NoMemory};

    ghost from_gives = { λ _ error. error ≡ NoMemory };

    fn from(_: AllocFailed<T>) -> ReadError {
        ReadError::NoMemory
    }
}

impl From<TryGetError> for ReadError {
    ghost use Rattle.mt_wire.specs.declared.fault.ReadError.TheVariants.{Misspelled};

    ghost from_gives = { λ _ error. error ≡ Misspelled };

    fn from(_: TryGetError) -> ReadError {
        ReadError::Misspelled
    }
}
