//! Why a session ended before its input did.

ghost use Rattle.std.specs.Prelude.{◌≡◌};
ghost use Rattle.mt_serve.specs.Faults.{fault_number};

use mt_wire::fault::WireFault;
use std::alloc::{AllocError, AllocFailed};
use thiserror::Error;

/// Why a session ended before its input did.
#[derive(Clone, Copy, Debug, PartialEq, Eq, Error)]
pub enum SessionFault {
    /// A read failed, or all reads that may be made were made.
    #[error("the input could not be read")]
    Read,
    /// A write failed, or took nothing.
    #[error("a reply could not be written")]
    Write,
    /// The input ended inside a frame.
    #[error("the input ended inside a frame")]
    Cut,
    /// The length of a frame's body is not within its bounds.
    #[error("the length of a frame is out of its bounds")]
    BadLength,
    /// The first byte of a frame's body is not a version.
    #[error("a frame has an unknown version")]
    BadVersion,
    /// A frame's body does not spell queries of its version.
    #[error("the body of a frame is not a list of queries")]
    BadBody,
    /// An allocation was refused.
    #[error("out of memory")]
    NoMemory,
}

impl SessionFault {
    /// Returns the number of the fault, from 1 to 7.
    pub fn number(&self) -> u8
        ensures { result ≡ fault_number self.now }
    {
        match self {
            SessionFault::Read => 1,
            SessionFault::Write => 2,
            SessionFault::Cut => 3,
            SessionFault::BadLength => 4,
            SessionFault::BadVersion => 5,
            SessionFault::BadBody => 6,
            SessionFault::NoMemory => 7,
        }
    }
}

impl From<WireFault> for SessionFault {
    ghost use Rattle.mt_serve.specs.Faults.{fault_of};

    ghost from_gives = { λ wire fault. fault ≡ fault_of wire };

    fn from(fault: WireFault) -> SessionFault {
        match fault {
            WireFault::BadLength => SessionFault::BadLength,
            WireFault::BadVersion => SessionFault::BadVersion,
            WireFault::BadBody => SessionFault::BadBody,
            WireFault::NoMemory => SessionFault::NoMemory,
        }
    }
}
