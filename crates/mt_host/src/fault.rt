//! Why a connection was ended before its input was.

use mt_wire::fault::WireFault;
use thiserror::Error;

/// Why a connection was ended before its input was.
#[derive(Clone, Copy, Debug, PartialEq, Eq, Error)]
pub enum ConnectionFault {
    /// A read failed.
    #[error("the input could not be read")]
    Read,
    /// A write failed, or took nothing.
    #[error("a reply could not be written")]
    Write,
    /// The input ended inside a frame.
    #[error("the input ended inside a frame")]
    Cut,
    /// The length of a frame's body is not within its bounds.
    #[error("the length of a frame is out of its bounds")]
    BadLength,
    /// The first byte of a frame's body is not a version.
    #[error("a frame has an unknown version")]
    BadVersion,
    /// A frame's body does not spell queries of its version.
    #[error("the body of a frame is not a list of queries")]
    BadBody,
    /// An allocation was refused.
    #[error("out of memory")]
    NoMemory,
    /// It has said no hello with a secret of the server.
    #[error("no hello with a secret of the server")]
    NoHello,
    /// Its answers would have passed what is kept for all connections.
    #[error("too much output")]
    TooMuchOutput,
    /// The disk failed before its changes were durable.
    #[error("the disk failed before its changes were durable")]
    NotDurable,
}

impl ConnectionFault {
    /// Returns the number of the fault. Those up to 7 are the numbers of a session's faults.
    pub fn number(&self) -> u8 {
        match self {
            ConnectionFault::Read => 1,
            ConnectionFault::Write => 2,
            ConnectionFault::Cut => 3,
            ConnectionFault::BadLength => 4,
            ConnectionFault::BadVersion => 5,
            ConnectionFault::BadBody => 6,
            ConnectionFault::NoMemory => 7,
            ConnectionFault::NoHello => 8,
            ConnectionFault::TooMuchOutput => 10,
            ConnectionFault::NotDurable => 12,
        }
    }
}

impl From<WireFault> for ConnectionFault {
    fn from(fault: WireFault) -> ConnectionFault {
        match fault {
            WireFault::BadLength => ConnectionFault::BadLength,
            WireFault::BadVersion => ConnectionFault::BadVersion,
            WireFault::BadBody => ConnectionFault::BadBody,
            WireFault::NoMemory => ConnectionFault::NoMemory,
        }
    }
}
