//! Why a line could not be read, and why a script ended early.

ghost use Rattle.std.specs.Prelude.{◌≡◌};
ghost use Rattle.mt_script.specs.declared.fault.LineError.TheVariants.{Memory};

use mt_types::refusal::Refusal;
use std::alloc::{AllocError, AllocFailed};
use thiserror::Error;

/// Why a line could not be read.
#[derive(Clone, Copy, Debug, PartialEq, Eq)]
pub enum LineError {
    /// An allocation for what the line says was refused.
    Memory,
    /// The line says nothing.
    Bad,
}

impl From<AllocError> for LineError {
    ghost from_gives = { λ _ e. e ≡ Memory };

    fn from(_e: AllocError) -> LineError {
        LineError::Memory
    }
}

impl<T: Drop> From<AllocFailed<T>> for LineError {
    ghost from_gives = { λ _ e. e ≡ Memory };

    fn from(_e: AllocFailed<T>) -> LineError {
        LineError::Memory
    }
}

/// Why a script ended before its last line was answered.
#[derive(Clone, Copy, Debug, PartialEq, Eq, Error)]
pub enum ScriptFault {
    /// A read failed, or all reads that may be made were made.
    #[error("the script could not be read")]
    Read,
    /// A write failed, or took nothing.
    #[error("a reply could not be written")]
    Write,
    /// There was no memory to read a line or to write its reply.
    #[error("out of memory")]
    NoMemory,
    /// The index could not be opened.
    #[error("the index could not be opened: {0}")]
    Start(Refusal),
}
