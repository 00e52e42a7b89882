//! How the log of a server is shortened between the commits.

use crate::logging::Log;
use mt_journal::error::JournalError;
use mt_logger::checkpoint::{Advanced, Step};
use mt_logger::error::LoggerError;
use mt_shared::door::Door;
use mt_types::refusal::Refusal;
use sqlite_disk::Disk;
use std::sync::Wait;

// How many steps of a checkpoint are made between two looks for commits. (Rows are read in one, and copied in the next.)
const STEPS: u32 = 8;

impl<D: Disk + Drop> Log<D> {
    /// Returns whether a checkpoint is being made.
    pub fn is_moving(&self) -> bool {
        matches!(
            self.logger.next_step(),
            Step::Reads | Step::Copies | Step::Seals
        )
    }

    /// Makes some steps of a checkpoint, or begins one if the log is long enough.
    ///
    /// # Errors
    ///
    /// If the index refuses commits or rows, or the disk fails. The log may continue if its disk is still asked.
    pub fn move_on<W: Wait>(&mut self, door: &Door<'_, W>) -> Result<Advanced, LoggerError> {
        for _ in 0..STEPS {
            match self.logger.advance(door)? {
                Advanced::Goes => {}
                advanced => return Ok(advanced),
            }
        }
        Ok(Advanced::Goes)
    }
}

/// Returns whether the error of a checkpoint may be gone at the next try.
pub fn may_pass(error: &LoggerError) -> bool {
    matches!(
        error,
        LoggerError::Fed(Refusal::NoMemory)
            | LoggerError::Journal(JournalError::NoMemory | JournalError::DiskFull)
    )
}
