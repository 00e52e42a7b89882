//! How the log of a shared index is shortened while other threads change rows: it continues in the other file, and the rows are copied
//! there.

ghost use Rattle.std.specs.Prelude.{◌≡◌, ◌⊎◌, ◌+◌, ◌<◌, nat_lt, List, [], length, map, is_some, Ok, OnOk, OnErr, IfOk, IfSome, IsTrue, None};
ghost use Rattle.mt_types.specs.declared.row.Change.{Change};
ghost use Rattle.mt_frame.specs.declared.entry.Entry.{Entry};
ghost use Rattle.mt_frame.specs.declared.entry.LogHeader.{LogHeader};
ghost use Rattle.mt_folder_log.specs.Folder.{AllRecover, HasAll, HasChanges};
ghost use Rattle.mt_folder_log.specs.Moving.{continued, end_of, IfFree, IfNeeded, IsAfter, IsFree, Needs};
ghost use Rattle.mt_folder_log.specs.declared.checkpoint.TheConstants.{PART};
ghost use Rattle.mt_journal.specs.Appending.{with_part, with_seal};
ghost use Rattle.mt_journal.specs.Causes.{may_ask};
ghost use Rattle.mt_journal.specs.Keeping.{AllAreLogs, Keeps};
ghost use Rattle.mt_journal.specs.Recovery.{Mixes};
ghost use Rattle.mt_logger.specs.Following.{Follows, KeepsChanges};
ghost use Rattle.mt_logger.specs.Rounds.{next_of, Advances, Reads};
ghost use Rattle.mt_logger.specs.declared.checkpoint.Advanced.TheVariants.{Goes, Waits};

use crate::error::LoggerError;
use crate::logger::Logger;
use crate::reading::{Lacking, read_lacking};
use mt_folder_log::checkpoint::Round;
use mt_shared::door::Door;
use sqlite_disk::Disk;
use std::sync::Wait;

/// What a checkpoint needs next.
#[derive(Clone, Copy, Debug, PartialEq, Eq)]
pub enum Step {
    /// Nothing: none is due.
    Rests,
    /// The log moves to the other file.
    Moves,
    /// The next rows are to be read, with the commits that the log lacks.
    Reads,
    /// The rows that were read are to be copied.
    Copies,
    /// All were copied.
    Seals,
}

/// What a step of a checkpoint has done.
#[derive(Clone, Copy, Debug, PartialEq, Eq)]
pub enum Advanced {
    /// Nothing: none is due, or the next rows can't be read yet.
    Waits,
    /// There is more to do.
    Goes,
    /// The checkpoint of this many rows is complete.
    Ends { rows: u64 },
}

impl<D: Disk + Drop> Logger<D> {
    /// Returns what the checkpoint needs next: [`Step::Rests`] if none is due, or if the log has the last generation.
    pub fn next_step(&self) -> Step
        ensures { result ≡ next_of self.now }
    {
        match self.log.next_round() {
            Round::Rests => Step::Rests,
            Round::Moves => if self.log.position().generation == u64::MAX {
                Step::Rests
            } else {
                Step::Moves
            },
            Round::Copies => if self.ready.is_some() {
                Step::Copies
            } else {
                Step::Reads
            },
            Round::Seals => Step::Seals,
        }
    }

    // Moves the log to the other file.
    fn begin(&mut self) -> Result<Advanced, LoggerError>
        ensures done { IfOk result (λ done. done ≡ Goes) }
        ensures before { (header : LogHeader) (entries : List Entry)
            → Keeps self.old.log.journal.at (D.Disk.seen self.old.log.journal.disk) (D.Disk.may_leave self.old.log.journal.disk) header entries
            → 0 < self.old.log.journal.at.newest
            → IfFree self.old.log.other (OnOk result (Needs self.new.log.other (λ disk. AllAreLogs header entries (D.Disk.may_leave disk)))) }
        ensures begins { 0 < self.old.log.journal.at.newest → IfFree self.old.log.other (OnOk result (Keeps self.new.log.journal.at
            (D.Disk.seen self.new.log.journal.disk) (D.Disk.may_leave self.new.log.journal.disk)
            (continued self.old.log.columns self.old.log.journal.at) [])) }
        ensures stays { (header : LogHeader) (entries : List Entry)
            → Keeps self.old.log.journal.at (D.Disk.seen self.old.log.journal.disk) (D.Disk.may_leave self.old.log.journal.disk) header entries
            → IsTrue (may_ask self.new.log.journal.is_given_up (D.Disk.is_usable self.new.log.journal.disk))
            → OnErr result (Keeps self.new.log.journal.at (D.Disk.seen self.new.log.journal.disk) (D.Disk.may_leave self.new.log.journal.disk) header entries) }
        ensures newest { OnOk result (self.new.log.journal.at.newest ≡ self.old.log.journal.at.newest) }
        ensures changes { (changes : List Change) → HasChanges D.Disk.seen D.Disk.may_leave changes self.old.log
            → OnOk result (KeepsChanges D.Disk.seen D.Disk.may_leave changes self.new) }
        ensures recover { (changes : List Change) → HasChanges D.Disk.seen D.Disk.may_leave changes self.old.log
            → OnErr result (AllRecover D.Disk.may_leave changes self.old.log.journal.at.durable self.old.log.journal.at.generation self.new.log) }
    {
        self.ready = None;
        match self.log.begin() {
            Ok(()) => Ok(Advanced::Goes),
            Err(error) => Err(LoggerError::Journal(error)),
        }
    }

    // Reads the next rows, with the commits that the log lacks, and writes these.
    fn read<W: Wait>(&mut self, door: &Door<'_, W>) -> Result<Advanced, LoggerError>
        ensures reads { IsTrue (D.Disk.is_mixing self.new.log.journal.disk)
            → Reads D.Disk.seen D.Disk.may_leave D.Disk.is_usable self.old self.new result }
    {
        let start = match self.log.start() {
            Ok(start) => start,
            Err(refusal) => return Err(LoggerError::Fed(refusal)),
        };
        let from = self.position().newest;
        let Lacking { deltas, part } = match read_lacking(self.alloc, door, from, start) {
            Ok(Some(read)) => read,
            Ok(None) => return Ok(Advanced::Waits),
            Err(refusal) => return Err(LoggerError::Fed(refusal)),
        };
        match self.append(&deltas) {
            Ok(()) => {
                self.ready = Some(part);
                Ok(Advanced::Goes)
            }
            Err(error) => Err(error),
        }
    }

    // Copies the rows that were read.
    fn copy(&mut self) -> Result<Advanced, LoggerError>
        ensures done { IfOk result (λ done. IfSome self.old.ready (λ part. done ≡ Goes)) }
        ensures kept { (header : LogHeader) (entries : List Entry)
            → Keeps self.old.log.journal.at (D.Disk.seen self.old.log.journal.disk) (D.Disk.may_leave self.old.log.journal.disk) header entries
            → IsTrue (D.Disk.is_mixing self.new.log.journal.disk)
            → IfSome self.old.ready (λ part. OnOk result (IsAfter (end_of part) (nat_lt (length part.rows) PART) self.old.log.other self.new.log.other
            × Keeps self.new.log.journal.at (D.Disk.seen self.new.log.journal.disk) (D.Disk.may_leave self.new.log.journal.disk) header
            (with_part part entries))) }
        ensures stays { (header : LogHeader) (entries : List Entry)
            → Keeps self.old.log.journal.at (D.Disk.seen self.old.log.journal.disk) (D.Disk.may_leave self.old.log.journal.disk) header entries
            → IsTrue (may_ask self.new.log.journal.is_given_up (D.Disk.is_usable self.new.log.journal.disk))
            → OnErr result (Keeps self.new.log.journal.at (D.Disk.seen self.new.log.journal.disk) (D.Disk.may_leave self.new.log.journal.disk) header entries) }
        ensures newest { OnOk result (self.new.log.journal.at.newest ≡ self.old.log.journal.at.newest) }
        ensures changes { (changes : List Change) → KeepsChanges D.Disk.seen D.Disk.may_leave changes self.old
            → IsTrue (D.Disk.is_mixing self.new.log.journal.disk)
            → IfNeeded self.old.log.other (λ copied. OnOk result (KeepsChanges D.Disk.seen D.Disk.may_leave changes self.new)) }
        ensures recover { (changes : List Change) → KeepsChanges D.Disk.seen D.Disk.may_leave changes self.old
            → IsTrue (D.Disk.is_mixing self.new.log.journal.disk)
            → IfNeeded self.old.log.other (λ copied. OnErr result (AllRecover D.Disk.may_leave changes self.old.log.journal.at.durable
            self.old.log.journal.at.generation self.new.log)) }
    {
        let Some(part) = self.ready.take() else {
            return Ok(Advanced::Waits);
        };
        match self.log.copy(part) {
            Ok(()) => Ok(Advanced::Goes),
            Err(error) => Err(LoggerError::Journal(error)),
        }
    }

    // Writes that all rows were copied.
    fn seal(&mut self) -> Result<Advanced, LoggerError>
        ensures done { IfNeeded self.old.log.other (λ copied. IfOk result (λ done. done ≡ Advanced.Ends copied)) }
        ensures sealed { (header : LogHeader) (entries : List Entry)
            → Keeps self.old.log.journal.at (D.Disk.seen self.old.log.journal.disk) (D.Disk.may_leave self.old.log.journal.disk) header entries
            → Mixes D.Disk.is_mixing
            → IfNeeded self.old.log.other (λ copied. OnOk result (IsFree self.new.log.other
            × AllAreLogs header (with_seal copied entries) (D.Disk.may_leave self.new.log.journal.disk)
            × Keeps self.new.log.journal.at (D.Disk.seen self.new.log.journal.disk) (D.Disk.may_leave self.new.log.journal.disk) header
            (with_seal copied entries))) }
        ensures stays { (header : LogHeader) (entries : List Entry)
            → Keeps self.old.log.journal.at (D.Disk.seen self.old.log.journal.disk) (D.Disk.may_leave self.old.log.journal.disk) header entries
            → IsTrue (may_ask self.new.log.journal.is_given_up (D.Disk.is_usable self.new.log.journal.disk))
            → OnErr result (Keeps self.new.log.journal.at (D.Disk.seen self.new.log.journal.disk) (D.Disk.may_leave self.new.log.journal.disk) header entries) }
        ensures newest { OnOk result (self.new.log.journal.at.newest ≡ self.old.log.journal.at.newest) }
        ensures changes { (changes : List Change) → HasChanges D.Disk.seen D.Disk.may_leave changes self.old.log
            → HasAll self.old.log.other → Mixes D.Disk.is_mixing
            → OnOk result (KeepsChanges D.Disk.seen D.Disk.may_leave changes self.new) }
        ensures recover { (changes : List Change) → HasChanges D.Disk.seen D.Disk.may_leave changes self.old.log
            → HasAll self.old.log.other → Mixes D.Disk.is_mixing
            → OnErr result (AllRecover D.Disk.may_leave changes self.old.log.journal.at.durable self.old.log.journal.at.generation self.new.log) }
    {
        self.ready = None;
        let rows = self.log.copied();
        match self.log.seal() {
            Ok(()) => Ok(Advanced::Ends { rows }),
            Err(error) => Err(LoggerError::Journal(error)),
        }
    }

    /// Makes a step of a checkpoint, by which the log stays short, or begins one if it is due: the log moves to the other file of the
    /// folder, the next rows are copied there, or it is sealed when all were. Nothing is done if none is due; nor while a change is
    /// open, or the log lacks more than a thousand commits, if rows are to be read: then it is called again after a [`Logger::write`].
    /// The rows are read under the lock of the index, together with the commits that the log lacks, which are written before them.
    /// O(n) in the rows, at most [`mt_folder_log::checkpoint::PART`].
    ///
    /// # Errors
    ///
    /// Those of [`Logger::write`], and those of [`mt_folder_log::log::FolderLog::begin`], `copy` and `seal`. The log stays where it is
    /// if it couldn't move to the other file.
    pub fn advance<W: Wait>(&mut self, door: &Door<'_, W>) -> Result<Advanced, LoggerError>
        ensures { Mixes D.Disk.is_mixing
            → Advances (next_of self.old) D.Disk.seen D.Disk.may_leave D.Disk.is_usable self.old self.new result }
    {
        match self.next_step() {
            Step::Rests => Ok(Advanced::Waits),
            Step::Moves => self.begin(),
            Step::Reads => self.read(door),
            Step::Copies => self.copy(),
            Step::Seals => self.seal(),
        }
    }
}
