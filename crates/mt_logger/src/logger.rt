//! What writes the commits of a shared index to the log of a folder.

ghost use Rattle.std.specs.Prelude.{◌≡◌, ◌⊎◌, ◌+◌, List, length, map, OnOk, OnErr, IfOk, IfErr, IsTrue, IsFalse, None};
ghost use Rattle.mt_types.specs.declared.row.Change.{Change};
ghost use Rattle.mt_frame.specs.declared.entry.Entry.{Entry};
ghost use Rattle.mt_frame.specs.declared.entry.LogHeader.{LogHeader};
ghost use Rattle.mt_journal.specs.Causes.{may_ask, AppendHasCause, SyncHasCause};
ghost use Rattle.mt_journal.specs.Keeping.{AllSurvive, Keeps};
ghost use Rattle.mt_folder_log.specs.Folder.{AllRecover, AreNext, HasChanges};
ghost use Rattle.mt_folder_log.specs.Moving.{disk_of};
ghost use Rattle.mt_replay.specs.Replay.{record_of};
ghost use Rattle.mt_logger.specs.Following.{Follows, KeepsChanges};
ghost use Rattle.mt_logger.specs.Writing.{entries_with, AppendFails, Leaves, WriteFails, Writes};

use crate::error::LoggerError;
use mt_folder_log::log::FolderLog;
use mt_frame::entry::Part;
use mt_journal::error::JournalError;
use mt_journal::position::Position;
use mt_replay::records::records_of;
use mt_shared::door::Door;
use mt_types::limits::MAX_RANGE;
use mt_types::row::Delta;
use sqlite_disk::Disk;
use std::alloc::Global;
use std::sync::Wait;

/// What writes the commits of a shared index to the log of a folder, in their order. One thread has it.
#[derive(Drop)]
pub struct Logger<D: Disk + Drop> {
    pub(crate) alloc: Global,
    pub(crate) log: FolderLog<D>,
    // The rows that a checkpoint copies next, as they are after all commits of the log.
    pub(crate) ready: Option<Part>,
}

impl<D: Disk + Drop> Logger<D> {
    /// Returns what continues this log.
    pub fn new(alloc: Global, log: FolderLog<D>) -> Logger<D>
        ensures log { result.log ≡ log }
        ensures changes { (changes : List Change) → HasChanges D.Disk.seen D.Disk.may_leave changes log
            → KeepsChanges D.Disk.seen D.Disk.may_leave changes result }
    {
        Logger {
            alloc,
            log,
            ready: None,
        }
    }

    /// Returns where the log ends, and the numbers of its last commit and of the last that no crash undoes.
    pub fn position(&self) -> Position
        ensures value { result ≡ self.now.log.journal.at }
        ensures survive { (header : LogHeader) (entries : List Entry)
            → Keeps self.now.log.journal.at (D.Disk.seen self.now.log.journal.disk) (D.Disk.may_leave self.now.log.journal.disk) header entries
            → AllSurvive header entries result.durable (D.Disk.may_leave self.now.log.journal.disk) }
        ensures recover { (changes : List Change) → HasChanges D.Disk.seen D.Disk.may_leave changes self.now.log
            → AllRecover D.Disk.may_leave changes result.durable result.generation self.now.log }
    {
        self.log.position()
    }

    // Writes these commits, which are the next ones, if there are some. The rows that were read before them are of no use then.
    pub(crate) fn append(&mut self, deltas: &[Delta]) -> Result<(), LoggerError>
        ensures kept { (header : LogHeader) (entries : List Entry)
            → Keeps self.old.log.journal.at (D.Disk.seen self.old.log.journal.disk) (D.Disk.may_leave self.old.log.journal.disk) header entries
            → IsTrue (D.Disk.is_mixing self.new.log.journal.disk)
            → OnOk result (Keeps self.new.log.journal.at (D.Disk.seen self.new.log.journal.disk) (D.Disk.may_leave self.new.log.journal.disk) header
            (entries_with self.old.log.journal.at (map record_of deltas.now) entries)) }
        ensures crash { (header : LogHeader) (entries : List Entry)
            → Keeps self.old.log.journal.at (D.Disk.seen self.old.log.journal.disk) (D.Disk.may_leave self.old.log.journal.disk) header entries
            → IsTrue (D.Disk.is_mixing self.new.log.journal.disk)
            → AllSurvive header (entries_with self.old.log.journal.at (map record_of deltas.now) entries) self.old.log.journal.at.durable
            (D.Disk.may_leave self.new.log.journal.disk) }
        ensures newest { OnOk result (self.new.log.journal.at.newest ≡ self.old.log.journal.at.newest + length deltas.now) }
        ensures columns { self.new.log.columns ≡ self.old.log.columns }
        ensures other { self.new.log.other ≡ self.old.log.other }
        ensures ready { (self.new ≡ self.old) ⊎ (self.new.ready ≡ None) }
        ensures stays { (header : LogHeader) (entries : List Entry)
            → Keeps self.old.log.journal.at (D.Disk.seen self.old.log.journal.disk) (D.Disk.may_leave self.old.log.journal.disk) header entries
            → IsTrue (may_ask self.new.log.journal.is_given_up (D.Disk.is_usable self.new.log.journal.disk))
            → OnErr result (Keeps self.new.log.journal.at (D.Disk.seen self.new.log.journal.disk) (D.Disk.may_leave self.new.log.journal.disk) header entries) }
        ensures cause { IfErr result (AppendFails self.old.log.journal.at (map record_of deltas.now)
            (may_ask self.old.log.journal.is_given_up (D.Disk.is_usable self.old.log.journal.disk))
            (D.Disk.faults self.old.log.journal.disk) (D.Disk.faults self.new.log.journal.disk)) }
        ensures changes { (changes : List Change) → HasChanges D.Disk.seen D.Disk.may_leave changes self.old.log
            → AreNext self.old.log.columns changes self.old.log.journal.at.newest (map record_of deltas.now)
            → IsTrue (D.Disk.is_mixing self.new.log.journal.disk)
            → OnOk result (HasChanges D.Disk.seen D.Disk.may_leave changes self.new.log) }
        ensures recover { (changes : List Change) → HasChanges D.Disk.seen D.Disk.may_leave changes self.old.log
            → AreNext self.old.log.columns changes self.old.log.journal.at.newest (map record_of deltas.now)
            → IsTrue (D.Disk.is_mixing self.new.log.journal.disk)
            → AllRecover D.Disk.may_leave changes self.old.log.journal.at.durable self.old.log.journal.at.generation self.new.log }
    {
        if deltas.is_empty() {
            return Ok(());
        }
        let Ok(records) = records_of(self.alloc, deltas) else {
            return Err(LoggerError::Journal(JournalError::NoMemory));
        };
        self.ready = None;
        match self.log.append(records) {
            Ok(_) => Ok(()),
            Err(error) => Err(LoggerError::Journal(error)),
        }
    }

    /// Writes the next commits of the index, at most a thousand, and returns how many there were. They are not durable
    /// before a [`Logger::sync`]. Takes the lock of the index once, together with other reads, and makes one call of the
    /// disk if there are commits, and two more if zeros are written ahead.
    ///
    /// # Errors
    ///
    /// `Fed` if the index refuses to say which commits come next, as it does with `Behind` if they have left its own log.
    /// `Journal`: those of [`FolderLog::append`], and `NoMemory`. Unless the disk failed, the log is as before.
    pub fn write<W: Wait>(&mut self, door: &Door<'_, W>) -> Result<usize, LoggerError>
        ensures writes { IsTrue (D.Disk.is_mixing self.new.log.journal.disk) → IfOk result (Writes self.old.log.journal.at
            (Keeps self.old.log.journal.at (D.Disk.seen self.old.log.journal.disk) (D.Disk.may_leave self.old.log.journal.disk))
            (Keeps self.new.log.journal.at (D.Disk.seen self.new.log.journal.disk) (D.Disk.may_leave self.new.log.journal.disk))) }
        ensures crash { IsTrue (D.Disk.is_mixing self.new.log.journal.disk) → Leaves self.old.log.journal.at
            (Keeps self.old.log.journal.at (D.Disk.seen self.old.log.journal.disk) (D.Disk.may_leave self.old.log.journal.disk))
            (D.Disk.may_leave self.new.log.journal.disk) }
        ensures newest { IfOk result (λ count. self.new.log.journal.at.newest ≡ self.old.log.journal.at.newest + count) }
        ensures stays { (header : LogHeader) (entries : List Entry)
            → Keeps self.old.log.journal.at (D.Disk.seen self.old.log.journal.disk) (D.Disk.may_leave self.old.log.journal.disk) header entries
            → IsTrue (may_ask self.new.log.journal.is_given_up (D.Disk.is_usable self.new.log.journal.disk))
            → OnErr result (Keeps self.new.log.journal.at (D.Disk.seen self.new.log.journal.disk) (D.Disk.may_leave self.new.log.journal.disk) header entries) }
        ensures cause { IfErr result (WriteFails self.old.log.journal.at
            (may_ask self.old.log.journal.is_given_up (D.Disk.is_usable self.old.log.journal.disk))
            (D.Disk.faults self.old.log.journal.disk) (D.Disk.faults self.new.log.journal.disk)) }

        // The folder keeps the changes whose first ones are the commits of the index. Whatever a crash leaves has the first of
        // them, with all that were durable.
        ensures follows { IsTrue (D.Disk.is_mixing self.new.log.journal.disk)
            → Follows D.Disk.seen D.Disk.may_leave self.old self.new result }
    {
        let from = self.position().newest;
        let deltas = match door.feed(self.alloc, from, MAX_RANGE) {
            Ok(deltas) => deltas,
            Err(refusal) => return Err(LoggerError::Fed(refusal)),
        };
        match self.append(&deltas) {
            Ok(()) => Ok(deltas.len()),
            Err(error) => Err(error),
        }
    }

    /// Makes all that was written durable, and returns the number of the last commit. One call of the disk.
    ///
    /// # Errors
    ///
    /// Those of [`FolderLog::sync`]: then nothing more is written, and the log has each commit that was durable.
    pub fn sync(&mut self) -> Result<u64, JournalError>
        ensures kept { (header : LogHeader) (entries : List Entry)
            → Keeps self.old.log.journal.at (D.Disk.seen self.old.log.journal.disk) (D.Disk.may_leave self.old.log.journal.disk) header entries
            → OnOk result (Keeps self.new.log.journal.at (D.Disk.seen self.new.log.journal.disk) (D.Disk.may_leave self.new.log.journal.disk) header entries) }
        ensures crash { (header : LogHeader) (entries : List Entry)
            → Keeps self.old.log.journal.at (D.Disk.seen self.old.log.journal.disk) (D.Disk.may_leave self.old.log.journal.disk) header entries
            → AllSurvive header entries self.old.log.journal.at.durable (D.Disk.may_leave self.new.log.journal.disk) }
        ensures number { IfOk result (λ number. number ≡ self.old.log.journal.at.newest) }
        ensures durable { OnOk result (self.new.log.journal.at.durable ≡ self.old.log.journal.at.newest) }
        ensures newest { OnOk result (self.new.log.journal.at.newest ≡ self.old.log.journal.at.newest) }
        ensures cause { SyncHasCause result (may_ask self.old.log.journal.is_given_up (D.Disk.is_usable self.old.log.journal.disk))
            (D.Disk.faults self.old.log.journal.disk) (D.Disk.faults self.new.log.journal.disk) }
        ensures stops { OnErr result (IsFalse (may_ask self.new.log.journal.is_given_up (D.Disk.is_usable self.new.log.journal.disk))) }
        ensures changes { (changes : List Change) → KeepsChanges D.Disk.seen D.Disk.may_leave changes self.old
            → OnOk result (KeepsChanges D.Disk.seen D.Disk.may_leave changes self.new) }
        ensures recover { (changes : List Change) → KeepsChanges D.Disk.seen D.Disk.may_leave changes self.old
            → AllRecover D.Disk.may_leave changes self.old.log.journal.at.durable self.old.log.journal.at.generation self.new.log }
    {
        self.log.sync()
    }

    /// Returns the disk of the log, and that of the other file, unless it has failed. Ends the use of the log, which isn't
    /// synced by that.
    pub fn into_disks(self) -> (D, Option<D>)
        ensures log { result.0 ≡ self.log.journal.disk }
        ensures other { result.1 ≡ disk_of self.log.other }
    {
        let Logger { log, .. } = self;
        log.into_disks()
    }
}
