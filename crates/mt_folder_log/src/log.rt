//! The log of a folder: commits are appended and made durable.

ghost use Rattle.std.specs.Prelude.{◌≡◌, ◌⊎◌, ◌+◌, ◌^◌, ◌≤◌, ℕ, List, [], length, OnOk, OnErr, IfOk, IsTrue, IsFalse};
ghost use Rattle.mt_frame.specs.declared.entry.Entry.{Entry};
ghost use Rattle.mt_frame.specs.declared.entry.LogHeader.{LogHeader};
ghost use Rattle.mt_journal.specs.Appending.{with_commits};
ghost use Rattle.mt_journal.specs.Causes.{may_ask, next_commits, AppendHasCause, GoesOn, IsTooLong, SyncHasCause};
ghost use Rattle.mt_types.specs.declared.row.Change.{Change};
ghost use Rattle.mt_folder.specs.Spares.{is_needed};
ghost use Rattle.mt_folder_log.specs.Folder.{AllRecover, AreNext, HasChanges};
ghost use Rattle.mt_folder_log.specs.Moving.{disk_of, round_of, IfNeeded, IsOfSpare};
ghost use Rattle.mt_journal.specs.Keeping.{AllAreLogs, AllSurvive, Keeps, StaysDurable};

use crate::checkpoint::{Other, Round};
use mt_folder::opening::Spare;
use mt_frame::entry::Record;
use mt_journal::error::JournalError;
use mt_journal::journal::Journal;
use mt_journal::position::Position;
use mt_types::items::Items;
use sqlite_disk::Disk;
use std::alloc::Global;

/// The log of a folder. It continues in the other file when it has become long, and the rows are copied there.
#[derive(Drop)]
pub struct FolderLog<D: Disk + Drop> {
    pub(crate) alloc: Global,
    pub(crate) columns: u8,
    pub(crate) journal: Journal<D>,
    pub(crate) other: Other<D>,
    // How many bytes of a log are worth a checkpoint; 0: none is made unasked.
    pub(crate) least: usize,
}

impl<D: Disk + Drop> FolderLog<D> {
    /// Returns what continues an opened log of rows with `columns` columns. A checkpoint is due when the log has `least` bytes
    /// more than its rows took, and twice as many as they took; never if `least` is 0.
    pub fn new(
        alloc: Global,
        columns: u8,
        journal: Journal<D>,
        spare: Spare<D>,
        least: usize,
    ) -> FolderLog<D>
        ensures journal { result.journal ≡ journal }
        ensures other { IsOfSpare spare result.other }
        ensures columns { result.columns ≡ columns }
        ensures least { result.least ≡ least }

        // A folder whose first log has no entries keeps any changes, of which it has none yet.
        ensures begins { Keeps journal.at (D.Disk.seen journal.disk) (D.Disk.may_leave journal.disk)
            (record { columns = columns; generation = 0; base = 0; run = 0 }) [] → IsFalse (is_needed spare)
            → (changes : List Change) → HasChanges D.Disk.seen D.Disk.may_leave changes result }
    {
        FolderLog {
            alloc,
            columns,
            journal,
            other: Other::of(spare, least),
            least,
        }
    }

    /// Returns where the log ends, and the numbers of its last commit and of the last that no crash undoes.
    pub fn position(&self) -> Position
        ensures value { result ≡ self.now.journal.at }
        ensures survive { (header : LogHeader) (entries : List Entry)
            → Keeps self.now.journal.at (D.Disk.seen self.now.journal.disk) (D.Disk.may_leave self.now.journal.disk) header entries
            → AllSurvive header entries result.durable (D.Disk.may_leave self.now.journal.disk) }
        ensures recover { (changes : List Change) → HasChanges D.Disk.seen D.Disk.may_leave changes self.now
            → AllRecover D.Disk.may_leave changes result.durable result.generation self.now }
    {
        self.journal.position()
    }

    /// Writes the next commits, each with what it left. They are not durable before a [`FolderLog::sync`]. Returns the number of
    /// the last of them. One call of the disk, and two more if zeros are written ahead.
    ///
    /// # Errors
    ///
    /// Those of [`Journal::append`].
    pub fn append(&mut self, records: Items<Record>) -> Result<u64, JournalError>
        ensures kept { (header : LogHeader) (entries : List Entry)
            → Keeps self.old.journal.at (D.Disk.seen self.old.journal.disk) (D.Disk.may_leave self.old.journal.disk) header entries
            → IsTrue (D.Disk.is_mixing self.new.journal.disk)
            → OnOk result (Keeps self.new.journal.at (D.Disk.seen self.new.journal.disk) (D.Disk.may_leave self.new.journal.disk) header
            (with_commits self.old.journal.at records entries)) }
        ensures crash { (header : LogHeader) (entries : List Entry)
            → Keeps self.old.journal.at (D.Disk.seen self.old.journal.disk) (D.Disk.may_leave self.old.journal.disk) header entries
            → IsTrue (D.Disk.is_mixing self.new.journal.disk)
            → AllSurvive header (with_commits self.old.journal.at records entries) self.old.journal.at.durable
            (D.Disk.may_leave self.new.journal.disk) }
        ensures columns { self.new.columns ≡ self.old.columns }
        ensures least { self.new.least ≡ self.old.least }
        ensures other { self.new.other ≡ self.old.other }
        ensures changes { (changes : List Change) → HasChanges D.Disk.seen D.Disk.may_leave changes self.old
            → AreNext self.old.columns changes self.old.journal.at.newest records → IsTrue (D.Disk.is_mixing self.new.journal.disk)
            → OnOk result (HasChanges D.Disk.seen D.Disk.may_leave changes self.new) }
        ensures recover { (changes : List Change) → HasChanges D.Disk.seen D.Disk.may_leave changes self.old
            → AreNext self.old.columns changes self.old.journal.at.newest records → IsTrue (D.Disk.is_mixing self.new.journal.disk)
            → AllRecover D.Disk.may_leave changes self.old.journal.at.durable self.old.journal.at.generation self.new }
        ensures stays { (header : LogHeader) (entries : List Entry)
            → Keeps self.old.journal.at (D.Disk.seen self.old.journal.disk) (D.Disk.may_leave self.old.journal.disk) header entries
            → IsTrue (may_ask self.new.journal.is_given_up (D.Disk.is_usable self.new.journal.disk))
            → OnErr result (Keeps self.new.journal.at (D.Disk.seen self.new.journal.disk) (D.Disk.may_leave self.new.journal.disk) header entries) }
        ensures newest { OnOk result (self.new.journal.at.newest ≡ self.old.journal.at.newest + length records) }
        ensures durable { StaysDurable self.old.journal.at self.new.journal.at }
        ensures number { IfOk result (λ number. number ≡ self.old.journal.at.newest + length records) }
        ensures cause { AppendHasCause result
            (may_ask self.old.journal.is_given_up (D.Disk.is_usable self.old.journal.disk))
            ((2 ^ 64 ≤ self.old.journal.at.newest + length records + 1)
            ⊎ IsTooLong self.old.journal.at (next_commits self.old.journal.at records))
            (D.Disk.faults self.old.journal.disk) (D.Disk.faults self.new.journal.disk) }
        ensures goes_on { GoesOn result (may_ask self.old.journal.is_given_up (D.Disk.is_usable self.old.journal.disk))
            (may_ask self.new.journal.is_given_up (D.Disk.is_usable self.new.journal.disk)) }
    {
        self.journal.append(self.alloc, records)
    }

    /// Makes all that was written durable, and returns the number of the last commit. One call of the disk.
    ///
    /// # Errors
    ///
    /// Those of [`Journal::sync`]: then nothing more is written, and the log has each commit that was durable.
    pub fn sync(&mut self) -> Result<u64, JournalError>
        ensures kept { (header : LogHeader) (entries : List Entry)
            → Keeps self.old.journal.at (D.Disk.seen self.old.journal.disk) (D.Disk.may_leave self.old.journal.disk) header entries
            → OnOk result (Keeps self.new.journal.at (D.Disk.seen self.new.journal.disk) (D.Disk.may_leave self.new.journal.disk) header entries) }
        ensures crash { (header : LogHeader) (entries : List Entry)
            → Keeps self.old.journal.at (D.Disk.seen self.old.journal.disk) (D.Disk.may_leave self.old.journal.disk) header entries
            → AllSurvive header entries self.old.journal.at.durable (D.Disk.may_leave self.new.journal.disk) }
        ensures whole { (header : LogHeader) (entries : List Entry)
            → Keeps self.old.journal.at (D.Disk.seen self.old.journal.disk) (D.Disk.may_leave self.old.journal.disk) header entries
            → OnOk result (AllAreLogs header entries (D.Disk.may_leave self.new.journal.disk)) }
        ensures fewer { (left : List ℕ) → D.Disk.may_leave self.new.journal.disk left → D.Disk.may_leave self.old.journal.disk left }
        ensures columns { self.new.columns ≡ self.old.columns }
        ensures least { self.new.least ≡ self.old.least }
        ensures other { self.new.other ≡ self.old.other }
        ensures changes { (changes : List Change) → HasChanges D.Disk.seen D.Disk.may_leave changes self.old
            → OnOk result (HasChanges D.Disk.seen D.Disk.may_leave changes self.new) }
        ensures recover { (changes : List Change) → HasChanges D.Disk.seen D.Disk.may_leave changes self.old
            → AllRecover D.Disk.may_leave changes self.old.journal.at.durable self.old.journal.at.generation self.new }
        ensures number { IfOk result (λ number. number ≡ self.old.journal.at.newest) }
        ensures durable { OnOk result (self.new.journal.at.durable ≡ self.old.journal.at.newest) }
        ensures newest { OnOk result (self.new.journal.at.newest ≡ self.old.journal.at.newest) }
        ensures cause { SyncHasCause result (may_ask self.old.journal.is_given_up (D.Disk.is_usable self.old.journal.disk))
            (D.Disk.faults self.old.journal.disk) (D.Disk.faults self.new.journal.disk) }
        ensures stops { OnErr result (IsFalse (may_ask self.new.journal.is_given_up (D.Disk.is_usable self.new.journal.disk))) }
    {
        self.journal.sync()
    }

    /// Returns what the checkpoint needs next: [`Round::Rests`] if none is due.
    pub fn next_round(&self) -> Round
        ensures { result ≡ round_of self.now.least self.now.journal.at self.now.other }
    {
        match &self.other {
            Other::Free { most, .. } => {
                let at = self.journal.position();
                if self.least > 0 && at.newest > 0 && at.end >= *most {
                    Round::Moves
                } else {
                    Round::Rests
                }
            }
            Other::Needed { has_all, .. } => {
                if *has_all {
                    Round::Seals
                } else {
                    Round::Copies
                }
            }
            Other::Gone => Round::Rests,
        }
    }

    /// Returns how many rows were copied, of a checkpoint that is in progress.
    pub fn copied(&self) -> u64
        ensures { IfNeeded self.now.other (λ copied. result ≡ copied) }
    {
        match &self.other {
            Other::Needed { copied, .. } => *copied,
            _ => 0,
        }
    }

    /// Returns the disk of the log, and that of the other file, unless it has failed. Ends the use of the log.
    pub fn into_disks(self) -> (D, Option<D>)
        ensures log { result.0 ≡ self.journal.disk }
        ensures other { result.1 ≡ disk_of self.other }
    {
        let FolderLog { journal, other, .. } = self;
        (journal.into_disk(), other.into_disk())
    }
}
