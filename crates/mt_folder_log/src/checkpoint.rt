//! How the log of a folder is shortened: it continues in the other file, and the rows are copied there between commits.

ghost use Rattle.std.specs.Prelude.{◌≡◌, ◌⊎◌, ◌<◌, false, List, [], length, nat_lt, None, Err, OnOk, OnErr, IfErr, IfOk, IsTrue};
ghost use Rattle.mt_frame.specs.declared.entry.Entry.{Entry};
ghost use Rattle.mt_frame.specs.declared.entry.LogHeader.{LogHeader};
ghost use Rattle.mt_journal.specs.Appending.{with_part, with_seal};
ghost use Rattle.mt_frame.specs.declared.entry.Entry.TheVariants.{Rows, Sealed};
ghost use Rattle.mt_journal.specs.Causes.{may_ask, AppendHasCause, IsTooLong};
ghost use Rattle.mt_journal.specs.Keeping.{AllAreLogs, AllSurvive, Keeps, StaysDurable};
ghost use Rattle.mt_journal.specs.Recovery.{Mixes};
ghost use Rattle.mt_types.specs.declared.row.Change.{Change};
ghost use Rattle.mt_folder_log.specs.Folder.{AllHaveHeader, AllRecover, AreNextRows, HasAll, HasChanges};
ghost use Rattle.mt_folder_log.specs.Moving.{continued, disk_of, end_of, start_of, IfFree, IfNeeded, IsAfter, IsFree, IsOfSpare, MayFail, MayMoveTo, Needs};
ghost use Rattle.mt_folder_log.specs.declared.checkpoint.Other.TheVariants.{Needed};
ghost use Rattle.mt_folder_log.specs.declared.checkpoint.TheConstants.{PART};

use crate::log::FolderLog;
use crate::starting::{as_full, cut, end_of, rows_after, start_over};
use bytes::Bytes;
use mt_folder::opening::Spare;
use mt_frame::entry::{LogHeader, Part};
use mt_journal::error::JournalError;
use mt_journal::journal::Journal;
use mt_types::copying::TryCopy;
use mt_types::key::Key;
use mt_types::refusal::Refusal;
use sqlite_disk::Disk;
use std::alloc::Global;
use std::mem;

/// How many rows a part of a checkpoint has at most.
pub const PART: u16 = 256;

/// What a checkpoint needs next.
#[derive(Clone, Copy, Debug, PartialEq, Eq)]
pub enum Round {
    /// Nothing: none is due.
    Rests,
    /// The log moves to the other file: [`FolderLog::begin`].
    Moves,
    /// The next rows are to be copied: [`FolderLog::copy`].
    Copies,
    /// All were copied: [`FolderLog::seal`].
    Seals,
}

/// The other file of a folder.
#[derive(Drop)]
pub(crate) enum Other<D: Disk + Drop> {
    // The log has all rows itself. It moves to this file when it has `most` bytes.
    Free {
        disk: D,
        most: usize,
    },
    // The log continues that of this file, which has the rows until all are copied. Those up to the key `last` were, `copied`
    // of them.
    Needed {
        disk: D,
        last: Option<Key>,
        copied: u64,
        has_all: bool,
    },
    // It has failed, or the log has no number more: the log stays where it is.
    Gone,
}

impl<D: Disk + Drop> Other<D> {
    // The other file of a log that was opened.
    pub(crate) fn of(spare: Spare<D>, least: usize) -> Other<D>
        ensures { IsOfSpare spare result }
    {
        match spare {
            Spare::Free { disk, size } => Other::free(disk, size, least),
            Spare::Needed { disk } => Other::needed(disk),
        }
    }

    // The log, which ends there, couldn't move to this file. It is tried again when the log has grown by `least` bytes.
    fn later(disk: D, end: usize, least: usize) -> Other<D>
        ensures { IsFree result }
    {
        Other::Free {
            disk,
            most: end.saturating_add(least),
        }
    }

    // The log of rows that took `size` bytes has all of them.
    fn free(disk: D, size: usize, least: usize) -> Other<D>
        ensures free { IsFree result }
        ensures disk { MayMoveTo disk result }
    {
        Other::Free {
            disk,
            most: size.saturating_add(least.max(size)),
        }
    }

    // The file before isn't needed any more, since the log has all rows itself, in `size` bytes.
    fn freed(self, size: usize, least: usize) -> Other<D>
        ensures { IfNeeded self (λ _. IsFree result) }
    {
        match self {
            Other::Needed {
                disk,
                last: _last,
                ..
            } => Other::free(disk, size, least),
            other => other,
        }
    }

    // How many rows of this part weren't copied before.
    fn more(&self, part: &Part) -> u64 {
        match self {
            Other::Needed { last, .. } => rows_after(part, last),
            _ => 0,
        }
    }

    // What was copied after a part of `more` rows that ends with this key.
    fn after(self, end: Option<Key>, more: u64, is_last: bool) -> Other<D>
        ensures { IsAfter end is_last self result }
    {
        match self {
            Other::Needed {
                disk,
                last,
                copied,
                has_all: _,
            } => Other::Needed {
                disk,
                last: end.or(last),
                copied: copied.saturating_add(more),
                has_all: is_last,
            },
            other => other,
        }
    }

    // The other file, unless it has failed.
    pub(crate) fn into_disk(self) -> Option<D>
        ensures { result ≡ disk_of self }
    {
        match self {
            Other::Free { disk, .. } => Some(disk),
            Other::Needed {
                disk,
                last: _last,
                ..
            } => Some(disk),
            Other::Gone => None,
        }
    }

    // No row was copied.
    fn needed(disk: D) -> Other<D>
        ensures begun { result ≡ Needed disk None 0 false }
        ensures needs { Needs result (λ it. it ≡ disk) }
    {
        Other::Needed {
            disk,
            last: None,
            copied: 0,
            has_all: false,
        }
    }
}

impl<D: Disk + Drop> FolderLog<D> {
    /// Makes the log durable, and moves it to the other file: what was written before stays in the file before, which has the
    /// rows until the checkpoint is sealed. Nothing is done if the other file is needed, or the log has no commits. Some ten calls
    /// of the disks.
    ///
    /// # Errors
    ///
    /// Those of [`mt_journal::opening::start`] and [`FolderLog::sync`]; the log stays where it is then. After `NoMemory`, and
    /// `DiskFull` if there is no room for the other file, it is tried again when the log has grown, or by this call. If the other
    /// file has failed, no checkpoint is made any more: `GivenUp`. `TooLong` if the log has the last generation.
    pub fn begin(&mut self) -> Result<(), JournalError>
        ensures columns { self.new.columns ≡ self.old.columns }
        ensures least { self.new.least ≡ self.old.least }
        ensures newest { OnOk result (self.new.journal.at.newest ≡ self.old.journal.at.newest) }
        ensures durable { OnOk result (StaysDurable self.old.journal.at self.new.journal.at) }
        ensures rests { self.old.journal.at.newest ≡ 0 → OnErr result ⊥ × (self.new ≡ self.old) }
        ensures before { (header : LogHeader) (entries : List Entry)
            → Keeps self.old.journal.at (D.Disk.seen self.old.journal.disk) (D.Disk.may_leave self.old.journal.disk) header entries
            → 0 < self.old.journal.at.newest
            → IfFree self.old.other (OnOk result (Needs self.new.other (λ disk. AllAreLogs header entries (D.Disk.may_leave disk)))) }
        ensures begins { 0 < self.old.journal.at.newest → IfFree self.old.other (OnOk result (Keeps self.new.journal.at (D.Disk.seen self.new.journal.disk)
            (D.Disk.may_leave self.new.journal.disk) (continued self.old.columns self.old.journal.at) [])) }

        // If the log hasn't moved, it has the entries that it had. If memory was refused, or the disk had no room, the call can be
        // made again.
        ensures stays { (header : LogHeader) (entries : List Entry)
            → Keeps self.old.journal.at (D.Disk.seen self.old.journal.disk) (D.Disk.may_leave self.old.journal.disk) header entries
            → IsTrue (may_ask self.new.journal.is_given_up (D.Disk.is_usable self.new.journal.disk))
            → OnErr result (Keeps self.new.journal.at (D.Disk.seen self.new.journal.disk) (D.Disk.may_leave self.new.journal.disk) header entries) }
        ensures again { IfFree self.old.other (result ≡ Err JournalError.NoMemory → IsFree self.new.other) }
        ensures full { IfFree self.old.other (result ≡ Err JournalError.DiskFull → IsFree self.new.other) }

        ensures heads { (header : LogHeader) (entries : List Entry)
            → Keeps self.old.journal.at (D.Disk.seen self.old.journal.disk) (D.Disk.may_leave self.old.journal.disk) header entries
            → OnErr result (AllHaveHeader header (D.Disk.may_leave self.new.journal.disk)) }
        // The folder has the same changes; and if the call failed, whatever a crash leaves has all that were durable.
        ensures changes { (changes : List Change) → HasChanges D.Disk.seen D.Disk.may_leave changes self.old
            → OnOk result (HasChanges D.Disk.seen D.Disk.may_leave changes self.new) }
        ensures recover { (changes : List Change) → HasChanges D.Disk.seen D.Disk.may_leave changes self.old
            → OnErr result (AllRecover D.Disk.may_leave changes self.old.journal.at.durable self.old.journal.at.generation self.new) }
    {
        let at = self.journal.position();
        // (a log that begins with commit 1 has all rows: one that was left without commits would hide those of this one)
        if at.newest == 0 {
            return Ok(());
        }
        let Some(generation) = at.generation.checked_add(1) else {
            return Err(JournalError::TooLong);
        };
        let disk = match mem::replace(&mut self.other, Other::Gone) {
            Other::Free { disk, .. } => disk,
            Other::Gone => return Err(JournalError::GivenUp),
            other => {
                self.other = other;
                return Ok(());
            }
        };
        let _durable = self.journal.sync()?;
        let header = LogHeader {
            columns: self.columns,
            generation,
            base: at.newest,
            run: 0,
        };
        self.move_to(disk, header)
    }

    // Moves the log to this file. If none can be made there, the log stays, and the file is tried again when the log has
    // grown.
    fn move_to(&mut self, disk: D, header: LogHeader) -> Result<(), JournalError>
        ensures newest { OnOk result (self.new.journal.at.newest ≡ header.base) }
        ensures durable { OnOk result (self.new.journal.at.durable ≡ header.base) }
        ensures before { OnOk result (self.new.other ≡ Needed self.old.journal.disk None 0 false) }
        ensures columns { self.new.columns ≡ self.old.columns }
        ensures least { self.new.least ≡ self.old.least }
        ensures spare { OnErr result ((self.new.other ≡ self.old.other) ⊎ IsFree self.new.other) }
        ensures begins { OnOk result (Keeps self.new.journal.at (D.Disk.seen self.new.journal.disk)
            (D.Disk.may_leave self.new.journal.disk) header []) }
        ensures stays { OnErr result (self.new.journal ≡ self.old.journal) }
        ensures again { result ≡ Err JournalError.NoMemory → IsFree self.new.other }
        ensures full { result ≡ Err JournalError.DiskFull → IsFree self.new.other }
    {
        let mut disk = disk;
        match start_over(self.alloc, &mut disk, header) {
            Ok(at) => {
                let before = mem::replace(&mut self.journal, Journal::new(disk, at));
                self.other = Other::needed(before.into_disk());
                Ok(())
            }
            Err(error) => {
                cut(&mut disk);
                if disk.may_be_used() {
                    self.other = Other::later(disk, self.journal.position().end, self.least);
                    return Err(as_full(error));
                }
                Err(error)
            }
        }
    }

    /// Returns the key from which on the next rows are to be copied: that of the last row that was copied, or the first key.
    ///
    /// # Errors
    ///
    /// `NoMemory`.
    pub fn start(&self) -> Result<Key, Refusal>
        ensures key { IfOk result (λ key. key ≡ start_of self.now.other) }
        ensures refused { IfErr result (λ refusal. refusal ≡ Refusal.NoMemory) }
    {
        match &self.other {
            Other::Needed {
                last: Some(last),
                ..
            } => Ok(last.copy(self.alloc)?),
            _ => Key::new(Bytes::new()),
        }
    }

    /// Writes the next rows. `part` has the first [`PART`] rows from the key [`FolderLog::start`] on, as they are after all
    /// commits of the log, or fewer if these are all. One call of the disk, and two more if zeros are written ahead.
    ///
    /// # Errors
    ///
    /// Those of [`mt_journal::journal::Journal::append_rows`], and `NoMemory`.
    pub fn copy(&mut self, part: Part) -> Result<(), JournalError>
        ensures kept { (header : LogHeader) (entries : List Entry)
            → Keeps self.old.journal.at (D.Disk.seen self.old.journal.disk) (D.Disk.may_leave self.old.journal.disk) header entries
            → IsTrue (D.Disk.is_mixing self.new.journal.disk)
            → OnOk result (Keeps self.new.journal.at (D.Disk.seen self.new.journal.disk) (D.Disk.may_leave self.new.journal.disk) header
            (with_part part entries)) }
        ensures stays { (header : LogHeader) (entries : List Entry)
            → Keeps self.old.journal.at (D.Disk.seen self.old.journal.disk) (D.Disk.may_leave self.old.journal.disk) header entries
            → IsTrue (may_ask self.new.journal.is_given_up (D.Disk.is_usable self.new.journal.disk))
            → OnErr result (Keeps self.new.journal.at (D.Disk.seen self.new.journal.disk) (D.Disk.may_leave self.new.journal.disk) header entries) }
        ensures columns { self.new.columns ≡ self.old.columns }
        ensures least { self.new.least ≡ self.old.least }
        ensures newest { OnOk result (self.new.journal.at.newest ≡ self.old.journal.at.newest) }
        ensures durable { OnOk result (StaysDurable self.old.journal.at self.new.journal.at) }
        ensures cause { (result ≡ Err JournalError.NoMemory) ⊎ AppendHasCause result
            (may_ask self.old.journal.is_given_up (D.Disk.is_usable self.old.journal.disk)) (IsTooLong self.old.journal.at (Rows part))
            (D.Disk.faults self.old.journal.disk) (D.Disk.faults self.new.journal.disk) }
        ensures after { OnOk result (IsAfter (end_of part) (nat_lt (length part.rows) PART) self.old.other self.new.other) }
        ensures heads { (header : LogHeader) (entries : List Entry)
            → Keeps self.old.journal.at (D.Disk.seen self.old.journal.disk) (D.Disk.may_leave self.old.journal.disk) header entries
            → IsTrue (D.Disk.is_mixing self.new.journal.disk)
            → OnErr result (AllHaveHeader header (D.Disk.may_leave self.new.journal.disk)) }
        ensures changes { (changes : List Change) → HasChanges D.Disk.seen D.Disk.may_leave changes self.old
            → AreNextRows self.old.columns changes self.old.journal.at.newest self.old.other part
            → IsTrue (D.Disk.is_mixing self.new.journal.disk)
            → IfNeeded self.old.other (λ copied. OnOk result (HasChanges D.Disk.seen D.Disk.may_leave changes self.new)) }
        ensures recover { (changes : List Change) → HasChanges D.Disk.seen D.Disk.may_leave changes self.old
            → IsTrue (D.Disk.is_mixing self.new.journal.disk)
            → IfNeeded self.old.other (λ copied. OnErr result (AllRecover D.Disk.may_leave changes self.old.journal.at.durable
            self.old.journal.at.generation self.new)) }
    {
        let is_last = part.rows.len() < usize::from(PART);
        let end = end_of(self.alloc, &part)?;
        let more = self.other.more(&part);
        self.journal.append_rows(self.alloc, part)?;
        let other = mem::replace(&mut self.other, Other::Gone);
        self.other = other.after(end, more, is_last);
        Ok(())
    }

    // Writes the seal of a checkpoint of this many rows, and makes it durable.
    fn write_seal(&mut self, copied: u64) -> Result<(), JournalError>
        ensures sealed { (header : LogHeader) (entries : List Entry)
            → Keeps self.old.journal.at (D.Disk.seen self.old.journal.disk) (D.Disk.may_leave self.old.journal.disk) header entries
            → Mixes D.Disk.is_mixing
            → OnOk result (AllAreLogs header (with_seal copied entries) (D.Disk.may_leave self.new.journal.disk)) }
        ensures kept { (header : LogHeader) (entries : List Entry)
            → Keeps self.old.journal.at (D.Disk.seen self.old.journal.disk) (D.Disk.may_leave self.old.journal.disk) header entries
            → Mixes D.Disk.is_mixing
            → OnOk result (Keeps self.new.journal.at (D.Disk.seen self.new.journal.disk) (D.Disk.may_leave self.new.journal.disk) header
            (with_seal copied entries)) }
        ensures stays { (header : LogHeader) (entries : List Entry)
            → Keeps self.old.journal.at (D.Disk.seen self.old.journal.disk) (D.Disk.may_leave self.old.journal.disk) header entries
            → IsTrue (may_ask self.new.journal.is_given_up (D.Disk.is_usable self.new.journal.disk))
            → OnErr result (Keeps self.new.journal.at (D.Disk.seen self.new.journal.disk) (D.Disk.may_leave self.new.journal.disk) header entries) }
        ensures crash { (header : LogHeader) (entries : List Entry)
            → Keeps self.old.journal.at (D.Disk.seen self.old.journal.disk) (D.Disk.may_leave self.old.journal.disk) header entries
            → Mixes D.Disk.is_mixing
            → OnErr result (AllSurvive header (with_seal copied entries) self.old.journal.at.durable (D.Disk.may_leave self.new.journal.disk)) }
        ensures cause { IfErr result (λ error. MayFail error (may_ask self.old.journal.is_given_up (D.Disk.is_usable self.old.journal.disk))
            (IsTooLong self.old.journal.at (Sealed copied)) (D.Disk.faults self.old.journal.disk) (D.Disk.faults self.new.journal.disk)) }
        ensures newest { OnOk result (self.new.journal.at.newest ≡ self.old.journal.at.newest) }
        ensures durable { OnOk result (StaysDurable self.old.journal.at self.new.journal.at) }
        ensures other { self.new.other ≡ self.old.other }
        ensures columns { self.new.columns ≡ self.old.columns }
        ensures least { self.new.least ≡ self.old.least }
    {
        self.journal.append_seal(self.alloc, copied)?;
        self.journal.sync()?;
        Ok(())
    }

    /// Writes that the log has all rows, makes it durable, and frees the other file. Two calls of the disk.
    ///
    /// # Errors
    ///
    /// Those of [`mt_journal::journal::Journal::append_seal`] and [`FolderLog::sync`].
    pub fn seal(&mut self) -> Result<(), JournalError>
        ensures columns { self.new.columns ≡ self.old.columns }
        ensures least { self.new.least ≡ self.old.least }
        ensures newest { OnOk result (self.new.journal.at.newest ≡ self.old.journal.at.newest) }
        ensures durable { OnOk result (StaysDurable self.old.journal.at self.new.journal.at) }

        ensures cause { IfNeeded self.old.other (λ copied. IfErr result (λ error. MayFail error
            (may_ask self.old.journal.is_given_up (D.Disk.is_usable self.old.journal.disk)) (IsTooLong self.old.journal.at (Sealed copied))
            (D.Disk.faults self.old.journal.disk) (D.Disk.faults self.new.journal.disk))) }
        ensures sealed { (header : LogHeader) (entries : List Entry)
            → Keeps self.old.journal.at (D.Disk.seen self.old.journal.disk) (D.Disk.may_leave self.old.journal.disk) header entries
            → Mixes D.Disk.is_mixing
            → IfNeeded self.old.other (λ copied. OnOk result (IsFree self.new.other
            × AllAreLogs header (with_seal copied entries) (D.Disk.may_leave self.new.journal.disk)
            × Keeps self.new.journal.at (D.Disk.seen self.new.journal.disk) (D.Disk.may_leave self.new.journal.disk) header
            (with_seal copied entries))) }
        ensures stays { (header : LogHeader) (entries : List Entry)
            → Keeps self.old.journal.at (D.Disk.seen self.old.journal.disk) (D.Disk.may_leave self.old.journal.disk) header entries
            → IsTrue (may_ask self.new.journal.is_given_up (D.Disk.is_usable self.new.journal.disk))
            → OnErr result (Keeps self.new.journal.at (D.Disk.seen self.new.journal.disk) (D.Disk.may_leave self.new.journal.disk) header entries) }

        ensures heads { (header : LogHeader) (entries : List Entry)
            → Keeps self.old.journal.at (D.Disk.seen self.old.journal.disk) (D.Disk.may_leave self.old.journal.disk) header entries
            → Mixes D.Disk.is_mixing
            → OnErr result (AllHaveHeader header (D.Disk.may_leave self.new.journal.disk)) }
        // If all rows were copied, the folder has the same changes; and if the call failed, whatever a crash leaves has all that
        // were durable.
        ensures changes { (changes : List Change) → HasChanges D.Disk.seen D.Disk.may_leave changes self.old
            → HasAll self.old.other → Mixes D.Disk.is_mixing
            → OnOk result (HasChanges D.Disk.seen D.Disk.may_leave changes self.new) }
        ensures recover { (changes : List Change) → HasChanges D.Disk.seen D.Disk.may_leave changes self.old
            → HasAll self.old.other → Mixes D.Disk.is_mixing
            → OnErr result (AllRecover D.Disk.may_leave changes self.old.journal.at.durable self.old.journal.at.generation self.new) }
    {
        let copied = match &self.other {
            Other::Needed { copied, .. } => *copied,
            _ => return Ok(()),
        };
        self.write_seal(copied)?;
        let size = self.journal.position().end;
        let other = mem::replace(&mut self.other, Other::Gone);
        self.other = other.freed(size, self.least);
        Ok(())
    }
}
