//! A log that is in use: groups of commits are appended and made durable.

ghost use Rattle.std.specs.Prelude.{◌≡◌, ◌⊎◌, ◌+◌, ◌++◌, ◌∷◌, [], ◌<◌, ◌≤◌, ◌^◌, ℕ, List, length, replicate, Err, OnOk, OnErr, IfOk, IsTrue, IsFalse, true};
ghost use Rattle.mt_frame.specs.declared.entry.Entry.{Entry};
ghost use Rattle.mt_frame.specs.declared.entry.LogHeader.{LogHeader};
ghost use Rattle.mt_frame.specs.declared.entry.Entry.TheVariants.{Closed};
ghost use Rattle.mt_frame.specs.declared.limits.TheConstants.{MAX_RECORDS};
ghost use Rattle.mt_frame.specs.Fits.{CountFits};
ghost use Rattle.mt_journal.specs.Log.{AreNumbered, last_number};
ghost use Rattle.mt_journal.specs.Keeping.{Keeps, KeepsFronts, AllAreLogs, AllSurvive, StaysDurable};
ghost use Rattle.mt_journal.specs.Appending.{with_commits, with_end};
ghost use Rattle.mt_journal.specs.Causes.{may_ask, next_commits, LacksPlace, IsTooLong, AppendHasCause, SyncHasCause, TellsFull, GivesUp, HasRoom, GoesOn};

use crate::error::JournalError;
use crate::growing::{GrowError, grow};
use crate::position::Position;
use crate::steps::{sync_log, write_frame};
use crate::zeros::zeros;
use mt_frame::encode::encode;
use mt_frame::entry::{Commits, Entry, Record};
use mt_types::items::Items;
use sqlite_disk::{Disk, is_no_room};
use std::alloc::Global;

/// How many zeros are written ahead at once.
pub const ZEROS_AHEAD: usize = 1_048_576;

/// A log that is in use. It owns the disk: nothing else may write to the file.
#[derive(Drop)]
pub struct Journal<D: Disk> {
    disk: D,
    at: Position,
    is_given_up: bool,
}

impl<D: Disk + Drop> Journal<D> {
    /// Returns the journal of the log that this disk has, which ends there: as [`crate::opening::start`] made it, or
    /// [`crate::opening::recover`] read it.
    pub fn new(disk: D, at: Position) -> Journal<D>
        ensures disk { result.disk ≡ disk }
        ensures at { result.at ≡ at }
        ensures asks { IsFalse result.is_given_up }
    {
        Journal {
            disk,
            at,
            is_given_up: false,
        }
    }

    /// Returns where the log ends, and the numbers of its last commit and of the last that is durable. Whatever a crash
    /// leaves now is a log of the first entries, among them each commit that is durable.
    pub fn position(&self) -> Position
        ensures value { result ≡ self.now.at }
        ensures survive { (header : LogHeader) (entries : List Entry)
            → Keeps self.now.at (D.Disk.seen self.now.disk) (D.Disk.may_leave self.now.disk) header entries
            → AllSurvive header entries result.durable (D.Disk.may_leave self.now.disk) }
    {
        self.at
    }

    /// Returns the disk, and ends the use of the log.
    pub fn into_disk(self) -> D
        ensures { result ≡ self.disk }
    {
        let Journal {
            disk,
            at: _,
            is_given_up: _,
        } = self;
        disk
    }

    // Whether the disk may be asked.
    pub(crate) fn is_usable(&self) -> bool
        ensures usable { IsTrue result → IsTrue (D.Disk.is_usable self.now.disk) }
        ensures exact { result ≡ may_ask self.now.is_given_up (D.Disk.is_usable self.now.disk) }
    {
        !self.is_given_up && self.disk.may_be_used()
    }

    // Writes zeros ahead.
    fn add_zeros(&mut self, zeros: &[u8]) -> Result<(), JournalError>
        requires usable { IsTrue (D.Disk.is_usable self.old.disk) }
        requires zeros { zeros.now ≡ replicate (length zeros.now) 0 }
        requires fits { self.old.at.room + length zeros.now < 2 ^ 64 }
        ensures kept { (header : LogHeader) (entries : List Entry)
            → Keeps self.old.at (D.Disk.seen self.old.disk) (D.Disk.may_leave self.old.disk) header entries
            → OnOk result (Keeps self.new.at (D.Disk.seen self.new.disk) (D.Disk.may_leave self.new.disk) header entries) }
        ensures crash { (header : LogHeader) (entries : List Entry)
            → Keeps self.old.at (D.Disk.seen self.old.disk) (D.Disk.may_leave self.old.disk) header entries
            → AllSurvive header entries self.old.at.durable (D.Disk.may_leave self.new.disk) }
        ensures fronts { KeepsFronts self.old.at.room (D.Disk.may_leave self.old.disk) (D.Disk.may_leave self.new.disk) }
        ensures usable { OnOk result (IsTrue (D.Disk.is_usable self.new.disk)) }
        ensures end { self.new.at.end ≡ self.old.at.end }
        ensures newest { self.new.at.newest ≡ self.old.at.newest }
        ensures durable { StaysDurable self.old.at self.new.at }
        ensures room { OnOk result (self.new.at.room ≡ self.old.at.room + length zeros.now) }
        ensures cause { AppendHasCause result true ⊥
            (D.Disk.faults self.old.disk) (D.Disk.faults self.new.disk) }
        ensures full { TellsFull result (D.Disk.tally_of self.old.disk).refused (D.Disk.tally_of self.new.disk).refused }
        ensures stays { (header : LogHeader) (entries : List Entry)
            → Keeps self.old.at (D.Disk.seen self.old.disk) (D.Disk.may_leave self.old.disk) header entries
            → IsTrue (may_ask self.new.is_given_up (D.Disk.is_usable self.new.disk))
            → Keeps self.new.at (D.Disk.seen self.new.disk) (D.Disk.may_leave self.new.disk) header entries }
        ensures gives_up { GivesUp self.old.is_given_up self.new.is_given_up (D.Disk.is_usable self.new.disk) ⊥ }
        ensures goes_on { GoesOn result (may_ask self.old.is_given_up (D.Disk.is_usable self.old.disk))
            (may_ask self.new.is_given_up (D.Disk.is_usable self.new.disk)) }
        ensures clean { IsTrue (D.Disk.is_clean self.new.disk) → IsTrue (D.Disk.is_clean self.old.disk) }
    {
        match grow(&mut self.disk, &mut self.at, zeros) {
            Ok(()) => Ok(()),
            Err(GrowError::Write(error)) => {
                if is_no_room(&error) {
                    return Err(JournalError::DiskFull);
                }
                Err(JournalError::Disk(error))
            }
            Err(GrowError::Sync(error)) => {
                self.is_given_up = true;
                Err(JournalError::Disk(error))
            }
        }
    }

    // Whether `count` bytes and one zero have room.
    fn has_room(&self, count: usize) -> bool
        ensures some { IsTrue result → self.now.at.end + count < self.now.at.room }
        ensures none { IsFalse result → self.now.at.room ≤ self.now.at.end + count }
    {
        self.at.room.saturating_sub(self.at.end) > count
    }

    // Makes room for `count` bytes, if there is less.
    fn make_room(&mut self, alloc: Global, count: usize) -> Result<(), JournalError>
        requires { IsTrue (D.Disk.is_usable self.old.disk) }
        ensures kept { (header : LogHeader) (entries : List Entry)
            → Keeps self.old.at (D.Disk.seen self.old.disk) (D.Disk.may_leave self.old.disk) header entries
            → OnOk result (Keeps self.new.at (D.Disk.seen self.new.disk) (D.Disk.may_leave self.new.disk) header entries) }
        ensures crash { (header : LogHeader) (entries : List Entry)
            → Keeps self.old.at (D.Disk.seen self.old.disk) (D.Disk.may_leave self.old.disk) header entries
            → AllSurvive header entries self.old.at.durable (D.Disk.may_leave self.new.disk) }
        ensures fronts { KeepsFronts self.old.at.room (D.Disk.may_leave self.old.disk) (D.Disk.may_leave self.new.disk) }
        ensures usable { OnOk result (IsTrue (D.Disk.is_usable self.new.disk)) }
        ensures room { OnOk result (self.new.at.end + count < self.new.at.room) }
        ensures end { self.new.at.end ≡ self.old.at.end }
        ensures newest { self.new.at.newest ≡ self.old.at.newest }
        ensures durable { StaysDurable self.old.at self.new.at }
        ensures cause { AppendHasCause result true (LacksPlace self.old.at count)
            (D.Disk.faults self.old.disk) (D.Disk.faults self.new.disk) }
        ensures full { TellsFull result (D.Disk.tally_of self.old.disk).refused (D.Disk.tally_of self.new.disk).refused }
        ensures stays { (header : LogHeader) (entries : List Entry)
            → Keeps self.old.at (D.Disk.seen self.old.disk) (D.Disk.may_leave self.old.disk) header entries
            → IsTrue (may_ask self.new.is_given_up (D.Disk.is_usable self.new.disk))
            → Keeps self.new.at (D.Disk.seen self.new.disk) (D.Disk.may_leave self.new.disk) header entries }
        ensures gives_up { GivesUp self.old.is_given_up self.new.is_given_up (D.Disk.is_usable self.new.disk) ⊥ }
        ensures goes_on { GoesOn result (may_ask self.old.is_given_up (D.Disk.is_usable self.old.disk))
            (may_ask self.new.is_given_up (D.Disk.is_usable self.new.disk)) }
        ensures clean { IsTrue (D.Disk.is_clean self.new.disk) → IsTrue (D.Disk.is_clean self.old.disk) }
    {
        if self.has_room(count) {
            return Ok(());
        }
        let ahead = count.saturating_add(1).max(ZEROS_AHEAD);
        if usize::MAX - self.at.room <= ahead {
            return Err(JournalError::TooLong);
        }
        let zeros = zeros(alloc, ahead)?;
        self.add_zeros(&zeros)?;
        if self.has_room(count) {
            return Ok(());
        }
        Err(JournalError::TooLong)
    }

    // Writes an entry with `count` commits at the end, after zeros if there is no room for it.
    pub(crate) fn put(
        &mut self,
        alloc: Global,
        entry: &Entry,
        count: u64,
    ) -> Result<(), JournalError>
        requires usable { IsTrue (D.Disk.is_usable self.old.disk) }
        requires follows { AreNumbered self.old.at.newest (entry.now ∷ []) }
        requires counts { last_number self.old.at.newest (entry.now ∷ []) ≡ self.old.at.newest + count }
        ensures kept { (header : LogHeader) (entries : List Entry)
            → Keeps self.old.at (D.Disk.seen self.old.disk) (D.Disk.may_leave self.old.disk) header entries
            → IsTrue (D.Disk.is_mixing self.new.disk)
            → OnOk result (Keeps self.new.at (D.Disk.seen self.new.disk) (D.Disk.may_leave self.new.disk) header (entries ++ entry.now ∷ [])) }
        ensures crash { (header : LogHeader) (entries : List Entry)
            → Keeps self.old.at (D.Disk.seen self.old.disk) (D.Disk.may_leave self.old.disk) header entries
            → IsTrue (D.Disk.is_mixing self.new.disk)
            → AllSurvive header (entries ++ entry.now ∷ []) self.old.at.durable (D.Disk.may_leave self.new.disk) }
        ensures fronts { (header : LogHeader) (entries : List Entry)
            → Keeps self.old.at (D.Disk.seen self.old.disk) (D.Disk.may_leave self.old.disk) header entries
            → KeepsFronts self.old.at.end (D.Disk.may_leave self.old.disk) (D.Disk.may_leave self.new.disk) }
        ensures newest { OnOk result (self.new.at.newest ≡ self.old.at.newest + count) }
        ensures durable { StaysDurable self.old.at self.new.at }
        ensures usable { OnOk result (IsTrue (D.Disk.is_usable self.new.disk)) }
        ensures fits { self.old.at.newest < 2 ^ 64 }
        ensures many { (CountFits entry.now → ⊥) → result ≡ Err JournalError.TooLong }
        ensures cause { AppendHasCause result true ((2 ^ 64 ≤ self.old.at.newest + count) ⊎ IsTooLong self.old.at entry.now)
            (D.Disk.faults self.old.disk) (D.Disk.faults self.new.disk) }
        ensures full { TellsFull result (D.Disk.tally_of self.old.disk).refused (D.Disk.tally_of self.new.disk).refused }
        ensures stays { (header : LogHeader) (entries : List Entry)
            → Keeps self.old.at (D.Disk.seen self.old.disk) (D.Disk.may_leave self.old.disk) header entries
            → IsTrue (may_ask self.new.is_given_up (D.Disk.is_usable self.new.disk))
            → OnErr result (Keeps self.new.at (D.Disk.seen self.new.disk) (D.Disk.may_leave self.new.disk) header entries) }
        ensures gives_up { GivesUp self.old.is_given_up self.new.is_given_up (D.Disk.is_usable self.new.disk)
            (HasRoom self.old.at self.new.at entry.now) }
        ensures goes_on { GoesOn result (may_ask self.old.is_given_up (D.Disk.is_usable self.old.disk))
            (may_ask self.new.is_given_up (D.Disk.is_usable self.new.disk)) }
        ensures clean { IsTrue (D.Disk.is_clean self.new.disk) → IsTrue (D.Disk.is_clean self.old.disk) }
    {
        if u64::MAX - self.at.newest < count {
            return Err(JournalError::TooLong);
        }
        let frame = encode(alloc, self.at.generation, self.at.end as u64, entry)?;
        self.make_room(alloc, frame.len())?;
        if let Err(error) = write_frame(&mut self.disk, &mut self.at, &frame, count) {
            self.is_given_up = true;
            return Err(JournalError::Disk(error));
        }
        Ok(())
    }

    /// Writes the next commits, each with what it left, after those before. They are not durable before a `sync`.
    /// Returns the number of the last of them. One call of the disk, and two more where zeros are written ahead.
    ///
    /// # Errors
    ///
    /// `DiskFull`, `TooLong` and `NoMemory`: the journal is as before. `Disk`: the disk failed. If a write of the commits
    /// or a sync failed, the journal is given up: each later call is refused with `GivenUp`. A crash then leaves some of
    /// the first entries, with those of this call at the end, and each commit that was durable.
    pub fn append(&mut self, alloc: Global, records: Items<Record>) -> Result<u64, JournalError>
        ensures kept { (header : LogHeader) (entries : List Entry)
            → Keeps self.old.at (D.Disk.seen self.old.disk) (D.Disk.may_leave self.old.disk) header entries
            → IsTrue (D.Disk.is_mixing self.new.disk)
            → OnOk result (Keeps self.new.at (D.Disk.seen self.new.disk) (D.Disk.may_leave self.new.disk) header (with_commits self.old.at records entries)) }
        ensures crash { (header : LogHeader) (entries : List Entry)
            → Keeps self.old.at (D.Disk.seen self.old.disk) (D.Disk.may_leave self.old.disk) header entries
            → IsTrue (D.Disk.is_mixing self.new.disk)
            → AllSurvive header (with_commits self.old.at records entries) self.old.at.durable (D.Disk.may_leave self.new.disk) }
        ensures fronts { (header : LogHeader) (entries : List Entry)
            → Keeps self.old.at (D.Disk.seen self.old.disk) (D.Disk.may_leave self.old.disk) header entries
            → KeepsFronts self.old.at.end (D.Disk.may_leave self.old.disk) (D.Disk.may_leave self.new.disk) }
        ensures number { IfOk result (λ number. number ≡ self.old.at.newest + length records) }
        ensures newest { OnOk result (self.new.at.newest ≡ self.old.at.newest + length records) }
        ensures durable { StaysDurable self.old.at self.new.at }
        ensures cause { AppendHasCause result
            (may_ask self.old.is_given_up (D.Disk.is_usable self.old.disk))
            ((2 ^ 64 ≤ self.old.at.newest + length records + 1) ⊎ IsTooLong self.old.at (next_commits self.old.at records))
            (D.Disk.faults self.old.disk) (D.Disk.faults self.new.disk) }
        ensures spent { IsTrue (may_ask self.old.is_given_up (D.Disk.is_usable self.old.disk))
            → (2 ^ 64 ≤ self.old.at.newest + length records + 1) ⊎ (MAX_RECORDS < length records) → result ≡ Err JournalError.TooLong }
        ensures full { TellsFull result (D.Disk.tally_of self.old.disk).refused (D.Disk.tally_of self.new.disk).refused }
        ensures stays { (header : LogHeader) (entries : List Entry)
            → Keeps self.old.at (D.Disk.seen self.old.disk) (D.Disk.may_leave self.old.disk) header entries
            → IsTrue (may_ask self.new.is_given_up (D.Disk.is_usable self.new.disk))
            → OnErr result (Keeps self.new.at (D.Disk.seen self.new.disk) (D.Disk.may_leave self.new.disk) header entries) }
        ensures gives_up { GivesUp self.old.is_given_up self.new.is_given_up (D.Disk.is_usable self.new.disk)
            (HasRoom self.old.at self.new.at (next_commits self.old.at records)) }
        ensures goes_on { GoesOn result (may_ask self.old.is_given_up (D.Disk.is_usable self.old.disk))
            (may_ask self.new.is_given_up (D.Disk.is_usable self.new.disk)) }
        ensures asks_nothing { result ≡ Err JournalError.GivenUp → self.new ≡ self.old }
    {
        if !self.is_usable() {
            return Err(JournalError::GivenUp);
        }
        let count = records.len() as u64;
        if u64::MAX - self.at.newest <= count {
            return Err(JournalError::TooLong);
        }
        let entry = Entry::Commits(Commits {
            first: self.at.newest + 1,
            durable: self.at.durable,
            records,
        });
        self.put(alloc, &entry, count)?;
        Ok(self.at.newest)
    }

    /// Makes all that was written durable, and returns the number of the last commit. A crash right after leaves a log of
    /// all entries. One call of the disk.
    ///
    /// # Errors
    ///
    /// `Disk`: the disk failed, and the journal is given up. `GivenUp` if it was before.
    pub fn sync(&mut self) -> Result<u64, JournalError>
        ensures kept { (header : LogHeader) (entries : List Entry)
            → Keeps self.old.at (D.Disk.seen self.old.disk) (D.Disk.may_leave self.old.disk) header entries
            → OnOk result (Keeps self.new.at (D.Disk.seen self.new.disk) (D.Disk.may_leave self.new.disk) header entries) }
        ensures crash { (header : LogHeader) (entries : List Entry)
            → Keeps self.old.at (D.Disk.seen self.old.disk) (D.Disk.may_leave self.old.disk) header entries
            → AllSurvive header entries self.old.at.durable (D.Disk.may_leave self.new.disk) }
        ensures whole { (header : LogHeader) (entries : List Entry)
            → Keeps self.old.at (D.Disk.seen self.old.disk) (D.Disk.may_leave self.old.disk) header entries
            → OnOk result (AllAreLogs header entries (D.Disk.may_leave self.new.disk)) }
        ensures fewer { (left : List ℕ) → D.Disk.may_leave self.new.disk left → D.Disk.may_leave self.old.disk left }
        ensures number { IfOk result (λ number. number ≡ self.old.at.newest) }
        ensures durable { OnOk result (self.new.at.durable ≡ self.old.at.newest) }
        ensures newest { OnOk result (self.new.at.newest ≡ self.old.at.newest) }
        ensures cause { SyncHasCause result (may_ask self.old.is_given_up (D.Disk.is_usable self.old.disk))
            (D.Disk.faults self.old.disk) (D.Disk.faults self.new.disk) }
        ensures full { TellsFull result (D.Disk.tally_of self.old.disk).refused (D.Disk.tally_of self.new.disk).refused }
        ensures goes_on { OnOk result (IsTrue (may_ask self.new.is_given_up (D.Disk.is_usable self.new.disk))) }
        ensures stops { OnErr result (IsFalse (may_ask self.new.is_given_up (D.Disk.is_usable self.new.disk))) }
        ensures asks_nothing { result ≡ Err JournalError.GivenUp → self.new ≡ self.old }
    {
        if !self.is_usable() {
            return Err(JournalError::GivenUp);
        }
        if let Err(error) = sync_log(&mut self.disk, &mut self.at) {
            self.is_given_up = true;
            return Err(JournalError::Disk(error));
        }
        Ok(self.at.durable)
    }

    /// Writes that the log was closed after its last commit. It is not durable before a `sync`. One call of the disk, and
    /// two more where zeros are written ahead.
    ///
    /// # Errors
    ///
    /// Those of `append`.
    pub fn append_end(&mut self, alloc: Global) -> Result<(), JournalError>
        ensures kept { (header : LogHeader) (entries : List Entry)
            → Keeps self.old.at (D.Disk.seen self.old.disk) (D.Disk.may_leave self.old.disk) header entries
            → IsTrue (D.Disk.is_mixing self.new.disk)
            → OnOk result (Keeps self.new.at (D.Disk.seen self.new.disk) (D.Disk.may_leave self.new.disk) header (with_end self.old.at entries)) }
        ensures crash { (header : LogHeader) (entries : List Entry)
            → Keeps self.old.at (D.Disk.seen self.old.disk) (D.Disk.may_leave self.old.disk) header entries
            → IsTrue (D.Disk.is_mixing self.new.disk)
            → AllSurvive header (with_end self.old.at entries) self.old.at.durable (D.Disk.may_leave self.new.disk) }
        ensures fronts { (header : LogHeader) (entries : List Entry)
            → Keeps self.old.at (D.Disk.seen self.old.disk) (D.Disk.may_leave self.old.disk) header entries
            → KeepsFronts self.old.at.end (D.Disk.may_leave self.old.disk) (D.Disk.may_leave self.new.disk) }
        ensures newest { OnOk result (self.new.at.newest ≡ self.old.at.newest) }
        ensures durable { StaysDurable self.old.at self.new.at }
        ensures cause { AppendHasCause result
            (may_ask self.old.is_given_up (D.Disk.is_usable self.old.disk))
            (IsTooLong self.old.at (Closed self.old.at.newest))
            (D.Disk.faults self.old.disk) (D.Disk.faults self.new.disk) }
        ensures full { TellsFull result (D.Disk.tally_of self.old.disk).refused (D.Disk.tally_of self.new.disk).refused }
        ensures stays { (header : LogHeader) (entries : List Entry)
            → Keeps self.old.at (D.Disk.seen self.old.disk) (D.Disk.may_leave self.old.disk) header entries
            → IsTrue (may_ask self.new.is_given_up (D.Disk.is_usable self.new.disk))
            → OnErr result (Keeps self.new.at (D.Disk.seen self.new.disk) (D.Disk.may_leave self.new.disk) header entries) }
        ensures gives_up { GivesUp self.old.is_given_up self.new.is_given_up (D.Disk.is_usable self.new.disk)
            (HasRoom self.old.at self.new.at (Closed self.old.at.newest)) }
        ensures goes_on { GoesOn result (may_ask self.old.is_given_up (D.Disk.is_usable self.old.disk))
            (may_ask self.new.is_given_up (D.Disk.is_usable self.new.disk)) }
        ensures asks_nothing { result ≡ Err JournalError.GivenUp → self.new ≡ self.old }
        ensures clean { IsTrue (D.Disk.is_clean self.new.disk) → IsTrue (D.Disk.is_clean self.old.disk) }
    {
        if !self.is_usable() {
            return Err(JournalError::GivenUp);
        }
        let entry = Entry::Closed(self.at.newest);
        self.put(alloc, &entry, 0)
    }
}
