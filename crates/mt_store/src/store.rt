//! A map of one caller whose commits are in a log on a disk.

ghost use Rattle.std.specs.Prelude.{◌≡◌, ◌⊎◌, ◌↔◌, ◌≤◌, List, Err, OnOk, OnErr, IfOk, IfErr, IsTrue, IsFalse};
ghost use Rattle.mt_types.specs.Limits.{open_fault};
ghost use Rattle.mt_types.specs.declared.row.Change.{Change};
ghost use Rattle.mt_commit.specs.Log.{newest};
ghost use Rattle.mt_journal.specs.Causes.{may_ask, GoesOn, TellsFull};
ghost use Rattle.mt_store.specs.Causes.{AreTooLong, ChangeHasCause, IfUnasked, IsBehind, StoreSyncHasCause, WriteHasCause, of_log, options_fault};
ghost use Rattle.mt_store.specs.Changing.{IsLogged};
ghost use Rattle.mt_store.specs.Stored.{AllRecover, IsStored};

use crate::error::StoreError;
use mt_index::options::Options;
use mt_journal::error::JournalError;
use mt_journal::journal::Journal;
use mt_map::map::Map;
use mt_replay::records::records_of;
use mt_types::limits::MAX_RANGE;
use sqlite_disk::Disk;
use std::alloc::Global;

/// A map whose commits are in a log on a disk. Each change is made in memory, and then its commit is written to the log.
/// After a `sync` no crash undoes it.
#[derive(Drop)]
pub struct Store<D: Disk + Drop> {
    pub(crate) alloc: Global,
    pub(crate) map: Map,
    pub(crate) journal: Journal<D>,
}

// For how many commits the map keeps what is to be written to the log.
const KEPT: u64 = 1000;

// The options of a map whose log keeps the deltas that are to be written.
pub(crate) fn with_retention(options: Options) -> Options
    ensures columns { result.columns ≡ options.columns }
    ensures fault { open_fault result.columns result.log_capacity result.log_retention ≡ options_fault options }
{
    Options {
        log_retention: options.log_retention.max(KEPT),
        ..options
    }
}

impl<D: Disk + Drop> Store<D> {
    /// Returns the map, to be read.
    pub fn map(&self) -> &Map
        ensures { result.now ≡ self.now.map }
    {
        &self.map
    }

    /// Returns the number of the last commit that no crash undoes. Whatever a crash leaves of the file now,
    /// [`Store::open`] finds exactly the rows after the first of the map's commits, with their versions, and at least those
    /// up to this number.
    pub fn durable(&self) -> u64
        ensures found { (changes : List Change)
            → IsStored changes self.now.map.machine self.now.journal.at (D.Disk.seen self.now.journal.disk)
            (D.Disk.may_leave self.now.journal.disk)
            → AllRecover changes self.now.map.machine result (D.Disk.may_leave self.now.journal.disk) }
        ensures number { result ≡ self.now.journal.at.durable }
    {
        self.journal.position().durable
    }

    // Whether the log lacks a commit.
    pub(crate) fn is_behind(&self) -> bool
        ensures exact { IsTrue result ↔ IsBehind self.now.map.machine self.now.journal.at }
        ensures all { IsFalse result → newest self.now.map.machine.log ≤ self.now.journal.at.newest }
        ensures found { (changes : List Change)
            → IsStored changes self.now.map.machine self.now.journal.at (D.Disk.seen self.now.journal.disk)
            (D.Disk.may_leave self.now.journal.disk)
            → AllRecover changes self.now.map.machine self.now.journal.at.durable (D.Disk.may_leave self.now.journal.disk) }
    {
        self.journal.position().newest < self.map.commits()
    }

    /// Writes the commits that the log lacks, if it lacks some: at most the next thousand. One call of the disk, and two
    /// more if zeros are written ahead.
    ///
    /// # Errors
    ///
    /// Those of [`Journal::append`], and `NoMemory`.
    pub fn write(&mut self) -> Result<(), JournalError>
        ensures map { self.new.map ≡ self.old.map }
        ensures stored { (changes : List Change)
            → IsStored changes self.old.map.machine self.old.journal.at (D.Disk.seen self.old.journal.disk)
            (D.Disk.may_leave self.old.journal.disk)
            → IsTrue (D.Disk.is_mixing self.new.journal.disk)
            → OnOk result (IsStored changes self.new.map.machine self.new.journal.at (D.Disk.seen self.new.journal.disk)
            (D.Disk.may_leave self.new.journal.disk)) }
        ensures found { (changes : List Change)
            → IsStored changes self.old.map.machine self.old.journal.at (D.Disk.seen self.old.journal.disk)
            (D.Disk.may_leave self.old.journal.disk)
            → IsTrue (D.Disk.is_mixing self.new.journal.disk)
            → AllRecover changes self.new.map.machine self.old.journal.at.durable (D.Disk.may_leave self.new.journal.disk) }
        ensures cause { WriteHasCause result (may_ask self.old.journal.is_given_up (D.Disk.is_usable self.old.journal.disk))
            (AreTooLong self.old.map.machine self.old.journal.at)
            (D.Disk.faults self.old.journal.disk) (D.Disk.faults self.new.journal.disk) }
        ensures full { TellsFull result (D.Disk.tally_of self.old.journal.disk).refused (D.Disk.tally_of self.new.journal.disk).refused }
        ensures goes_on { GoesOn result (may_ask self.old.journal.is_given_up (D.Disk.is_usable self.old.journal.disk))
            (may_ask self.new.journal.is_given_up (D.Disk.is_usable self.new.journal.disk)) }
        ensures stays { (changes : List Change)
            → IsStored changes self.old.map.machine self.old.journal.at (D.Disk.seen self.old.journal.disk)
            (D.Disk.may_leave self.old.journal.disk)
            → IsTrue (may_ask self.new.journal.is_given_up (D.Disk.is_usable self.new.journal.disk))
            → OnErr result (IsStored changes self.new.map.machine self.new.journal.at (D.Disk.seen self.new.journal.disk)
            (D.Disk.may_leave self.new.journal.disk)) }
        ensures asks_nothing { result ≡ Err JournalError.GivenUp → self.new ≡ self.old }
    {
        let from = self.journal.position().newest;
        let Ok(deltas) = self.map.feed(from, MAX_RANGE) else {
            return Err(JournalError::NoMemory);
        };
        let Ok(records) = records_of(self.alloc, &deltas) else {
            return Err(JournalError::NoMemory);
        };
        self.journal.append(self.alloc, records)?;
        Ok(())
    }

    // Writes the commit that was just made.
    pub(crate) fn logged(&mut self, commit: u64) -> Result<u64, StoreError>
        ensures map { self.new.map ≡ self.old.map }
        ensures commit { IsLogged commit result }
        ensures stored { (changes : List Change)
            → IsStored changes self.old.map.machine self.old.journal.at (D.Disk.seen self.old.journal.disk)
            (D.Disk.may_leave self.old.journal.disk)
            → IsTrue (D.Disk.is_mixing self.new.journal.disk)
            → OnOk result (IsStored changes self.new.map.machine self.new.journal.at (D.Disk.seen self.new.journal.disk)
            (D.Disk.may_leave self.new.journal.disk)) }
        ensures found { (changes : List Change)
            → IsStored changes self.old.map.machine self.old.journal.at (D.Disk.seen self.old.journal.disk)
            (D.Disk.may_leave self.old.journal.disk)
            → IsTrue (D.Disk.is_mixing self.new.journal.disk)
            → AllRecover changes self.new.map.machine self.old.journal.at.durable (D.Disk.may_leave self.new.journal.disk) }
        ensures cause { ChangeHasCause result (may_ask self.old.journal.is_given_up (D.Disk.is_usable self.old.journal.disk))
            (AreTooLong self.new.map.machine self.old.journal.at)
            (D.Disk.faults self.old.journal.disk) (D.Disk.faults self.new.journal.disk) }
        ensures full { TellsFull (of_log result) (D.Disk.tally_of self.old.journal.disk).refused (D.Disk.tally_of self.new.journal.disk).refused }
        ensures goes_on { GoesOn (of_log result) (may_ask self.old.journal.is_given_up (D.Disk.is_usable self.old.journal.disk))
            (may_ask self.new.journal.is_given_up (D.Disk.is_usable self.new.journal.disk)) }
        ensures stays { (changes : List Change)
            → IsStored changes self.old.map.machine self.old.journal.at (D.Disk.seen self.old.journal.disk)
            (D.Disk.may_leave self.old.journal.disk)
            → IsTrue (may_ask self.new.journal.is_given_up (D.Disk.is_usable self.new.journal.disk))
            → OnErr result (IsStored changes self.new.map.machine self.new.journal.at (D.Disk.seen self.new.journal.disk)
            (D.Disk.may_leave self.new.journal.disk)) }
    {
        match self.write() {
            Ok(()) => Ok(commit),
            Err(error) => Err(StoreError::NotWritten { commit, error }),
        }
    }

    /// Makes all commits durable, and returns the number of the last. One call of the disk.
    ///
    /// # Errors
    ///
    /// `Behind`: the log lacks a commit, and nothing was done. `Journal`: the disk failed.
    pub fn sync(&mut self) -> Result<u64, StoreError>
        ensures map { self.new.map ≡ self.old.map }
        ensures number { IfOk result (λ number. number ≡ self.new.journal.at.durable) }
        ensures all { IfOk result (λ number. newest self.new.map.machine.log ≤ number) }
        ensures stored { (changes : List Change)
            → IsStored changes self.old.map.machine self.old.journal.at (D.Disk.seen self.old.journal.disk)
            (D.Disk.may_leave self.old.journal.disk)
            → IsTrue (D.Disk.is_mixing self.new.journal.disk)
            → OnOk result (IsStored changes self.new.map.machine self.new.journal.at (D.Disk.seen self.new.journal.disk)
            (D.Disk.may_leave self.new.journal.disk)) }
        ensures found { (changes : List Change)
            → IsStored changes self.old.map.machine self.old.journal.at (D.Disk.seen self.old.journal.disk)
            (D.Disk.may_leave self.old.journal.disk)
            → IsTrue (D.Disk.is_mixing self.new.journal.disk)
            → AllRecover changes self.new.map.machine self.old.journal.at.durable (D.Disk.may_leave self.new.journal.disk) }
        ensures behind { (result ≡ Err StoreError.Behind) ↔ IsBehind self.old.map.machine self.old.journal.at }
        ensures asks_nothing { IfUnasked result (self.new.journal ≡ self.old.journal) }
        ensures cause { StoreSyncHasCause result (may_ask self.old.journal.is_given_up (D.Disk.is_usable self.old.journal.disk))
            (D.Disk.faults self.old.journal.disk) (D.Disk.faults self.new.journal.disk) }
        ensures full { TellsFull (of_log result) (D.Disk.tally_of self.old.journal.disk).refused (D.Disk.tally_of self.new.journal.disk).refused }
        ensures goes_on { OnOk result (IsTrue (may_ask self.new.journal.is_given_up (D.Disk.is_usable self.new.journal.disk))) }
        ensures stops { IfErr result (λ error. (error ≡ StoreError.Behind) ⊎ IsFalse (may_ask self.new.journal.is_given_up (D.Disk.is_usable self.new.journal.disk))) }
    {
        if self.is_behind() {
            return Err(StoreError::Behind);
        }
        match self.journal.sync() {
            Ok(number) => Ok(number),
            Err(error) => Err(StoreError::Journal(error)),
        }
    }

    /// Returns the disk, and ends the use of the store.
    pub fn into_disk(self) -> D
        ensures { result ≡ self.journal.disk }
    {
        let Store {
            alloc: _,
            map: _,
            journal,
        } = self;
        journal.into_disk()
    }
}
