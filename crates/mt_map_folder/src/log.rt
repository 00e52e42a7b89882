//! The commits of a map, written to the log of its folder.

ghost use Rattle.std.specs.Prelude.{◌≡◌, ◌<◌, ◌≤◌, ◌+◌, ◌-◌, nat_lt, false, List, length, Ok, OnOk, OnErr, IfOk, IsTrue, IsFalse};
ghost use Rattle.mt_commit.specs.Log.{newest};
ghost use Rattle.mt_frame.specs.declared.entry.Entry.{Entry};
ghost use Rattle.mt_frame.specs.declared.entry.LogHeader.{LogHeader};
ghost use Rattle.mt_frame.specs.declared.entry.Part.{Part};
ghost use Rattle.mt_folder_log.specs.Moving.{disk_of, end_of, round_of, start_of, IfFree, IfNeeded, IsAfter, IsFree, Needs};
ghost use Rattle.mt_folder_log.specs.declared.checkpoint.TheConstants.{PART};
ghost use Rattle.mt_index.specs.Feed.{feed_fault};
ghost use Rattle.mt_index.specs.Stands.{MachineView, Stands};
ghost use Rattle.mt_types.specs.declared.row.Change.{Change};
ghost use Rattle.mt_folder_log.specs.Folder.{AllHaveHeader, AllRecover, HasChanges};
ghost use Rattle.mt_map_folder.specs.Changes.{KeepsChanges};
ghost use Rattle.mt_journal.specs.Appending.{with_part, with_seal};
ghost use Rattle.mt_journal.specs.Causes.{may_ask};
ghost use Rattle.mt_journal.specs.Keeping.{AllAreLogs, AllSurvive, Keeps, StaysDurable};
ghost use Rattle.mt_journal.specs.Recovery.{Mixes};
ghost use Rattle.mt_promise.specs.History.{History};
ghost use Rattle.mt_types.specs.declared.limits.TheConstants.{MAX_RANGE as MAX_LIMIT};
ghost use Rattle.mt_map_folder.specs.Rounds.{acts, is_going, next_of, IfCopies, IfMoves, IfSeals};
ghost use Rattle.mt_map_folder.specs.Written.{entries_with, left_after, AreOfMap, WriteHasCause};

use crate::error::LogError;
use mt_folder_log::checkpoint::{PART, Round};
use mt_folder_log::log::FolderLog;
use mt_frame::entry::Part;
use mt_journal::error::JournalError;
use mt_map::map::Map;
use mt_replay::records::records_of;
use mt_types::limits::MAX_RANGE;
use mt_types::refusal::Refusal;
use sqlite_disk::Disk;
use std::alloc::Global;

// Whether a checkpoint has to be continued with this round.
fn is_going(round: Round) -> bool
    ensures { result ≡ is_going round }
{
    match round {
        Round::Rests => false,
        Round::Moves | Round::Copies | Round::Seals => true,
    }
}

/// The log of a map. Each commit is made in the map, and then written here.
#[derive(Drop)]
pub struct MapLog<D: Disk + Drop> {
    pub(crate) alloc: Global,
    pub(crate) log: FolderLog<D>,
}

impl<D: Disk + Drop> MapLog<D> {
    /// Returns the number of the last commit that no crash undoes.
    pub fn durable(&self) -> u64
        ensures number { result ≡ self.now.log.journal.at.durable }
        ensures survive { (header : LogHeader) (entries : List Entry)
            → Keeps self.now.log.journal.at (D.Disk.seen self.now.log.journal.disk) (D.Disk.may_leave self.now.log.journal.disk) header entries
            → AllSurvive header entries result (D.Disk.may_leave self.now.log.journal.disk) }
        ensures recover { (changes : List Change) → HasChanges D.Disk.seen D.Disk.may_leave changes self.now.log
            → AllRecover D.Disk.may_leave changes result self.now.log.journal.at.generation self.now.log }
    {
        self.log.position().durable
    }

    /// Returns how many of the map's commits the log lacks.
    pub fn lacking(&self, map: &Map) -> u64
        ensures { result ≡ newest map.now.machine.log - self.now.log.journal.at.newest }
    {
        map.commits().saturating_sub(self.log.position().newest)
    }

    /// Writes the next commits of the map that the log lacks, at most a thousand. They are not durable before a
    /// [`MapLog::sync`]. One call of the disk if there are some, and two more if zeros are written ahead.
    ///
    ///     let commit = map.put(b"apple", &[Set::new(0, b"red")])?;
    ///     log.write(&map)?;
    ///
    /// # Errors
    ///
    /// Those of [`mt_journal::journal::Journal::append`], and `Refused` with those of [`Map::feed`]. Unless the disk failed, the
    /// log is as before, and the call can be made again.
    pub fn write(&mut self, map: &Map) -> Result<(), LogError>
        ensures kept { (h : History) (header : LogHeader) (entries : List Entry) → Stands map.now.machine h
            → Keeps self.old.log.journal.at (D.Disk.seen self.old.log.journal.disk) (D.Disk.may_leave self.old.log.journal.disk) header entries
            → IsTrue (D.Disk.is_mixing self.new.log.journal.disk)
            → OnOk result (Keeps self.new.log.journal.at (D.Disk.seen self.new.log.journal.disk) (D.Disk.may_leave self.new.log.journal.disk) header
            (entries_with self.old.log.journal.at (left_after map.now.machine.columns self.old.log.journal.at.newest h) entries)) }
        ensures crash { (h : History) (header : LogHeader) (entries : List Entry) → Stands map.now.machine h
            → Keeps self.old.log.journal.at (D.Disk.seen self.old.log.journal.disk) (D.Disk.may_leave self.old.log.journal.disk) header entries
            → IsTrue (D.Disk.is_mixing self.new.log.journal.disk)
            → AllSurvive header (entries_with self.old.log.journal.at (left_after map.now.machine.columns self.old.log.journal.at.newest h) entries)
            self.old.log.journal.at.durable (D.Disk.may_leave self.new.log.journal.disk) }
        ensures stays { (header : LogHeader) (entries : List Entry)
            → Keeps self.old.log.journal.at (D.Disk.seen self.old.log.journal.disk) (D.Disk.may_leave self.old.log.journal.disk) header entries
            → IsTrue (may_ask self.new.log.journal.is_given_up (D.Disk.is_usable self.new.log.journal.disk))
            → OnErr result (Keeps self.new.log.journal.at (D.Disk.seen self.new.log.journal.disk) (D.Disk.may_leave self.new.log.journal.disk) header entries) }
        ensures cause { WriteHasCause result (feed_fault map.now.machine.log self.old.log.journal.at.newest MAX_LIMIT) (self.new ≡ self.old)
            (may_ask self.old.log.journal.is_given_up (D.Disk.is_usable self.old.log.journal.disk)) self.old.log.journal.at
            (D.Disk.faults self.old.log.journal.disk) (D.Disk.faults self.new.log.journal.disk) }
        ensures newest { (h : History) → Stands map.now.machine h → OnOk result (self.new.log.journal.at.newest
            ≡ self.old.log.journal.at.newest + length (left_after map.now.machine.columns self.old.log.journal.at.newest h)) }
        ensures durable { OnOk result (StaysDurable self.old.log.journal.at self.new.log.journal.at) }
        ensures columns { self.new.log.columns ≡ self.old.log.columns }
        ensures changes { (changes : List Change) → KeepsChanges D.Disk.seen D.Disk.may_leave changes map.now.machine self.old
            → IsTrue (D.Disk.is_mixing self.new.log.journal.disk)
            → OnOk result (KeepsChanges D.Disk.seen D.Disk.may_leave changes map.now.machine self.new) }
        ensures recover { (changes : List Change) → KeepsChanges D.Disk.seen D.Disk.may_leave changes map.now.machine self.old
            → IsTrue (D.Disk.is_mixing self.new.log.journal.disk)
            → AllRecover D.Disk.may_leave changes self.old.log.journal.at.durable self.old.log.journal.at.generation self.new.log }
    {
        let deltas = match map.feed(self.log.position().newest, MAX_RANGE) {
            Ok(deltas) => deltas,
            Err(refusal) => return Err(LogError::Refused(refusal)),
        };
        if deltas.is_empty() {
            return Ok(());
        }
        let Ok(records) = records_of(self.alloc, &deltas) else {
            return Err(LogError::Refused(Refusal::NoMemory));
        };
        if let Err(error) = self.log.append(records) {
            return Err(LogError::Journal(error));
        }
        Ok(())
    }

    /// Makes all that was written durable, and returns the number of the last commit. One call of the disk.
    ///
    /// # Errors
    ///
    /// Those of [`mt_journal::journal::Journal::sync`]: then nothing more is written, and the log has each commit that was
    /// durable.
    pub fn sync(&mut self) -> Result<u64, JournalError>
        ensures kept { (header : LogHeader) (entries : List Entry)
            → Keeps self.old.log.journal.at (D.Disk.seen self.old.log.journal.disk) (D.Disk.may_leave self.old.log.journal.disk) header entries
            → OnOk result (Keeps self.new.log.journal.at (D.Disk.seen self.new.log.journal.disk) (D.Disk.may_leave self.new.log.journal.disk) header entries) }
        ensures crash { (header : LogHeader) (entries : List Entry)
            → Keeps self.old.log.journal.at (D.Disk.seen self.old.log.journal.disk) (D.Disk.may_leave self.old.log.journal.disk) header entries
            → AllSurvive header entries self.old.log.journal.at.durable (D.Disk.may_leave self.new.log.journal.disk) }
        ensures number { IfOk result (λ number. number ≡ self.old.log.journal.at.newest) }
        ensures durable { OnOk result (self.new.log.journal.at.durable ≡ self.old.log.journal.at.newest) }
        ensures columns { self.new.log.columns ≡ self.old.log.columns }
        ensures newest { OnOk result (self.new.log.journal.at.newest ≡ self.old.log.journal.at.newest) }
        ensures stops { OnErr result (IsFalse (may_ask self.new.log.journal.is_given_up (D.Disk.is_usable self.new.log.journal.disk))) }
        ensures changes { (changes : List Change) (s : MachineView) → KeepsChanges D.Disk.seen D.Disk.may_leave changes s self.old
            → OnOk result (KeepsChanges D.Disk.seen D.Disk.may_leave changes s self.new) }
        ensures recover { (changes : List Change) → HasChanges D.Disk.seen D.Disk.may_leave changes self.old.log
            → AllRecover D.Disk.may_leave changes self.old.log.journal.at.durable self.old.log.journal.at.generation self.new.log }
    {
        self.log.sync()
    }

    // Copies the next rows of the map into the log.
    fn copy(&mut self, map: &Map) -> Result<(), LogError>
        ensures copies { (header : LogHeader) (entries : List Entry)
            → Keeps self.old.log.journal.at (D.Disk.seen self.old.log.journal.disk) (D.Disk.may_leave self.old.log.journal.disk) header entries
            → IsTrue (D.Disk.is_mixing self.new.log.journal.disk)
            → OnOk result ((part : Part) × AreOfMap map.now.machine (start_of self.old.log.other) part
            × IsAfter (end_of part) (nat_lt (length part.rows) PART) self.old.log.other self.new.log.other
            × Keeps self.new.log.journal.at (D.Disk.seen self.new.log.journal.disk) (D.Disk.may_leave self.new.log.journal.disk) header
            (with_part part entries)) }
        ensures newest { OnOk result (self.new.log.journal.at.newest ≡ self.old.log.journal.at.newest) }
        ensures heads { (header : LogHeader) (entries : List Entry)
            → Keeps self.old.log.journal.at (D.Disk.seen self.old.log.journal.disk) (D.Disk.may_leave self.old.log.journal.disk) header entries
            → IsTrue (D.Disk.is_mixing self.new.log.journal.disk)
            → OnErr result (AllHaveHeader header (D.Disk.may_leave self.new.log.journal.disk)) }
        ensures durable { OnOk result (StaysDurable self.old.log.journal.at self.new.log.journal.at) }
        ensures columns { self.new.log.columns ≡ self.old.log.columns }
        ensures stays { (header : LogHeader) (entries : List Entry)
            → Keeps self.old.log.journal.at (D.Disk.seen self.old.log.journal.disk) (D.Disk.may_leave self.old.log.journal.disk) header entries
            → IsTrue (may_ask self.new.log.journal.is_given_up (D.Disk.is_usable self.new.log.journal.disk))
            → OnErr result (Keeps self.new.log.journal.at (D.Disk.seen self.new.log.journal.disk) (D.Disk.may_leave self.new.log.journal.disk) header entries) }
        ensures changes { (changes : List Change) → KeepsChanges D.Disk.seen D.Disk.may_leave changes map.now.machine self.old
            → newest map.now.machine.log ≤ self.old.log.journal.at.newest → IsTrue (D.Disk.is_mixing self.new.log.journal.disk)
            → IfNeeded self.old.log.other (λ copied. OnOk result (KeepsChanges D.Disk.seen D.Disk.may_leave changes map.now.machine self.new)) }
        ensures recover { (changes : List Change) → HasChanges D.Disk.seen D.Disk.may_leave changes self.old.log
            → IsTrue (D.Disk.is_mixing self.new.log.journal.disk)
            → IfNeeded self.old.log.other (λ copied. OnErr result (AllRecover D.Disk.may_leave changes self.old.log.journal.at.durable
            self.old.log.journal.at.generation self.new.log)) }
    {
        let start = self.log.start()?;
        let at = map.commits();
        let rows = map.pairs(start.as_slice(), PART, &[])?;
        self.log.copy(Part { at, rows })?;
        Ok(())
    }

    // Makes this round of a checkpoint.
    fn make(&mut self, map: &Map, round: Round) -> Result<(), LogError>
        ensures moves { (header : LogHeader) (entries : List Entry)
            → Keeps self.old.log.journal.at (D.Disk.seen self.old.log.journal.disk) (D.Disk.may_leave self.old.log.journal.disk) header entries
            → 0 < self.old.log.journal.at.newest
            → IfMoves round (IfFree self.old.log.other (OnOk result (Needs self.new.log.other (λ disk. AllAreLogs header entries (D.Disk.may_leave disk))))) }
        ensures copies { (header : LogHeader) (entries : List Entry)
            → Keeps self.old.log.journal.at (D.Disk.seen self.old.log.journal.disk) (D.Disk.may_leave self.old.log.journal.disk) header entries
            → IsTrue (D.Disk.is_mixing self.new.log.journal.disk)
            → IfCopies round (OnOk result ((part : Part) × AreOfMap map.now.machine (start_of self.old.log.other) part
            × IsAfter (end_of part) (nat_lt (length part.rows) PART) self.old.log.other self.new.log.other
            × Keeps self.new.log.journal.at (D.Disk.seen self.new.log.journal.disk) (D.Disk.may_leave self.new.log.journal.disk) header
            (with_part part entries))) }
        ensures seals { (header : LogHeader) (entries : List Entry)
            → Keeps self.old.log.journal.at (D.Disk.seen self.old.log.journal.disk) (D.Disk.may_leave self.old.log.journal.disk) header entries
            → Mixes D.Disk.is_mixing
            → IfSeals round (IfNeeded self.old.log.other (λ copied. OnOk result (IsFree self.new.log.other
            × AllAreLogs header (with_seal copied entries) (D.Disk.may_leave self.new.log.journal.disk)
            × Keeps self.new.log.journal.at (D.Disk.seen self.new.log.journal.disk) (D.Disk.may_leave self.new.log.journal.disk) header
            (with_seal copied entries)))) }
        ensures newest { OnOk result (self.new.log.journal.at.newest ≡ self.old.log.journal.at.newest) }
        ensures heads { (header : LogHeader) (entries : List Entry)
            → Keeps self.old.log.journal.at (D.Disk.seen self.old.log.journal.disk) (D.Disk.may_leave self.old.log.journal.disk) header entries
            → Mixes D.Disk.is_mixing
            → OnErr result (AllHaveHeader header (D.Disk.may_leave self.new.log.journal.disk)) }
        ensures durable { OnOk result (StaysDurable self.old.log.journal.at self.new.log.journal.at) }
        ensures columns { self.new.log.columns ≡ self.old.log.columns }
        ensures stays { (header : LogHeader) (entries : List Entry)
            → Keeps self.old.log.journal.at (D.Disk.seen self.old.log.journal.disk) (D.Disk.may_leave self.old.log.journal.disk) header entries
            → IsTrue (may_ask self.new.log.journal.is_given_up (D.Disk.is_usable self.new.log.journal.disk))
            → OnErr result (Keeps self.new.log.journal.at (D.Disk.seen self.new.log.journal.disk) (D.Disk.may_leave self.new.log.journal.disk) header entries) }
        ensures changes { (changes : List Change) → KeepsChanges D.Disk.seen D.Disk.may_leave changes map.now.machine self.old
            → newest map.now.machine.log ≤ self.old.log.journal.at.newest → round ≡ next_of self.old.log → Mixes D.Disk.is_mixing
            → OnOk result (KeepsChanges D.Disk.seen D.Disk.may_leave changes map.now.machine self.new) }
        ensures recover { (changes : List Change) → HasChanges D.Disk.seen D.Disk.may_leave changes self.old.log
            → round ≡ next_of self.old.log → Mixes D.Disk.is_mixing
            → OnErr result (AllRecover D.Disk.may_leave changes self.old.log.journal.at.durable self.old.log.journal.at.generation self.new.log) }
    {
        match round {
            Round::Rests | Round::Moves => self.log.begin()?,
            Round::Copies => return self.copy(map),
            Round::Seals => self.log.seal()?,
        }
        Ok(())
    }

    // Whether a round is made.
    fn acts(&self, map: &Map, begins: bool) -> bool
        ensures { result ≡ acts self.now.log map.now.machine begins }
    {
        if map.commits() <= self.log.position().newest {
            match self.log.next_round() {
                Round::Rests => begins,
                Round::Moves | Round::Copies | Round::Seals => true,
            }
        } else {
            false
        }
    }

    /// Makes a round of a checkpoint, by which the log stays short: the log moves to the other file of the folder, the next rows
    /// are copied there, or it is sealed when all were. Begins one if it is due, or `begins` is true. Returns whether it has to
    /// be continued. Nothing is done while the log lacks a commit, or has none. O(n) in the rows that are copied, at most [`PART`].
    ///
    ///     while log.advance(&map, true)? {}          // a whole checkpoint
    ///
    /// # Errors
    ///
    /// Those of [`MapLog::write`]; and if the other file fails: then the log stays where it is.
    pub fn advance(&mut self, map: &Map, begins: bool) -> Result<bool, LogError>
        ensures moves { (header : LogHeader) (entries : List Entry)
            → Keeps self.old.log.journal.at (D.Disk.seen self.old.log.journal.disk) (D.Disk.may_leave self.old.log.journal.disk) header entries
            → IsTrue (acts self.old.log map.now.machine begins) → 0 < self.old.log.journal.at.newest
            → IfMoves (next_of self.old.log) (IfFree self.old.log.other (OnOk result (Needs self.new.log.other
            (λ disk. AllAreLogs header entries (D.Disk.may_leave disk))))) }
        ensures copies { (header : LogHeader) (entries : List Entry)
            → Keeps self.old.log.journal.at (D.Disk.seen self.old.log.journal.disk) (D.Disk.may_leave self.old.log.journal.disk) header entries
            → IsTrue (D.Disk.is_mixing self.new.log.journal.disk)
            → IsTrue (acts self.old.log map.now.machine begins)
            → IfCopies (next_of self.old.log) (OnOk result ((part : Part) × AreOfMap map.now.machine (start_of self.old.log.other) part
            × IsAfter (end_of part) (nat_lt (length part.rows) PART) self.old.log.other self.new.log.other
            × Keeps self.new.log.journal.at (D.Disk.seen self.new.log.journal.disk) (D.Disk.may_leave self.new.log.journal.disk) header
            (with_part part entries))) }
        ensures seals { (header : LogHeader) (entries : List Entry)
            → Keeps self.old.log.journal.at (D.Disk.seen self.old.log.journal.disk) (D.Disk.may_leave self.old.log.journal.disk) header entries
            → Mixes D.Disk.is_mixing
            → IsTrue (acts self.old.log map.now.machine begins)
            → IfSeals (next_of self.old.log) (IfNeeded self.old.log.other (λ copied. OnOk result (IsFree self.new.log.other
            × AllAreLogs header (with_seal copied entries) (D.Disk.may_leave self.new.log.journal.disk)
            × Keeps self.new.log.journal.at (D.Disk.seen self.new.log.journal.disk) (D.Disk.may_leave self.new.log.journal.disk) header
            (with_seal copied entries)))) }
        ensures rests { acts self.old.log map.now.machine begins ≡ false → (result ≡ Ok false) × (self.new ≡ self.old) }
        ensures going { IsTrue (acts self.old.log map.now.machine begins)
            → IfOk result (λ going. going ≡ is_going (next_of self.new.log)) }
        ensures newest { OnOk result (self.new.log.journal.at.newest ≡ self.old.log.journal.at.newest) }
        ensures heads { (header : LogHeader) (entries : List Entry)
            → Keeps self.old.log.journal.at (D.Disk.seen self.old.log.journal.disk) (D.Disk.may_leave self.old.log.journal.disk) header entries
            → Mixes D.Disk.is_mixing
            → OnErr result (AllHaveHeader header (D.Disk.may_leave self.new.log.journal.disk)) }
        ensures durable { OnOk result (StaysDurable self.old.log.journal.at self.new.log.journal.at) }
        ensures columns { self.new.log.columns ≡ self.old.log.columns }
        ensures stays { (header : LogHeader) (entries : List Entry)
            → Keeps self.old.log.journal.at (D.Disk.seen self.old.log.journal.disk) (D.Disk.may_leave self.old.log.journal.disk) header entries
            → IsTrue (may_ask self.new.log.journal.is_given_up (D.Disk.is_usable self.new.log.journal.disk))
            → OnErr result (Keeps self.new.log.journal.at (D.Disk.seen self.new.log.journal.disk) (D.Disk.may_leave self.new.log.journal.disk) header entries) }
        // The map and the folder have the same changes; and if the call failed, whatever a crash leaves has all that were durable.
        ensures changes { (changes : List Change) → KeepsChanges D.Disk.seen D.Disk.may_leave changes map.now.machine self.old
            → Mixes D.Disk.is_mixing
            → OnOk result (KeepsChanges D.Disk.seen D.Disk.may_leave changes map.now.machine self.new) }
        ensures recover { (changes : List Change) → HasChanges D.Disk.seen D.Disk.may_leave changes self.old.log
            → Mixes D.Disk.is_mixing
            → OnErr result (AllRecover D.Disk.may_leave changes self.old.log.journal.at.durable self.old.log.journal.at.generation self.new.log) }
    {
        if !self.acts(map, begins) {
            return Ok(false);
        }
        let round = self.log.next_round();
        self.make(map, round)?;
        Ok(is_going(self.log.next_round()))
    }

    /// Returns the disk of the log, and that of the other file, unless it has failed. Ends the use of the log, which isn't
    /// synced by that.
    pub fn into_disks(self) -> (D, Option<D>)
        ensures log { result.0 ≡ self.log.journal.disk }
        ensures other { result.1 ≡ disk_of self.log.other }
    {
        let MapLog { log, .. } = self;
        log.into_disks()
    }
}
