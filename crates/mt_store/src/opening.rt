//! How a store is made, and opened again.

ghost use Rattle.std.specs.Prelude.{◌≡◌, ◌<◌, ◌^◌, ℕ, List, [], length, Err, IfOk, IfErr, IsTrue, MatchOption};
ghost use Rattle.mt_types.specs.declared.row.Change.{Change};
ghost use Rattle.mt_index.specs.Stands.{MachineView, Stands};
ghost use Rattle.mt_journal.specs.Causes.{may_ask};
ghost use Rattle.mt_journal.specs.Refusing.{FileFails};
ghost use Rattle.mt_store.specs.Again.{CannotRemake};
ghost use Rattle.mt_store.specs.Causes.{IsNoDamage, StartHasCause, options_fault};
ghost use Rattle.mt_store.specs.Stored.{FindsAgain, HasMade, IsStored, Recovers};

use crate::error::StoreError;
use crate::replaying::replay;
use crate::store::{Store, with_retention};
use mt_frame::entry::LogHeader;
use mt_index::options::Options;
use mt_journal::laws::logs_are_read_one_way;
use mt_journal::opening::{create, open};
use mt_map::map::Map;
use mt_types::refusal::Refusal;
use sqlite_disk::Disk;
use std::alloc::Global;

impl<D: Disk + Drop> Store<D> {
    /// Makes a store with no rows, over whatever the disk has. Six calls of the disk.
    ///
    ///     let mut store = Store::make(rt.alloc(), files.log, Options::default())?;
    ///
    /// # Errors
    ///
    /// `Refused` with the fault of the options, or if there is no memory for an index; `Journal` with the errors of
    /// [`create`]. After a crash in the call the disk can have anything.
    pub fn make(alloc: Global, disk: D, options: Options) -> Result<Store<D>, StoreError>
        ensures empty { IfOk result (λ store. Stands store.map.machine []) }
        ensures stored { IfOk result (λ store. IsStored [] store.map.machine store.journal.at (D.Disk.seen store.journal.disk)
            (D.Disk.may_leave store.journal.disk)) }
        ensures asks { IfOk result (λ store. IsTrue (may_ask store.journal.is_given_up (D.Disk.is_usable store.journal.disk))) }

        // `last` is the disk as the call leaves it.
        ensures cause { MatchOption (options_fault options)
            ((last : D) × StartHasCause result (D.Disk.is_usable disk) (λ error. ⊥) (λ error. error ≡ StoreError.Refused Refusal.NoMemory)
            (D.Disk.faults disk) (D.Disk.faults last))
            (λ refusal. result ≡ Err (StoreError.Refused refusal)) }
    {
        let map = match Map::open(alloc, with_retention(options)) {
            Ok(map) => map,
            Err(refusal) => return Err(StoreError::Refused(refusal)),
        };
        let header = LogHeader {
            columns: map.columns(),
            generation: 0,
            base: 0,
            run: 0,
        };
        match create(alloc, disk, header) {
            Ok(journal) => Ok(Store {
                alloc,
                map,
                journal,
            }),
            Err(error) => Err(StoreError::Journal(error)),
        }
    }

    /// Opens the store that a disk has. It has the rows after all commits of its log, with their versions, and the next
    /// commit has the next number. Over what a crash has left that is: the rows after the first m commits of the store
    /// before, for an m that is at least the last number that was durable (`found`).
    ///
    ///     let mut store = Store::open(rt.alloc(), files.log, Options::default())?;
    ///
    /// Costs a read of the log, and as many puts and removes as it has commits. At most five calls of the disk.
    ///
    /// # Errors
    ///
    /// `Journal`, with `NoLog` if no store was made there, and `NotALog`, `UnknownFormat`, `OtherColumns` or `Damaged`:
    /// nothing was written then. `Refused` with the fault of the options, or if an index refuses a commit of the log or there
    /// is no memory; `Damaged` if a commit of the log is a remove of a key that has no row then. Over what a crash has left
    /// of a store nothing is damaged (`whole`).
    pub fn open(alloc: Global, disk: D, options: Options) -> Result<Store<D>, StoreError>
        ensures found { (changes : List Change) (durable : ℕ) → Recovers options.columns changes durable (D.Disk.seen disk)
            → IfOk result (λ store. IsTrue (D.Disk.is_clean store.journal.disk)
            → FindsAgain options.columns changes durable store.map.machine store.journal.at
            (D.Disk.seen store.journal.disk) (D.Disk.may_leave store.journal.disk)) }
        ensures asks { IfOk result (λ store. IsTrue (may_ask store.journal.is_given_up (D.Disk.is_usable store.journal.disk))) }

        // `last` is the disk as the call leaves it.
        ensures cause { MatchOption (options_fault options)
            ((last : D) × StartHasCause result (D.Disk.is_usable disk)
            (λ error. IsTrue (D.Disk.is_clean last) → FileFails options.columns (D.Disk.seen disk) error)
            (λ error. IsTrue (D.Disk.is_clean last) → CannotRemake options.columns (D.Disk.seen disk) error)
            (D.Disk.faults disk) (D.Disk.faults last))
            (λ refusal. result ≡ Err (StoreError.Refused refusal)) }

        // What a crash has left of a store is not damaged.
        ensures whole { (s : MachineView) (changes : List Change) (durable : ℕ) → HasMade changes s → s.columns ≡ options.columns
            → length changes < 2 ^ 64 → Recovers options.columns changes durable (D.Disk.seen disk)
            → (last : D) × (IsTrue (D.Disk.is_clean last) → IfErr result IsNoDamage) }
    {
        logs_are_read_one_way();
        let mut map = match Map::open(alloc, with_retention(options)) {
            Ok(map) => map,
            Err(refusal) => return Err(StoreError::Refused(refusal)),
        };
        let opened = match open(alloc, disk, map.columns()) {
            Ok(opened) => opened,
            Err(error) => return Err(StoreError::Journal(error)),
        };
        // The number of a commit that can't be made again is at most this one.
        let _newest = opened.journal.position().newest;
        replay(alloc, &mut map, &opened.entries)?;
        Ok(Store {
            alloc,
            map,
            journal: opened.journal,
        })
    }
}
