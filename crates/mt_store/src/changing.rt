//! How the rows of a store are changed: in memory, and then in the log.

ghost use Rattle.std.specs.Prelude.{◌≡◌, ◌↔◌, ◌++◌, List, Some, Err, OnErr, IsTrue};
ghost use Rattle.mt_types.specs.declared.row.Change.{Change};
ghost use Rattle.mt_types.specs.declared.event.Answer.TheVariants.{Stored};
ghost use Rattle.mt_types.specs.declared.event.Request.TheVariants.{Put, PutIf, Remove};
ghost use Rattle.mt_promise.specs.History.{change_of};
ghost use Rattle.mt_asked.specs.Borrowed.{sets_of};
ghost use Rattle.mt_map.specs.Calls.{answered_by};
ghost use Rattle.mt_map.specs.Tidies.{MapComesTo, Removes};
ghost use Rattle.mt_journal.specs.Causes.{may_ask, GoesOn, TellsFull};
ghost use Rattle.mt_store.specs.Causes.{AreTooLong, ChangeHasCause, IfRemoveUnasked, IfUnasked, IsBehind, RemoveHasCause, of_log};
ghost use Rattle.mt_store.specs.Changing.{Changes, IsWritten, made_of, removed_of};
ghost use Rattle.mt_store.specs.Stored.{AllRecover, IsStored};

use crate::error::StoreError;
use crate::store::Store;
use mt_asked::borrowed::Set;
use mt_map::map::Map;
use sqlite_disk::Disk;

impl<D: Disk + Drop> Store<D> {
    /// Puts as [`Map::put`] does, and writes the commit to the log. It is durable after a [`Store::sync`].
    ///
    ///     let commit = store.put(b"apple", &[Set::new(0, b"red")])?;
    ///     let durable = store.sync()?;
    ///
    /// Costs what the put of the map costs, a copy of the row's bytes, and one call of the disk.
    ///
    /// # Errors
    ///
    /// `Refused`: the map refused it, and nothing has changed. `Behind`: the log lacks a commit, and nothing has changed.
    /// `NotWritten`: the put was made in memory, and its commit could not be written. If the log was not given up,
    /// [`Store::write`] can write it.
    pub fn put(&mut self, key: &[u8], sets: &[Set<'_>]) -> Result<u64, StoreError>
        ensures comes { Changes (λ found map. MapComesTo self.old.map (Put key.now (sets_of sets.now)) (answered_by Stored found) map)
            (λ commit. commit) self.old.map result self.new.map }
        ensures stored { (changes : List Change)
            → IsStored changes self.old.map.machine self.old.journal.at (D.Disk.seen self.old.journal.disk)
            (D.Disk.may_leave self.old.journal.disk)
            → IsTrue (D.Disk.is_mixing self.new.journal.disk)
            → IsWritten result (IsStored (changes ++ made_of (change_of (Put key.now (sets_of sets.now))) result) self.new.map.machine
            self.new.journal.at (D.Disk.seen self.new.journal.disk) (D.Disk.may_leave self.new.journal.disk)) }
        ensures found { (changes : List Change)
            → IsStored changes self.old.map.machine self.old.journal.at (D.Disk.seen self.old.journal.disk)
            (D.Disk.may_leave self.old.journal.disk)
            → IsTrue (D.Disk.is_mixing self.new.journal.disk)
            → AllRecover (changes ++ made_of (change_of (Put key.now (sets_of sets.now))) result) self.new.map.machine
            self.old.journal.at.durable (D.Disk.may_leave self.new.journal.disk) }
        ensures behind { (result ≡ Err StoreError.Behind) ↔ IsBehind self.old.map.machine self.old.journal.at }
        ensures asks_nothing { IfUnasked result (self.new.journal ≡ self.old.journal) }
        ensures cause { ChangeHasCause result (may_ask self.old.journal.is_given_up (D.Disk.is_usable self.old.journal.disk))
            (AreTooLong self.new.map.machine self.old.journal.at)
            (D.Disk.faults self.old.journal.disk) (D.Disk.faults self.new.journal.disk) }
        ensures full { TellsFull (of_log result) (D.Disk.tally_of self.old.journal.disk).refused (D.Disk.tally_of self.new.journal.disk).refused }
        ensures goes_on { GoesOn (of_log result) (may_ask self.old.journal.is_given_up (D.Disk.is_usable self.old.journal.disk))
            (may_ask self.new.journal.is_given_up (D.Disk.is_usable self.new.journal.disk)) }
        ensures stays { (changes : List Change)
            → IsStored changes self.old.map.machine self.old.journal.at (D.Disk.seen self.old.journal.disk)
            (D.Disk.may_leave self.old.journal.disk)
            → IsTrue (may_ask self.new.journal.is_given_up (D.Disk.is_usable self.new.journal.disk))
            → OnErr result (IsStored (changes ++ made_of (change_of (Put key.now (sets_of sets.now))) result) self.new.map.machine self.new.journal.at (D.Disk.seen self.new.journal.disk)
            (D.Disk.may_leave self.new.journal.disk)) }
    {
        if self.is_behind() {
            return Err(StoreError::Behind);
        }
        match self.map.put(key, sets) {
            Ok(commit) => self.logged(commit),
            Err(refusal) => Err(StoreError::Refused(refusal)),
        }
    }

    /// Puts as [`Map::put_if`] does, and writes the commit to the log.
    ///
    /// # Errors
    ///
    /// Those of [`Store::put`].
    pub fn put_if(&mut self, key: &[u8], sets: &[Set<'_>], version: u64) -> Result<u64, StoreError>
        ensures comes { Changes (λ found map. MapComesTo self.old.map (PutIf key.now (sets_of sets.now) version) (answered_by Stored found) map)
            (λ commit. commit) self.old.map result self.new.map }
        ensures stored { (changes : List Change)
            → IsStored changes self.old.map.machine self.old.journal.at (D.Disk.seen self.old.journal.disk)
            (D.Disk.may_leave self.old.journal.disk)
            → IsTrue (D.Disk.is_mixing self.new.journal.disk)
            → IsWritten result (IsStored (changes ++ made_of (change_of (PutIf key.now (sets_of sets.now) version)) result) self.new.map.machine
            self.new.journal.at (D.Disk.seen self.new.journal.disk) (D.Disk.may_leave self.new.journal.disk)) }
        ensures found { (changes : List Change)
            → IsStored changes self.old.map.machine self.old.journal.at (D.Disk.seen self.old.journal.disk)
            (D.Disk.may_leave self.old.journal.disk)
            → IsTrue (D.Disk.is_mixing self.new.journal.disk)
            → AllRecover (changes ++ made_of (change_of (PutIf key.now (sets_of sets.now) version)) result) self.new.map.machine
            self.old.journal.at.durable (D.Disk.may_leave self.new.journal.disk) }
        ensures behind { (result ≡ Err StoreError.Behind) ↔ IsBehind self.old.map.machine self.old.journal.at }
        ensures asks_nothing { IfUnasked result (self.new.journal ≡ self.old.journal) }
        ensures cause { ChangeHasCause result (may_ask self.old.journal.is_given_up (D.Disk.is_usable self.old.journal.disk))
            (AreTooLong self.new.map.machine self.old.journal.at)
            (D.Disk.faults self.old.journal.disk) (D.Disk.faults self.new.journal.disk) }
        ensures full { TellsFull (of_log result) (D.Disk.tally_of self.old.journal.disk).refused (D.Disk.tally_of self.new.journal.disk).refused }
        ensures goes_on { GoesOn (of_log result) (may_ask self.old.journal.is_given_up (D.Disk.is_usable self.old.journal.disk))
            (may_ask self.new.journal.is_given_up (D.Disk.is_usable self.new.journal.disk)) }
        ensures stays { (changes : List Change)
            → IsStored changes self.old.map.machine self.old.journal.at (D.Disk.seen self.old.journal.disk)
            (D.Disk.may_leave self.old.journal.disk)
            → IsTrue (may_ask self.new.journal.is_given_up (D.Disk.is_usable self.new.journal.disk))
            → OnErr result (IsStored (changes ++ made_of (change_of (PutIf key.now (sets_of sets.now) version)) result) self.new.map.machine self.new.journal.at (D.Disk.seen self.new.journal.disk)
            (D.Disk.may_leave self.new.journal.disk)) }
    {
        if self.is_behind() {
            return Err(StoreError::Behind);
        }
        match self.map.put_if(key, sets, version) {
            Ok(commit) => self.logged(commit),
            Err(refusal) => Err(StoreError::Refused(refusal)),
        }
    }

    /// Removes as [`Map::remove`] does, and writes the commit to the log, if there is one.
    ///
    /// # Errors
    ///
    /// Those of [`Store::put`].
    pub fn remove(&mut self, key: &[u8]) -> Result<Option<u64>, StoreError>
        ensures comes { Changes (λ found map. Removes self.old.map key.now found map) (λ commit. Some commit)
            self.old.map result self.new.map }
        ensures stored { (changes : List Change)
            → IsStored changes self.old.map.machine self.old.journal.at (D.Disk.seen self.old.journal.disk)
            (D.Disk.may_leave self.old.journal.disk)
            → IsTrue (D.Disk.is_mixing self.new.journal.disk)
            → IsWritten result (IsStored (changes ++ removed_of (change_of (Remove key.now)) result) self.new.map.machine
            self.new.journal.at (D.Disk.seen self.new.journal.disk) (D.Disk.may_leave self.new.journal.disk)) }
        ensures found { (changes : List Change)
            → IsStored changes self.old.map.machine self.old.journal.at (D.Disk.seen self.old.journal.disk)
            (D.Disk.may_leave self.old.journal.disk)
            → IsTrue (D.Disk.is_mixing self.new.journal.disk)
            → AllRecover (changes ++ removed_of (change_of (Remove key.now)) result) self.new.map.machine
            self.old.journal.at.durable (D.Disk.may_leave self.new.journal.disk) }
        ensures behind { (result ≡ Err StoreError.Behind) ↔ IsBehind self.old.map.machine self.old.journal.at }
        ensures asks_nothing { IfRemoveUnasked result (self.new.journal ≡ self.old.journal) }
        ensures cause { RemoveHasCause result (may_ask self.old.journal.is_given_up (D.Disk.is_usable self.old.journal.disk))
            (AreTooLong self.new.map.machine self.old.journal.at)
            (D.Disk.faults self.old.journal.disk) (D.Disk.faults self.new.journal.disk) }
        ensures full { TellsFull (of_log result) (D.Disk.tally_of self.old.journal.disk).refused (D.Disk.tally_of self.new.journal.disk).refused }
        ensures goes_on { GoesOn (of_log result) (may_ask self.old.journal.is_given_up (D.Disk.is_usable self.old.journal.disk))
            (may_ask self.new.journal.is_given_up (D.Disk.is_usable self.new.journal.disk)) }
        ensures stays { (changes : List Change)
            → IsStored changes self.old.map.machine self.old.journal.at (D.Disk.seen self.old.journal.disk)
            (D.Disk.may_leave self.old.journal.disk)
            → IsTrue (may_ask self.new.journal.is_given_up (D.Disk.is_usable self.new.journal.disk))
            → OnErr result (IsStored (changes ++ removed_of (change_of (Remove key.now)) result) self.new.map.machine self.new.journal.at (D.Disk.seen self.new.journal.disk)
            (D.Disk.may_leave self.new.journal.disk)) }
    {
        if self.is_behind() {
            return Err(StoreError::Behind);
        }
        match self.map.remove(key) {
            Ok(Some(commit)) => match self.logged(commit) {
                Ok(commit) => Ok(Some(commit)),
                Err(error) => Err(error),
            },
            Ok(None) => Ok(None),
            Err(refusal) => Err(StoreError::Refused(refusal)),
        }
    }
}
