//! The commits of a log, made again in a map.

ghost use Rattle.std.specs.Prelude.{[], ◌∷◌, OnOk, IfErr, map};
ghost use Rattle.mt_frame.specs.declared.entry.Record.TheVariants.{Row as RowOf, Removed as RemovedOf};
ghost use Rattle.mt_replay.specs.Replay.{change_again, records_in};
ghost use Rattle.mt_store.specs.Again.{EndsAt, NextFails};
ghost use Rattle.mt_store.specs.Extending.{Adds};

use crate::error::StoreError;
use mt_frame::entry::{Entry, Record};
use mt_map::map::Map;
use mt_replay::records::sets_of;
use mt_types::key::Key;
use mt_types::refusal::Refusal;
use mt_types::row::Columns;
use std::alloc::Global;

// Puts all columns of a row.
fn put_again(alloc: Global, index: &mut Map, key: &Key, columns: &Columns) -> Result<(), StoreError>
    ensures adds { OnOk result (Adds index.old.machine (change_again (RowOf key.now columns.now) ∷ []) index.new.machine) }
    ensures fails { IfErr result (λ error. NextFails error index.old.machine (RowOf key.now columns.now)) }
{
    let Ok(sets) = sets_of(alloc, columns) else {
        return Err(StoreError::Refused(Refusal::NoMemory));
    };
    match index.put(key.as_slice(), &sets) {
        Ok(_) => Ok(()),
        Err(refusal) => Err(StoreError::Refused(refusal)),
    }
}

// Removes a row.
fn remove_again(index: &mut Map, key: &Key) -> Result<(), StoreError>
    ensures adds { OnOk result (Adds index.old.machine (change_again (RemovedOf key.now) ∷ []) index.new.machine) }
    ensures fails { IfErr result (λ error. NextFails error index.old.machine (RemovedOf key.now)) }
{
    let commit = index.commits().saturating_add(1);
    match index.remove(key.as_slice()) {
        Ok(Some(_)) => Ok(()),
        Ok(None) => Err(StoreError::Damaged { commit }),
        Err(refusal) => Err(StoreError::Refused(refusal)),
    }
}

// Makes the commit of a record again.
fn make_again(alloc: Global, index: &mut Map, kept: &Record) -> Result<(), StoreError>
    ensures adds { OnOk result (Adds index.old.machine (change_again kept.now ∷ []) index.new.machine) }
    ensures fails { IfErr result (λ error. NextFails error index.old.machine kept.now) }
{
    match kept {
        Record::Row(key, columns) => put_again(alloc, index, key, columns),
        Record::Removed(key) => remove_again(index, key),
    }
}

// Makes the commits of records again.
fn make_all(alloc: Global, index: &mut Map, records: &[Record]) -> Result<(), StoreError>
    ensures adds { OnOk result (Adds index.old.machine (map change_again records.now) index.new.machine) }
    ensures fails { IfErr result (λ error. EndsAt index.old.machine records.now error) }
{
    for kept in records {
        make_again(alloc, index, kept)?;
    }
    Ok(())
}

/// Makes the commits of a log's entries again, in their order, each as the next commit of the map.
pub fn replay(alloc: Global, index: &mut Map, entries: &[Entry]) -> Result<(), StoreError>
    ensures adds { OnOk result (Adds index.old.machine (map change_again (records_in entries.now)) index.new.machine) }
    ensures fails { IfErr result (λ error. EndsAt index.old.machine (records_in entries.now) error) }
{
    for entry in entries {
        if let Entry::Commits(commits) = entry {
            make_all(alloc, index, commits.records.as_slice())?;
        }
    }
    Ok(())
}
