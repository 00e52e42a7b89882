//! One row more in an index that is being loaded.

ghost use Rattle.std.specs.Prelude.{◌≡◌, ◌+◌, ◌<◌, List, ◌∷◌, None, OnOk, length};
ghost use Rattle.std.specs.FinMap.{get, insert};
ghost use Rattle.mt_types.specs.Rows.{Rows as RowMap, columns_before};
ghost use Rattle.mt_reach.specs.Reach.{Entry, Fits};
ghost use Rattle.mt_commit.specs.Log.{newest};
ghost use Rattle.mt_index.specs.Stands.{HasBounds};
ghost use Rattle.mt_load.specs.Loading.{HasLoaded, IsAt, IsBefore, row_at};

use crate::error::{Flaw, LoadError};
use mt_asked::asked::Asked;
use mt_index::machine::Machine;
use mt_replay::records::sets_of;
use mt_types::key::Key;
use mt_types::refusal::Refusal;
use mt_types::row::Row;
use std::alloc::Global;

// Puts all columns of a row, as the next commit.
fn put(alloc: Global, machine: &mut Machine, key: &Key, row: &Row) -> Result<(), LoadError>
    requires at { (map : RowMap) × IsAt map machine.old }
    requires wide { length row.now.columns ≡ machine.old.columns }
    ensures put { (map : RowMap) → IsAt map machine.old
        → length (columns_before machine.old.columns (get map key.now)) ≡ machine.old.columns
        → OnOk result (IsAt (insert map key.now (row_at (newest machine.old.log + 1) row.now)) machine.new) }
    ensures newest { OnOk result (newest machine.new.log ≡ newest machine.old.log + 1) }
    ensures fits { OnOk result (Fits machine.old.columns (key.now, row.now)) }
    ensures columns { machine.new.columns ≡ machine.old.columns }
    ensures bounds { HasBounds machine.old.log.capacity machine.old.log.retention machine.new.log }
{
    let Ok(sets) = sets_of(alloc, &row.columns) else {
        return Err(LoadError::Refused(Refusal::NoMemory));
    };
    let asked = Asked::Put {
        key: key.as_slice(),
        sets: &sets,
    };
    let columns = machine.columns();
    match asked.checked(alloc, columns) {
        Ok(request) => match machine.do_alone(alloc, request) {
            Ok(_) => Ok(()),
            Err(refusal) => Err(LoadError::Refused(refusal)),
        },
        Err(refusal) => Err(LoadError::Refused(refusal)),
    }
}

// Lets the next commit be the one that made a row. What the commits were since the newest row isn't known: one that is
// missing is made by a put of the same row, and more are passed.
fn come_before(alloc: Global, machine: &mut Machine, key: &Key, row: &Row) -> Result<(), LoadError>
    requires loaded { (map : RowMap) × (entries : List Entry) × HasLoaded map entries machine.old × (get map key.now ≡ None) }
    requires later { newest machine.old.log < row.now.version }
    requires wide { length row.now.columns ≡ machine.old.columns }
    ensures before { (map : RowMap) (entries : List Entry) → HasLoaded map entries machine.old → get map key.now ≡ None
        → OnOk result (IsBefore map key.now row.now machine.new) }
    ensures columns { machine.new.columns ≡ machine.old.columns }
    ensures bounds { HasBounds machine.old.log.capacity machine.old.log.retention machine.new.log }
{
    let _fits = key.as_slice();
    let steps = row.version - machine.commits();
    if steps == 1 {
        return Ok(());
    }
    if steps == 2 {
        return put(alloc, machine, key, row);
    }
    machine.rebase(row.version - 1);
    Ok(())
}

// Puts a row under a key that has none, with its version.
pub(crate) fn add(
    alloc: Global,
    machine: &mut Machine,
    key: &Key,
    row: &Row,
) -> Result<(), LoadError>
    requires { (map : RowMap) × (entries : List Entry) × HasLoaded map entries machine.old × (get map key.now ≡ None) }
    ensures added { (map : RowMap) (entries : List Entry) → HasLoaded map entries machine.old → get map key.now ≡ None
        → OnOk result (HasLoaded (insert map key.now row.now) ((key.now, row.now) ∷ entries) machine.new) }
    ensures columns { machine.new.columns ≡ machine.old.columns }
    ensures bounds { HasBounds machine.old.log.capacity machine.old.log.retention machine.new.log }
{
    if row.version <= machine.commits() {
        return Err(LoadError::Impossible(Flaw::Version(row.version)));
    }
    if row.columns.len() != usize::from(machine.columns()) {
        return Err(LoadError::Impossible(Flaw::Columns(row.version)));
    }
    come_before(alloc, machine, key, row)?;
    put(alloc, machine, key, row)
}
