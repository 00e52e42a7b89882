//! Rows with their versions, loaded into a new index.

ghost use Rattle.std.specs.Prelude.{◌≡◌, IfOk, OnOk, MatchOption, Err, List, []};
ghost use Rattle.std.specs.FinMap.{empty};
ghost use Rattle.mt_types.specs.Limits.{open_fault};
ghost use Rattle.mt_index.specs.Alone.{IsIdle};
ghost use Rattle.mt_index.specs.Stands.{HasBounds};
ghost use Rattle.mt_load.specs.declared.error.LoadError.TheVariants.{Refused};
ghost use Rattle.mt_reach.specs.Reach.{Entry};
ghost use Rattle.mt_load.specs.Loaded.{IsLoaded};
ghost use Rattle.mt_load.specs.Loading.{AreParted, HasLoaded, IsParted};
ghost use Rattle.mt_types.specs.Rows.{Rows as RowMap};

use crate::ending::end_at;
use crate::error::{Flaw, LoadError};
use crate::putting::add;
use mt_index::machine::Machine;
use mt_index::options::Options;
use mt_rows::rows::Rows;
use mt_types::copying::TryCopy;
use mt_types::key::Key;
use mt_types::refusal::{NoMemory, Refusal};
use std::alloc::Global;
use std::collections::BTreeMap;

// The keys of these rows, each under the version of its row. Of two rows with one version it has one.
fn keys_by_version(alloc: Global, rows: &Rows) -> Result<BTreeMap<u64, Key>, NoMemory> {
    let mut keys = BTreeMap::new(alloc);
    for (key, row) in rows.iter() {
        keys.insert(row.version, key.copy(alloc)?)?;
    }
    Ok(keys)
}

// The keys of these rows, in the order of their versions.
fn keys_in_order(alloc: Global, rows: &Rows) -> Result<Vec<Key>, NoMemory> {
    let mut keys = Vec::new(alloc);
    for (_, key) in keys_by_version(alloc, rows)? {
        keys.push(key)?;
    }
    Ok(keys)
}

// The version of some row.
fn some_version(rows: &Rows) -> u64 {
    match rows.iter().next() {
        Some((_, row)) => row.version,
        None => 0,
    }
}

// Puts the row of a key that is left into the index, if there is one.
fn take(alloc: Global, machine: &mut Machine, left: &mut Rows, key: &Key) -> Result<(), LoadError>
    requires { (all map : RowMap) × (entries : List Entry) × HasLoaded map entries machine.old × IsParted all left.old map }
    ensures taken { (all map : RowMap) (entries : List Entry) → HasLoaded map entries machine.old → IsParted all left.old map
        → OnOk result (AreParted all left.new machine.new) }
    ensures columns { machine.new.columns ≡ machine.old.columns }
    ensures bounds { HasBounds machine.old.log.capacity machine.old.log.retention machine.new.log }
{
    match left.remove(key) {
        Some(row) => add(alloc, machine, key, &row),
        None => Ok(()),
    }
}

// Puts these rows into a new index, in the order of their versions.
fn put_all(alloc: Global, machine: &mut Machine, rows: Rows) -> Result<(), LoadError>
    requires { HasLoaded empty [] machine.old }
    ensures loaded { OnOk result ((entries : List Entry) × HasLoaded rows entries machine.new) }
    ensures columns { machine.new.columns ≡ machine.old.columns }
    ensures bounds { HasBounds machine.old.log.capacity machine.old.log.retention machine.new.log }
{
    let Ok(keys) = keys_in_order(alloc, &rows) else {
        return Err(LoadError::Refused(Refusal::NoMemory));
    };
    let mut left = rows;
    for key in &keys {
        take(alloc, machine, &mut left, key)?;
    }
    if left.is_empty() {
        return Ok(());
    }
    Err(LoadError::Impossible(Flaw::Version(some_version(&left))))
}

/// Opens an index that has exactly these rows, with their versions, after `commits` commits, whichever commits led to
/// them. The next commit has the number after that. The index is at each legal history of as many commits that has these
/// rows, if each of its calls has made one commit and has ended, and it has no views (`IsLoaded`). So whatever is promised
/// of an index over its history holds of it over such a history, with what happens from now on.
///
/// The deltas of the first `commits` commits are not to be had: `Machine::feed` refuses them as `Behind`.
///
/// Costs O(n log n) in the rows, and a put for each, in the order of their versions; two for a row whose version is two
/// above the one before it.
///
/// # Errors
///
/// `Refused` for the first limit that the options break, or for one that a row breaks; or with `ArenaFull` or `NoMemory`.
/// `Impossible` if no index has these rows after `commits` commits: a version is 0 or greater than `commits`, or two rows have
/// it; a row has another number of columns; or each commit but the last left a row.
pub fn load(alloc: Global, options: Options, rows: Rows, commits: u64) -> Result<Machine, LoadError>
    ensures loaded { IfOk result (λ machine. IsLoaded options.columns commits rows machine) }
    ensures idle { IfOk result (λ machine. IsIdle machine) }
    ensures bounds { IfOk result (λ machine. HasBounds options.log_capacity options.log_retention machine.log) }
    ensures fault { MatchOption (open_fault options.columns options.log_capacity options.log_retention) (Unit {0})
        (λ refusal. result ≡ Err (Refused refusal)) }
{
    let mut machine = match Machine::open(alloc, options) {
        Ok(machine) => machine,
        Err(refusal) => return Err(LoadError::Refused(refusal)),
    };
    put_all(alloc, &mut machine, rows)?;
    end_at(&mut machine, commits)?;
    Ok(machine)
}
