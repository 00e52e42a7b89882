//! The number of commits at which a loaded index continues.

ghost use Rattle.std.specs.Prelude.{◌≡◌, ◌+◌, ◌<◌, ◌≤◌, None, IfSome, IsTrue, OnOk, List, length};
ghost use Rattle.mt_types.specs.declared.limits.TheConstants.{MAX_KEY_BYTES};
ghost use Rattle.std.specs.FinMap.{get};
ghost use Rattle.mt_types.specs.Rows.{Rows as RowMap};
ghost use Rattle.mt_promise.specs.History.{History, moment, rows};
ghost use Rattle.mt_reach.specs.Reach.{Entry};
ghost use Rattle.mt_index.specs.Alone.{IsIdle, IsQuiet};
ghost use Rattle.mt_index.specs.Stands.{HasBounds, Stands};
ghost use Rattle.mt_load.specs.Loaded.{IsLoaded};
ghost use Rattle.mt_load.specs.Loading.{HasLoaded};

use crate::error::{Flaw, LoadError};
use mt_index::machine::Machine;

// A key without a row.
fn unused_key(machine: &Machine) -> Option<[u8; 8]>
    requires { IsQuiet machine.now }
    ensures short { IfSome result (λ key. length key ≤ MAX_KEY_BYTES) }
    ensures unused { IfSome result (λ key. (h : History) → Stands machine.now h
        → get (rows machine.now.columns (moment h)) key ≡ None) }
{
    for number in 0..u64::MAX {
        let key = number.to_be_bytes();
        if machine.row(&key).is_none() {
            return Some(key);
        }
    }
    None
}

// Whether the last of these commits can have left this number of rows, the newest of which is of the commit `newest`: it is that
// one, or at least two commits left no row.
fn can_end(newest: u64, commits: u64, rows: u64) -> bool
    requires { rows ≤ commits }
    ensures { IsTrue result → newest < commits → rows + 2 ≤ commits }
{
    newest == commits || commits - rows >= 2
}

// Lets the rows that were loaded be those after this number of commits.
pub(crate) fn end_at(machine: &mut Machine, commits: u64) -> Result<(), LoadError>
    requires { (map : RowMap) × (entries : List Entry) × HasLoaded map entries machine.old }
    ensures loaded { (map : RowMap) (entries : List Entry) → HasLoaded map entries machine.old
        → OnOk result (IsLoaded machine.old.columns commits map machine.new) }
    ensures idle { OnOk result (IsIdle machine.new) }
    ensures bounds { HasBounds machine.old.log.capacity machine.old.log.retention machine.new.log }
{
    let newest = machine.commits();
    if commits < newest {
        return Err(LoadError::Impossible(Flaw::Version(newest)));
    }
    let rows = machine.len() as u64;
    match unused_key(machine) {
        Some(_unused) if can_end(newest, commits, rows) => {
            machine.rebase(commits);
            Ok(())
        }
        _ => Err(LoadError::Impossible(Flaw::Last(commits))),
    }
}
