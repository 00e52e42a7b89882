//! The changes of a batch, made one after the other: the puts, and then the removes.

ghost use Rattle.std.specs.Prelude.{◌≡◌, ◌++◌, ◌∷◌, IfOk, IfErr, OnOk, OnErr, None, List, [], map};
ghost use Rattle.std.specs.List.{AllByRecursion};
ghost use Rattle.mt_types.specs.declared.row.Change.{Change as RowChange};
ghost use Rattle.mt_types.specs.Limits.{request_fault};
ghost use Rattle.mt_promise.specs.History.{History};
ghost use Rattle.mt_index.specs.Alone.{IsIdle};
ghost use Rattle.mt_index.specs.Marks.{IsAhead};
ghost use Rattle.mt_index.specs.Stands.{MachineView, Stands};
ghost use Rattle.mt_index.specs.declared.marks.Mark.{Mark};
ghost use Rattle.mt_batch.specs.Batch.{MayLack, changes_fault};
ghost use Rattle.mt_batch.specs.Changes.{IsTwice, key_of, puts_of, request_of_change};
ghost use Rattle.mt_batch.specs.Making.{HasGone, MakesAll, PutsAll, without_reply};

use crate::batch::Change;
use crate::planning::{Plan, prepare};
use mt_index::machine::Machine;
use mt_types::event::Reply;
use mt_types::refusal::Refusal;
use std::alloc::Global;

// Drops the reply of a call.
fn without_reply(done: Result<Reply, Refusal>) -> Result<(), Refusal>
    ensures { result ≡ without_reply done }
{
    match done {
        Ok(_) => Ok(()),
        Err(refusal) => Err(refusal),
    }
}

// Makes a change, if it is a put, as a call alone.
fn put_one(alloc: Global, machine: &mut Machine, change: &Change<'_>) -> Result<(), Refusal>
    requires { IsIdle machine.old }
    ensures ok { OnOk result ((s : MachineView) (mark : Mark) (made : List RowChange) → IsAhead s mark made machine.old
        → IsAhead s mark (made ++ puts_of (change.now ∷ [])) machine.new) }
    ensures err { OnErr result ((s : MachineView) (mark : Mark) (made : List RowChange) → IsAhead s mark made machine.old
        → IsAhead s mark made machine.new) }
    ensures lacks { IfErr result (λ refusal. request_fault machine.old.columns (request_of_change change.now) ≡ None
        → (h : History) → Stands machine.old h → MayLack refusal) }
    ensures idle { IsIdle machine.new }
    ensures columns { machine.new.columns ≡ machine.old.columns }
{
    let Change::Put { .. } = change else {
        return Ok(());
    };
    let request = match change.asked().checked(alloc, machine.columns()) {
        Ok(request) => request,
        Err(refusal) => return Err(refusal),
    };
    without_reply(machine.do_alone(alloc, request))
}

// Makes the puts, one after the other, until one is refused.
fn put_all(alloc: Global, machine: &mut Machine, changes: &[Change<'_>]) -> Result<(), Refusal>
    requires { IsIdle machine.old }
    ensures puts { (s : MachineView) (mark : Mark) → IsAhead s mark [] machine.old
        → PutsAll s mark changes.now result machine.new }
    ensures lacks { IfErr result (λ refusal. changes_fault machine.old.columns changes.now ≡ None
        → (s : MachineView) (mark : Mark) → IsAhead s mark [] machine.old → MayLack refusal) }
    ensures idle { IsIdle machine.new }
    ensures columns { machine.new.columns ≡ machine.old.columns }
{
    for change in changes {
        put_one(alloc, machine, change)?;
    }
    Ok(())
}

// Makes all changes, and returns for each the number of its commit, or 0. After an error some puts are made.
pub(crate) fn make(
    alloc: Global,
    machine: &mut Machine,
    changes: &[Change<'_>],
    from: u64,
) -> Result<Vec<u64>, Refusal>
    requires idle { IsIdle machine.old }
    requires ahead { (s : MachineView) × (mark : Mark) × IsAhead s mark [] machine.old }
    requires fit { changes_fault machine.old.columns changes.now ≡ None }
    requires once { IsTwice (map key_of changes.now) → ⊥ }
    ensures ok { IfOk result (λ numbers. (s : MachineView) (mark : Mark) → IsAhead s mark [] machine.old
        → MakesAll s mark changes.now from numbers.items machine.new) }
    ensures err { OnErr result ((s : MachineView) (mark : Mark) → IsAhead s mark [] machine.old
        → HasGone s mark machine.new) }
    ensures lacks { IfErr result MayLack }
    ensures idle { IsIdle machine.new }
{
    put_all(alloc, machine, changes)?;
    let Plan { numbers, taken, .. } = prepare(alloc, machine, changes, from)?;
    let _few = machine.commits();
    machine.remove_rows(taken)?;
    Ok(numbers)
}
