//! The removes of a batch, prepared: the rows that they are to take away, and the number of each change's commit.

ghost use Rattle.std.specs.Prelude.{◌≡◌, ◌+◌, ◌≤◌, IfErr, IfOk, OnOk, None, length, List, [], ◌∷◌, ◌++◌};
ghost use Rattle.mt_types.specs.Rows.{Rows as RowMap};
ghost use Rattle.mt_types.specs.declared.limits.TheConstants.{MAX_KEY_BYTES};
ghost use Rattle.mt_commit.specs.Log.{newest};
ghost use Rattle.mt_promise.specs.History.{History, moment, rows};
ghost use Rattle.mt_index.specs.Alone.{IsQuiet};
ghost use Rattle.mt_index.specs.Stands.{Stands};
ghost use Rattle.mt_batch.specs.declared.batch.Change.{Change as ChangeView};
ghost use Rattle.mt_batch.specs.Batch.{MayLack, changes_fault};
ghost use Rattle.mt_batch.specs.Changes.{key_of, numbers_from, taken_of};

use crate::batch::Change;
use mt_index::machine::Machine;
use mt_reads::key_of;
use mt_types::copying::TryCopy;
use mt_types::key::Key;
use mt_types::refusal::Refusal;
use mt_types::row::Row;
use std::alloc::Global;

// What is prepared so far: the keys that are to be removed, with their rows; for each change the number of its commit, or
// 0; and the number of the last put, and that of the last remove.
#[derive(Drop)]
pub(crate) struct Plan {
    pub(crate) taken: Vec<(Key, Row)>,
    pub(crate) numbers: Vec<u64>,
    put: u64,
    last: u64,
}

fn after(number: u64) -> Result<u64, Refusal>
    ensures next { IfOk result (λ next. next ≡ number + 1) }
    ensures lacks { IfErr result MayLack }
{
    number.checked_add(1).ok_or(Refusal::Spent)
}

// A key and a copy of its row.
fn taken(alloc: Global, key: &[u8], row: &Row) -> Result<(Key, Row), Refusal>
    ensures taken { IfOk result (λ made. made ≡ (key.now, row.now)) }
    ensures lacks { IfErr result (λ refusal. length key.now ≤ MAX_KEY_BYTES → MayLack refusal) }
{
    Ok((key_of(alloc, key)?, row.copy(alloc)?))
}

impl Plan {
    // Adds the number of a commit, or 0.
    fn number(&mut self, number: u64) -> Result<(), Refusal>
        ensures taken { self.new.taken ≡ self.old.taken }
        ensures numbers { OnOk result (self.new.numbers.items ≡ self.old.numbers.items ++ number ∷ []) }
        ensures put { self.new.put ≡ self.old.put }
        ensures last { self.new.last ≡ self.old.last }
        ensures lacks { IfErr result MayLack }
    {
        match self.numbers.push(number) {
            Ok(()) => Ok(()),
            Err(_) => Err(Refusal::NoMemory),
        }
    }

    // Prepares a change.
    fn add(&mut self, alloc: Global, machine: &Machine, change: &Change<'_>) -> Result<(), Refusal>
        requires quiet { IsQuiet machine.now }
        requires fits { length (key_of change.now) ≤ MAX_KEY_BYTES }
        ensures taken { OnOk result ((h : History) (rest : List ChangeView) → Stands machine.now h
            → self.new.taken.items ++ taken_of (rows machine.now.columns (moment h)) rest
            ≡ self.old.taken.items ++ taken_of (rows machine.now.columns (moment h)) (change.now ∷ rest)) }
        ensures numbers { OnOk result ((h : History) (rest : List ChangeView) → Stands machine.now h
            → self.new.numbers.items ++ numbers_from (rows machine.now.columns (moment h)) self.new.put self.new.last rest
            ≡ self.old.numbers.items ++ numbers_from (rows machine.now.columns (moment h)) self.old.put self.old.last
            (change.now ∷ rest)) }
        ensures lacks { IfErr result MayLack }
    {
        let Change::Remove { key } = change else {
            self.put = after(self.put)?;
            return self.number(self.put);
        };
        let Some(row) = machine.row(key) else {
            return self.number(0);
        };
        self.last = after(self.last)?;
        match self.taken.push(taken(alloc, key, row)?) {
            Ok(()) => self.number(self.last),
            Err(_) => Err(Refusal::NoMemory),
        }
    }
}

// Prepares the removes of a batch of which the first put made the commit after `from`, and the last the newest one. No
// put, remove or tidy may be open.
pub(crate) fn prepare(
    alloc: Global,
    machine: &Machine,
    changes: &[Change<'_>],
    from: u64,
) -> Result<Plan, Refusal>
    requires quiet { IsQuiet machine.now }
    requires fit { changes_fault machine.now.columns changes.now ≡ None }
    ensures taken { IfOk result (λ plan. (h : History) → Stands machine.now h
        → plan.taken.items ≡ taken_of (rows machine.now.columns (moment h)) changes.now) }
    ensures numbers { IfOk result (λ plan. (h : History) → Stands machine.now h
        → plan.numbers.items ≡ numbers_from (rows machine.now.columns (moment h)) from (newest machine.now.log)
        changes.now) }
    ensures lacks { IfErr result MayLack }
{
    let mut plan = Plan {
        taken: Vec::new(alloc),
        numbers: Vec::new(alloc),
        put: from,
        last: machine.commits(),
    };
    for change in changes {
        plan.add(alloc, machine, change)?;
    }
    Ok(plan)
}
