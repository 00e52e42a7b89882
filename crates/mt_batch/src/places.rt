//! The places at which tidies follow a batch: the keys of its removes.

ghost use Rattle.std.specs.Prelude.{ℕ, ◌≡◌, ◌≤◌, ◌∷◌, ◌++◌, [], IfErr, IfOk, OnOk, None, length};
ghost use Rattle.mt_types.specs.declared.limits.TheConstants.{MAX_KEY_BYTES};
ghost use Rattle.mt_batch.specs.Batch.{MayLack, changes_fault};
ghost use Rattle.mt_batch.specs.Changes.{key_of, removed_keys};

use crate::batch::Change;
use mt_reads::key_of;
use mt_types::key::Key;
use mt_types::refusal::Refusal;
use std::alloc::Global;

// Adds a copy of the key of a change, if it is a remove.
fn add_place(alloc: Global, places: &mut Vec<Key>, change: &Change<'_>) -> Result<(), Refusal>
    ensures added { OnOk result (places.new.items ≡ places.old.items ++ removed_keys (change.now ∷ [])) }
    ensures lacks { IfErr result (λ refusal. length (key_of change.now) ≤ MAX_KEY_BYTES → MayLack refusal) }
{
    let Change::Remove { key } = change else {
        return Ok(());
    };
    match places.push(key_of(alloc, key)?) {
        Ok(()) => Ok(()),
        Err(_) => Err(Refusal::NoMemory),
    }
}

/// Returns copies of the keys whose rows are to be removed by changes that keep their limits. O(n) in the changes, with two
/// allocations for each key.
///
/// # Errors
///
/// `NoMemory` if an allocation is refused.
pub fn removed_places(alloc: Global, changes: &[Change<'_>]) -> Result<Vec<Key>, Refusal>
    requires fit { (columns : ℕ) × (changes_fault columns changes.now ≡ None) }
    ensures places { IfOk result (λ places. places.items ≡ removed_keys changes.now) }
    ensures lacks { IfErr result MayLack }
{
    let mut places = Vec::new(alloc);
    for change in changes {
        add_place(alloc, &mut places, change)?;
    }
    Ok(places)
}
