//! Batches of a map: several changes as one, and the tidies that follow the removes.

ghost use Rattle.std.specs.Prelude.{ℕ, ◌≡◌, IfErr, IfOk, OnOk, OnErr, MatchOption, Err, None, map};
ghost use Rattle.mt_batch.specs.Batch.{MayFail, MayLack, StaysThere, batch_fault, changes_fault};
ghost use Rattle.mt_batch.specs.Changes.{IsTwice, key_of};
ghost use Rattle.mt_index.specs.Alone.{IsIdle};
ghost use Rattle.mt_map.specs.Batches.{MapBatches, PurgesAfter, PurgesEach, places_of};

use crate::map::Map;
use crate::tidying::tidy_after;
use mt_batch::batch::{BatchError, Batched, Change, Condition};
use mt_batch::batching::{batch, batch_fault};
use mt_batch::places::removed_places;
use mt_index::machine::Machine;
use mt_types::key::Key;
use mt_types::refusal::Refusal;
use std::alloc::Global;

// Returns copies of the keys at which tidies are to follow: those whose rows are to be removed, or none.
fn places_of(alloc: Global, tidies: bool, changes: &[Change<'_>]) -> Result<Vec<Key>, Refusal>
    requires fit { (columns : ℕ) × (changes_fault columns changes.now ≡ None) }
    ensures places { IfOk result (λ places. places.items ≡ places_of tidies changes.now) }
    ensures lacks { IfErr result MayLack }
{
    if tidies {
        removed_places(alloc, changes)
    } else {
        Ok(Vec::new(alloc))
    }
}

// Makes the tidies that follow removes at these places.
fn tidy_each(alloc: Global, machine: &mut Machine, places: Vec<Key>)
    requires { IsIdle machine.old }
    ensures purges { PurgesEach machine.old places.items machine.new }
    ensures idle { IsIdle machine.new }
{
    for place in places {
        tidy_after(alloc, machine, place);
    }
}

// Makes the tidies that follow a batch at these places, if it is made.
fn tidy_batch(alloc: Global, machine: &mut Machine, came: &Batched, places: Vec<Key>)
    requires { IsIdle machine.old }
    ensures follow { PurgesAfter came.now machine.old places.items machine.new }
    ensures idle { IsIdle machine.new }
{
    if let Batched::Made(_) = came {
        tidy_each(alloc, machine, places);
    }
}

impl Map {
    /// Makes several changes as one, if conditions hold: all, as consecutive commits, first the puts in their order, and then
    /// the removes; or none. If a condition doesn't hold, the first such is reported, with the version that was found. If a
    /// change is refused, also for lack of memory, those before it are undone.
    ///
    ///     let conditions = [Condition::new(b"apple", commit)];
    ///     let changes = [
    ///         Change::Put { key: b"pear", sets: &[Set::new(0, b"green")] },
    ///         Change::Remove { key: b"fig" },
    ///     ];
    ///     match map.batch(&conditions, &changes)? {
    ///         Batched::Made(made) => println!(rt; "commits {} to {}", made.from + 1, made.to)?,
    ///         Batched::Unmet { place, found } => println!(rt; "condition {place}: version {found}")?,
    ///     }
    ///
    /// If the options of the map ask for tidies, they follow at each key that was to be removed, as after [`Map::remove`].
    /// They change nothing of the answer. A page of a view can show a part of a batch until [`Map::keep_views`] has
    /// advanced the view over it: a page whose `floor` is `made.to` doesn't.
    ///
    /// Costs a search for each condition, what a put or a remove costs for each change, and O(n log n) in the changes.
    ///
    /// # Errors
    ///
    /// The first of these that applies, whatever memory there is: `BadBatch` if there are more than `MAX_BATCH` conditions or
    /// changes; `Refused` with the first limit that a condition breaks, or a change. Then: `BadBatch` if a key is changed
    /// twice; `Refused` with what [`Map::put`] or [`Map::remove`] is refused for, and with `FeedFull` if more rows are to be
    /// removed than the log has room for. Nothing has changed then.
    pub fn batch(
        &mut self,
        conditions: &[Condition<'_>],
        changes: &[Change<'_>],
    ) -> Result<Batched, BatchError>
        ensures came { IfOk result (λ came. MapBatches self.old conditions.now changes.now came self.new) }
        ensures stays { OnErr result (StaysThere self.old.machine self.new.machine) }
        ensures fault { MatchOption (batch_fault self.old.machine.columns conditions.now changes.now)
            (IfErr result (MayFail changes.now)) (λ error. result ≡ Err error) }
        ensures once { OnOk result (IsTwice (map key_of changes.now) → ⊥) }
        ensures tidies { self.new.tidies ≡ self.old.tidies }
    {
        if let Some(error) = batch_fault(self.machine.columns(), conditions, changes) {
            return Err(error);
        }
        let places = match places_of(self.alloc, self.tidies, changes) {
            Ok(places) => places,
            Err(refusal) => return Err(BatchError::Refused(refusal)),
        };
        let came = batch(self.alloc, &mut self.machine, conditions, changes)?;
        tidy_batch(self.alloc, &mut self.machine, &came, places);
        Ok(came)
    }
}
