//! Who holds the log: numbers of commits, each as often as it is held.

ghost use Rattle.std.specs.Prelude.{◌≡◌, ◌<◌, ◌≤◌, [], All, length, OnOk, OnErr};
ghost use Rattle.mt_types.specs.Numbers.{least};
ghost use Rattle.mt_commit.specs.Holders.{with_holder, without_holder};

use crate::log::MAX_HOLDERS;
use mt_types::refusal::NoMemory;
use std::alloc::Global;
use std::collections::BTreeMap;
use std::marker::Model;

/// Numbers in ascending order, each as often as it was added and not removed: a B-tree of their counts.
#[derive(Drop)]
pub(crate) struct Holders {
    counts: BTreeMap<u64, u64>,
}

impl Model for Holders {
    ghost use Rattle.std.specs.Prelude.{List, ℕ};
    ghost use Rattle.std.specs.Ordering.{nat_cmp};
    ghost use Rattle.std.specs.BTreeMap.{IsOrdered};
    ghost use Rattle.mt_commit.specs.Holders.{each_held, AllHeld};

    ghost Value = { List ℕ };

    ghost view = { λ h. each_held h.counts.entries };

    ghost invariant = { λ h. IsOrdered nat_cmp h.counts × AllHeld h.counts.entries };
}

impl Holders {
    /// Returns an empty collection. Allocates nothing.
    pub(crate) fn new(alloc: Global) -> Holders
        ensures { result ≡ [] }
    {
        Holders {
            counts: BTreeMap::new(alloc),
        }
    }

    /// Returns the least of these numbers, or `most` if there are none. No number is greater than `most`. O(log n) in
    /// the numbers that differ.
    pub(crate) fn least(&self, most: u64) -> u64
        requires { All (λ holder. holder ≤ most) self.now }
        ensures { result ≡ least most self.now }
    {
        match self.counts.first_key_value() {
            Some((first, _)) => *first,
            None => most,
        }
    }

    /// Adds a number once more. On an error nothing changes. O(log n) in the numbers that differ.
    pub(crate) fn add(&mut self, number: u64) -> Result<(), NoMemory>
        requires { length self.old < MAX_HOLDERS }
        ensures ok { OnOk result (self.new ≡ with_holder number self.old) }
        ensures err { OnErr result (self.new ≡ self.old) }
    {
        match self.counts.get_mut(&number) {
            Some(count) => *count += 1,
            None => {
                self.counts.insert(number, 1)?;
            }
        }
        Ok(())
    }

    /// Removes a number once, if it is there. O(log n) in the numbers that differ.
    pub(crate) fn remove(&mut self, number: u64)
        ensures { self.new ≡ without_holder number self.old }
    {
        match self.counts.get_mut(&number) {
            Some(count) if *count > 1 => *count -= 1,
            Some(_) => {
                let _ = self.counts.remove(&number);
            }
            None => {}
        }
    }
}
