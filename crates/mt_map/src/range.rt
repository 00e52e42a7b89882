//! Walks over the rows of a map whose keys are within bounds, in the order of their keys, and their count.

ghost use Rattle.std.specs.Prelude.{◌≡◌, ◌<◌, ◌↔◌, IfErr, IfOk, IsErr, IsTrue, MatchOption, OnSome, Err};
ghost use Rattle.std.specs.Option.{option_copied};
ghost use Rattle.std.specs.Range.Bound.{bound_map};
ghost use Rattle.std.specs.declared.ops.Bound.TheVariants.{Excluded};
ghost use Rattle.mt_types.specs.Limits.{key_fault};
ghost use Rattle.mt_promise.specs.History.{History, moment, rows};
ghost use Rattle.mt_index.specs.Stands.{Stands};
ghost use Rattle.mt_asked.specs.Bounds.{start_key};
ghost use Rattle.mt_map.specs.Bounded.{BeginsFrom, GivesWithin};
ghost use Rattle.mt_reads.specs.Counts.{count_fault, count_of};
ghost use Rattle.mt_reads.specs.Walks.{keys_to_come};

use crate::map::Map;
use crate::walk::Rows;
use mt_asked::bounds::{Bounds, is_up_to};
use mt_reads::count;
use mt_types::refusal::{NoMemory, Refusal};
use mt_types::row::Row;
use std::ops::Bound;

/// A walk as [`Rows`] is one, that ends at an upper bound, with which each key is compared.
///
///     let mut rows = map.range((Bound::Included(b"a"), Bound::Excluded(b"b")))?;
///     while let Some(row) = rows.next()? {
///         println!(rt; "{} bytes, version {}", rows.key().len(), row.version)?;
///     }
///
/// Such a loop ends: `keys_to_come` of the walk is less after each row.
#[derive(Drop)]
pub struct Range<'m> {
    walk: Rows<'m>,
    end: Bound<&'m [u8]>,
}

impl Map {
    /// Returns a walk over the rows whose keys are within a lower and an upper bound. There are none if the lower bound is
    /// after the upper one.
    ///
    ///     let mut rows = map.range((Bound::Excluded(b"apple"), Bound::Unbounded))?;
    ///
    /// Costs what [`Map::walk`] costs, and for an excluded lower bound a get too. Borrows the upper bound.
    ///
    /// # Errors
    ///
    /// `KeyTooLong` if the lower bound has more than `MAX_KEY_BYTES` bytes; otherwise `NoMemory` if an allocation is
    /// refused.
    pub fn range<'m>(&'m self, bounds: Bounds<'m>) -> Result<Range<'m>, Refusal>
        ensures machine { IfOk result (λ range. range.walk.machine ≡ self.now.machine) }
        ensures start { IfOk result (λ range. (h : History) → Stands self.now.machine h
            → BeginsFrom (rows self.now.machine.columns (moment h)) (bound_map (λ key. key.now) bounds.entry.0)
            range.walk.at) }
        ensures end { IfOk result (λ range. range.end ≡ bounds.entry.1) }
        ensures fault { MatchOption (key_fault (start_key (bound_map (λ key. key.now) bounds.entry.0)))
            (IfErr result (λ refusal. refusal ≡ Refusal.NoMemory)) (λ refusal. result ≡ Err refusal) }
    {
        let (start, end) = bounds;
        let walk = self.walk_from(start)?;
        Ok(Range { walk, end })
    }

    // Returns a walk that is before the first row whose key isn't before a lower bound.
    fn walk_from(&self, start: Bound<&[u8]>) -> Result<Rows<'_>, Refusal>
        ensures machine { IfOk result (λ walk. walk.machine ≡ self.now.machine) }
        ensures start { IfOk result (λ walk. (h : History) → Stands self.now.machine h
            → BeginsFrom (rows self.now.machine.columns (moment h)) (bound_map (λ key. key.now) start.entry) walk.at) }
        ensures fault { MatchOption (key_fault (start_key (bound_map (λ key. key.now) start.entry)))
            (IfErr result (λ refusal. refusal ≡ Refusal.NoMemory)) (λ refusal. result ≡ Err refusal) }
    {
        match start {
            Bound::Included(key) => self.walk(key),
            Bound::Excluded(key) => self.walk_after(key),
            Bound::Unbounded => self.walk(b""),
        }
    }

    // Returns a walk that is before the first row whose key is after `key`.
    fn walk_after(&self, key: &[u8]) -> Result<Rows<'_>, Refusal>
        ensures machine { IfOk result (λ walk. walk.machine ≡ self.now.machine) }
        ensures start { IfOk result (λ walk. (h : History) → Stands self.now.machine h
            → BeginsFrom (rows self.now.machine.columns (moment h)) (Excluded key.now) walk.at) }
        ensures fault { MatchOption (key_fault key.now) (IfErr result (λ refusal. refusal ≡ Refusal.NoMemory))
            (λ refusal. result ≡ Err refusal) }
    {
        let mut walk = self.walk(key)?;
        let there = self.contains_key(key)?;
        if !there {
            return Ok(walk);
        }
        let _first = walk.next()?;
        Ok(walk)
    }

    /// Returns how many rows have keys from `from` on and before `to`, or before no bound, counted up to `most`.
    ///
    ///     println!(rt; "{} fruits", map.count(b"a", Some(b"g"), u32::MAX)?)?;
    ///
    /// Costs the steps of a walk: one for each row that is counted, and one more.
    ///
    /// # Errors
    ///
    /// `KeyTooLong` if `from` or `to` has more than `MAX_KEY_BYTES` bytes; otherwise `NoMemory` if an allocation is
    /// refused.
    pub fn count(&self, from: &[u8], to: Option<&[u8]>, most: u32) -> Result<u32, Refusal>
        ensures count { IfOk result (λ count. (h : History) → Stands self.now.machine h
            → count ≡ count_of (rows self.now.machine.columns (moment h)) from.now (option_copied to.entry) most) }
        ensures fault { MatchOption (count_fault from.now (option_copied to.entry))
            (IfErr result (λ refusal. refusal ≡ Refusal.NoMemory)) (λ refusal. result ≡ Err refusal) }
    {
        count(self.alloc, &self.machine, from, to, most)
    }
}

impl<'m> Range<'m> {
    /// Returns the row of the next key within the bounds, which [`Range::key`] then returns, or `None` after the last.
    ///
    ///     while let Some(row) = rows.next()? {
    ///         println!(rt; "{} bytes, version {}", rows.key().len(), row.version)?;
    ///     }
    ///
    /// Costs what [`Rows::next`] costs.
    ///
    /// # Errors
    ///
    /// Those of [`Rows::next`].
    pub fn next(&mut self) -> Result<Option<&'m Row>, NoMemory>
        ensures row { IfOk result (λ row. (h : History) → Stands self.old.walk.machine h
            → GivesWithin (bound_map (λ key. key.now) self.old.end)
            (rows self.old.walk.machine.columns (moment h)) self.old.walk.at (option_copied row) self.new.walk.at) }
        ensures fewer { IfOk result (λ row. OnSome row
            (keys_to_come self.new.walk.at < keys_to_come self.old.walk.at)) }
        ensures fails { IsTrue self.new.walk.failed ↔ IsErr result }
        ensures stays { IsTrue self.old.walk.failed → IsErr result }
        ensures machine { self.new.walk.machine ≡ self.old.walk.machine }
        ensures end { self.new.end ≡ self.old.end }
    {
        let Some(row) = self.walk.next()? else {
            return Ok(None);
        };
        if is_up_to(self.end, self.walk.key()) {
            Ok(Some(row))
        } else {
            Ok(None)
        }
    }

    /// Returns the key of the last row. Before the first row it is the key of the lower bound, and after the last it may
    /// be one that isn't within the bounds. Constant cost.
    ///
    ///     let last = rows.key();
    pub fn key(&self) -> &[u8]
        ensures { result.now ≡ self.now.walk.at.key }
    {
        self.walk.key()
    }
}
