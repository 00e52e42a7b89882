//! Walks over the rows of a map against the order of their keys, also within bounds.

ghost use Rattle.std.specs.Prelude.{◌≡◌, ◌<◌, ◌↔◌, IfErr, IfOk, IfSome, IsErr, IsTrue, None, MatchOption, OnSome, Err, [], false, unwrap_or};
ghost use Rattle.std.specs.Option.{option_copied};
ghost use Rattle.std.specs.Range.Bound.{bound_map};
ghost use Rattle.mt_types.specs.Limits.{key_fault};
ghost use Rattle.mt_promise.specs.History.{History, moment, rows};
ghost use Rattle.mt_index.specs.Stands.{Stands};
ghost use Rattle.mt_asked.specs.Bounds.{start_key};
ghost use Rattle.mt_reads.specs.Back.{keys_before};
ghost use Rattle.mt_reads.specs.Ranges.{IsLast, IsRangeBack, back_fault};
ghost use Rattle.mt_map.specs.Bounded.{BeginsUpTo, GivesWithinBack};

use crate::map::Map;
use mt_asked::bounds::{Bounds, is_from, start_key};
use mt_asked::limits::key_fault;
pub use mt_reads::RowsBack;
use mt_reads::{last_of, pairs_back};
use mt_types::key::Key;
use mt_types::refusal::{NoMemory, Refusal};
use mt_types::row::{Pairs, Row};
use std::ops::Bound;

/// A walk as [`RowsBack`] is one, that ends at a lower bound, with which each key is compared.
///
///     let mut rows = map.range_back((Bound::Included(b"a"), Bound::Excluded(b"b")))?;
///     while let Some(row) = rows.next()? {
///         println!(rt; "{} bytes, version {}", rows.key().len(), row.version)?;
///     }
///
/// Such a loop ends: `keys_before` of the walk's bound is less after each row.
#[derive(Drop)]
pub struct RangeBack<'m> {
    walk: RowsBack<'m>,
    start: Bound<&'m [u8]>,
}

impl Map {
    /// Returns a walk over the rows whose keys are within a lower and an upper bound, against the order of their keys. There
    /// are none if the lower bound is after the upper one.
    ///
    ///     let mut rows = map.range_back((Bound::Unbounded, Bound::Included(b"fig")))?;
    ///
    /// Copies the upper bound, and borrows the lower one.
    ///
    /// # Errors
    ///
    /// `KeyTooLong` if the upper bound has more than `MAX_KEY_BYTES` bytes; otherwise `NoMemory` if an allocation is
    /// refused.
    pub fn range_back<'m>(&'m self, bounds: Bounds<'m>) -> Result<RangeBack<'m>, Refusal>
        ensures machine { IfOk result (λ range. range.walk.machine ≡ self.now.machine) }
        ensures end { IfOk result (λ range. BeginsUpTo (bound_map (λ key. key.now) bounds.entry.1) range.walk.before) }
        ensures start { IfOk result (λ range. range.start ≡ bounds.entry.0) }
        ensures fault { MatchOption (key_fault (start_key (bound_map (λ key. key.now) bounds.entry.1)))
            (IfErr result (λ refusal. refusal ≡ Refusal.NoMemory)) (λ refusal. result ≡ Err refusal) }
    {
        let (start, end) = bounds;
        if let Some(refusal) = key_fault(start_key(end)) {
            return Err(refusal);
        }
        match self.walk_up_to(end) {
            Ok(walk) => Ok(RangeBack { walk, start }),
            Err(_) => Err(Refusal::NoMemory),
        }
    }

    // Returns a walk back that is before the last row whose key isn't after an upper bound.
    fn walk_up_to(&self, end: Bound<&[u8]>) -> Result<RowsBack<'_>, NoMemory>
        requires { key_fault (start_key (bound_map (λ key. key.now) end)) ≡ None }
        ensures machine { IfOk result (λ walk. walk.machine ≡ self.now.machine) }
        ensures end { IfOk result (λ walk. BeginsUpTo (bound_map (λ key. key.now) end.entry) walk.before) }
    {
        match end {
            Bound::Included(key) => {
                let mut next = Vec::with_capacity(self.alloc, key.len() + 1)?;
                next.extend_from_slice(key)?;
                next.push(0)?;
                RowsBack::of(self.alloc, &self.machine, Some(next.as_slice()))
            }
            Bound::Excluded(key) => RowsBack::of(self.alloc, &self.machine, Some(key)),
            Bound::Unbounded => RowsBack::of(self.alloc, &self.machine, None),
        }
    }

    /// Returns a walk that is before the last row whose key is before `before`, or before the last row of all.
    ///
    ///     let mut rows = map.walk_back(None)?;
    ///
    /// Copies the bound.
    ///
    /// # Errors
    ///
    /// `KeyTooLong` if `before` has more than `MAX_KEY_BYTES` bytes; otherwise `NoMemory` if an allocation is refused.
    pub fn walk_back(&self, before: Option<&[u8]>) -> Result<RowsBack<'_>, Refusal>
        ensures machine { IfOk result (λ walk. walk.machine ≡ self.now.machine) }
        ensures before { IfOk result (λ walk. walk.before ≡ option_copied before.entry) }
        ensures fault { MatchOption (key_fault (unwrap_or (option_copied before.entry) []))
            (IfErr result (λ refusal. refusal ≡ Refusal.NoMemory)) (λ refusal. result ≡ Err refusal) }
    {
        if let Some(key) = before
            && let Some(refusal) = key_fault(key)
        {
            return Err(refusal);
        }
        match RowsBack::of(self.alloc, &self.machine, before) {
            Ok(walk) => Ok(walk),
            Err(_) => Err(Refusal::NoMemory),
        }
    }

    /// Returns the last rows whose keys are before `before`, or the last of all, at most `limit`, the greatest key first,
    /// each with the columns that are asked for, or with all if none is asked for.
    ///
    ///     let pairs = map.pairs_back(None, 10, &[])?;
    ///     println!(rt; "{} rows", pairs.len())?;
    ///
    /// Costs what the steps of a [`RowsBack`] cost. Allocates as [`Map::pairs`] does.
    ///
    /// # Errors
    ///
    /// Those of [`Map::pairs`], with `before` in the place of `start`.
    pub fn pairs_back(
        &self,
        before: Option<&[u8]>,
        limit: u16,
        columns: &[u8],
    ) -> Result<Pairs, Refusal>
        ensures pairs { IfOk result (λ pairs. (h : History) → Stands self.now.machine h
            → IsRangeBack (rows self.now.machine.columns (moment h)) columns.now (option_copied before.entry) limit pairs) }
        ensures fault { MatchOption (back_fault self.now.machine.columns (option_copied before.entry) limit columns.now)
            (IfErr result (λ refusal. refusal ≡ Refusal.NoMemory)) (λ refusal. result ≡ Err refusal) }
    {
        pairs_back(self.alloc, &self.machine, before, limit, columns)
    }

    /// Returns the last key, or `None` if there are no rows.
    ///
    ///     if let Some(key) = map.last()? {
    ///         let _ = map.remove(key.as_slice())?;
    ///     }
    ///
    /// Costs the visits of the nodes on the way to the key, and reads the rows of its border. Copies the key.
    ///
    /// # Errors
    ///
    /// `NoMemory` if an allocation is refused.
    pub fn last(&self) -> Result<Option<Key>, NoMemory>
        ensures { IfOk result (λ last. (h : History) → Stands self.now.machine h
            → IsLast (rows self.now.machine.columns (moment h)) last) }
    {
        last_of(self.alloc, &self.machine)
    }
}

impl<'m> RangeBack<'m> {
    /// Returns the row of the key before within the bounds, which [`RangeBack::key`] then returns, or `None` after the
    /// first.
    ///
    ///     while let Some(row) = rows.next()? {
    ///         println!(rt; "{} bytes, version {}", rows.key().len(), row.version)?;
    ///     }
    ///
    /// Costs what [`RowsBack::next`] costs.
    ///
    /// # Errors
    ///
    /// Those of [`RowsBack::next`].
    pub fn next(&mut self) -> Result<Option<&'m Row>, NoMemory>
        ensures row { IfOk result (λ row. (h : History) → Stands self.old.walk.machine h
            → GivesWithinBack (bound_map (λ key. key.now) self.old.start)
            (rows self.old.walk.machine.columns (moment h)) self.old.walk.before (option_copied row)
            self.new.walk.before) }
        ensures fewer { IfOk result (λ row. OnSome row
            (keys_before self.new.walk.before < keys_before self.old.walk.before)) }
        ensures fails { IsTrue self.new.walk.failed ↔ IsErr result }
        ensures stays { IsTrue self.old.walk.failed → IsErr result }
        ensures machine { self.new.walk.machine ≡ self.old.walk.machine }
        ensures start { self.new.start ≡ self.old.start }
    {
        let Some(row) = self.walk.next()? else {
            return Ok(None);
        };
        if is_from(self.start, self.walk.key()) {
            Ok(Some(row))
        } else {
            Ok(None)
        }
    }

    /// Returns the key of the last row that was returned. After the first row it may be one that isn't within the bounds.
    /// Constant cost.
    ///
    ///     let key = rows.key();
    pub fn key(&self) -> &[u8]
        ensures key { IfSome self.now.walk.before (λ key. result.now ≡ key) }
        ensures none { self.now.walk.failed ≡ false → self.now.walk.before ≡ None → result.now ≡ [] }
    {
        self.walk.key()
    }
}
