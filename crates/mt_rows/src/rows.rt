//! Rows in a sorted map, seen as the finite map from keys to rows in which the index's promises are stated.

ghost use Rattle.std.specs.Prelude.{◌≡◌, ◌↔◌, IsTrue, IfOk, OnOk, OnErr, IfErr, filter};
ghost use Rattle.std.specs.Option.{option_copied};
ghost use Rattle.std.specs.Ordering.{is_ge};
ghost use Rattle.std.specs.FinMap as map;
ghost use Rattle.mt_types.specs.Keys.{key_cmp};
ghost use Rattle.mt_types.specs.Rows.{after, after_change};
ghost use Rattle.mt_types.specs.Views.{page_from};

use crate::columns;
use mt_types::copying::TryCopy;
use mt_types::key::Key;
use mt_types::refusal::{NoMemory, Refusal};
use mt_types::row::{Change, Pairs, Row, Sets};
use std::alloc::Global;
use std::collections::BTreeMap;
use std::collections::btree_map::{Iter, Range};
use std::marker::Model;

/// The rows, each under its key, in a B-tree in the order of the keys.
#[derive(Drop)]
pub struct Rows {
    rows: BTreeMap<Key, Row>,
}

impl Model for Rows {
    ghost use Rattle.std.specs.FinMap as map;
    ghost use Rattle.std.specs.BTreeMap.{IsOrdered};
    ghost use Rattle.mt_types.specs.Keys.{key_cmp};
    ghost use Rattle.mt_types.specs.declared.row.Row.{Row};
    ghost use Rattle.mt_rows.specs.RowsCode.{rows_code};

    ghost Value = { map.FinMap key_cmp Row };

    ghost coded = { rows_code };

    ghost view = { λ r. map.from_sorted r.rows.entries };

    ghost invariant = { λ r. IsOrdered key_cmp r.rows };
}

impl Rows {
    /// Returns an empty map. Allocates nothing.
    pub fn open(alloc: Global) -> Rows
        ensures { result ≡ map.empty }
    {
        Rows {
            rows: BTreeMap::new(alloc),
        }
    }

    /// Returns how many rows there are.
    pub fn len(&self) -> usize
        ensures { result ≡ map.len self.now }
    {
        self.rows.len()
    }

    /// Returns whether there are no rows.
    pub fn is_empty(&self) -> bool
        ensures { IsTrue result ↔ (self.now ≡ map.empty) }
    {
        self.rows.is_empty()
    }

    /// Returns the row under a key, if there is one. O(log n) in the rows.
    pub fn get(&self, key: &Key) -> Option<&Row>
        ensures { option_copied result ≡ map.get self.now key.now }
    {
        self.rows.get(key)
    }

    /// Returns the rows, each with its key, in the order of the keys. Allocates nothing and copies nothing.
    pub fn iter(&self) -> Iter<'_, Key, Row>
        ensures { result ≡ map.entries self.now }
    {
        self.rows.iter()
    }

    /// Returns the rows whose keys are at or after `start`, each with its key, in the order of the keys. Allocates
    /// nothing and copies nothing. O(log n) in the rows.
    pub fn from_key(&self, start: &Key) -> Range<'_, Key, Row>
        ensures { result ≡ filter (λ pair. is_ge (key_cmp pair.0 start.now)) (map.entries self.now) }
    {
        self.rows.range(start..)
    }

    /// Returns a copy of the first rows whose keys are at or after `start`, at most `limit`, each with its key. Shares
    /// keys and rows. O(log n + m) in the rows and those that it returns.
    pub fn page(&self, alloc: Global, start: &Key, limit: usize) -> Result<Pairs, NoMemory>
        ensures { IfOk result (λ pairs. pairs ≡ page_from start.now limit (map.entries self.now)) }
    {
        let mut pairs = Vec::new(alloc);
        for (key, row) in self.from_key(start) {
            if pairs.len() >= limit {
                break;
            }
            pairs.push((key.copy(alloc)?, row.copy(alloc)?))?;
        }
        Ok(Pairs::from_vec(pairs))
    }

    /// Puts a row under a key, and returns the row that was there. On an error nothing changes. O(log n) in the rows.
    ///
    /// # Errors
    ///
    /// `NoMemory` if an allocation is refused. Only a new key needs one.
    pub fn set(&mut self, key: Key, row: Row) -> Result<Option<Row>, NoMemory>
        ensures old { IfOk result (λ old. old ≡ map.get self.old key) }
        ensures ok { OnOk result (self.new ≡ map.insert self.old key row) }
        ensures err { OnErr result (self.new ≡ self.old) }
    {
        Ok(self.rows.insert(key, row)?)
    }

    /// Removes the row under a key, and returns it, if there is one. O(log n) in the rows.
    pub fn remove(&mut self, key: &Key) -> Option<Row>
        ensures old { result ≡ map.get self.old key.now }
        ensures after { self.new ≡ map.remove self.old key.now }
    {
        self.rows.remove(key)
    }

    /// Does a change, as the commit of this number does it in an index of `columns` columns. On an error nothing
    /// changes. O(log n + m) in the rows and the sets: a row that is there is written in place.
    pub fn apply(
        &mut self,
        alloc: Global,
        columns: u8,
        number: u64,
        change: &Change,
    ) -> Result<(), NoMemory>
        ensures ok { OnOk result (self.new ≡ after_change columns number change.now self.old) }
        ensures err { OnErr result (self.new ≡ self.old) }
    {
        match change {
            Change::Put(key, sets) => self.put(alloc, columns, number, key, sets),
            Change::Drop(key) => {
                let _ = self.remove(key);
                Ok(())
            }
        }
    }

    fn put(
        &mut self,
        alloc: Global,
        columns: u8,
        number: u64,
        key: &Key,
        sets: &Sets,
    ) -> Result<(), NoMemory>
        ensures ok { OnOk result (self.new ≡ after_change columns number (Change.Put key.now sets.now) self.old) }
        ensures err { OnErr result (self.new ≡ self.old) }
    {
        let row = match self.get(key) {
            Some(row) => columns::rewritten(alloc, row, number, sets)?,
            None => columns::new_row(alloc, columns, number, sets)?,
        };
        self.set(key.copy(alloc)?, row)?;
        Ok(())
    }
}

/// Returns the rows of an index of `columns` columns after these changes, if it was empty before: the commit of number
/// i, from 1 on, makes the i-th change. The only refusal is `NoMemory`. O(n log n) in the changes.
pub fn after(alloc: Global, columns: u8, changes: &[Change]) -> Result<Rows, Refusal>
    ensures ok { IfOk result (λ rows. rows ≡ after columns changes.now) }
    ensures refused { IfErr result (λ refusal. refusal ≡ Refusal.NoMemory) }
{
    let mut rows = Rows::open(alloc);
    for (index, change) in changes.iter().enumerate() {
        rows.apply(alloc, columns, index as u64 + 1, change)?;
    }
    Ok(rows)
}
