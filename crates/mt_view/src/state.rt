//! The state of a standing view, seen as its specification, its number and the finite map of the rows that it holds.

ghost use Rattle.std.specs.Prelude.{◌≡◌, ℕ, ◌+◌, ◌-◌, ◌*◌, ◌^◌, ◌<◌, ◌≤◌, length, filter, IfOk, OnOk, OnErr, IsOk, None};
ghost use Rattle.std.specs.Ordering.{is_ge};
ghost use Rattle.std.specs.FinMap as map;
ghost use Rattle.mt_types.specs.Keys.{key_cmp};
ghost use Rattle.mt_types.specs.Rows.{Rows};
ghost use Rattle.mt_types.specs.Views.{column_sum, column_sums, page_from};

use crate::amounts;
use crate::members::belongs;
use mt_types::copying::TryCopy;
use mt_types::key::Key;
use mt_types::refusal::NoMemory;
use mt_types::row::{Delta, Pairs, Row};
use mt_types::view::{Page, Sums, ViewSpec};
use std::alloc::Global;
use std::collections::BTreeMap;
use std::collections::btree_map::Range;
use std::marker::Model;

// More rows than a sorted map can hold.
const MAX_ROWS: usize = 1 << 63;

/// What a view holds: its rows in a B-tree in the order of the keys, and for each column the sum of their amounts.
/// It keeps the allocator that it was made with.
#[derive(Drop)]
pub struct ViewState {
    alloc: Global,
    spec: ViewSpec,
    at: u64,
    rows: BTreeMap<Key, Row>,
    sums: Vec<u128>,
}

impl Model for ViewState {
    ghost use Rattle.mt_view.specs.State.{StateView};
    ghost use Rattle.mt_view.specs.StateCode.{state_code};

    ghost Value = { StateView };

    ghost coded = { state_code };

    ghost use Rattle.mt_view.specs.StateFields.{state_of, IsKept};

    ghost view = { state_of };

    ghost invariant = { IsKept };
}

impl ViewState {
    ghost use Rattle.mt_commit.specs.Deltas.{redo, with_row};
    ghost use Rattle.mt_view.specs.State.{StateView, IsAfresh, belonging, applied, with_pairs, page_of_state};

    /// Returns the state of a view of no rows, at number 0, which sums `columns` columns. It keeps bytes of its own of the
    /// specification. O(n) in `columns` and in these bytes.
    pub fn open(alloc: Global, columns: u8, spec: ViewSpec) -> Result<ViewState, NoMemory>
        ensures ok { IfOk result (λ state. state ≡ record {
          spec = spec;
          columns = columns;
          at = 0;
          rows = map.empty;
        }) }
        ensures afresh { IfOk result (λ state. IsAfresh state map.empty) }
    {
        Ok(ViewState {
            alloc,
            spec: spec.detached(alloc)?,
            at: 0,
            rows: BTreeMap::new(alloc),
            sums: vec![in alloc; 0u128; columns as usize]?,
        })
    }

    /// Returns the state of a view of these rows, each with its key, at the number of a commit: it holds those that
    /// belong to the view. Of two rows of one key the later counts. It sums `columns` columns. Shares keys and rows.
    /// O(n log n) in the rows.
    ///
    /// # Errors
    ///
    /// `NoMemory` if an allocation is refused.
    pub fn open_at(
        alloc: Global,
        columns: u8,
        spec: ViewSpec,
        at: u64,
        pairs: &[(Key, Row)],
    ) -> Result<ViewState, NoMemory>
        ensures afresh { IfOk result (λ state. IsAfresh state (with_pairs pairs.now map.empty)) }
        ensures spec { IfOk result (λ state. state.spec ≡ spec) }
        ensures columns { IfOk result (λ state. state.columns ≡ columns) }
        ensures number { IfOk result (λ state. state.at ≡ at) }
    {
        let mut state = ViewState::open(alloc, columns, spec)?;
        state.at = at;
        state.take_in(pairs)?;
        Ok(state)
    }

    /// Returns the specification of the view.
    pub fn spec(&self) -> &ViewSpec
        ensures { result.now ≡ self.now.spec }
    {
        &self.spec
    }

    /// Returns the number of the commit at which the state is.
    pub fn at(&self) -> u64
        ensures { result ≡ self.now.at }
    {
        self.at
    }

    /// Returns how many rows the state holds.
    pub fn count(&self) -> u64
        ensures { result ≡ length (map.entries self.now.rows) }
    {
        self.rows.len() as u64
    }

    /// Returns the sum of the amounts of a column, over all rows that the state holds.
    pub fn sum(&self, column: u8) -> u128
        requires { column < self.now.columns }
        ensures value { result ≡ column_sum column (map.entries self.now.rows) }
        ensures bounded { result ≤ length (map.entries self.now.rows) * u64.MAX }
    {
        self.sums[column as usize]
    }

    /// Advances the state by a delta: under the delta's key it then holds the row after, if that belongs to the view,
    /// and else no row. On an error nothing changes. What the delta says of the row before is not looked at.
    /// O(log n + m) in the rows that it holds and the columns. Allocates at most what one row needs, and nothing if the
    /// row after does not belong to the view: then it cannot fail.
    pub fn apply(&mut self, delta: &Delta) -> Result<(), NoMemory>
        ensures afresh { OnOk result ((rows : Rows) → IsAfresh self.old rows
            → IsAfresh self.new (redo delta.now rows)) }
        ensures ok { OnOk result (self.new ≡ applied delta.now self.old) }
        ensures err { OnErr result (self.new ≡ self.old) }
        ensures takes_no_memory { belonging self.old.spec delta.now.key delta.now.after ≡ None → IsOk result }
    {
        match &delta.after {
            Some(row) if belongs(&self.spec, &delta.key, row) => self.put(&delta.key, row)?,
            _ => self.take_out(&delta.key),
        }
        self.at = delta.number;
        Ok(())
    }

    /// Takes in rows that were read, each with its key, instead of what the state shows under that key: it holds those
    /// that belong to the view. Its number stays. Shares keys and rows. O(m log n) for m rows.
    ///
    /// # Errors
    ///
    /// `NoMemory` if an allocation is refused: some of the rows may then have been taken in.
    pub fn take_in(&mut self, pairs: &[(Key, Row)]) -> Result<(), NoMemory>
        ensures afresh { OnOk result ((rows : Rows) → IsAfresh self.old rows
            → IsAfresh self.new (with_pairs pairs.now rows)) }
        ensures kept { self.new ≡ record self.old { rows = self.new.rows } }
    {
        for (key, row) in pairs {
            self.hold(key, row)?;
        }
        Ok(())
    }

    // Holds the row under the key if it belongs to the view, and else none.
    fn hold(&mut self, key: &Key, row: &Row) -> Result<(), NoMemory>
        ensures ok { OnOk result (self.new ≡ record self.old {
          rows = with_row key.now (belonging self.old.spec key.now (Some row.now)) self.old.rows;
        }) }
        ensures err { OnErr result (self.new ≡ self.old) }
    {
        if belongs(&self.spec, key, row) {
            return self.put(key, row);
        }
        self.take_out(key);
        Ok(())
    }

    fn put(&mut self, key: &Key, row: &Row) -> Result<(), NoMemory>
        ensures ok { OnOk result (self.new ≡ record self.old { rows = map.insert self.old.rows key.now row.now }) }
        ensures err { OnErr result (self.new ≡ self.old) }
    {
        // So few rows that no sum overflows.
        prove!(self.rows.len() < MAX_ROWS);
        let copied = row.copy(self.alloc)?;
        match self.rows.insert(key.copy(self.alloc)?, copied)? {
            Some(old) => amounts::replace(&mut self.sums, old, row),
            None => amounts::add(&mut self.sums, row),
        }
        Ok(())
    }

    fn take_out(&mut self, key: &Key)
        ensures { self.new ≡ record self.old { rows = map.remove self.old.rows key.now } }
    {
        if let Some(old) = self.rows.remove(key) {
            amounts::take_away(&mut self.sums, old);
        }
    }

    /// Returns what the state shows from a key on: its number, its count, its sums, and a copy of the first rows from
    /// that key on, up to the limit. Shares keys and rows. O(log n + m) in the rows that it holds and those of the
    /// page.
    pub fn read(&self, start: &Key, limit: u16) -> Result<Page, NoMemory>
        ensures { IfOk result (λ page. page ≡ page_of_state self.now start.now limit) }
    {
        Ok(Page {
            at: self.at,
            count: self.count(),
            sums: self.copied_sums()?,
            rows: self.pairs_from(start, limit)?,
        })
    }

    fn copied_sums(&self) -> Result<Sums, NoMemory>
        ensures { IfOk result (λ sums. sums ≡ column_sums 0 self.now.columns (map.entries self.now.rows)) }
    {
        Ok(Sums::from_vec(self.sums.as_slice().to_vec(self.alloc)?))
    }

    fn from_key(&self, start: &Key) -> Range<'_, Key, Row>
        ensures { result ≡ filter (λ pair. is_ge (key_cmp pair.0 start.now)) (map.entries self.now.rows) }
    {
        self.rows.range(start..)
    }

    fn pairs_from(&self, start: &Key, limit: u16) -> Result<Pairs, NoMemory>
        ensures { IfOk result (λ pairs. pairs ≡ page_from start.now limit (map.entries self.now.rows)) }
    {
        let mut pairs = Vec::new(self.alloc);
        for (key, row) in self.from_key(start) {
            if pairs.len() >= limit as usize {
                break;
            }
            pairs.push((key.copy(self.alloc)?, row.copy(self.alloc)?))?;
        }
        Ok(Pairs::from_vec(pairs))
    }
}

// An equal sorted map.
fn copied_rows(alloc: Global, rows: &BTreeMap<Key, Row>) -> Result<BTreeMap<Key, Row>, NoMemory>
    ensures entries { IfOk result (λ copied. copied.entries ≡ rows.now.entries) }
{
    let mut copied = BTreeMap::new(alloc);
    for (key, row) in rows.iter() {
        copied.insert(key.copy(alloc)?, row.copy(alloc)?)?;
    }
    Ok(copied)
}

impl TryCopy for ViewState {
    /// Shares keys and rows. O(n log n) in the rows. Applied to the same deltas, both states stay equal.
    fn copy(&self, alloc: Global) -> Result<ViewState, NoMemory> {
        Ok(ViewState {
            alloc,
            spec: self.spec.copy(alloc)?,
            at: self.at,
            rows: copied_rows(alloc, &self.rows)?,
            sums: self.sums.as_slice().to_vec(alloc)?,
        })
    }
}
