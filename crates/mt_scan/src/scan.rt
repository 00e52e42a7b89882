//! The scan itself: what it keeps from one visit of a border to the next, and what a visit does.

ghost use Rattle.std.specs.Prelude.{ℕ, ◌≡◌, ◌<◌, ◌↔◌, [], ◌∷◌, length, option_map, IfOk, IsSome, IsTrue, IsFalse, OnOk};
ghost use Rattle.mt_slice.specs.Place.{AreBytes, first_slice, place_of, under};
ghost use Rattle.mt_border.specs.Entry.{entry_row};
ghost use Rattle.mt_chart.specs.Scan.{AtEnd, AtMost};
ghost use Rattle.mt_chart.specs.KeyAnswer.{as_places, KeysAreBytes};
ghost use Rattle.mt_tree.specs.Seen.{right_seen};
ghost use Rattle.mt_scan.specs.Cursor.{StepsAt, entered_at};
ghost use Rattle.mt_scan.specs.Scan.{HoldsKey, HoldsKeys, TakesPair, WasTaken, IsNext, VisitsList, outcome_of};
ghost use Rattle.mt_scan.specs.Listed.{list_of};
ghost use Rattle.mt_scan.specs.Onward.{HasDigits, cursor_in, cursor_of, all_cursors, GoesOnward};

use crate::cursor::{Cursor, Step};
use crate::pair::{key_of, row_of};
use mt_border::{Entry, RightLink};
use mt_slice::compare;
use mt_types::columns::shown;
use mt_types::items::Items;
use mt_types::key::Key;
use mt_types::numbers::NodeNo;
use mt_types::refusal::NoMemory;
use mt_types::row::{ColumnNumbers, Pairs, Row};
use std::alloc::Global;
use std::marker::Model;
use std::mem;

/// What the visit of a border comes to.
#[derive(Clone, Copy, Debug, PartialEq, Eq)]
pub enum ScanMove {
    /// The scan is at its end.
    Done,
    /// It continues at this node.
    To(NodeNo),
    /// It continues at the head of layer 0.
    Top,
}

/// A scan of the pairs from a key on, up to a limit: the layer in which it is, its cursor, and what it has taken.
///
/// It goes from border to border by their right links, and into the layers of links (Masstree, EuroSys 2012, section
/// 4.6). Its cursor alone says where it continues, so it may begin again at the head of layer 0 at any time.
#[derive(Drop)]
pub struct Scan {
    cursor: Cursor,
    taken: Vec<(Key, Row)>,
    limit: u16,
    columns: ColumnNumbers,
}

impl Model for Scan {
    ghost use Rattle.mt_scan.specs.Scan.{ScanView};
    ghost use Rattle.mt_scan.specs.ScanCode.{scan_code};

    ghost Value = { ScanView };

    ghost coded = { scan_code };

    ghost use Rattle.mt_scan.specs.Scan.{IsScan};

    ghost view = { λ s. record {
      prefix = s.cursor.prefix;
      at = s.cursor.at;
      taken = s.taken.items;
      limit = s.limit;
      asked = s.columns;
    } };

    ghost invariant = { λ s. IsScan (record {
      prefix = s.cursor.prefix;
      at = s.cursor.at;
      taken = s.taken.items;
      limit = s.limit;
      asked = s.columns;
    }) };
}

impl Scan {
    /// A scan that begins at a key, in layer 0, and takes at most `limit` pairs with these columns of each row, or all
    /// columns if none is named. Costs an allocation for the slices of the key.
    ///
    /// # Errors
    ///
    /// `NoMemory` if an allocation is refused.
    pub fn new(
        alloc: Global,
        start: &Key,
        limit: u16,
        columns: ColumnNumbers,
    ) -> Result<Scan, NoMemory>
        ensures { IfOk result (λ scan. scan ≡ record {
          prefix = [];
          at = place_of start.now;
          taken = [];
          limit = limit;
          asked = columns;
        }) }
    {
        Ok(Scan {
            cursor: Cursor::new(alloc, start)?,
            taken: Vec::new(alloc),
            limit,
            columns,
        })
    }

    /// The slice that the scan seeks in its layer: it goes down to the border in which that slice would be. Constant
    /// cost.
    pub fn slice(&self) -> u64
        ensures { result ≡ first_slice self.now.at }
    {
        self.cursor.slice()
    }

    /// Takes the scan back to the head of layer 0, with its cursor and its pairs as they are. Constant cost.
    pub fn restart(&mut self)
        ensures { self.new ≡ record self.old { prefix = []; at = under self.old.prefix self.old.at } }
    {
        self.cursor.restart();
    }

    /// Whether its cursor is at or after the place of a key: then it is done with each key before that one. Looks at
    /// each slice of the key at most once.
    pub fn is_from(&self, key: &[u8]) -> bool
        ensures value { IsTrue result ↔ AtMost (place_of key.now) (under self.now.prefix self.now.at) }
        ensures bytes { AreBytes key.now }
    {
        self.cursor.is_from(key)
    }

    // Whether it has as many pairs as it may take.
    fn is_full(&self) -> bool
        ensures full { IsTrue result ↔ (length self.now.taken ≡ self.now.limit) }
        ensures room { IsFalse result ↔ (length self.now.taken < self.now.limit) }
    {
        self.taken.len() == self.limit as usize
    }

    // Whether a key is not after the last that was taken.
    fn is_taken(&self, key: &Key) -> bool
        ensures taken { IsTrue result → WasTaken self.now (place_of key.now) }
        ensures next { IsFalse result → IsNext self.now (place_of key.now) }
    {
        match self.taken.last() {
            Some((last, _)) => compare(key, last).is_le(),
            None => false,
        }
    }

    // Takes the pair of an entry that has a row, if its key is after the last that was taken.
    fn take(&mut self, alloc: Global, entry: &Entry) -> Result<(), NoMemory>
        requires room { length self.old.taken < self.old.limit }
        requires row { IsSome (entry_row entry.now) }
        requires key { HoldsKey self.old.prefix entry.now }
        ensures taken { OnOk result (TakesPair self.old entry.now self.new) }
        ensures limit { self.new.limit ≡ self.old.limit }
        ensures asked { self.new.asked ≡ self.old.asked }
    {
        let key = key_of(alloc, self.cursor.above(), entry)?;
        if !self.is_taken(&key) {
            let row = shown(alloc, &self.columns, row_of(entry))?;
            self.taken.push((key, row))?;
        }
        Ok(())
    }

    // Goes into the layer below a slice.
    fn enter(&mut self, slice: u64) -> Result<(), NoMemory>
        ensures entered { OnOk result (self.new ≡ record self.old {
          prefix = slice ∷ self.old.prefix;
          at = entered_at slice self.old.at;
        }) }
        ensures limit { self.new.limit ≡ self.old.limit }
        ensures asked { self.new.asked ≡ self.old.asked }
    {
        self.cursor.enter(slice)
    }

    // What the scan does at an entry.
    fn step(&self, entry: &Entry) -> Step
        ensures { StepsAt self.now.at entry.now.slice entry.now.content result }
    {
        self.cursor.step(entry)
    }

    // Its cursor has digits, and so a number: its slices are of 64 bits.
    fn cursor_has_digits(&self)
        ensures digits { HasDigits self.now.at }
        ensures within { (places : ℕ) → cursor_of places (cursor_in self.now) < all_cursors places }
    {
        self.cursor.has_digits();
    }

    // Leaves a border at its end: to its right neighbour, or else out of the layer.
    fn leave(&mut self, right: Option<RightLink>) -> ScanMove
        ensures left { AtEnd self.old.prefix (option_map right_seen right) (as_places self.old.taken)
            (outcome_of result self.new) }
        ensures kept { self.new ≡ record self.old { prefix = self.new.prefix; at = self.new.at } }
        ensures home { result ≡ ScanMove.Top → self.new.prefix ≡ [] }
    {
        if let Some(link) = right {
            self.cursor.go_to(link.low, 0);
            return ScanMove::To(link.node);
        }
        if self.cursor.leave() {
            ScanMove::Top
        } else {
            ScanMove::Done
        }
    }

    /// Visits the entries of a border of the layer in which the scan is: takes the pairs that are at or after the
    /// cursor, in their order, up to the limit, up to the first link that it has to enter, or to the end. The scan is
    /// then at its end, or it continues at the head of the link's layer, at the border to the right, or at the head of
    /// layer 0, and its cursor is after all that it has done. If it has as many pairs as it may take, it is at its end
    /// at once. A scan that continues advances: its cursor is further on, or it is in the layer below.
    ///
    /// Looks at each entry up to there, and allocates the key and the row of each pair that it takes. The bytes of the
    /// columns are shared.
    ///
    /// # Errors
    ///
    /// `NoMemory` if an allocation is refused. The call has to be refused then too: nothing is said of what the scan
    /// has done of the visit, except that its limit and its columns stay.
    pub fn visit(
        &mut self,
        alloc: Global,
        entries: &[Entry],
        right: Option<RightLink>,
    ) -> Result<ScanMove, NoMemory>
        requires { HoldsKeys self.old.prefix entries.now }
        ensures visited { IfOk result (λ visited. VisitsList self.old (list_of entries.now right) visited self.new) }
        ensures full { IfOk result (λ visited. length self.new.taken ≡ self.old.limit → visited ≡ ScanMove.Done) }
        ensures home { IfOk result (λ visited. visited ≡ ScanMove.Top → self.new.prefix ≡ []) }
        ensures onward { IfOk result (λ visited. GoesOnward (cursor_in self.old) (list_of entries.now right) visited
            (cursor_in self.new)) }
        ensures within { (places : ℕ) → cursor_of places (cursor_in self.old) < all_cursors places }
        ensures limit { self.new.limit ≡ self.old.limit }
        ensures asked { self.new.asked ≡ self.old.asked }
    {
        self.cursor_has_digits();
        for entry in entries {
            if self.is_full() {
                return Ok(ScanMove::Done);
            }
            match self.step(entry) {
                Step::Pass => {}
                Step::Take => self.take(alloc, entry)?,
                Step::Enter(head) => {
                    self.enter(entry.slice)?;
                    return Ok(ScanMove::To(head));
                }
            }
        }
        if self.is_full() {
            return Ok(ScanMove::Done);
        }
        Ok(self.leave(right))
    }

    /// Takes out the pairs that it has taken, in the order of their keys: it is then as if it had taken none. Constant
    /// cost.
    pub fn take_pairs(&mut self, alloc: Global) -> Pairs
        ensures value { result ≡ self.old.taken }
        ensures bytes { KeysAreBytes self.old.taken }
        ensures left { self.new ≡ record self.old { taken = [] } }
    {
        Items::from_vec(mem::replace(&mut self.taken, Vec::new(alloc)))
    }
}
