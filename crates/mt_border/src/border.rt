//! A border node: fifteen slots, their order, its low and its right link, and its changes.

ghost use Rattle.std.specs.Prelude.{◌≡◌, ◌<◌, ◌≤◌, ◌↔◌, length, slice_get, Some, IsSome, IsTrue, true, false, []};
ghost use Rattle.std.specs.List.{list_any};
ghost use Rattle.std.specs.Bool.{IsFalse};
ghost use Rattle.mt_word.specs.declared.permutation_word.TheConstants.{SLOTS};
ghost use Rattle.mt_word.specs.declared.version_word.TheConstants.{MAX_SPLITS};
ghost use Rattle.mt_border.specs.Entry.{IsEntry};
ghost use Rattle.mt_border.specs.Border.{new_border, with_hidden, with_forgotten, with_value, with_entries, with_right, with_locked, with_unlocked, with_deleted, right_for, row_at};
ghost use Rattle.mt_border.specs.Keys.{IsKeyPart};
ghost use Rattle.mt_border.specs.Parts.{IsValueOf};
ghost use Rattle.mt_border.specs.Slots.{slot_at, key_at, order_shown};
ghost use Rattle.mt_border.specs.declared.unwritten.Unwritten.TheVariants.{Nothing};
ghost use Rattle.mt_border.specs.Order.{IsBorder, IsLeftOf};

use crate::entry::{Entry, RightLink};
use crate::field::{KeyPart, ValuePart};
use crate::slot_table::SlotTable;
use crate::unwritten::{Unwritten, unstable_key};
use mt_types::items::Items;
use mt_types::numbers::NodeNo;
use mt_types::row::Row;
use mt_word::{Permutation, SLOTS, Version};
use std::alloc::Global;
use std::marker::Model;

/// A border node: at most fifteen live entries of one layer, in the order of their slices and classes.
///
/// An entry is written into an unused slot, and becomes live or is hidden by the permutation alone
/// (Masstree, EuroSys 2012, section 4.6.2). The slots lie in the border itself.
#[derive(Drop)]
pub struct Border {
    layer: u8,
    low: u64,
    pub(crate) right: Option<RightLink>,
    pub(crate) version: Version,
    pub(crate) table: SlotTable,
    pub(crate) unwritten: Unwritten,
}

impl Model for Border {
    ghost use Rattle.mt_border.specs.Border.{BorderView, border_view};
    ghost use Rattle.mt_border.specs.Order.{IsBorder};

    ghost Value = { BorderView };

    ghost view = { λ b. border_view b.layer b.low b.right b.version b.table b.unwritten };

    ghost invariant = { λ b. IsBorder (border_view b.layer b.low b.right b.version b.table b.unwritten) };
}

impl Border {
    /// A border of a layer with no live entry, unlocked, with nothing to its right, for the slices from `low` on.
    /// It allocates nothing.
    pub fn new(alloc: Global, layer: u8, low: u64) -> Border
        ensures value { result ≡ new_border layer low false }
        ensures sound { IsBorder result }
    {
        Border {
            layer,
            low,
            right: None,
            version: Version::new_border(),
            table: SlotTable::new(alloc),
            unwritten: Unwritten::Nothing,
        }
    }

    /// A border as `new` makes it, but locked. It allocates nothing.
    pub fn new_locked(alloc: Global, layer: u8, low: u64) -> Border
        ensures value { result ≡ new_border layer low true }
        ensures sound { IsBorder result }
    {
        let mut border = Border::new(alloc, layer, low);
        border.lock();
        border
    }

    /// The layer of the border. Constant cost.
    pub fn layer(&self) -> u8
        ensures value { result ≡ self.now.layer }
        ensures sound { IsBorder self.now }
    {
        self.layer
    }

    /// The least slice that may be in this border. Constant cost.
    pub fn low(&self) -> u64
        ensures value { result ≡ self.now.low }
        ensures sound { IsBorder self.now }
    {
        self.low
    }

    /// The border to the right, if there is one, and the least slice that may be in it. Constant cost.
    pub fn right(&self) -> Option<RightLink>
        ensures value { result ≡ self.now.right }
        ensures sound { IsBorder self.now }
    {
        let Border { right, .. } = self;
        *right
    }

    /// How many entries are live. Constant cost.
    #[inline]
    pub fn len(&self) -> usize
        ensures value { result ≡ length self.now.live }
        ensures within { result ≤ SLOTS }
        ensures sound { IsBorder self.now }
    {
        self.table.len()
    }

    /// Whether no slot is unused. Constant cost.
    pub fn is_full(&self) -> bool
        ensures full { IsTrue result ↔ (length self.now.live ≡ SLOTS) }
        ensures room { IsFalse result ↔ (length self.now.live < SLOTS) }
        ensures sound { IsBorder self.now }
    {
        self.len() == SLOTS
    }

    /// Whether the counter of splits is at its greatest value, 2^64 - 1. Constant cost.
    pub fn is_split_spent(&self) -> bool
        ensures spent { IsTrue result ↔ (self.now.version.vsplit ≡ MAX_SPLITS) }
        ensures left { IsFalse result ↔ (self.now.version.vsplit < MAX_SPLITS) }
        ensures sound { IsBorder self.now }
    {
        self.version.is_split_spent()
    }

    /// The live entry at a place. Constant cost.
    #[inline]
    pub fn entry(&self, place: usize) -> &Entry
        requires { place < length self.now.live }
        ensures value { slice_get self.now.live place ≡ Some result.now }
        ensures whole { IsEntry result.now }
        ensures sound { IsBorder self.now }
    {
        &self.table.live(place).entry
    }

    /// The version word. Constant cost.
    pub fn version(&self) -> Version
        ensures value { result ≡ self.now.version }
        ensures sound { IsBorder self.now }
    {
        self.version
    }

    /// Which slots are live, in which order, as others read it: as long as the cut of a split isn't written, with those
    /// whose entries are in the right half. Constant cost.
    pub fn order(&self) -> Permutation
        ensures value { result ≡ order_shown self.now }
        ensures sound { IsBorder self.now }
    {
        match &self.unwritten {
            Unwritten::Order(shown) => *shown,
            _ => self.table.order(),
        }
    }

    /// The key of the slot of a number. Constant cost.
    pub fn key_at(&self, number: usize) -> KeyPart<'_>
        requires { number < SLOTS }
        ensures value { IsKeyPart (key_at self.now number) result }
        ensures sound { IsBorder self.now }
    {
        match &self.unwritten {
            Unwritten::Value(key) if self.table.is_next(number) => key.part(),
            Unwritten::LinkAt(slot) if *slot == number => self
                .table
                .slot(number)
                .entry
                .unstable_part(),
            Unwritten::MarkAt(slot, suffix) if *slot == number => {
                unstable_key(self.table.slot(number).entry.slice, suffix)
            }
            _ => self.table.slot(number).entry.key_part(),
        }
    }

    /// The value of the slot of a number. Constant cost.
    pub fn value_at(&self, number: usize) -> ValuePart<'_>
        requires { number < SLOTS }
        ensures value { IsValueOf (slot_at self.now number).entry.content result }
        ensures sound { IsBorder self.now }
    {
        self.table.slot(number).entry.value_part()
    }

    /// The border to the right, if this slice is there or beyond. Constant cost.
    pub fn right_for(&self, slice: u64) -> Option<NodeNo>
        ensures value { result ≡ right_for self.now.right slice }
        ensures sound { IsBorder self.now }
    {
        match self.right {
            Some(link) if link.low <= slice => Some(link.node),
            _ => None,
        }
    }

    /// Locks the border. Constant cost.
    pub fn lock(&mut self)
        requires { self.old.version.locked ≡ false }
        ensures value { self.new ≡ with_locked self.old }
        ensures sound { IsBorder self.new }
    {
        self.version.lock();
    }

    /// Unlocks the border. If keys were being inserted into it or it was being split, the counter of that is raised, and
    /// its flag cleared. Constant cost.
    pub fn unlock(&mut self)
        requires locked { self.old.version.locked ≡ true }
        requires written { self.old.unwritten ≡ Nothing }
        ensures value { self.new ≡ with_unlocked self.old }
        ensures sound { IsBorder self.new }
    {
        self.version.unlock_changed();
    }

    /// Marks the border, which has no live entry, as deleted. Constant cost.
    pub fn mark_deleted(&mut self)
        requires { self.old.live ≡ [] }
        ensures value { self.new ≡ with_deleted self.old }
        ensures sound { IsBorder self.new }
    {
        self.version.mark_deleted();
    }

    /// Hides the entry at this place, by the permutation alone. Its slot is then the first unused one, and one that
    /// held a key. Constant cost.
    pub fn hide(&mut self, place: usize)
        requires within { place < length self.old.live }
        requires written { self.old.unwritten ≡ Nothing }
        ensures value { self.new ≡ with_hidden self.old place }
        ensures sound { IsBorder self.new }
    {
        self.table.remove_at(place);
    }

    /// Drops the row that the first unused slot holds, so that what was hidden takes no memory. The slot holds a row
    /// without columns then, and the key that it held. Others may still read a slot that held a key, so the border must be
    /// marked as one into which keys are being inserted. Constant cost.
    pub fn forget_row(&mut self)
        requires room { length self.old.live < SLOTS }
        requires marked { self.old.version.inserting ≡ true }
        requires written { self.old.unwritten ≡ Nothing }
        ensures value { self.new ≡ with_forgotten self.old }
        ensures sound { IsBorder self.new }
    {
        self.table.forget_row();
    }

    /// Replaces the row of the entry at this place, which has one, and returns the old row. Constant cost.
    pub fn set_value(&mut self, place: usize, row: Row) -> Row
        requires within { place < length self.old.live }
        requires row { IsSome (row_at place self.old.live) }
        requires written { self.old.unwritten ≡ Nothing }
        ensures value { self.new ≡ with_value self.old place row }
        ensures replaced { row_at place self.old.live ≡ Some result }
        ensures sound { IsBorder self.new }
    {
        self.table.set_row(place, row)
    }

    /// Makes these entries live in a border that has none, and of whose slots none held a key, and names what is to its
    /// right. Costs a move of each entry.
    pub fn fill(&mut self, entries: Items<Entry>, right: Option<RightLink>)
        requires empty { self.old.live ≡ [] }
        requires fresh { list_any (λ slot. slot.held_key) self.old.unused ≡ false }
        requires sound { IsBorder (with_entries self.old entries right) }
        ensures value { self.new ≡ with_entries self.old entries right }
        ensures sound { IsBorder self.new }
    {
        self.table.extend(entries.into_vec());
        self.right = right;
    }

    /// Names another border to the right, or none. Constant cost.
    pub fn set_right(&mut self, link: Option<RightLink>)
        requires { IsLeftOf self.old.low self.old.live link }
        ensures value { self.new ≡ with_right self.old link }
        ensures sound { IsBorder self.new }
    {
        self.right = link;
    }
}
