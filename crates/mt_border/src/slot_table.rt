//! The fifteen slots of a border, under a permutation. It hides their numbers.

ghost use Rattle.std.specs.Prelude.{◌≡◌, ℕ, ◌+◌, ◌<◌, ◌≤◌, length, drop, replicate, slice_get, slice_set, slice_index_or, nat_eq, Some, IsSome, []};
ghost use Rattle.arrayvec.specs.ArrayVec.{array_vec_len};
ghost use Rattle.mt_word.specs.Slots.{with_first_unused_at, without_place, with_first};
ghost use Rattle.mt_word.specs.declared.permutation_word.TheConstants.{SLOTS};
ghost use Rattle.mt_border.specs.Entry.{at_version, no_row, with_row, with_link, entry_row, entry_suffix};
ghost use Rattle.mt_border.specs.Table.{blank_slot, live_slots, unused_slots, none_live, number_at, next_number, slot_changed, with_entry, filled, marked, with_all_filled, with_more_live, row_of_first, suffix_of_first, IsSlotTable};

use crate::entry::{Content, Entry, Suffix};
use arrayvec::ArrayVec;
use mt_types::numbers::NodeNo;
use mt_types::row::Row;
use mt_word::{Permutation, SLOTS};
use std::alloc::Global;
use std::default::MadeWith;
use std::marker::Model;
use std::mem;

/// What a slot holds, and whether that was live since the slot was last filled.
#[derive(Drop)]
pub struct Slot {
    pub entry: Entry,
    pub held_key: bool,
}

impl MadeWith<Global> for Slot {
    fn made_with(_alloc: Global) -> Self {
        Slot::blank()
    }
}

/// Fifteen slots, of which some are live.
#[derive(Drop)]
pub struct SlotTable {
    slots: ArrayVec<Slot, SLOTS, Global>,
    permutation: Permutation,
}

impl Model for SlotTable {
    ghost use Rattle.mt_border.specs.Table.{TableView, IsSlotTable};

    ghost Value = { TableView };

    ghost view = { λ t. record { slots = t.slots.items; order = t.permutation } };

    ghost invariant = { λ t. IsSlotTable t.slots.items t.permutation };
}

impl Slot {
    /// What a slot holds before it is filled.
    pub fn blank() -> Slot
        ensures { result ≡ blank_slot }
    {
        Slot {
            entry: Entry {
                slice: 0,
                content: Content::Link(NodeNo(0)),
            },
            held_key: false,
        }
    }
}

fn put_entry(slots: &mut ArrayVec<Slot, SLOTS, Global>, slot: usize, entry: Entry)
    requires { slot < array_vec_len slots.old }
    ensures { slots.new.items ≡ slot_changed slot (filled entry) slots.old.items }
{
    slots.as_mut_slice()[slot] = Slot {
        entry,
        held_key: false,
    };
}

fn put_held(slots: &mut ArrayVec<Slot, SLOTS, Global>, slot: usize)
    requires { slot < array_vec_len slots.old }
    ensures { slots.new.items ≡ slot_changed slot marked slots.old.items }
{
    slots.as_mut_slice()[slot].held_key = true;
}

fn set_version(entry: &mut Entry, version: u64)
    ensures { entry.new ≡ at_version version entry.old }
{
    match &mut entry.content {
        Content::Short(_, row) => row.version = version,
        Content::Long(_, row) => row.version = version,
        Content::Link(_) => {}
    }
}

fn put_version(slots: &mut ArrayVec<Slot, SLOTS, Global>, slot: usize, version: u64)
    requires { slot < array_vec_len slots.old }
    ensures { slots.new.items ≡ slot_changed slot (with_entry (at_version version)) slots.old.items }
{
    set_version(&mut slots.as_mut_slice()[slot].entry, version);
}

fn replace_row(entry: &mut Entry, row: Row) -> Row
    requires { IsSome (entry_row entry.old) }
    ensures value { entry.new ≡ with_row row entry.old }
    ensures replaced { entry_row entry.old ≡ Some result }
{
    match &mut entry.content {
        Content::Short(_, held) => mem::replace(held, row),
        Content::Long(_, held) => mem::replace(held, row),
        Content::Link(_) => unreachable!(),
    }
}

// Drops the row of an entry, if it has one. It has a row without columns then.
fn forget(entry: &mut Entry)
    ensures { entry.new ≡ with_row no_row entry.old }
{
    match &mut entry.content {
        Content::Short(_, row) => *row = Row::none(),
        Content::Long(_, row) => *row = Row::none(),
        Content::Link(_) => {}
    }
}

fn put_no_row(slots: &mut ArrayVec<Slot, SLOTS, Global>, slot: usize)
    requires { slot < array_vec_len slots.old }
    ensures { slots.new.items ≡ slot_changed slot (with_entry (with_row no_row)) slots.old.items }
{
    forget(&mut slots.as_mut_slice()[slot].entry);
}

fn put_row(slots: &mut ArrayVec<Slot, SLOTS, Global>, slot: usize, row: Row) -> Row
    requires within { slot < array_vec_len slots.old }
    requires row { IsSome (entry_row (slice_index_or slots.old.items slot blank_slot).entry) }
    ensures value { slots.new.items ≡ slot_changed slot (with_entry (with_row row)) slots.old.items }
    ensures replaced { entry_row (slice_index_or slots.old.items slot blank_slot).entry ≡ Some result }
{
    replace_row(&mut slots.as_mut_slice()[slot].entry, row)
}

fn replace_with_link(entry: &mut Entry, head: NodeNo) -> Suffix
    requires { IsSome (entry_suffix entry.old) }
    ensures value { entry.new ≡ with_link head entry.old }
    ensures replaced { entry_suffix entry.old ≡ Some result }
{
    let Content::Long(suffix, _) = mem::replace(&mut entry.content, Content::Link(head)) else {
        unreachable!();
    };
    suffix
}

fn put_link(slots: &mut ArrayVec<Slot, SLOTS, Global>, slot: usize, head: NodeNo) -> Suffix
    requires within { slot < array_vec_len slots.old }
    requires long { IsSome (entry_suffix (slice_index_or slots.old.items slot blank_slot).entry) }
    ensures value { slots.new.items ≡ slot_changed slot (with_entry (with_link head)) slots.old.items }
    ensures replaced { entry_suffix (slice_index_or slots.old.items slot blank_slot).entry ≡ Some result }
{
    replace_with_link(&mut slots.as_mut_slice()[slot].entry, head)
}

// Fifteen slots that hold nothing yet.
fn blank_slots(alloc: Global) -> ArrayVec<Slot, SLOTS, Global>
    ensures { result.items ≡ replicate SLOTS blank_slot }
{
    let mut slots = ArrayVec::new_in(alloc);
    for _ in 0..SLOTS {
        slots.push(Slot::blank());
    }
    slots
}

#[tactic(auto, using(mt_word::proofs::PlacesLemmas::fifteen_together))]
impl SlotTable {
    /// Fifteen slots that hold nothing yet. It allocates nothing.
    pub fn new(alloc: Global) -> Self
        ensures { result ≡ record { slots = replicate SLOTS blank_slot; order = none_live } }
    {
        SlotTable {
            slots: blank_slots(alloc),
            permutation: Permutation::empty(),
        }
    }

    /// How many slots are live.
    #[inline]
    pub fn len(&self) -> usize
        ensures value { result ≡ length (live_slots self.now) }
        ensures fits { length (live_slots self.now) + length (unused_slots self.now) ≡ SLOTS }
        ensures sound { IsSlotTable self.now.slots self.now.order }
    {
        self.permutation.len()
    }

    /// The slot of a number.
    #[inline]
    pub fn slot(&self, number: usize) -> &Slot
        requires { number < SLOTS }
        ensures { slice_index_or self.now.slots number blank_slot ≡ result.now }
    {
        &self.slots.as_slice()[number]
    }

    /// Which slots are live, in which order.
    pub fn order(&self) -> Permutation
        ensures { result ≡ self.now.order }
    {
        self.permutation
    }

    /// The live slot at a place.
    #[inline]
    pub fn live(&self, place: usize) -> &Slot
        requires { place < length (live_slots self.now) }
        ensures { slice_get (live_slots self.now) place ≡ Some result.now }
    {
        &self.slots.as_slice()[self.permutation.slot(place)]
    }

    /// The first unused slot.
    pub fn first_unused(&self) -> &Slot
        requires { length (live_slots self.now) < SLOTS }
        ensures { slice_get (unused_slots self.now) 0 ≡ Some result.now }
    {
        &self.slots.as_slice()[self.permutation.first_unused()]
    }

    /// Whether the slot of a number is the first unused one, of which there is one.
    pub fn is_next(&self, number: usize) -> bool
        requires { length (live_slots self.now) < SLOTS }
        ensures { result ≡ nat_eq number (next_number self.now.order) }
    {
        number == self.permutation.first_unused()
    }

    /// Writes the entry of the first unused slot, which then holds no key yet.
    pub fn fill(&mut self, entry: Entry)
        requires { length (live_slots self.old) < SLOTS }
        ensures { self.new ≡ record self.old {
          slots = slot_changed (next_number self.old.order) (filled entry) self.old.slots;
        } }
    {
        let slot = self.permutation.first_unused();
        put_entry(&mut self.slots, slot, entry);
    }

    /// Writes the version of the row in the first unused slot.
    pub fn stamp(&mut self, version: u64)
        requires { length (live_slots self.old) < SLOTS }
        ensures { self.new ≡ record self.old {
          slots = slot_changed (next_number self.old.order) (with_entry (at_version version)) self.old.slots;
        } }
    {
        let slot = self.permutation.first_unused();
        put_version(&mut self.slots, slot, version);
    }

    /// Drops the row in the first unused slot, if it holds one. It holds a row without columns then.
    pub fn forget_row(&mut self)
        requires { length (live_slots self.old) < SLOTS }
        ensures { self.new ≡ record self.old {
          slots = slot_changed (next_number self.old.order) (with_entry (with_row no_row)) self.old.slots;
        } }
    {
        let slot = self.permutation.first_unused();
        put_no_row(&mut self.slots, slot);
    }

    /// Marks the first unused slot as one that holds a key.
    pub fn mark(&mut self)
        requires { length (live_slots self.old) < SLOTS }
        ensures { self.new ≡ record self.old {
          slots = slot_changed (next_number self.old.order) marked self.old.slots;
        } }
    {
        let slot = self.permutation.first_unused();
        put_held(&mut self.slots, slot);
    }

    /// Makes the first unused slot live at this place.
    pub fn insert_at(&mut self, place: usize)
        requires room { length (live_slots self.old) < SLOTS }
        requires within { place ≤ length (live_slots self.old) }
        ensures { self.new ≡ record self.old { order = with_first_unused_at self.old.order place } }
    {
        self.permutation.insert_at(place);
    }

    /// Makes the slot at this place the first unused one.
    pub fn remove_at(&mut self, place: usize)
        requires { place < length (live_slots self.old) }
        ensures { self.new ≡ record self.old { order = without_place self.old.order place } }
    {
        self.permutation.remove_at(place);
    }

    /// Keeps the first `count` live slots. The others become the first unused ones.
    pub fn keep_first(&mut self, count: usize)
        requires { count ≤ length (live_slots self.old) }
        ensures { self.new ≡ record self.old { order = with_first self.old.order count } }
    {
        self.permutation.keep_first(count);
    }

    /// Writes the row of the live slot at a place, and returns the old one.
    pub fn set_row(&mut self, place: usize, row: Row) -> Row
        requires within { place < length (live_slots self.old) }
        requires row { IsSome (row_of_first (drop place (live_slots self.old))) }
        ensures value { self.new ≡ record self.old {
          slots = slot_changed (number_at place self.old.order) (with_entry (with_row row)) self.old.slots;
        } }
        ensures replaced { row_of_first (drop place (live_slots self.old)) ≡ Some result }
    {
        let slot = self.permutation.slot(place);
        put_row(&mut self.slots, slot, row)
    }

    /// Returns the number of the live slot at a place.
    pub fn number(&self, place: usize) -> usize
        requires { place < length (live_slots self.now) }
        ensures { result ≡ number_at place self.now.order }
    {
        self.permutation.slot(place)
    }

    /// Makes the entry of the live slot at a place, a longer key's, a link, and returns what followed its slice.
    pub fn set_link(&mut self, place: usize, head: NodeNo) -> Suffix
        requires within { place < length (live_slots self.old) }
        requires long { IsSome (suffix_of_first (drop place (live_slots self.old))) }
        ensures value { self.new ≡ record self.old {
          slots = slot_changed (number_at place self.old.order) (with_entry (with_link head)) self.old.slots;
        } }
        ensures replaced { suffix_of_first (drop place (live_slots self.old)) ≡ Some result }
    {
        let slot = self.permutation.slot(place);
        put_link(&mut self.slots, slot, head)
    }

    /// Makes these entries live, after those that are.
    pub fn extend(&mut self, entries: Vec<Entry>)
        requires { length (live_slots self.old) + length entries.items ≤ SLOTS }
        ensures { self.new ≡ record {
          slots = with_all_filled self.old.order.unused entries.items self.old.slots;
          order = with_more_live self.old.order (length entries.items);
        } }
    {
        for entry in entries {
            let place = self.len();
            self.fill(entry);
            self.mark();
            self.insert_at(place);
        }
    }
}
