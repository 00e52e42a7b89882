//! The permutation word of a border node: which slots are live, in key order, and which are unused.

ghost use Rattle.std.specs.Prelude.{◌≡◌, IfSome, IsSome, IsTrue, ◌↔◌, ◌+◌, ◌-◌, ◌*◌, ◌/◌, ◌%◌, ◌^◌, ◌<◌, ◌≤◌, length, slice_index, []};
ghost use Rattle.std.specs.List.{insert, remove};
ghost use Rattle.std.specs.List.Sorted.{IsPermutation};
ghost use Rattle.mt_word.specs.Fields.{fields, word_of_fields};
ghost use Rattle.mt_word.specs.Slots.{IsArranged, NamesEachSlot, all_slots, slots_at, slots_of_word, word_of_slots, with_first_unused_at, without_place, with_first};

use std::marker::Model;

/// How many slots a border node has, and so how many places a permutation has.
pub const SLOTS: usize = 15;

const FIELD_BITS: usize = 4;

const FIELD_MASK: u64 = 15;

// Place 0 to place 14 hold slots 0 to 14, and no place is live.
const NONE_LIVE: u64 = 0xedcb_a987_6543_2100;

// One bit for each slot.
const EVERY_SLOT: u16 = 0x7fff;

/// Which of a border node's fifteen slots are live, in key order, and which are unused, in the
/// order in which they are taken (Masstree, EuroSys 2012, section 4.6.2).
///
/// One word of sixteen four-bit fields: the lowest holds the number of live slots, the next the
/// slot at place 0, and so on.
#[derive(Clone, Copy, Debug)]
pub struct Permutation {
    word: u64,
}

impl Model for Permutation {
    ghost use Rattle.mt_word.specs.Slots.{Slots, slots_of_word, word_of_slots, NamesEachSlot};
    ghost use Rattle.mt_word.specs.Round.{word_of_slots-slots_of_word};
    ghost use Rattle.std.proofs.Common.{ap};

    ghost Value = { Slots };

    ghost view = { λ p. slots_of_word p.word };

    ghost invariant = { λ p. NamesEachSlot p.word };

    ghost inverse = { λ s. record { word = word_of_slots s } };

    ghost inverse_ok = { λ p h. ap (λ w. record { word = w }) (word_of_slots-slots_of_word p.word h) };
}

// One word says the same as another exactly where they are equal.
impl PartialEq for Permutation {
    ghost use Rattle.std.specs.Prelude.{nat_eq};
    ghost use Rattle.std.specs.Ordering.{on};
    ghost use Rattle.std.specs.Cmp.{partial_equiv_from_equiv};
    ghost use Rattle.std.proofs.lemmas.Cmp.{nat_eq_equiv, on_equiv};

    ghost eq = { on word_of_slots nat_eq };

    ghost laws = { partial_equiv_from_equiv (on_equiv word_of_slots nat_eq_equiv) };

    fn eq(&self, other: &Permutation) -> bool {
        self.to_u64() == other.to_u64()
    }
}

impl Eq for Permutation {
    ghost use Rattle.std.proofs.lemmas.Cmp.{nat_eq_equiv, on_equiv};

    ghost laws = { on_equiv word_of_slots nat_eq_equiv };
}

// The lowest `count` fields of a word.
#[inline]
fn lowest(fields: u64, count: usize) -> u64
    requires { count < 16 }
    ensures { result ≡ fields % 16 ^ count }
{
    fields & ((1 << (FIELD_BITS * count)) - 1)
}

// A word without its lowest `count` fields.
#[inline]
fn above(fields: u64, count: usize) -> u64
    requires { count < 16 }
    ensures { result ≡ fields / 16 ^ count }
{
    fields >> (FIELD_BITS * count)
}

// The `count` fields of `low`, and those of `high` above them.
#[inline]
fn joined(low: u64, count: usize, high: u64) -> u64
    requires count_fits { count < 16 }
    requires low_fits { low < 16 ^ count }
    requires high_fits { high < 16 ^ (16 - count) }
    ensures { result ≡ high * 16 ^ count + low }
{
    (high << (FIELD_BITS * count)) | low
}

// The field at a place.
#[inline]
fn field_at(places: u64, place: usize) -> u64
    requires { place < SLOTS }
    ensures value { result ≡ slice_index (fields 15 places) place }
    ensures fits { result < 16 }
{
    above(places, place) & FIELD_MASK
}

// Fifteen fields without the one at a place: those above it move down.
#[inline]
fn without_field(places: u64, place: usize) -> u64
    requires within { place < SLOTS }
    requires fits { places < 16 ^ 15 }
    ensures value { fields 14 result ≡ remove (fields 15 places) place }
    ensures fits { result < 16 ^ 14 }
{
    joined(lowest(places, place), place, above(places, place + 1))
}

// Fourteen fields and one more at a place: those from there on move up.
#[inline]
fn with_field(places: u64, place: usize, field: u64) -> u64
    requires within { place < SLOTS }
    requires fits { places < 16 ^ 14 }
    requires field_fits { field < 16 }
    ensures value { fields 15 result ≡ insert (fields 14 places) place field }
    ensures fits { result < 16 ^ 15 }
{
    let from_place = joined(field, 1, above(places, place));
    joined(lowest(places, place), place, from_place)
}

impl Permutation {
    ghost use Rattle.mt_word.specs.Slots.{places};

    /// The word with no live slot, whose unused slots are 0 to 14 in order.
    pub fn empty() -> Self
        ensures value { result ≡ record { live = []; unused = all_slots } }
        ensures arranged { IsArranged result }
    {
        Permutation { word: NONE_LIVE }
    }

    // The permutation with these slots by place, of which the first `count` are live.
    #[inline]
    fn arranged(count: usize, places: u64) -> Self
        requires count_fits { count < 16 }
        requires places_fit { places < 16 ^ 15 }
        requires each_once { IsPermutation all_slots (fields 15 places) }
        ensures value { result ≡ slots_at count (fields 15 places) }
        ensures arranged { IsArranged result }
    {
        Permutation {
            word: joined(count as u64, 1, places),
        }
    }

    // The fifteen upper fields: the slots by place.
    #[inline]
    fn places(&self) -> u64
        ensures value { fields 15 result ≡ places self.now }
        ensures fits { result < 16 ^ 15 }
        ensures arranged { IsArranged self.now }
    {
        above(self.word, 1)
    }

    /// How many slots are live.
    #[inline]
    pub fn len(&self) -> usize
        ensures value { result ≡ length self.now.live }
        ensures within { result + length self.now.unused ≡ SLOTS }
        ensures arranged { IsArranged self.now }
    {
        (self.word & FIELD_MASK) as usize
    }

    /// Whether no slot is live.
    pub fn is_empty(&self) -> bool
        ensures empty { IsTrue result ↔ (length self.now.live ≡ 0) }
        ensures arranged { IsArranged self.now }
    {
        self.len() == 0
    }

    /// Whether no slot is unused.
    pub fn is_full(&self) -> bool
        ensures full { IsTrue result ↔ (length self.now.unused ≡ 0) }
        ensures arranged { IsArranged self.now }
    {
        self.len() == SLOTS
    }

    /// The live slot at a place.
    #[inline]
    pub fn slot(&self, place: usize) -> usize
        requires { place < length self.now.live }
        ensures value { result ≡ slice_index self.now.live place }
        ensures below { result < SLOTS }
        ensures arranged { IsArranged self.now }
    {
        field_at(self.places(), place) as usize
    }

    /// The unused slot that the next `insert_at` makes live.
    #[inline]
    pub fn first_unused(&self) -> usize
        requires { 0 < length self.now.unused }
        ensures value { result ≡ slice_index self.now.unused 0 }
        ensures below { result < SLOTS }
        ensures arranged { IsArranged self.now }
    {
        field_at(self.places(), self.len()) as usize
    }

    /// Makes the first unused slot live at this place, and moves the live ones from there on up.
    pub fn insert_at(&mut self, place: usize)
        requires room { 0 < length self.old.unused }
        requires within { place ≤ length self.old.live }
        ensures value { self.new ≡ with_first_unused_at self.old place }
        ensures arranged { IsArranged self.new }
    {
        let count = self.len();
        let places = self.places();
        let slot = field_at(places, count);
        let others = without_field(places, count);
        *self = Permutation::arranged(count + 1, with_field(others, place, slot));
    }

    /// Makes the slot at this place the first unused one, and moves the live ones after it down.
    pub fn remove_at(&mut self, place: usize)
        requires { place < length self.old.live }
        ensures value { self.new ≡ without_place self.old place }
        ensures arranged { IsArranged self.new }
    {
        let last = self.len() - 1;
        let places = self.places();
        let slot = field_at(places, place);
        let others = without_field(places, place);
        *self = Permutation::arranged(last, with_field(others, last, slot));
    }

    /// Keeps the first `count` live slots. The others become the first unused ones, in their order.
    pub fn keep_first(&mut self, count: usize)
        requires { count ≤ length self.old.live }
        ensures value { self.new ≡ with_first self.old count }
        ensures arranged { IsArranged self.new }
    {
        *self = Permutation::arranged(count, self.places());
    }

    /// The word itself.
    #[inline]
    pub fn to_u64(&self) -> u64
        ensures value { result ≡ word_of_slots self.now }
        ensures valid { NamesEachSlot result }
        ensures read_back { slots_of_word result ≡ self.now }
    {
        self.word
    }

    /// The permutation in a word, or `None` unless its fifteen upper fields name each slot once.
    pub fn from_u64(word: u64) -> Option<Self>
        ensures variant { IsSome result ↔ NamesEachSlot word }
        ensures value { IfSome result (λ p. p ≡ slots_of_word word) }
        ensures word_back { IfSome result (λ p. word_of_slots p ≡ word) }
        ensures arranged { IfSome result IsArranged }
    {
        let places = above(word, 1);
        let mut seen = 0u16;
        for place in 0..SLOTS {
            seen |= 1 << field_at(places, place);
        }
        if seen == EVERY_SLOT {
            Some(Permutation { word })
        } else {
            None
        }
    }
}
