//! The insertion of a key into a border: it is marked, the key and the value of an unused slot are written, and the slot
//! is shown.

ghost use Rattle.std.specs.Prelude.{◌≡◌, ◌<◌, ◌≤◌, ◌↔◌, length, IsSome, IsOk, IsErr, IsTrue, OnOk, OnErr, IfOk, IfErr, true};
ghost use Rattle.mt_word.specs.declared.permutation_word.TheConstants.{SLOTS};
ghost use Rattle.mt_word.specs.declared.version_word.TheConstants.{MAX_INSERTS};
ghost use Rattle.mt_border.specs.Entry.{entry_with};
ghost use Rattle.mt_border.specs.Border.{with_inserting, with_key, with_filled, with_shown, insert_is_spent, inserting_version, first_held, next_row};
ghost use Rattle.mt_border.specs.Keys.{key_seen, IsKey};
ghost use Rattle.mt_border.specs.Order.{IsBorder};
ghost use Rattle.mt_border.specs.declared.unwritten.Unwritten.TheVariants.{Nothing, Value};
ghost use Rattle.mt_border.specs.declared.unwritten.SlotKey.{SlotKey as SlotKeyView};

use crate::border::Border;
use crate::unwritten::{SlotKey, Unwritten};
use mt_types::refusal::Refusal;
use mt_types::row::Row;
use mt_word::{SLOTS, Version};
use std::mem;

// The version before a key is inserted into a slot, which held a key before or did not.
fn version_inserting(version: Version, held_key: bool) -> Result<Version, Refusal>
    ensures ok { IfOk result (λ flagged. flagged ≡ inserting_version held_key version) }
    ensures unspent { IsOk result → held_key ≡ true → version.vinsert < MAX_INSERTS }
    ensures spent { IsErr result ↔ ((held_key ≡ true) × (version.vinsert ≡ MAX_INSERTS)) }
    ensures only { IfErr result (λ refusal. refusal ≡ Refusal.Spent) }
{
    let mut flagged = version;
    if held_key && flagged.set_inserting().is_err() {
        return Err(Refusal::Spent);
    }
    Ok(flagged)
}

impl Border {
    /// Whether the insertion of a key is refused: the first unused slot held a key, and the counter of insertions is at
    /// its greatest value, 2^56 - 1. Constant cost.
    pub fn is_insert_spent(&self) -> bool
        requires { length self.now.live < SLOTS }
        ensures { IsTrue result ↔ IsTrue (insert_is_spent self.now) }
    {
        self.table.first_unused().held_key && self.version.is_insert_spent()
    }

    /// Marks the border as one into which keys are being inserted, if the first unused slot held a key. It is so marked
    /// until it is unlocked. Constant cost.
    ///
    /// # Errors
    ///
    /// `Spent` if the slot held a key, and the counter of insertions is at its greatest value, 2^56 - 1. Nothing is
    /// changed then.
    pub fn mark_inserting(&mut self) -> Result<(), Refusal>
        requires room { length self.old.live < SLOTS }
        requires locked { self.old.version.locked ≡ true }
        requires written { self.old.unwritten ≡ Nothing }
        ensures marked { OnOk result (self.new ≡ with_inserting self.old) }
        ensures unchanged { OnErr result (self.new ≡ self.old) }
        ensures spent { IsErr result ↔ IsTrue (insert_is_spent self.old) }
        ensures only { IfErr result (λ refusal. refusal ≡ Refusal.Spent) }
        ensures sound { IsBorder self.new }
    {
        let held_key = self.table.first_unused().held_key;
        self.version = version_inserting(self.version, held_key)?;
        Ok(())
    }

    /// Writes the key of the first unused slot, in which it isn't visible. If that slot held a key, the border must be
    /// marked as one into which keys are being inserted. Constant cost.
    pub fn write_key(&mut self, key: SlotKey)
        requires room { length self.old.live < SLOTS }
        requires locked { self.old.version.locked ≡ true }
        requires written { self.old.unwritten ≡ Nothing }
        requires marked { first_held self.old.unused ≡ true → self.old.version.inserting ≡ true }
        requires whole { IsKey (key_seen key) }
        ensures value { self.new ≡ with_key self.old key }
        ensures sound { IsBorder self.new }
    {
        self.unwritten = Unwritten::Value(key);
    }

    /// Writes the value of the first unused slot, whose key is written. The slot then holds no key that was live.
    /// Constant cost.
    pub fn write_value(&mut self, row: Row)
        requires { (key : SlotKeyView) × (self.old.unwritten ≡ Value key) }
        ensures value { (key : SlotKeyView) → self.old.unwritten ≡ Value key → self.new ≡ with_filled self.old
            (entry_with key row) }
        ensures sound { IsBorder self.new }
    {
        let Unwritten::Value(key) = mem::replace(&mut self.unwritten, Unwritten::Nothing) else {
            unreachable!();
        };
        self.table.fill(key.with_row(row));
    }

    /// Makes what the first unused slot holds live at this place, with its row as made by the commit of this number.
    /// The permutation alone makes it visible. Constant cost.
    pub fn show(&mut self, place: usize, version: u64)
        requires room { length self.old.live < SLOTS }
        requires written { self.old.unwritten ≡ Nothing }
        requires within { place ≤ length self.old.live }
        requires row { IsSome (next_row self.old.unused) }
        requires sound { IsBorder (with_shown self.old place version) }
        ensures value { self.new ≡ with_shown self.old place version }
        ensures sound { IsBorder self.new }
    {
        self.table.stamp(version);
        self.table.mark();
        self.table.insert_at(place);
    }
}
