//! What a call changes in a border node, and what each change keeps of the whole tree.

ghost use Rattle.std.specs.Prelude.{◌≡◌, ◌↔◌, [], Some, true, false, IsSomeAnd, IsTrue, IsErr, OnOk, OnErr, IfErr, length, ◌<◌};
ghost use Rattle.mt_border.specs.Border.{with_locked, with_unlocked, with_deleted, with_inserting, with_key, with_filled, with_shown, with_hidden, with_forgotten, with_value, with_right, insert_is_spent, row_at};
ghost use Rattle.mt_word.specs.declared.permutation_word.TheConstants.{SLOTS};
ghost use Rattle.mt_border.specs.Order.{IsBorder};
ghost use Rattle.mt_border.specs.declared.unwritten.Unwritten.TheVariants.{Nothing, Value};
ghost use Rattle.mt_border.specs.declared.unwritten.SlotKey.{SlotKey as SlotKeyView};
ghost use Rattle.mt_border.specs.Entry.{entry_with};
ghost use Rattle.mt_arena.specs.Node.{border_at};
ghost use Rattle.mt_arena.specs.Arena.{with_border_changed};
ghost use Rattle.mt_tree.specs.Keeping.{KeepsTree};
ghost use Rattle.mt_tree.specs.BorderSteps.{MayWriteKey, AwaitsSome, MayForget, MayShowAt, ShowsNext, HasRowAt, HidesRowAt, SetsRowAt, MayUnlink, UnlinksAt};

use crate::tree::Tree;
use mt_border::{RightLink, SlotKey};
use mt_types::numbers::NodeNo;
use mt_types::refusal::Refusal;
use mt_types::row::Row;

#[tactic(auto, using(crate::proofs::SeenLemmas::sound_border, crate::proofs::BorderMarks::lock_keeps, crate::proofs::BorderMarks::unlock_keeps, crate::proofs::BorderMarks::mark_keeps, crate::proofs::BorderMarks::key_keeps, crate::proofs::BorderMarks::forgotten_keeps, crate::proofs::BorderRows::shows_next, crate::proofs::BorderRows::hides_at, crate::proofs::BorderRows::sets_at))]
impl Tree {
    /// Locks a border. Constant cost.
    pub fn lock_border(&mut self, number: NodeNo)
        requires { IsSomeAnd (border_at self.old.nodes number.0) (λ b. b.version.locked ≡ false) }
        ensures value { self.new ≡ with_border_changed self.old number.0 with_locked }
        ensures sound { IsSomeAnd (border_at self.new.nodes number.0) IsBorder }
        ensures keeps { KeepsTree self.old self.new }
    {
        self.arena.border_mut(number).lock();
    }

    /// Unlocks a border. If keys were being inserted into it or it was being split, the counter of that is raised, and its
    /// flag cleared. Constant cost.
    pub fn unlock_border(&mut self, number: NodeNo)
        requires locked { IsSomeAnd (border_at self.old.nodes number.0) (λ b. b.version.locked ≡ true) }
        requires written { IsSomeAnd (border_at self.old.nodes number.0) (λ b. b.unwritten ≡ Nothing) }
        ensures value { self.new ≡ with_border_changed self.old number.0 with_unlocked }
        ensures sound { IsSomeAnd (border_at self.new.nodes number.0) IsBorder }
        ensures keeps { KeepsTree self.old self.new }
    {
        self.arena.border_mut(number).unlock();
    }

    /// Marks a border, which has no live entry, as deleted. Constant cost.
    pub fn mark_border_deleted(&mut self, number: NodeNo)
        requires { IsSomeAnd (border_at self.old.nodes number.0) (λ b. b.live ≡ []) }
        ensures value { self.new ≡ with_border_changed self.old number.0 with_deleted }
        ensures sound { IsSomeAnd (border_at self.new.nodes number.0) IsBorder }
        ensures keeps { KeepsTree self.old self.new }
    {
        self.arena.border_mut(number).mark_deleted();
    }

    /// Marks a border as one into which keys are being inserted, if its first unused slot held a key. It is so marked until
    /// it is unlocked. Constant cost.
    ///
    /// # Errors
    ///
    /// `Spent` if the slot held a key, and the counter of insertions is at its greatest value, 2^56 - 1. Nothing is
    /// changed then.
    pub fn mark_inserting(&mut self, number: NodeNo) -> Result<(), Refusal>
        requires room { IsSomeAnd (border_at self.old.nodes number.0) (λ b. length b.live < SLOTS) }
        requires locked { IsSomeAnd (border_at self.old.nodes number.0) (λ b. b.version.locked ≡ true) }
        requires written { IsSomeAnd (border_at self.old.nodes number.0) (λ b. b.unwritten ≡ Nothing) }
        ensures marked { OnOk result (self.new ≡ with_border_changed self.old number.0 with_inserting) }
        ensures unchanged { OnErr result (self.new ≡ self.old) }
        ensures spent { IsErr result ↔ IsSomeAnd (border_at self.old.nodes number.0) (λ b. IsTrue (insert_is_spent b)) }
        ensures only { IfErr result (λ refusal. refusal ≡ Refusal.Spent) }
        ensures sound { IsSomeAnd (border_at self.new.nodes number.0) IsBorder }
        ensures keeps { KeepsTree self.old self.new }
    {
        self.arena.border_mut(number).mark_inserting()
    }

    /// Writes the key of the first unused slot of a border, in which it isn't visible. Constant cost.
    pub fn write_key(&mut self, number: NodeNo, key: SlotKey)
        requires { IsSomeAnd (border_at self.old.nodes number.0) (λ b. MayWriteKey b key) }
        ensures value { self.new ≡ with_border_changed self.old number.0 (λ b. with_key b key) }
        ensures sound { IsSomeAnd (border_at self.new.nodes number.0) IsBorder }
        ensures keeps { KeepsTree self.old self.new }
    {
        self.arena.border_mut(number).write_key(key);
    }

    /// Writes the value of the first unused slot of a border, whose key is written. Constant cost.
    pub fn write_value(&mut self, number: NodeNo, row: Row)
        requires { IsSomeAnd (border_at self.old.nodes number.0) AwaitsSome }
        ensures value { (key : SlotKeyView) → IsSomeAnd (border_at self.old.nodes number.0) (λ b. b.unwritten ≡ Value key)
            → self.new ≡ with_border_changed self.old number.0 (λ b. with_filled b (entry_with key row)) }
        ensures sound { IsSomeAnd (border_at self.new.nodes number.0) IsBorder }
        ensures keeps { KeepsTree self.old self.new }
    {
        self.arena.border_mut(number).write_value(row);
    }

    /// Makes the row that the first unused slot of a border holds live at a place, as made by the commit of this
    /// number. Constant cost.
    pub fn show(&mut self, number: NodeNo, place: usize, version: u64)
        requires { IsSomeAnd (border_at self.old.nodes number.0) (λ b. MayShowAt b place version) }
        ensures value { self.new ≡ with_border_changed self.old number.0 (λ b. with_shown b place version) }
        ensures sound { IsSomeAnd (border_at self.new.nodes number.0) IsBorder }
        ensures shows { ShowsNext self.old self.new number.0 version }
    {
        self.arena.border_mut(number).show(place, version);
    }

    /// Hides the entry at a place of a border, which has a row. Constant cost.
    pub fn hide_row(&mut self, number: NodeNo, place: usize)
        requires row { IsSomeAnd (border_at self.old.nodes number.0) (λ b. HasRowAt b place) }
        requires written { IsSomeAnd (border_at self.old.nodes number.0) (λ b. b.unwritten ≡ Nothing) }
        ensures value { self.new ≡ with_border_changed self.old number.0 (λ b. with_hidden b place) }
        ensures sound { IsSomeAnd (border_at self.new.nodes number.0) IsBorder }
        ensures hides { HidesRowAt self.old self.new number.0 place }
    {
        let border = self.arena.border_mut(number);
        border.hide(place);
    }

    /// Drops the row that the first unused slot of a border holds, which is marked as one into which keys are being
    /// inserted. Constant cost.
    pub fn forget_row(&mut self, number: NodeNo)
        requires { IsSomeAnd (border_at self.old.nodes number.0) MayForget }
        ensures value { self.new ≡ with_border_changed self.old number.0 with_forgotten }
        ensures sound { IsSomeAnd (border_at self.new.nodes number.0) IsBorder }
        ensures keeps { KeepsTree self.old self.new }
    {
        self.arena.border_mut(number).forget_row();
    }

    /// Replaces the row of the entry at a place of a border, which has one, and returns the old row. Constant cost.
    pub fn set_value(&mut self, number: NodeNo, place: usize, row: Row) -> Row
        requires row { IsSomeAnd (border_at self.old.nodes number.0) (λ b. HasRowAt b place) }
        requires written { IsSomeAnd (border_at self.old.nodes number.0) (λ b. b.unwritten ≡ Nothing) }
        ensures value { self.new ≡ with_border_changed self.old number.0 (λ b. with_value b place row) }
        ensures replaced { IsSomeAnd (border_at self.old.nodes number.0) (λ b. row_at place b.live ≡ Some result) }
        ensures sound { IsSomeAnd (border_at self.new.nodes number.0) IsBorder }
        ensures sets { SetsRowAt self.old self.new number.0 place row }
    {
        self.arena.border_mut(number).set_value(place, row)
    }

    /// Takes a border that is marked deleted out of its chain: the border before it takes its right link. Constant
    /// cost.
    pub fn unlink(&mut self, number: NodeNo, right: Option<RightLink>)
        requires may { (other : NodeNo) × MayUnlink self.old number.0 other right }
        ensures value { self.new ≡ with_border_changed self.old number.0 (λ b. with_right b right) }
        ensures sound { IsSomeAnd (border_at self.new.nodes number.0) IsBorder }
        ensures unlinks { (other : NodeNo) → MayUnlink self.old number.0 other right
            → UnlinksAt self.old self.new number.0 other.0 }
    {
        self.arena.border_mut(number).set_right(right);
    }
}
