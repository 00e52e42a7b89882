//! What a call changes in an interior node, and what each change keeps.

ghost use Rattle.std.specs.Prelude.{◌≡◌, ◌<◌, ◌≤◌, ◌⊎◌, length, [], IsSome, IsSomeAnd, true, false};
ghost use Rattle.mt_interior.specs.Interior.{with_lock, with_deleted, with_child, with_children, without_child, with_bypass, with_first, IsInterior};
ghost use Rattle.mt_arena.specs.Node.{interior_at, border_at};
ghost use Rattle.mt_arena.specs.Arena.{with_interior_changed};
ghost use Rattle.mt_tree.specs.Keeping.{KeepsTree, KeepsWhere, KeepsAlong};
ghost use Rattle.mt_tree.specs.InteriorSteps.{child_at, HasRoomFrom, HasOneChild, IsNotGone, CutsAt, PostsAt, DropsAt, BypassesAt, KeepsHalf};

use crate::tree::Tree;
use mt_interior::Child;
use mt_types::numbers::NodeNo;

#[tactic(auto, using(crate::proofs::SeenLemmas::sound_interior, crate::proofs::InteriorChanges::lock_keeps, crate::proofs::InteriorChanges::mark_keeps, crate::proofs::InteriorChanges::fill_keeps, crate::proofs::InteriorChanges::drop_child_keeps, crate::proofs::InteriorChanges::keep_first_keeps, crate::proofs::InteriorChanges::bypass_keeps, crate::proofs::InteriorChanges::post_border_keeps, crate::proofs::InteriorChanges::post_half_keeps))]
impl Tree {
    /// Locks an interior. Constant cost.
    pub fn lock_interior(&mut self, number: NodeNo)
        requires { IsSomeAnd (interior_at self.old.nodes number.0) (λ interior. interior.version.locked ≡ false) }
        ensures value { self.new ≡ with_interior_changed self.old number.0 (λ interior. with_lock interior true) }
        ensures sound { IsSomeAnd (interior_at self.new.nodes number.0) IsInterior }
        ensures keeps { KeepsTree self.old self.new }
    {
        self.arena.interior_mut(number).lock();
    }

    /// Unlocks an interior. Constant cost.
    pub fn unlock_interior(&mut self, number: NodeNo)
        requires { IsSomeAnd (interior_at self.old.nodes number.0) (λ interior. interior.version.locked ≡ true) }
        ensures value { self.new ≡ with_interior_changed self.old number.0 (λ interior. with_lock interior false) }
        ensures sound { IsSomeAnd (interior_at self.new.nodes number.0) IsInterior }
        ensures keeps { IsSomeAnd (interior_at self.old.nodes number.0) (λ interior.
            KeepsWhere self.old self.new (λ chart. IsNotGone chart number.0 ⊎ (interior.version.deleted ≡ true))) }
    {
        self.arena.interior_mut(number).unlock();
    }

    /// Marks an interior as deleted. Constant cost.
    pub fn mark_interior_deleted(&mut self, number: NodeNo)
        requires { IsSome (interior_at self.old.nodes number.0) }
        ensures value { self.new ≡ with_interior_changed self.old number.0 with_deleted }
        ensures sound { IsSomeAnd (interior_at self.new.nodes number.0) IsInterior }
        ensures keeps { KeepsTree self.old self.new }
    {
        self.arena.interior_mut(number).mark_deleted();
    }

    /// Adds these children to an interior that has none. Costs a copy of each.
    pub fn fill_interior(&mut self, number: NodeNo, children: &[Child])
        requires empty { IsSomeAnd (interior_at self.old.nodes number.0) (λ interior. interior.children ≡ []) }
        requires sound { IsSomeAnd (interior_at self.old.nodes number.0) (λ interior.
            IsInterior (with_children interior children.now)) }
        ensures value { self.new ≡ with_interior_changed self.old number.0 (λ interior.
            with_children interior children.now) }
        ensures sound { IsSomeAnd (interior_at self.new.nodes number.0) IsInterior }
        ensures keeps { KeepsTree self.old self.new }
    {
        self.arena.interior_mut(number).fill(children);
    }

    /// Posts a border in an interior, which leads to it from its low on. Costs a binary search, and a move of each
    /// child after it.
    pub fn post_border(&mut self, number: NodeNo, posted: NodeNo)
        requires { IsSomeAnd (border_at self.old.nodes posted.0) (λ border.
            IsSomeAnd (interior_at self.old.nodes number.0) (HasRoomFrom border.low)) }
        ensures value { IsSomeAnd (border_at self.old.nodes posted.0) (λ border.
            self.new ≡ with_interior_changed self.old number.0 (λ interior.
            with_child interior (record { low = border.low; node = posted; level = 0 }))) }
        ensures sound { IsSomeAnd (interior_at self.new.nodes number.0) IsInterior }
        ensures keeps { KeepsAlong self.old self.new (PostsAt number.0 posted.0) }
    {
        let low = self.border(posted).low();
        let interior = self.arena.interior_mut(number);
        // A border's level, 0, is below that of each interior.
        prove!(interior.level() > 0);
        interior.insert(Child {
            low,
            node: posted,
            level: 0,
        });
    }

    /// Posts the new half of an interior in an interior above, which leads to it from its low on. Costs a binary
    /// search, and a move of each child after it.
    pub fn post_half(&mut self, number: NodeNo, half: NodeNo)
        requires room { IsSomeAnd (interior_at self.old.nodes half.0) (λ upper.
            IsSomeAnd (interior_at self.old.nodes number.0) (HasRoomFrom upper.low)) }
        requires lower { IsSomeAnd (interior_at self.old.nodes half.0) (λ upper.
            IsSomeAnd (interior_at self.old.nodes number.0) (λ interior. upper.level < interior.level)) }
        ensures value { IsSomeAnd (interior_at self.old.nodes half.0) (λ upper.
            self.new ≡ with_interior_changed self.old number.0 (λ interior.
            with_child interior (record { low = upper.low; node = half; level = upper.level }))) }
        ensures sound { IsSomeAnd (interior_at self.new.nodes number.0) IsInterior }
        ensures keeps { KeepsHalf self.old self.new number.0 half.0 }
    {
        let upper = self.interior(half);
        let child = Child {
            low: upper.low(),
            node: half,
            level: upper.level(),
        };
        self.arena.interior_mut(number).insert(child);
    }

    /// Drops the child at a place of an interior, which is not the first. Costs a move of each child after it.
    pub fn drop_child(&mut self, number: NodeNo, place: usize)
        requires later { 0 < place }
        requires within { IsSome (child_at self.old.nodes number.0 place) }
        ensures value { self.new ≡ with_interior_changed self.old number.0 (λ interior. without_child interior place) }
        ensures sound { IsSomeAnd (interior_at self.new.nodes number.0) IsInterior }
        ensures keeps { IsSomeAnd (child_at self.old.nodes number.0 place) (λ child.
            KeepsAlong self.old self.new (DropsAt number.0 child)) }
    {
        self.arena.interior_mut(number).drop_child(place);
    }

    /// Names the only child of an interior instead of it, in the interior above. Constant cost.
    pub fn bypass(&mut self, number: NodeNo, place: usize, gone: NodeNo)
        requires named { IsSomeAnd (child_at self.old.nodes number.0 place) (λ child. child.node ≡ gone) }
        requires one { IsSomeAnd (interior_at self.old.nodes gone.0) HasOneChild }
        requires lower { IsSomeAnd (child_at self.old.nodes gone.0 0) (λ child.
            IsSomeAnd (interior_at self.old.nodes number.0) (λ interior. child.level < interior.level)) }
        ensures value { IsSomeAnd (child_at self.old.nodes gone.0 0) (λ child.
            self.new ≡ with_interior_changed self.old number.0 (λ interior.
            with_bypass interior place child.node child.level)) }
        ensures sound { IsSomeAnd (interior_at self.new.nodes number.0) IsInterior }
        ensures keeps { KeepsAlong self.old self.new (BypassesAt number.0 gone.0) }
    {
        let child = self.interior(gone).child(0);
        self.arena
            .interior_mut(number)
            .bypass(place, child.node, child.level);
    }

    /// Keeps the first `count` children of an interior, at least one. Costs a write of each child that is dropped.
    pub fn keep_first(&mut self, number: NodeNo, count: usize)
        requires some { 1 ≤ count }
        requires within { IsSomeAnd (interior_at self.old.nodes number.0) (λ interior.
            count ≤ length interior.children) }
        ensures value { self.new ≡ with_interior_changed self.old number.0 (λ interior. with_first interior count) }
        ensures sound { IsSomeAnd (interior_at self.new.nodes number.0) IsInterior }
        ensures keeps { KeepsWhere self.old self.new (CutsAt self.old number.0 count) }
    {
        self.arena.interior_mut(number).keep_first(count);
    }
}
