//! What a call changes in the head of a layer, and what each change keeps.

ghost use Rattle.std.specs.Prelude.{◌≡◌, None, IsSomeAnd, true, false};
ghost use Rattle.mt_interior.specs.Head.{with_root, with_lock, with_deleted, IsHead};
ghost use Rattle.mt_arena.specs.Node.{head_at, interior_at, border_at};
ghost use Rattle.mt_arena.specs.Arena.{with_head_changed};
ghost use Rattle.mt_tree.specs.Keeping.{KeepsTree, KeepsAlong};
ghost use Rattle.mt_tree.specs.InteriorSteps.{child_at, HasOneChild};
ghost use Rattle.mt_tree.specs.HeadSteps.{IsRootOver, NamesRootAt, IsRootOverHalf, KeepsRootOverHalf, BypassesRootAt};

use crate::tree::Tree;
use mt_types::numbers::NodeNo;

#[tactic(auto, using(crate::proofs::SeenLemmas::sound_head, crate::proofs::HeadChanges::unlock_keeps, crate::proofs::HeadChanges::mark_keeps, crate::proofs::HeadChanges::name_root_keeps, crate::proofs::HeadChanges::name_root_over_half_keeps, crate::proofs::HeadChanges::bypass_root_keeps))]
impl Tree {
    /// Unlocks a head. Constant cost.
    pub fn unlock_head(&mut self, number: NodeNo)
        requires { IsSomeAnd (head_at self.old.nodes number.0) (λ head. head.version.locked ≡ true) }
        ensures value { self.new ≡ with_head_changed self.old number.0 (λ head. with_lock head false) }
        ensures sound { IsSomeAnd (head_at self.new.nodes number.0) IsHead }
        ensures keeps { KeepsTree self.old self.new }
    {
        self.arena.head_mut(number).unlock();
    }

    /// Marks a head as deleted, whose root is a border with nothing to its right. Constant cost.
    pub fn mark_head_deleted(&mut self, number: NodeNo)
        requires { IsSomeAnd (head_at self.old.nodes number.0) (λ head.
            IsSomeAnd (border_at self.old.nodes head.root.0) (λ root. root.right ≡ None)) }
        ensures value { self.new ≡ with_head_changed self.old number.0 with_deleted }
        ensures sound { IsSomeAnd (head_at self.new.nodes number.0) IsHead }
        ensures keeps { KeepsTree self.old self.new }
    {
        self.arena.head_mut(number).mark_deleted();
    }

    /// Names a new root, an interior over the old root and a border. Constant cost.
    pub fn name_root(&mut self, number: NodeNo, root: NodeNo)
        requires { IsSomeAnd (head_at self.old.nodes number.0) (λ head.
            IsSomeAnd (interior_at self.old.nodes root.0) (IsRootOver head)) }
        ensures value { IsSomeAnd (interior_at self.old.nodes root.0) (λ interior.
            self.new ≡ with_head_changed self.old number.0 (λ head. with_root head root interior.level)) }
        ensures sound { IsSomeAnd (head_at self.new.nodes number.0) IsHead }
        ensures keeps { KeepsAlong self.old self.new (NamesRootAt self.old number.0 root.0) }
    {
        let level = self.interior(root).level();
        self.arena.head_mut(number).set_root(root, level);
    }

    /// Names a new root, an interior over the old root, which is being split, and its new half. Constant cost.
    pub fn name_root_over_half(&mut self, number: NodeNo, root: NodeNo)
        requires { IsSomeAnd (head_at self.old.nodes number.0) (λ head.
            IsSomeAnd (interior_at self.old.nodes root.0) (IsRootOverHalf self.old.nodes head)) }
        ensures value { IsSomeAnd (interior_at self.old.nodes root.0) (λ interior.
            self.new ≡ with_head_changed self.old number.0 (λ head. with_root head root interior.level)) }
        ensures sound { IsSomeAnd (head_at self.new.nodes number.0) IsHead }
        ensures keeps { KeepsRootOverHalf self.old self.new number.0 root.0 }
    {
        let root_level = self.interior(root).level();
        self.arena.head_mut(number).set_root(root, root_level);
    }

    /// Names the only child of the root in its place. Constant cost.
    pub fn bypass_root(&mut self, number: NodeNo, gone: NodeNo)
        requires named { IsSomeAnd (head_at self.old.nodes number.0) (λ head. head.root ≡ gone) }
        requires one { IsSomeAnd (interior_at self.old.nodes gone.0) HasOneChild }
        ensures value { IsSomeAnd (child_at self.old.nodes gone.0 0) (λ child.
            self.new ≡ with_head_changed self.old number.0 (λ head. with_root head child.node child.level)) }
        ensures sound { IsSomeAnd (head_at self.new.nodes number.0) IsHead }
        ensures keeps { KeepsAlong self.old self.new (BypassesRootAt number.0 gone.0) }
    {
        let child = self.interior(gone).child(0);
        self.arena
            .head_mut(number)
            .set_root(child.node, child.level);
    }
}
