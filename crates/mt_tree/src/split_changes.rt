//! What a split changes in the border that is split, and what each change keeps of the whole tree.

ghost use Rattle.std.specs.Prelude.{◌≡◌, ◌<◌, true, IsSomeAnd};
ghost use Rattle.mt_border.specs.Border.{with_splitting, with_half_linked, with_written};
ghost use Rattle.mt_word.specs.declared.version_word.TheConstants.{MAX_SPLITS};
ghost use Rattle.mt_border.specs.Order.{IsBorder};
ghost use Rattle.mt_border.specs.declared.unwritten.Unwritten.TheVariants.{Nothing};
ghost use Rattle.mt_arena.specs.Node.{border_at};
ghost use Rattle.mt_arena.specs.Arena.{with_border_changed};
ghost use Rattle.mt_tree.specs.Keeping.{KeepsTree};
ghost use Rattle.mt_tree.specs.BorderSteps.{IsUpperHalf, LinksHalfAt, AwaitsSomeCut};

use crate::tree::Tree;
use mt_border::RightLink;
use mt_types::numbers::NodeNo;

#[tactic(auto, using(crate::proofs::SeenLemmas::sound_border, crate::proofs::BorderMarks::splitting_keeps, crate::proofs::BorderMarks::written_keeps))]
impl Tree {
    /// Marks a border as one that is being split, until it is unlocked. Constant cost.
    pub fn mark_splitting(&mut self, number: NodeNo)
        requires locked { IsSomeAnd (border_at self.old.nodes number.0) (λ b. b.version.locked ≡ true) }
        requires written { IsSomeAnd (border_at self.old.nodes number.0) (λ b. b.unwritten ≡ Nothing) }
        requires unspent { IsSomeAnd (border_at self.old.nodes number.0) (λ b. b.version.vsplit < MAX_SPLITS) }
        ensures value { self.new ≡ with_border_changed self.old number.0 with_splitting }
        ensures sound { IsSomeAnd (border_at self.new.nodes number.0) IsBorder }
        ensures keeps { KeepsTree self.old self.new }
    {
        self.arena.border_mut(number).mark_splitting();
    }

    /// The link step of a split: a border names to its right the half, a border that was filled with its entries from the
    /// place `keep` on, and only the first `keep` are its own. Others still read its order as it was, until it is cut.
    /// Constant cost.
    pub fn link_half(&mut self, number: NodeNo, half: NodeNo, keep: usize)
        requires { IsSomeAnd (border_at self.old.nodes number.0) (λ b.
            IsSomeAnd (border_at self.old.nodes half.0) (λ upper. IsUpperHalf b upper keep)) }
        ensures value { IsSomeAnd (border_at self.old.nodes half.0) (λ upper.
            self.new ≡ with_border_changed self.old number.0 (λ b. with_half_linked b keep
            (record { low = upper.low; node = half }))) }
        ensures sound { IsSomeAnd (border_at self.new.nodes number.0) IsBorder }
        ensures links { LinksHalfAt self.old self.new number.0 half.0 }
    {
        let low = self.border(half).low();
        self.arena
            .border_mut(number)
            .link_right(keep, RightLink { low, node: half });
    }

    /// Cuts the order of a border whose right link names the half of a split, so that others read there only the entries
    /// that are its own. Constant cost.
    pub fn cut(&mut self, number: NodeNo)
        requires { IsSomeAnd (border_at self.old.nodes number.0) AwaitsSomeCut }
        ensures value { self.new ≡ with_border_changed self.old number.0 with_written }
        ensures sound { IsSomeAnd (border_at self.new.nodes number.0) IsBorder }
        ensures keeps { KeepsTree self.old self.new }
    {
        self.arena.border_mut(number).cut();
    }
}
