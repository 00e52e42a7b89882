//! What the making and the dropping of a layer change in the border above, and what each change keeps of the whole tree.

ghost use Rattle.std.specs.Prelude.{◌≡◌, IsSomeAnd};
ghost use Rattle.mt_border.specs.Border.{with_unstable, with_link_at, with_written, with_hidden};
ghost use Rattle.mt_border.specs.Order.{IsBorder};
ghost use Rattle.mt_border.specs.declared.unwritten.Unwritten.TheVariants.{Nothing};
ghost use Rattle.mt_arena.specs.Node.{border_at};
ghost use Rattle.mt_arena.specs.Arena.{with_border_changed};
ghost use Rattle.mt_tree.specs.Keeping.{KeepsTree};
ghost use Rattle.mt_tree.specs.BorderSteps.{MayMarkUnstable, HasLayerFor, MakesLayerAt, AwaitsSomeMark, HasMarkedLayerAt, DropsLayerAt};

use crate::tree::Tree;
use mt_types::numbers::NodeNo;

#[tactic(auto, using(crate::proofs::SeenLemmas::sound_border, crate::proofs::BorderMarks::unstable_keeps, crate::proofs::BorderMarks::written_keeps, crate::proofs::LayerSteps::makes_layer, crate::proofs::LayerSteps::drops_layer))]
impl Tree {
    /// Marks the key of the entry at a place of a border, a longer key's, as unstable: a layer is being made of it.
    /// Constant cost.
    pub fn mark_unstable(&mut self, number: NodeNo, place: usize)
        requires { IsSomeAnd (border_at self.old.nodes number.0) (λ b. MayMarkUnstable b place) }
        ensures value { self.new ≡ with_border_changed self.old number.0 (λ b. with_unstable b place) }
        ensures sound { IsSomeAnd (border_at self.new.nodes number.0) IsBorder }
        ensures keeps { KeepsTree self.old self.new }
    {
        self.arena.border_mut(number).mark_unstable(place);
    }

    /// Makes the entry at a place of a border, whose key is marked unstable, a link to the head of a layer that has its row
    /// alone. The entry's own row is dropped. Constant cost.
    pub fn make_link(&mut self, number: NodeNo, place: usize, head: NodeNo)
        requires { IsSomeAnd (border_at self.old.nodes number.0) (λ b. HasLayerFor self.old.nodes b place head.0) }
        ensures value { self.new ≡ with_border_changed self.old number.0 (λ b. with_link_at b place head) }
        ensures sound { IsSomeAnd (border_at self.new.nodes number.0) IsBorder }
        ensures makes { MakesLayerAt self.old self.new number.0 place head.0 }
    {
        self.arena.border_mut(number).make_link(place, head);
    }

    /// Marks the key of a border whose value has become a link as a layer's. Constant cost.
    pub fn mark_layer(&mut self, number: NodeNo)
        requires { IsSomeAnd (border_at self.old.nodes number.0) AwaitsSomeMark }
        ensures value { self.new ≡ with_border_changed self.old number.0 with_written }
        ensures sound { IsSomeAnd (border_at self.new.nodes number.0) IsBorder }
        ensures keeps { KeepsTree self.old self.new }
    {
        self.arena.border_mut(number).mark_layer();
    }

    /// Hides the link at a place of a border to a layer that is marked deleted. Constant cost.
    pub fn hide_link(&mut self, number: NodeNo, place: usize)
        requires marked { IsSomeAnd (border_at self.old.nodes number.0) (λ b. HasMarkedLayerAt self.old.nodes b place) }
        requires written { IsSomeAnd (border_at self.old.nodes number.0) (λ b. b.unwritten ≡ Nothing) }
        ensures value { self.new ≡ with_border_changed self.old number.0 (λ b. with_hidden b place) }
        ensures sound { IsSomeAnd (border_at self.new.nodes number.0) IsBorder }
        ensures drops { DropsLayerAt self.old self.new number.0 place }
    {
        self.arena.border_mut(number).hide(place);
    }
}
