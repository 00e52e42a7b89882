//! The making of a layer of a longer key's row: the key is marked unstable, its value becomes the link, and the key is
//! marked as a layer's.

ghost use Rattle.std.specs.Prelude.{◌≡◌, ℕ, List, ◌<◌, length, IsSome, true};
ghost use Rattle.mt_border.specs.Border.{with_unstable, with_link_at, with_written, suffix_at};
ghost use Rattle.mt_border.specs.Order.{IsBorder};
ghost use Rattle.mt_border.specs.Table.{number_at};
ghost use Rattle.mt_border.specs.declared.unwritten.Unwritten.TheVariants.{Nothing, LinkAt, MarkAt};

use crate::border::Border;
use crate::unwritten::Unwritten;
use mt_types::numbers::NodeNo;

impl Border {
    /// Marks the key of the entry at this place, which is a longer key's, as unstable: a layer is being made of it
    /// (Masstree, EuroSys 2012, section 4.6.3). Constant cost.
    pub fn mark_unstable(&mut self, place: usize)
        requires within { place < length self.old.live }
        requires long { IsSome (suffix_at place self.old.live) }
        requires locked { self.old.version.locked ≡ true }
        requires written { self.old.unwritten ≡ Nothing }
        ensures value { self.new ≡ with_unstable self.old place }
        ensures sound { IsBorder self.new }
    {
        self.unwritten = Unwritten::LinkAt(self.table.number(place));
    }

    /// Makes the entry at this place, whose key is marked unstable, a link to the head of the next layer. Its row is
    /// dropped. What followed its slice stays, for those that read its key, until that is marked as a layer's. Constant
    /// cost.
    pub fn make_link(&mut self, place: usize, head: NodeNo)
        requires within { place < length self.old.live }
        requires long { IsSome (suffix_at place self.old.live) }
        requires unstable { self.old.unwritten ≡ LinkAt (number_at place self.old.order) }
        ensures value { self.new ≡ with_link_at self.old place head }
        ensures sound { IsBorder self.new }
    {
        let number = self.table.number(place);
        let suffix = self.table.set_link(place, head);
        self.unwritten = Unwritten::MarkAt(number, suffix);
    }

    /// Marks the key, whose value is the link, as a layer's. Constant cost.
    pub fn mark_layer(&mut self)
        requires { (number : ℕ) × (suffix : List ℕ) × (self.old.unwritten ≡ MarkAt number suffix) }
        ensures value { self.new ≡ with_written self.old }
        ensures sound { IsBorder self.new }
    {
        self.unwritten = Unwritten::Nothing;
    }
}
