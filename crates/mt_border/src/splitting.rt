//! The split of a border: it is marked, its right link names the half that has its upper entries, and its order is cut.

ghost use Rattle.std.specs.Prelude.{◌≡◌, ◌<◌, ◌≤◌, length, take, true};
ghost use Rattle.mt_word.specs.Slots.{Slots};
ghost use Rattle.mt_word.specs.declared.version_word.TheConstants.{MAX_SPLITS};
ghost use Rattle.mt_border.specs.Border.{with_splitting, with_half_linked, with_written};
ghost use Rattle.mt_border.specs.Order.{IsBorder, AreBelow};
ghost use Rattle.mt_border.specs.declared.unwritten.Unwritten.TheVariants.{Nothing, Order};

use crate::border::Border;
use crate::entry::RightLink;
use crate::unwritten::Unwritten;
use mt_word::Version;

// The version while the border is split.
fn version_splitting(version: Version) -> Version
    requires { version.vsplit < MAX_SPLITS }
    ensures { result ≡ record version { splitting = true } }
{
    let mut flagged = version;
    match flagged.set_splitting() {
        Ok(()) => flagged,
        Err(_) => unreachable!(),
    }
}

impl Border {
    /// Marks the border as one that is being split, until it is unlocked. Constant cost.
    pub fn mark_splitting(&mut self)
        requires locked { self.old.version.locked ≡ true }
        requires written { self.old.unwritten ≡ Nothing }
        requires unspent { self.old.version.vsplit < MAX_SPLITS }
        ensures value { self.new ≡ with_splitting self.old }
        ensures sound { IsBorder self.new }
    {
        self.version = version_splitting(self.version);
    }

    /// Names the border to the right, which has the entries from the place `keep` on. They are then no longer this
    /// border's, though others still read the order as it was, until it is cut. The border must be marked as one that is
    /// being split (Masstree, EuroSys 2012, section 4.6.4). Constant cost.
    pub fn link_right(&mut self, keep: usize, right: RightLink)
        requires locked { self.old.version.locked ≡ true }
        requires splitting { self.old.version.splitting ≡ true }
        requires written { self.old.unwritten ≡ Nothing }
        requires within { keep ≤ length self.old.live }
        requires above_low { self.old.low < right.low }
        requires above_kept { AreBelow right.low (take keep self.old.live) }
        ensures value { self.new ≡ with_half_linked self.old keep right }
        ensures sound { IsBorder self.new }
    {
        let shown = self.table.order();
        self.table.keep_first(keep);
        self.right = Some(right);
        self.unwritten = Unwritten::Order(shown);
    }

    /// Cuts the order, as others read it, to the entries that are this border's. Constant cost.
    pub fn cut(&mut self)
        requires { (shown : Slots) × (self.old.unwritten ≡ Order shown) }
        ensures value { self.new ≡ with_written self.old }
        ensures sound { IsBorder self.new }
    {
        self.unwritten = Unwritten::Nothing;
    }
}
