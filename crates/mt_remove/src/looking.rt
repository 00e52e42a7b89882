//! A border that was read as empty is locked: its order and its right link are read again.

ghost use Rattle.std.specs.Prelude.{◌≡◌, IsTrue};
ghost use Rattle.mt_remove.specs.Tidy.{MayTidy};
ghost use Rattle.mt_remove.specs.Follows.{TidyStep};

use crate::seen::{order_at, right_at};
use crate::sign::Emptied;
use crate::stage::{EmptyLayer, Stage};
use crate::tidy::Tidy;
use mt_border::RightLink;
use mt_steps::progress::Progress;
use mt_steps::reader::Glance;
use mt_tree::Tree;
use mt_types::numbers::NodeNo;
use mt_word::Permutation;

// Whether two orders are the same.
fn same_order(one: Permutation, other: Permutation) -> bool
    ensures same { IsTrue result → one ≡ other }
    ensures differ { one ≡ other → IsTrue result }
{
    let _arranged = (one.len(), other.len());
    one == other
}

// Whether two right links are the same.
fn same_right(one: Option<RightLink>, other: Option<RightLink>) -> bool
    ensures same { IsTrue result → one ≡ other }
    ensures differ { one ≡ other → IsTrue result }
{
    match one {
        None => other.is_none(),
        Some(link) => match other {
            None => false,
            Some(to) => link.low == to.low && link.node.0 == to.node.0,
        },
    }
}

impl Tidy {
    // The order is read again: the tidy continues if it is the same.
    pub(crate) fn look_again(
        &mut self,
        tree: &mut Tree,
        epoch: u64,
        border: NodeNo,
        head: NodeNo,
        emptied: Emptied,
        glance: Glance,
    ) -> Progress
        requires at { self.old.stage ≡ Stage.LooksAgain border head emptied glance }
        requires may { MayTidy epoch tree.old self.old }
        ensures { TidyStep epoch tree.old tree.new self.old result self.new }
    {
        if !same_order(order_at(tree, border), glance.order) {
            self.stage = Stage::KeepsBorder(border);
            return Progress::Moved;
        }
        self.stage = Stage::LooksRight {
            border,
            head,
            emptied,
            right: glance.right,
        };
        Progress::Moved
    }

    // The right link is read again: the tidy continues if it is the same.
    pub(crate) fn look_right(
        &mut self,
        tree: &mut Tree,
        epoch: u64,
        border: NodeNo,
        head: NodeNo,
        emptied: Emptied,
        right: Option<RightLink>,
    ) -> Progress
        requires at { self.old.stage ≡ Stage.LooksRight border head emptied right }
        requires may { MayTidy epoch tree.old self.old }
        ensures { TidyStep epoch tree.old tree.new self.old result self.new }
    {
        if !same_right(right_at(tree, border), right) {
            self.stage = Stage::KeepsBorder(border);
            return Progress::Moved;
        }
        match emptied {
            Emptied::Child(parent) => {
                self.stage = Stage::Locked {
                    border,
                    head,
                    parent,
                };
                Progress::Moved
            }
            Emptied::Root(above) => {
                self.stage = Stage::RootLocked(EmptyLayer {
                    above,
                    head,
                    root: border,
                });
                Progress::Moved
            }
        }
    }
}
