//! An interior with one child is bypassed: what named it names its child. It is marked deleted, and retired.

ghost use Rattle.std.specs.Prelude.{◌≡◌};
ghost use Rattle.mt_remove.specs.Tidy.{MayTidy};
ghost use Rattle.mt_remove.specs.Follows.{TidyStep};

use crate::noted::{Namer, OneChild};
use crate::seen::{is_lone, place_in};
use crate::stage::Stage;
use crate::tidy::{Tidy, nothing};
use mt_steps::progress::Progress;
use mt_tree::Tree;
use mt_types::event::{Answer, TidyRule};
use mt_types::numbers::NodeNo;

impl Tidy {
    // The interior is locked, if it still has one child, the one that was noted.
    pub(crate) fn lock_lone(&mut self, tree: &mut Tree, epoch: u64, lone: OneChild) -> Progress
        requires at { self.old.stage ≡ Stage.Lonely lone }
        requires may { MayTidy epoch tree.old self.old }
        ensures { TidyStep epoch tree.old tree.new self.old result self.new }
    {
        if !is_lone(tree, lone.interior, lone.child) {
            return nothing();
        }
        tree.lock_interior(lone.interior);
        self.stage = Stage::LoneLocked(lone);
        Progress::Moved
    }

    // The interior above names the interior's child, if it still names the interior.
    fn bypass_below(
        &mut self,
        tree: &mut Tree,
        epoch: u64,
        lone: OneChild,
        parent: NodeNo,
    ) -> Progress
        requires at { self.old.stage ≡ Stage.LoneLocked lone }
        requires named { lone.namer ≡ Namer.Interior parent }
        requires may { MayTidy epoch tree.old self.old }
        ensures { TidyStep epoch tree.old tree.new self.old result self.new }
    {
        let interior = lone.interior;
        let Some(place) = place_in(tree, parent, interior) else {
            self.stage = Stage::KeepsInterior(interior);
            return Progress::Moved;
        };
        tree.bypass(parent, place, interior);
        self.stage = Stage::Bypassed {
            interior,
            rule: TidyRule::LoneChild,
        };
        Progress::Moved
    }

    // The head names the interior's child, if the interior is still its root.
    fn bypass_root(&mut self, tree: &mut Tree, epoch: u64, lone: OneChild, head: NodeNo) -> Progress
        requires at { self.old.stage ≡ Stage.LoneLocked lone }
        requires named { lone.namer ≡ Namer.Head head }
        requires may { MayTidy epoch tree.old self.old }
        ensures { TidyStep epoch tree.old tree.new self.old result self.new }
    {
        let interior = lone.interior;
        let top = tree.head(head);
        if top.version().deleted() || top.root().0 != interior.0 {
            self.stage = Stage::KeepsInterior(interior);
            return Progress::Moved;
        }
        tree.bypass_root(head, interior);
        self.stage = Stage::Bypassed {
            interior,
            rule: TidyRule::LoneRootChild,
        };
        Progress::Moved
    }

    // What names the interior names its child.
    pub(crate) fn bypass_lone(&mut self, tree: &mut Tree, epoch: u64, lone: OneChild) -> Progress
        requires at { self.old.stage ≡ Stage.LoneLocked lone }
        requires may { MayTidy epoch tree.old self.old }
        ensures { TidyStep epoch tree.old tree.new self.old result self.new }
    {
        match lone.namer {
            Namer::Interior(parent) => self.bypass_below(tree, epoch, lone, parent),
            Namer::Head(head) => self.bypass_root(tree, epoch, lone, head),
        }
    }

    // The interior is marked deleted, and retired.
    pub(crate) fn retire_lone(
        &mut self,
        tree: &mut Tree,
        epoch: u64,
        interior: NodeNo,
        rule: TidyRule,
    ) -> Progress
        requires at { self.old.stage ≡ Stage.Bypassed interior rule }
        requires may { MayTidy epoch tree.old self.old }
        ensures { TidyStep epoch tree.old tree.new self.old result self.new }
    {
        tree.mark_interior_deleted(interior);
        tree.unlock_interior(interior);
        tree.retire(interior, epoch);
        Progress::Answered(Answer::Tidied(rule))
    }

    // It gives up, and unlocks the interior as it was.
    pub(crate) fn keep_interior(
        &mut self,
        tree: &mut Tree,
        epoch: u64,
        interior: NodeNo,
    ) -> Progress
        requires at { self.old.stage ≡ Stage.KeepsInterior interior }
        requires may { MayTidy epoch tree.old self.old }
        ensures { TidyStep epoch tree.old tree.new self.old result self.new }
    {
        tree.unlock_interior(interior);
        nothing()
    }
}
