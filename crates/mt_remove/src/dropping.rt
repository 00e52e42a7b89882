//! An empty border is dropped from the interior that names it, marked deleted, and, once it is unlinked, retired.

ghost use Rattle.std.specs.Prelude.{◌≡◌};
ghost use Rattle.mt_remove.specs.Tidy.{MayTidy};
ghost use Rattle.mt_remove.specs.Follows.{TidyStep};

use crate::seen::later_place;
use crate::stage::{Stage, Unlinking};
use crate::tidy::{Tidy, nothing};
use mt_steps::progress::Progress;
use mt_steps::reader::Reader;
use mt_tree::Tree;
use mt_types::event::{Answer, TidyRule};
use mt_types::numbers::NodeNo;

impl Tidy {
    // The interior drops the border, if it still names it.
    pub(crate) fn drop_border(
        &mut self,
        tree: &mut Tree,
        epoch: u64,
        border: NodeNo,
        head: NodeNo,
        parent: NodeNo,
    ) -> Progress
        requires at { self.old.stage ≡ Stage.Locked border head parent }
        requires may { MayTidy epoch tree.old self.old }
        ensures { TidyStep epoch tree.old tree.new self.old result self.new }
    {
        let Some(place) = later_place(tree, parent, border) else {
            self.stage = Stage::KeepsBorder(border);
            return Progress::Moved;
        };
        tree.drop_child(parent, place);
        self.stage = Stage::Dropped { border, head };
        Progress::Moved
    }

    // The border is marked deleted, and its right link noted. The way to the one before it begins.
    pub(crate) fn mark_border(
        &mut self,
        tree: &mut Tree,
        epoch: u64,
        border: NodeNo,
        head: NodeNo,
    ) -> Progress
        requires at { self.old.stage ≡ Stage.Dropped border head }
        requires may { MayTidy epoch tree.old self.old }
        ensures { TidyStep epoch tree.old tree.new self.old result self.new }
    {
        let gone = tree.border(border);
        let slice = gone.low() - 1;
        let right = gone.right();
        tree.mark_border_deleted(border);
        self.finding = Reader::Begins;
        self.stage = Stage::Marked(Unlinking {
            border,
            head,
            node: head,
            slice,
            right,
        });
        Progress::Moved
    }

    // The border is retired.
    pub(crate) fn retire_border(&mut self, tree: &mut Tree, epoch: u64, border: NodeNo) -> Progress
        requires at { self.old.stage ≡ Stage.Unlinked border }
        requires may { MayTidy epoch tree.old self.old }
        ensures { TidyStep epoch tree.old tree.new self.old result self.new }
    {
        tree.unlock_border(border);
        tree.retire(border, epoch);
        Progress::Answered(Answer::Tidied(TidyRule::EmptyBorder))
    }

    // It gives up, and unlocks the border as it was.
    pub(crate) fn keep_border(&mut self, tree: &mut Tree, epoch: u64, border: NodeNo) -> Progress
        requires at { self.old.stage ≡ Stage.KeepsBorder border }
        requires may { MayTidy epoch tree.old self.old }
        ensures { TidyStep epoch tree.old tree.new self.old result self.new }
    {
        tree.unlock_border(border);
        nothing()
    }
}
