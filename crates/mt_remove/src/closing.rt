//! An empty layer is taken out: its head and its only border are marked deleted, the link to it is hidden, and both are
//! retired.

ghost use Rattle.std.specs.Prelude.{◌≡◌};
ghost use Rattle.mt_remove.specs.Tidy.{MayTidy};
ghost use Rattle.mt_remove.specs.Follows.{TidyStep};

use crate::stage::{Layer, Stage};
use crate::tidy::Tidy;
use mt_steps::progress::Progress;
use mt_tree::Tree;
use mt_types::event::{Answer, TidyRule};
use mt_types::numbers::NodeNo;

impl Tidy {
    // The head is marked deleted, if the border is still its root.
    pub(crate) fn mark_head(&mut self, tree: &mut Tree, epoch: u64, layer: Layer) -> Progress
        requires at { self.old.stage ≡ Stage.LinkFound layer }
        requires may { MayTidy epoch tree.old self.old }
        ensures { TidyStep epoch tree.old tree.new self.old result self.new }
    {
        let head = tree.head(layer.head);
        if head.version().deleted() || head.root().0 != layer.root.0 {
            self.stage = Stage::KeepsLayer {
                above: layer.above,
                root: layer.root,
            };
            return Progress::Moved;
        }
        tree.mark_head_deleted(layer.head);
        self.stage = Stage::HeadMarked(layer);
        Progress::Moved
    }

    // The border is marked deleted.
    pub(crate) fn mark_root(&mut self, tree: &mut Tree, epoch: u64, layer: Layer) -> Progress
        requires at { self.old.stage ≡ Stage.HeadMarked layer }
        requires may { MayTidy epoch tree.old self.old }
        ensures { TidyStep epoch tree.old tree.new self.old result self.new }
    {
        tree.mark_border_deleted(layer.root);
        self.stage = Stage::RootMarked(layer);
        Progress::Moved
    }

    // The border above hides its link to the layer.
    pub(crate) fn hide_layer(&mut self, tree: &mut Tree, epoch: u64, layer: Layer) -> Progress
        requires at { self.old.stage ≡ Stage.RootMarked layer }
        requires may { MayTidy epoch tree.old self.old }
        ensures { TidyStep epoch tree.old tree.new self.old result self.new }
    {
        tree.hide_link(layer.above, layer.place);
        self.stage = Stage::LinkHidden(layer);
        Progress::Moved
    }

    // The border above is unlocked.
    pub(crate) fn unlock_above(&mut self, tree: &mut Tree, epoch: u64, layer: Layer) -> Progress
        requires at { self.old.stage ≡ Stage.LinkHidden layer }
        requires may { MayTidy epoch tree.old self.old }
        ensures { TidyStep epoch tree.old tree.new self.old result self.new }
    {
        tree.unlock_border(layer.above);
        self.stage = Stage::LayerGone {
            root: layer.root,
            head: layer.head,
        };
        Progress::Moved
    }

    // The layer's border is retired.
    pub(crate) fn retire_root(
        &mut self,
        tree: &mut Tree,
        epoch: u64,
        root: NodeNo,
        head: NodeNo,
    ) -> Progress
        requires at { self.old.stage ≡ Stage.LayerGone root head }
        requires may { MayTidy epoch tree.old self.old }
        ensures { TidyStep epoch tree.old tree.new self.old result self.new }
    {
        tree.unlock_border(root);
        tree.retire(root, epoch);
        self.stage = Stage::RootRetired(head);
        Progress::Moved
    }

    // The layer's head is retired.
    pub(crate) fn retire_head(&mut self, tree: &mut Tree, epoch: u64, head: NodeNo) -> Progress
        requires at { self.old.stage ≡ Stage.RootRetired head }
        requires may { MayTidy epoch tree.old self.old }
        ensures { TidyStep epoch tree.old tree.new self.old result self.new }
    {
        tree.retire(head, epoch);
        Progress::Answered(Answer::Tidied(TidyRule::EmptyLayer))
    }

    // It gives up, and unlocks the border above as it was.
    pub(crate) fn keep_layer(
        &mut self,
        tree: &mut Tree,
        epoch: u64,
        above: NodeNo,
        root: NodeNo,
    ) -> Progress
        requires at { self.old.stage ≡ Stage.KeepsLayer above root }
        requires may { MayTidy epoch tree.old self.old }
        ensures { TidyStep epoch tree.old tree.new self.old result self.new }
    {
        tree.unlock_border(above);
        self.stage = Stage::KeepsBorder(root);
        Progress::Moved
    }
}
