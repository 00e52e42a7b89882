//! A border that is marked deleted is unlinked: the border before it is found and locked, and takes its right link.

ghost use Rattle.std.specs.Prelude.{◌≡◌};
ghost use Rattle.mt_remove.specs.Tidy.{MayTidy};
ghost use Rattle.mt_remove.specs.Known.{AtLock};
ghost use Rattle.mt_remove.specs.Follows.{names, approach_progress, approached, TidyStep};

use crate::reading::read;
use crate::seen::right_at;
use crate::stage::{Stage, Unlinking};
use crate::tidy::Tidy;
use mt_border::RightLink;
use mt_steps::finding::FindReading;
use mt_steps::progress::Progress;
use mt_steps::reader::{Reader, Reading};
use mt_tree::Tree;
use mt_types::numbers::NodeNo;
use std::mem;

impl Unlinking {
    // The same, at another node.
    fn at(self, node: NodeNo) -> Unlinking
        ensures { result ≡ record self { node = node } }
    {
        Unlinking { node, ..self }
    }
}

// Whether a right link is to this border.
fn names(right: Option<RightLink>, border: NodeNo) -> bool
    ensures { result ≡ names right border }
{
    match right {
        Some(link) => link.node.0 == border.0,
        None => false,
    }
}

impl Tidy {
    // Does what a reading on the way to the border before leads to.
    fn approach(&mut self, unlinking: Unlinking, reading: FindReading) -> Progress
        ensures progress { result ≡ approach_progress reading }
        ensures after { self.new ≡ approached self.old unlinking reading }
    {
        self.finding = Reader::Begins;
        match reading {
            Reading::Restarts => {
                self.stage = Stage::Marked(unlinking.at(unlinking.head));
                Progress::Waits
            }
            Reading::To(next) => {
                self.stage = Stage::Marked(unlinking.at(next));
                Progress::Moved
            }
            Reading::GoesOn(finding) => {
                self.finding = finding;
                self.stage = Stage::Marked(unlinking);
                Progress::Moved
            }
            Reading::Repeats | Reading::Finds(_) => {
                self.stage = Stage::Marked(unlinking);
                Progress::Waits
            }
        }
    }

    // The border before it is locked, unless it is marked deleted or another call has locked it.
    fn lock_left(&mut self, tree: &mut Tree, epoch: u64, unlinking: Unlinking) -> Progress
        requires at { self.old.stage ≡ Stage.Marked unlinking }
        requires bounded { AtLock self.old.finding }
        requires may { MayTidy epoch tree.old self.old }
        ensures { TidyStep epoch tree.old tree.new self.old result self.new }
    {
        let version = tree.border(unlinking.node).version();
        if version.deleted() {
            return self.approach(unlinking, Reading::Restarts);
        }
        if version.is_locked() {
            return Progress::Waits;
        }
        tree.lock_border(unlinking.node);
        self.finding = Reader::Begins;
        self.stage = Stage::LeftLocked(unlinking);
        Progress::Moved
    }

    // On its way to the border before it: reads the next field of a border, or visits a head or interior node.
    fn seek_left(&mut self, tree: &mut Tree, epoch: u64, unlinking: Unlinking) -> Progress
        requires at { self.old.stage ≡ Stage.Marked unlinking }
        requires seeks { AtLock self.old.finding → ⊥ }
        requires may { MayTidy epoch tree.old self.old }
        ensures { TidyStep epoch tree.old tree.new self.old result self.new }
    {
        let finding = mem::replace(&mut self.finding, Reader::Begins);
        let rest = unlinking.slice.to_be_bytes();
        self.approach(unlinking, read(finding, tree, unlinking.node, &rest))
    }

    // On its way to the border before it, and at its lock.
    pub(crate) fn unlink_border(
        &mut self,
        tree: &mut Tree,
        epoch: u64,
        unlinking: Unlinking,
    ) -> Progress
        requires at { self.old.stage ≡ Stage.Marked unlinking }
        requires may { MayTidy epoch tree.old self.old }
        ensures { TidyStep epoch tree.old tree.new self.old result self.new }
    {
        match &self.finding {
            Reader::Bounded(_, _) => self.lock_left(tree, epoch, unlinking),
            _ => self.seek_left(tree, epoch, unlinking),
        }
    }

    // The right link of the border before is read again.
    pub(crate) fn look_left(
        &mut self,
        tree: &mut Tree,
        epoch: u64,
        unlinking: Unlinking,
    ) -> Progress
        requires at { self.old.stage ≡ Stage.LeftLocked unlinking }
        requires may { MayTidy epoch tree.old self.old }
        ensures { TidyStep epoch tree.old tree.new self.old result self.new }
    {
        if names(right_at(tree, unlinking.node), unlinking.border) {
            self.stage = Stage::LeftNames(unlinking);
            return Progress::Moved;
        }
        self.stage = Stage::LeftMissed(unlinking);
        Progress::Moved
    }

    // The border before is unlocked as it was, and the way begins again.
    pub(crate) fn pass_left(
        &mut self,
        tree: &mut Tree,
        epoch: u64,
        unlinking: Unlinking,
    ) -> Progress
        requires at { self.old.stage ≡ Stage.LeftMissed unlinking }
        requires may { MayTidy epoch tree.old self.old }
        ensures { TidyStep epoch tree.old tree.new self.old result self.new }
    {
        tree.unlock_border(unlinking.node);
        self.finding = Reader::Begins;
        self.stage = Stage::Marked(unlinking.at(unlinking.head));
        Progress::Moved
    }

    // The border before takes the right link of the border, which was noted.
    pub(crate) fn write_left(
        &mut self,
        tree: &mut Tree,
        epoch: u64,
        unlinking: Unlinking,
    ) -> Progress
        requires at { self.old.stage ≡ Stage.LeftNames unlinking }
        requires may { MayTidy epoch tree.old self.old }
        ensures { TidyStep epoch tree.old tree.new self.old result self.new }
    {
        tree.unlink(unlinking.node, unlinking.right);
        self.stage = Stage::LeftWritten {
            border: unlinking.border,
            left: unlinking.node,
        };
        Progress::Moved
    }

    // The border before is unlocked.
    pub(crate) fn unlock_left(
        &mut self,
        tree: &mut Tree,
        epoch: u64,
        border: NodeNo,
        left: NodeNo,
    ) -> Progress
        requires at { self.old.stage ≡ Stage.LeftWritten border left }
        requires may { MayTidy epoch tree.old self.old }
        ensures { TidyStep epoch tree.old tree.new self.old result self.new }
    {
        tree.unlock_border(left);
        self.stage = Stage::Unlinked(border);
        Progress::Moved
    }
}
