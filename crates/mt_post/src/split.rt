//! The split of one full interior, which a posting meets on its way: its new half is posted first.

ghost use Rattle.std.specs.Prelude.{◌≡◌};
ghost use Rattle.mt_post.specs.Posting.{MayPost};
ghost use Rattle.mt_post.specs.Causes.{IsFullAt};
ghost use Rattle.mt_post.specs.Follows.{WaitsFor, PostStep};

use crate::posting::{LeftOutCause, PostStage, Posting, Progressed};
use mt_arena::Node;
use mt_interior::{Child, Interior, KEPT_CHILDREN};
use mt_tree::Tree;
use mt_types::limits::MAX_LEVEL;
use mt_types::numbers::NodeNo;
use mt_types::refusal::Refusal;

/// The split of a full interior.
#[derive(Clone, Copy)]
pub struct Split {
    pub interior: NodeNo,
    /// Its new half, as the child of an interior above.
    pub half: Child,
}

impl Posting {
    // At an interior that is full: it is locked, to be split, but for one of the greatest level.
    pub(crate) fn meet_full(&mut self, tree: &mut Tree, node: NodeNo) -> Progressed
        requires walks { self.old.stage ≡ PostStage.Walks node }
        requires full { IsFullAt tree.old self.old node.0 }
        requires may { MayPost tree.old self.old }
        ensures { PostStep tree.old tree.new self.old result self.new }
    {
        if tree.interior(node).level() == MAX_LEVEL {
            return self.leave_out(tree, node, LeftOutCause::Highest);
        }
        tree.lock_interior(node);
        self.stage = PostStage::HalfWanted(node);
        Progressed::Moved
    }

    // A number for the new half of the interior that is locked.
    pub(crate) fn spare_half(&mut self, tree: &mut Tree, interior: NodeNo) -> Progressed
        requires wants { self.old.stage ≡ PostStage.HalfWanted interior }
        requires may { MayPost tree.old self.old }
        ensures { PostStep tree.old tree.new self.old result self.new }
    {
        let split = tree.interior(interior);
        let (level, middle) = (split.level(), split.child(KEPT_CHILDREN));
        match tree.occupy(Node::Interior(Interior::new_locked(level, middle.low))) {
            Ok(half) => {
                self.stage = PostStage::HalfSpared { interior, half };
                Progressed::Moved
            }
            Err(refusal) => {
                self.stage = PostStage::LetGo(interior, LeftOutCause::Refused(refusal));
                Progressed::Moved
            }
        }
    }

    // The split waits from now on, and its new half is to be named; or, if out of memory, the new half is left out.
    fn wait_for(&mut self, split: Split) -> Progressed
        ensures { WaitsFor self.old split result self.new }
    {
        self.stage = match self.waiting.push(split) {
            Ok(()) => PostStage::Walks(self.head),
            Err(_) => PostStage::HalfLeftOut(split, LeftOutCause::Refused(Refusal::NoMemory)),
        };
        Progressed::Moved
    }

    // The new half gets the upper children, and is to be posted one level above.
    pub(crate) fn fill_half(
        &mut self,
        tree: &mut Tree,
        interior: NodeNo,
        half: NodeNo,
    ) -> Progressed
        requires spared { self.old.stage ≡ PostStage.HalfSpared interior half }
        requires may { MayPost tree.old self.old }
        ensures { PostStep tree.old tree.new self.old result self.new }
    {
        let split = tree.interior(interior);
        let middle = split.child(KEPT_CHILDREN);
        let upper = [
            middle,
            split.child(9),
            split.child(10),
            split.child(11),
            split.child(12),
            split.child(13),
            split.child(14),
            split.child(15),
        ];
        let level = split.level();
        tree.fill_interior(half, &upper);
        self.wait_for(Split {
            interior,
            half: Child {
                low: middle.low,
                node: half,
                level,
            },
        })
    }

    // The new half isn't posted: its number is given back.
    pub(crate) fn give_half_back(
        &mut self,
        tree: &mut Tree,
        split: Split,
        why: LeftOutCause,
    ) -> Progressed
        requires left { self.old.stage ≡ PostStage.HalfLeftOut split why }
        requires may { MayPost tree.old self.old }
        ensures { PostStep tree.old tree.new self.old result self.new }
    {
        tree.give_back(split.half.node);
        self.stage = PostStage::LetGo(split.interior, why);
        Progressed::Moved
    }

    // The interior is unlocked as it was, and what was to be named in it left out for the same cause.
    pub(crate) fn let_go(
        &mut self,
        tree: &mut Tree,
        interior: NodeNo,
        why: LeftOutCause,
    ) -> Progressed
        requires lets { self.old.stage ≡ PostStage.LetGo interior why }
        requires may { MayPost tree.old self.old }
        ensures { PostStep tree.old tree.new self.old result self.new }
    {
        tree.unlock_interior(interior);
        self.left_out(why)
    }

    // The interior keeps the first of its children, and is unlocked.
    pub(crate) fn cut(&mut self, tree: &mut Tree, split: Split) -> Progressed
        requires posted { self.old.stage ≡ PostStage.HalfPosted split }
        requires may { MayPost tree.old self.old }
        ensures { PostStep tree.old tree.new self.old result self.new }
    {
        tree.keep_first(split.interior, KEPT_CHILDREN);
        tree.unlock_interior(split.interior);
        self.stage = PostStage::HalfCut(split.half.node);
        Progressed::Moved
    }

    // The new half is unlocked, and the way of what waits below it begins again.
    pub(crate) fn unlock_half(&mut self, tree: &mut Tree, half: NodeNo) -> Progressed
        requires cut { self.old.stage ≡ PostStage.HalfCut half }
        requires may { MayPost tree.old self.old }
        ensures { PostStep tree.old tree.new self.old result self.new }
    {
        tree.unlock_interior(half);
        self.stage = PostStage::Walks(self.head);
        Progressed::Moved
    }
}
