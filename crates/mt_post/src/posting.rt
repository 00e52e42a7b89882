//! A posting: on its way to the interior that is to name the border, or to a new root.

ghost use Rattle.std.specs.Prelude.{◌≡◌, ℕ, [], IsSome};
ghost use Rattle.mt_arena.specs.Node.{head_at, interior_at};
ghost use Rattle.mt_arena.specs.Arena.{IsArena};
ghost use Rattle.mt_post.specs.Posting.{PostLaw, MayPost, NewPostingIsTrue, goal};
ghost use Rattle.mt_post.specs.Causes.{PostWaits, PostEnds, CanLeaveOut, RefusesSpare, HasRoomAt, IsRootStill};
ghost use Rattle.mt_post.specs.Follows.{LeavesOut, PostFollows, NumbersFollow, HeadsFollow, MarksNone, PostStep};
ghost use Rattle.mt_post.specs.Ending.{GetsNearer};
ghost use Rattle.mt_post.specs.Alone.{LoneStep};

use crate::split::Split;
use crate::waiting::Waiting;
use mt_arena::Node;
use mt_interior::{Child, Interior};
use mt_tree::Tree;
use mt_types::numbers::NodeNo;
use mt_types::refusal::Refusal;
use std::alloc::Global;

/// The root of a layer's tree, and its level.
#[derive(Clone, Copy)]
pub struct Root {
    pub node: NodeNo,
    pub level: u8,
}

/// Why what is to be named is left out.
#[derive(Clone, Copy)]
pub enum LeftOutCause {
    /// The layer's head is marked deleted.
    HeadDeleted,
    /// The interior that is to name it is full, and of the greatest level.
    Highest,
    /// No number could be occupied for a new root or a new half, or memory ran out.
    Refused(Refusal),
}

/// How a posting has ended.
#[derive(Clone, Copy)]
pub enum PostEnd {
    /// An interior above names the border.
    Posted,
    /// None does, for this cause: it is found by the right link alone.
    LeftOut(LeftOutCause),
}

/// How far a posting is.
#[derive(Clone, Copy)]
pub enum PostStage {
    /// It is on its way, at a node.
    Walks(NodeNo),
    /// No root is above what is to be named: a new one is needed above this one.
    RootWanted(Root),
    /// A number is occupied for the new root.
    RootSpared { old: Root, root: NodeNo },
    /// The new root has its two children, and is to be named.
    RootFilled { old: Root, root: NodeNo },
    /// The head is marked deleted, or names another root by now: this number is to be given back.
    RootLate(NodeNo),
    /// It has locked a full interior, which is to be split.
    HalfWanted(NodeNo),
    /// A number is occupied for the interior's new half.
    HalfSpared { interior: NodeNo, half: NodeNo },
    /// The new half is left out, for this cause: its number is to be given back.
    HalfLeftOut(Split, LeftOutCause),
    /// The interior is to be unlocked, and what was to be named in it is to be left out, for this cause.
    LetGo(NodeNo, LeftOutCause),
    /// The new half is named: the interior is to keep the first of its children.
    HalfPosted(Split),
    /// The new half is to be unlocked.
    HalfCut(NodeNo),
}

/// What a step of a posting comes to.
#[derive(Clone, Copy)]
pub enum Progressed {
    /// It advances.
    Moved,
    /// It begins its way again.
    Waits,
    /// It has ended.
    Ended(PostEnd),
}

/// The posting of a border that was split off another, by the call that has locked it.
#[derive(Drop)]
pub struct Posting {
    /// The head of the layer.
    pub head: NodeNo,
    /// The border that is to be posted.
    pub half: NodeNo,
    /// Its low.
    pub low: u64,
    /// The interiors that it splits, whose new halves are to be posted first.
    pub waiting: Waiting,
    pub stage: PostStage,
}

impl Posting {
    /// Returns the posting of the border `half`, whose low is `low`, in the layer of `head`. Allocates nothing.
    pub fn new(alloc: Global, head: NodeNo, half: NodeNo, low: u64) -> Posting
        ensures head { result.head ≡ head }
        ensures half { result.half ≡ half }
        ensures low { result.low ≡ low }
        ensures idle { result.waiting ≡ [] }
        ensures walks { result.stage ≡ PostStage.Walks head }
        ensures begins { NewPostingIsTrue result }
    {
        Posting {
            head,
            half,
            low,
            waiting: Waiting::new(alloc),
            stage: PostStage::Walks(head),
        }
    }

    // What is to be named: the newest of the new halves that wait, or else the border.
    fn goal(&self) -> Child
        ensures { result ≡ goal self.now.half self.now.low self.now.waiting }
    {
        match self.waiting.newest() {
            None => Child {
                low: self.low,
                node: self.half,
                level: 0,
            },
            Some(split) => split.half,
        }
    }

    // What is to be named is left out for a cause: the newest of the new halves that wait, or else the border.
    pub(crate) fn left_out(&mut self, why: LeftOutCause) -> Progressed
        ensures { LeavesOut self.old why result self.new }
    {
        let Some(split) = self.waiting.pop() else {
            return Progressed::Ended(PostEnd::LeftOut(why));
        };
        self.stage = PostStage::HalfLeftOut(split, why);
        Progressed::Moved
    }

    // What is to be named is left out at a node where it may be: a head that is marked deleted, or a full interior of
    // the greatest level.
    pub(crate) fn leave_out(&mut self, tree: &Tree, node: NodeNo, why: LeftOutCause) -> Progressed
        requires walks { self.old.stage ≡ PostStage.Walks node }
        requires cause { CanLeaveOut tree.now self.old node.0 why }
        requires may { MayPost tree.now self.old }
        ensures { PostStep tree.now tree.now self.old result self.new }
    {
        self.left_out(why)
    }

    // At a head: goes to the root, if that is above what is to be named; otherwise a new root is needed.
    fn visit_head(&mut self, tree: &Tree, node: NodeNo) -> Progressed
        requires walks { self.old.stage ≡ PostStage.Walks node }
        requires head { IsSome (head_at tree.now.nodes node.0) }
        requires may { MayPost tree.now self.old }
        ensures { PostStep tree.now tree.now self.old result self.new }
    {
        let head = tree.head(node);
        if head.version().deleted() {
            return self.leave_out(tree, node, LeftOutCause::HeadDeleted);
        }
        let goal = self.goal();
        let (root, level) = (head.root(), head.level());
        if level <= goal.level {
            self.stage = PostStage::RootWanted(Root { node: root, level });
            return Progressed::Moved;
        }
        self.stage = PostStage::Walks(root);
        Progressed::Moved
    }

    // An interior that has room names what is to be named.
    fn name_in(&mut self, tree: &mut Tree, node: NodeNo) -> Progressed
        requires walks { self.old.stage ≡ PostStage.Walks node }
        requires room { HasRoomAt tree.old self.old node.0 }
        requires may { MayPost tree.old self.old }
        ensures { PostStep tree.old tree.new self.old result self.new }
    {
        let Some(split) = self.waiting.pop() else {
            tree.post_border(node, self.half);
            return Progressed::Ended(PostEnd::Posted);
        };
        tree.post_half(node, split.half.node);
        self.stage = PostStage::HalfPosted(split);
        Progressed::Moved
    }

    // At an interior: to the child for the low of what is to be named, or it comes to name it.
    fn visit_interior(&mut self, tree: &mut Tree, node: NodeNo) -> Progressed
        requires walks { self.old.stage ≡ PostStage.Walks node }
        requires interior { IsSome (interior_at tree.old.nodes node.0) }
        requires may { MayPost tree.old self.old }
        ensures { PostStep tree.old tree.new self.old result self.new }
    {
        let interior = tree.interior(node);
        if interior.version().deleted() {
            self.stage = PostStage::Walks(self.head);
            return Progressed::Waits;
        }
        if interior.version().is_locked() {
            self.stage = PostStage::Walks(self.head);
            return Progressed::Waits;
        }
        let goal = self.goal();
        let child = interior.child(interior.child_for(goal.low));
        if child.level > goal.level {
            self.stage = PostStage::Walks(child.node);
            return Progressed::Moved;
        }
        if interior.is_full() {
            return self.meet_full(tree, node);
        }
        self.name_in(tree, node)
    }

    // On its way.
    fn visit(&mut self, tree: &mut Tree, node: NodeNo) -> Progressed
        requires walks { self.old.stage ≡ PostStage.Walks node }
        requires may { MayPost tree.old self.old }
        ensures { PostStep tree.old tree.new self.old result self.new }
    {
        match tree.node(node) {
            Node::Head(_) => self.visit_head(tree, node),
            Node::Interior(_) => self.visit_interior(tree, node),
            Node::Border(_) => unreachable!(),
        }
    }

    // What is to be named is left out, because there is no number for a new root.
    fn leave_out_root(&mut self, tree: &Tree, old: Root, refusal: Refusal) -> Progressed
        requires wants { self.old.stage ≡ PostStage.RootWanted old }
        requires refused { RefusesSpare tree.now refusal }
        requires may { MayPost tree.now self.old }
        ensures { PostStep tree.now tree.now self.old result self.new }
    {
        self.left_out(LeftOutCause::Refused(refusal))
    }

    // A number for the new root.
    fn spare_root(&mut self, tree: &mut Tree, old: Root) -> Progressed
        requires wants { self.old.stage ≡ PostStage.RootWanted old }
        requires may { MayPost tree.old self.old }
        ensures { PostStep tree.old tree.new self.old result self.new }
    {
        let goal = self.goal();
        match tree.occupy(Node::Interior(Interior::new_locked(goal.level + 1, 0))) {
            Ok(root) => {
                self.stage = PostStage::RootSpared { old, root };
                Progressed::Moved
            }
            Err(refusal) => self.leave_out_root(tree, old, refusal),
        }
    }

    // The new root has its two children, and is unlocked.
    fn fill_root(&mut self, tree: &mut Tree, old: Root, root: NodeNo) -> Progressed
        requires spared { self.old.stage ≡ PostStage.RootSpared old root }
        requires may { MayPost tree.old self.old }
        ensures { PostStep tree.old tree.new self.old result self.new }
    {
        let first = Child {
            low: 0,
            node: old.node,
            level: old.level,
        };
        tree.fill_interior(root, &[first, self.goal()]);
        tree.unlock_interior(root);
        self.stage = PostStage::RootFilled { old, root };
        Progressed::Moved
    }

    // The head, whose root is the old one, names the new root.
    fn name_over(&mut self, tree: &mut Tree, old: Root, root: NodeNo) -> Progressed
        requires filled { self.old.stage ≡ PostStage.RootFilled old root }
        requires still { IsRootStill tree.old self.old.head.0 old }
        requires arena { IsArena tree.old }
        requires may { MayPost tree.old self.old }
        ensures { PostStep tree.old tree.new self.old result self.new }
    {
        let Some(split) = self.waiting.pop() else {
            tree.name_root(self.head, root);
            return Progressed::Ended(PostEnd::Posted);
        };
        tree.name_root_over_half(self.head, root);
        self.stage = PostStage::HalfPosted(split);
        Progressed::Moved
    }

    // The head names the new root, if it isn't marked deleted and its root is still the old one.
    fn name_root(&mut self, tree: &mut Tree, old: Root, root: NodeNo) -> Progressed
        requires filled { self.old.stage ≡ PostStage.RootFilled old root }
        requires may { MayPost tree.old self.old }
        ensures { PostStep tree.old tree.new self.old result self.new }
    {
        let head = tree.head(self.head);
        let (deleted, there) = (head.version().deleted(), head.root());
        if deleted || there.0 != old.node.0 || head.level() != old.level {
            self.stage = PostStage::RootLate(root);
            return Progressed::Moved;
        }
        self.name_over(tree, old, root)
    }

    // The new root came too late: its number is given back, and the posting begins its way again.
    fn give_back(&mut self, tree: &mut Tree, root: NodeNo) -> Progressed
        requires late { self.old.stage ≡ PostStage.RootLate root }
        requires may { MayPost tree.old self.old }
        ensures { PostStep tree.old tree.new self.old result self.new }
    {
        tree.give_back(root);
        self.stage = PostStage::Walks(self.head);
        Progressed::Moved
    }

    // Takes the step that its stage asks for.
    fn go(&mut self, tree: &mut Tree) -> Progressed
        requires { MayPost tree.old self.old }
        ensures { PostStep tree.old tree.new self.old result self.new }
    {
        match self.stage {
            PostStage::Walks(node) => self.visit(tree, node),
            PostStage::RootWanted(old) => self.spare_root(tree, old),
            PostStage::RootSpared { old, root } => self.fill_root(tree, old, root),
            PostStage::RootFilled { old, root } => self.name_root(tree, old, root),
            PostStage::RootLate(root) => self.give_back(tree, root),
            PostStage::HalfWanted(interior) => self.spare_half(tree, interior),
            PostStage::HalfSpared { interior, half } => self.fill_half(tree, interior, half),
            PostStage::HalfLeftOut(split, why) => self.give_half_back(tree, split, why),
            PostStage::LetGo(interior, why) => self.let_go(tree, interior, why),
            PostStage::HalfPosted(split) => self.cut(tree, split),
            PostStage::HalfCut(half) => self.unlock_half(tree, half),
        }
    }

    /// Visits one node. Constant cost, except for one search among the children of an interior.
    pub fn step(&mut self, tree: &mut Tree) -> Progressed
        requires { MayPost tree.old self.old }
        ensures same { self.new ≡ record self.old { waiting = self.new.waiting; stage = self.new.stage } }
        ensures steps { PostLaw tree.old tree.new self.old result self.new }
        ensures waits { PostWaits tree.old self.old result }
        ensures ends { PostEnds tree.old tree.new self.old result }
        ensures gets_on { PostFollows tree.old self.old result self.new }
        ensures numbers { NumbersFollow tree.old self.old result tree.new self.new }
        ensures heads { HeadsFollow tree.old self.old tree.new }
        ensures marks { MarksNone tree.old tree.new }
        ensures nearer { GetsNearer tree.old tree.new self.old result self.new }
        ensures alone { LoneStep tree.old tree.new self.old result self.new }
    {
        self.go(tree)
    }
}
