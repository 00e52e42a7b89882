//! A put or a remove: it goes to its key's border, locks and reads it, makes ready there, commits, and unlocks it.

ghost use Rattle.std.specs.Prelude.{◌≡◌, ◌≢◌, ◌⊎◌, ◌↔◌, None, IsTrue};
ghost use Rattle.std.specs.Option.{IfSome};
ghost use Rattle.mt_steps.specs.Step.{StepLaw, MayStep};
ghost use Rattle.mt_steps.specs.Way.{start};
ghost use Rattle.mt_steps.specs.declared.way.Way.{Way as WayView};
ghost use Rattle.mt_write.specs.Held.{write_request, write_held};
ghost use Rattle.mt_write.specs.Writing.{WriteIsTrue};
ghost use Rattle.mt_write.specs.Causes.{WriteWaits, WriteFails};
ghost use Rattle.mt_write.specs.Runs.{commits_in};
ghost use Rattle.mt_write.specs.Follows.{WriteStep, TreeStep, MayBeAt, MayLock, WriteFollows, HeadFollows, PostsFollow, DropsFollow};

use mt_arena::Node;
use mt_border::{Entry, RightLink, SlotKey};
use mt_commit::log::Log;
use mt_post::Posting;
use mt_steps::entering::{Entering, Outline, There};
use mt_steps::progress::Progress;
use mt_steps::way::{START, Way, Went};
use mt_tree::Tree;
use mt_types::items::Items;
use mt_types::key::Key;
use mt_types::numbers::NodeNo;
use mt_types::refusal::Refusal;
use mt_types::row::{Columns, Row, Sets};
use std::alloc::Global;
use std::mem;

/// What a write does to the row of its key.
#[derive(Drop)]
pub enum Edit {
    /// It sets columns to new bytes. If `only` is a version, it does so only if the row is of that version (0: no row).
    Put { sets: Sets, only: Option<u64> },
    /// It removes the row.
    Remove,
}

/// The two halves of a border that a write has split.
#[derive(Clone, Copy)]
pub struct Halves {
    pub left: NodeNo,
    pub half: NodeNo,
}

/// A layer that a put makes below the entry at a place of its border: its head, and the border that is its root.
#[derive(Clone, Copy)]
pub struct Layer {
    pub place: usize,
    pub head: NodeNo,
    pub root: NodeNo,
}

/// A new row that is to be shown at a place, and what its commit needs.
#[derive(Drop)]
pub struct Insertion {
    pub place: usize,
    pub key: Key,
    /// The row's columns once more, for the log.
    pub logged: Columns,
    pub split: Option<Halves>,
}

/// What a write is to answer, once its border is unlocked.
#[derive(Clone, Copy)]
pub enum Ending {
    /// The commit of this number.
    Stored(u64),
    /// It is refused.
    Failed(Refusal),
}

/// How far a write is.
#[derive(Drop)]
pub enum Stage {
    /// It is on its way.
    Seeks,
    /// It has locked a border on its way, and reads it, one field a step.
    Enters(Entering),
    /// The slice of its key is in this border, to the right of the one that it has locked, or beyond.
    Rightward(NodeNo),
    /// It has read its key's border, and has found this there.
    Searched(There),
    /// The border is full. A border is spared for its upper half, whose entries are copied from the cut on, one value a
    /// step. The new key's place is among all entries.
    Copies {
        half: NodeNo,
        cut: usize,
        place: usize,
        outline: Outline,
        entries: Items<Entry>,
    },
    /// A value of the upper half could not be copied, out of memory. The spared border is to be given back.
    GivesBack(NodeNo),
    /// The entries of the upper half are copied, and what is to the right of the border was read.
    Spared {
        half: NodeNo,
        cut: usize,
        place: usize,
        right: Option<RightLink>,
        entries: Items<Entry>,
    },
    /// The half has the entries from the cut on.
    HalfFilled {
        half: NodeNo,
        cut: usize,
        place: usize,
    },
    /// The border names the half to its right. Its order, as others read it, is to be cut.
    HalfLinked {
        half: NodeNo,
        cut: usize,
        place: usize,
    },
    /// The border is split, and its key belongs to the half at which it is, at this place.
    Halved(Halves, usize),
    /// The right half of the border that it has split is posted in the interiors above.
    Posts(Posting, Ending),
    /// Another key has the slice of its key. A head and a border are spared for a layer, and the other key's entry
    /// there is made.
    LayerSpared {
        layer: Layer,
        entries: Items<Entry>,
    },
    /// The layer's root has the other key's entry.
    LayerFilled(Layer),
    /// The other key is to be marked unstable.
    LayerReady(Layer),
    /// It is marked, and the layer is to be linked.
    LayerMarked(Layer),
    /// The layer of this head is linked, and the other key is to be marked as a layer's.
    LayerLinked(NodeNo),
    /// The layer of this head is linked, and the call is to continue there.
    Layered(NodeNo),
    /// The key and the row are made that the first unused slot is to have.
    Reserved(Insertion, SlotKey, Row),
    /// The first unused slot has its key, and the value that it had. The row is to be written there.
    KeyWritten(Insertion, Row),
    /// Its row is in the first unused slot, to be shown at a place.
    Filled {
        place: usize,
        key: Key,
        /// The row's columns once more, for the log.
        logged: Columns,
        split: Option<Halves>,
    },
    /// The columns are made that the row at a place is to have.
    Made {
        place: usize,
        key: Key,
        columns: Columns,
        /// The same columns, for the log.
        logged: Columns,
    },
    /// The row at a place is to be removed.
    Taken {
        place: usize,
        key: Key,
        /// A copy of the row, for the log.
        before: Row,
    },
    /// It has made the commit of this number.
    Stored(u64, Option<Halves>),
    /// It has hidden its row by the commit of this number. Its border is to be marked, so that the row may be dropped.
    Hidden(u64),
    /// Its border is marked. The row is to be dropped that it has hidden by the commit of this number.
    Forgets(u64),
    /// It is to end refused.
    Failed(Refusal, Option<Halves>),
}

/// A put or a remove of a key's row.
#[derive(Drop)]
pub struct Write {
    pub key: Key,
    pub edit: Edit,
    pub way: Way,
    /// The head of the layer in which it is.
    pub head: NodeNo,
    pub stage: Stage,
}

// Returns the head of the layer to which a way leads.
fn head_after(head: NodeNo, way: Way, next: Way) -> NodeNo
    ensures { ((next.layer ≡ way.layer) × (result ≡ head)) ⊎ ((next.layer ≢ way.layer) × (result ≡ next.node)) }
{
    if next.layer == way.layer {
        head
    } else {
        next.node
    }
}

impl Write {
    // Goes to a stage, and drops the one at which it was. Only here, because the proof of a drop is long.
    pub(crate) fn turn_to(&mut self, stage: Stage)
        ensures { self.new ≡ record self.old { stage = stage } }
    {
        self.stage = stage;
    }

    // Whether it is on its way.
    pub(crate) fn is_seeking(&self) -> bool
        ensures { IsTrue result ↔ (self.now.stage ≡ Stage.Seeks) }
    {
        matches!(self.stage, Stage::Seeks)
    }

    // Visits the node at which it is, unless that is a border that it may lock. At a border it looks at the version alone.
    pub(crate) fn visit(&mut self, tree: &Tree) -> Option<Progress>
        requires may { MayBeAt tree.now self.old Stage.Seeks }
        requires idle { self.old.stage ≡ Stage.Seeks }
        ensures visits { IfSome result (λ progress. TreeStep tree.now tree.now self.old Stage.Seeks progress self.new) }
        ensures quiet { IfSome result (λ progress. commits_in progress ≡ 0) }
        ensures at { result ≡ None → MayLock tree.now self.old.way.node.0 × (self.new ≡ self.old) }
    {
        let Node::Border(border) = tree.node(self.way.node) else {
            let went = self.way.visit(tree, &self.key);
            return Some(self.follow(went));
        };
        let version = border.version();
        if version.deleted() {
            return Some(self.follow(Went::Again));
        }
        if version.is_locked() {
            return Some(Progress::Waits);
        }
        None
    }

    // On its way: visits a head or an interior node, or locks a border, whether its key is there or not.
    fn seek(&mut self, tree: &mut Tree) -> Progress
        requires may { MayBeAt tree.old self.old Stage.Seeks }
        requires idle { self.old.stage ≡ Stage.Seeks }
        ensures { TreeStep tree.old tree.new self.old Stage.Seeks result self.new }
    {
        if let Some(progress) = self.visit(tree) {
            return progress;
        }
        tree.lock_border(self.way.node);
        self.turn_to(Stage::Enters(Entering::Locked));
        Progress::Moved
    }

    // Continues where a visit on its way leads.
    pub(crate) fn follow(&mut self, went: Went) -> Progress
        requires { went ≢ Went.Here }
        ensures again { went ≡ Went.Again → (result ≡ Progress.Waits)
            × (self.new ≡ record self.old { way = start; head = start.node }) }
        ensures to { (next : WayView) → went ≡ Went.To next → (result ≡ Progress.Moved)
            × (self.new ≡ record self.old { way = next; head = self.new.head })
            × (((next.layer ≡ self.old.way.layer) × (self.new.head ≡ self.old.head))
            ⊎ ((next.layer ≢ self.old.way.layer) × (self.new.head ≡ next.node))) }
        ensures quiet { commits_in result ≡ 0 }
    {
        match went {
            Went::Again => {
                self.way = START;
                self.head = START.node;
                Progress::Waits
            }
            Went::To(next) => {
                self.head = head_after(self.head, self.way, next);
                self.way = next;
                Progress::Moved
            }
            Went::Here => unreachable!(),
        }
    }

    // At each stage, which it takes out of the write: the stage's function puts the next one in.
    pub(crate) fn go(
        &mut self,
        alloc: Global,
        columns: u8,
        tree: &mut Tree,
        log: &mut Log,
    ) -> Progress
        requires { MayStep tree.old log.old (write_held self.old) (WriteIsTrue columns self.old) }
        ensures { WriteStep columns tree.old tree.new log.old log.new self.old self.old.stage result self.new }
    {
        // Most steps are of this stage, which needn't be taken out.
        if self.is_seeking() {
            return self.seek(tree);
        }
        match mem::replace(&mut self.stage, Stage::Seeks) {
            Stage::Seeks => self.seek(tree),
            Stage::Enters(entering) => self.enter(alloc, tree, entering),
            Stage::Rightward(next) => self.go_right(tree, next),
            Stage::Searched(there) => self.make_ready(alloc, columns, tree, log, there),
            Stage::Copies {
                half,
                cut,
                place,
                outline,
                entries,
            } => self.copy_value(alloc, tree, half, cut, place, outline, entries),
            Stage::GivesBack(half) => self.give_back(tree, half),
            Stage::Spared {
                half,
                cut,
                place,
                right,
                entries,
            } => self.fill_spared(tree, half, cut, place, right, entries),
            Stage::HalfFilled { half, cut, place } => self.link(tree, half, cut, place),
            Stage::HalfLinked { half, cut, place } => self.cut(tree, half, cut, place),
            Stage::Halved(split, place) => {
                self.reserve_in_half(alloc, columns, tree, log, split, place)
            }
            Stage::Posts(posting, ending) => self.post(tree, posting, ending),
            Stage::LayerSpared { layer, entries } => self.fill_root(tree, layer, entries),
            Stage::LayerFilled(layer) => self.unlock_head(tree, layer),
            Stage::LayerReady(layer) => self.mark_unstable(tree, layer),
            Stage::LayerMarked(layer) => self.link_layer(tree, layer),
            Stage::LayerLinked(head) => self.mark_layer(tree, head),
            Stage::Layered(head) => self.go_below(tree, head),
            Stage::Reserved(new, slot_key, row) => self.write_key(tree, new, slot_key, row),
            Stage::KeyWritten(new, row) => self.write_value(tree, new, row),
            Stage::Filled {
                place,
                key,
                logged,
                split,
            } => self.show_row(tree, log, place, key, logged, split),
            Stage::Made {
                place,
                key,
                columns,
                logged,
            } => self.write_row(tree, log, place, key, columns, logged),
            Stage::Taken { place, key, before } => self.hide_row(tree, log, place, key, before),
            Stage::Stored(commit, split) => self.end_stored(alloc, tree, commit, split),
            Stage::Hidden(commit) => self.mark_hidden(tree, commit),
            Stage::Forgets(commit) => self.forget_row(tree, commit),
            Stage::Failed(refusal, split) => self.end_failed(alloc, tree, refusal, split),
        }
    }

    /// Visits one node, as its stage requires, and goes to the next stage.
    pub fn step(&mut self, alloc: Global, columns: u8, tree: &mut Tree, log: &mut Log) -> Progress
        requires { MayStep tree.old log.old (write_held self.old) (WriteIsTrue columns self.old) }
        ensures request { write_request self.new ≡ write_request self.old }
        ensures steps { StepLaw columns tree.old tree.new log.old log.new (write_request self.old) (write_held self.old)
            result (write_held self.new) (WriteIsTrue columns self.old) (WriteIsTrue columns self.new) }
        ensures waits { WriteWaits tree.old self.old result }
        ensures fails { WriteFails tree.old log.old self.old result self.new }
        ensures gets_on { WriteFollows tree.old self.old result self.new }
        ensures head { HeadFollows self.old result self.new }
        ensures posts { PostsFollow tree.old tree.new self.old result self.new }
        ensures drops { DropsFollow tree.old tree.new self.old }
    {
        self.go(alloc, columns, tree, log)
    }
}
