//! A tidy: it goes to its key's border, and begins the first rule whose signs are seen.

ghost use Rattle.std.specs.Prelude.{◌≡◌, ◌≤◌, ◌*◌, ◌-◌, ℕ, length, Some, IsSome, IsSomeAnd};
ghost use Rattle.mt_commit.specs.Log.{LogView};
ghost use Rattle.mt_arena.specs.Node.{node_at, border_at};
ghost use Rattle.mt_types.specs.declared.event.Request.TheVariants.{Tidy as TidyRequest};
ghost use Rattle.mt_steps.specs.Step.{StepLawIn, MayStepIn, nothing as nothing_held};
ghost use Rattle.mt_steps.specs.Way.{start};
ghost use Rattle.mt_steps.specs.declared.reader.Reader.TheVariants.{Begins};
ghost use Rattle.mt_remove.specs.Tidy.{tidy_request, tidy_held, TidyTruth, NewTidyIsTrue, MayTidy, IsTidied, TidyReads};
ghost use Rattle.mt_remove.specs.Follows.{AtPlace, not_noted, advanced, PlaceStep, ReadStep, TidyStep, TidyFollows, TidyWaits, TidyRetires};

use crate::noted::{NOTHING, Noted};
use crate::reading::read;
use crate::sign::{Sign, sign_of};
use crate::stage::Stage;
use mt_steps::finding::{FindReading, Finding, Sight};
use mt_steps::progress::Progress;
use mt_steps::reader::{Reader, Reading};
use mt_steps::way::{START, Way, rest_of};
use mt_tree::Tree;
use mt_types::event::{Answer, TidyRule};
use mt_types::key::Key;
use std::mem;

/// A tidy at the place at which a key would be: one change that makes the tree smaller.
#[derive(Drop)]
pub struct Tidy {
    pub key: Key,
    pub way: Way,
    /// How far it has read the border at which it is: of its key, or before the one that it unlinks.
    pub finding: Finding,
    pub stage: Stage,
}

/// Returns the end of a tidy that has done nothing.
pub fn nothing() -> Progress
    ensures { result ≡ Progress.Answered (Answer.Tidied TidyRule.Nothing) }
{
    Progress::Answered(Answer::Tidied(TidyRule::Nothing))
}

impl Tidy {
    /// Returns a tidy that begins, at the head of layer 0, with nothing noted. Allocates nothing.
    pub fn new(key: Key) -> Tidy
        ensures request { tidy_request result ≡ TidyRequest key }
        ensures has { tidy_held result ≡ nothing_held }
        ensures begins { NewTidyIsTrue result }
        ensures at_start { (result.way ≡ start) × (result.finding ≡ Begins) × (result.stage ≡ Stage.Seeks not_noted) }
    {
        Tidy {
            key,
            way: START,
            finding: Reader::Begins,
            stage: Stage::Seeks(NOTHING),
        }
    }

    // At its place: begins the first rule whose signs are seen, unless the border is locked.
    fn begin(&mut self, tree: &mut Tree, epoch: u64, noted: Noted) -> Progress
        requires border { IsSome (border_at tree.old.nodes self.old.way.node.0) }
        ensures { PlaceStep epoch tree.old tree.new self.old noted result self.new }
    {
        let node = self.way.node;
        let border = tree.border(node);
        if border.version().is_locked() {
            return nothing();
        }
        match sign_of(border.low(), &noted) {
            Sign::Nothing => nothing(),
            Sign::Empty(emptied, glance) => {
                tree.lock_border(node);
                self.stage = Stage::LooksAgain {
                    border: node,
                    head: noted.head,
                    emptied,
                    glance,
                };
                Progress::Moved
            }
            Sign::LoneChild(lone) => {
                self.stage = Stage::Lonely(lone);
                Progress::Moved
            }
        }
    }

    // Advances to another node.
    fn advance(&mut self, tree: &Tree, noted: Noted, next: Way) -> Progress
        requires { IsSome (node_at tree.now.nodes self.old.way.node.0) }
        ensures progress { result ≡ Progress.Moved }
        ensures advances { IsSomeAnd (node_at tree.now.nodes self.old.way.node.0)
            (λ node. self.new ≡ advanced self.old node next noted) }
    {
        self.stage = Stage::Seeks(noted.goes_on(tree, self.way, next));
        self.way = next;
        Progress::Moved
    }

    // Does what a reading leads to.
    fn follow(
        &mut self,
        tree: &mut Tree,
        epoch: u64,
        noted: Noted,
        reading: FindReading,
    ) -> Progress
        requires node { IsSome (node_at tree.old.nodes self.old.way.node.0) }
        requires within { 8 * self.old.way.layer ≤ length self.old.key - 1 }
        requires border { AtPlace tree.old self.old.way.node.0 reading }
        ensures { ReadStep epoch tree.old tree.new self.old noted reading result self.new }
    {
        let layer = self.way.layer;
        let _fits = rest_of(&self.key, layer);
        match reading {
            Reading::Restarts => {
                self.way = START;
                self.stage = Stage::Seeks(NOTHING);
                Progress::Waits
            }
            Reading::Repeats => {
                self.stage = Stage::Seeks(noted);
                Progress::Waits
            }
            Reading::GoesOn(finding) => {
                self.finding = finding;
                self.stage = Stage::Seeks(noted);
                Progress::Moved
            }
            Reading::To(node) => self.advance(tree, noted, Way { node, layer }),
            Reading::Finds(Sight::Link(node)) => {
                let layer = layer + 1;
                self.advance(tree, noted, Way { node, layer })
            }
            Reading::Finds(_) => self.begin(tree, epoch, noted),
        }
    }

    // On its way: reads the next field of the border at which it is, or visits the head or interior node there.
    fn seek(&mut self, tree: &mut Tree, epoch: u64, noted: Noted) -> Progress
        requires seeks { self.old.stage ≡ Stage.Seeks noted }
        requires may { MayTidy epoch tree.old self.old }
        ensures { TidyStep epoch tree.old tree.new self.old result self.new }
    {
        let finding = mem::replace(&mut self.finding, Reader::Begins);
        let noted = noted.glanced(&finding, tree, self.way.node);
        let rest = rest_of(&self.key, self.way.layer);
        let reading = read(finding, tree, self.way.node, rest);
        self.follow(tree, epoch, noted, reading)
    }

    // Takes the step that its stage asks for.
    fn go(&mut self, tree: &mut Tree, epoch: u64) -> Progress
        requires { MayTidy epoch tree.old self.old }
        ensures { TidyStep epoch tree.old tree.new self.old result self.new }
    {
        let stage = self.stage;
        match stage {
            Stage::Seeks(noted) => self.seek(tree, epoch, noted),
            Stage::LooksAgain {
                border,
                head,
                emptied,
                glance,
            } => self.look_again(tree, epoch, border, head, emptied, glance),
            Stage::LooksRight {
                border,
                head,
                emptied,
                right,
            } => self.look_right(tree, epoch, border, head, emptied, right),
            Stage::Locked {
                border,
                head,
                parent,
            } => self.drop_border(tree, epoch, border, head, parent),
            Stage::Dropped { border, head } => self.mark_border(tree, epoch, border, head),
            Stage::Marked(unlinking) => self.unlink_border(tree, epoch, unlinking),
            Stage::LeftLocked(unlinking) => self.look_left(tree, epoch, unlinking),
            Stage::LeftNames(unlinking) => self.write_left(tree, epoch, unlinking),
            Stage::LeftMissed(unlinking) => self.pass_left(tree, epoch, unlinking),
            Stage::LeftWritten { border, left } => self.unlock_left(tree, epoch, border, left),
            Stage::Unlinked(border) => self.retire_border(tree, epoch, border),
            Stage::Lonely(lone) => self.lock_lone(tree, epoch, lone),
            Stage::LoneLocked(lone) => self.bypass_lone(tree, epoch, lone),
            Stage::Bypassed { interior, rule } => self.retire_lone(tree, epoch, interior, rule),
            Stage::RootLocked(layer) => self.lock_above(tree, epoch, layer),
            Stage::AboveLocked(layer) => self.bound_above(tree, epoch, layer),
            Stage::AboveBounded(layer) => self.order_above(tree, epoch, layer),
            Stage::AboveSearched {
                layer,
                order,
                place,
                at,
            } => self.search_above(tree, epoch, layer, order, place, at),
            Stage::AboveFound { layer, slot } => self.find_above(tree, epoch, layer, slot),
            Stage::LinkFound(layer) => self.mark_head(tree, epoch, layer),
            Stage::HeadMarked(layer) => self.mark_root(tree, epoch, layer),
            Stage::RootMarked(layer) => self.hide_layer(tree, epoch, layer),
            Stage::LinkHidden(layer) => self.unlock_above(tree, epoch, layer),
            Stage::LayerGone { root, head } => self.retire_root(tree, epoch, root, head),
            Stage::RootRetired(head) => self.retire_head(tree, epoch, head),
            Stage::KeepsLayer { above, root } => self.keep_layer(tree, epoch, above, root),
            Stage::KeepsBorder(border) => self.keep_border(tree, epoch, border),
            Stage::KeepsInterior(interior) => self.keep_interior(tree, epoch, interior),
        }
    }

    /// Reads or writes one field of a border, or visits one head or interior node. The step that marks a border deleted
    /// also notes its right link. `epoch` is the present epoch. It never commits, allocates nothing and is never refused.
    ///
    /// At its place it begins the first rule whose signs are seen, unless the border is locked. It ends with `Nothing`
    /// if there are no signs. It also does so if it finds a node that another call has locked, that is marked deleted
    /// or that is no longer as it was read, before it has changed any node except by a lock. It then unlocks what
    /// it has locked. Costs at most a search of one interior node.
    pub fn step(&mut self, tree: &mut Tree, epoch: u64) -> Progress
        requires { MayStepIn epoch tree.old (TidyTruth self.old) }
        ensures request { tidy_request self.new ≡ tidy_request self.old }
        ensures steps { (C : ℕ) (log : LogView)
            → StepLawIn epoch C tree.old tree.new log log (tidy_request self.old) (tidy_held self.old) result
            (tidy_held self.new) (TidyTruth self.old) (TidyTruth self.new) }
        ensures tidied { IsTidied result }
        ensures waits { TidyWaits tree.old self.old result }
        ensures gets_on { TidyFollows tree.old self.old result self.new }
        ensures reads { TidyReads tree.old tree.new self.old }
        ensures retires { TidyRetires epoch tree.old tree.new self.old }
    {
        self.go(tree, epoch)
    }
}
