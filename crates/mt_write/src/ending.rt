//! The end of a write: the left half of the border that it has split is unlocked, and the right one posted, before its
//! border is unlocked and it answers.

ghost use Rattle.std.specs.Prelude.{◌≡◌, Some, None};
ghost use Rattle.mt_write.specs.Held.{written_answer, ending_stage};
ghost use Rattle.mt_write.specs.Follows.{TreeStep, MayBeAt};

use crate::writing::{Edit, Ending, Halves, Stage, Write};
use mt_post::{Posting, Progressed};
use mt_steps::progress::Progress;
use mt_tree::Tree;
use mt_types::event::Answer;
use mt_types::refusal::Refusal;
use std::alloc::Global;

// What a write answers that has made its commit.
pub fn written(edit: &Edit, commit: u64) -> Answer
    ensures { result ≡ written_answer edit.now commit }
{
    match edit {
        Edit::Put { .. } => Answer::Stored(commit),
        Edit::Remove => Answer::Removed(commit),
    }
}

// The stage from which a write ends so, which has one border locked.
fn ended(ending: Ending) -> Stage
    ensures { result ≡ ending_stage ending None }
{
    match ending {
        Ending::Stored(commit) => Stage::Stored(commit, None),
        Ending::Failed(refusal) => Stage::Failed(refusal, None),
    }
}

impl Write {
    // Unlocks the left half of the border that it has split, and is to post the other.
    #[inline(never)]
    fn unlock_left(
        &mut self,
        alloc: Global,
        tree: &mut Tree,
        split: Halves,
        ending: Ending,
    ) -> Progress
        requires { MayBeAt tree.old self.old (ending_stage ending (Some split)) }
        ensures { TreeStep tree.old tree.new self.old (ending_stage ending (Some split)) result self.new }
    {
        let low = tree.border(split.half).low();
        tree.unlock_border(split.left);
        self.way.node = split.half;
        let begun = Posting::new(alloc, self.head, split.half, low);
        self.turn_to(Stage::Posts(begun, ending));
        Progress::Moved
    }

    // A step of the posting of the right half. When that has ended, its border alone is left to unlock.
    #[inline(never)]
    pub(crate) fn post(&mut self, tree: &mut Tree, posting: Posting, ending: Ending) -> Progress
        requires { MayBeAt tree.old self.old (Stage.Posts posting ending) }
        ensures { TreeStep tree.old tree.new self.old (Stage.Posts posting ending) result self.new }
    {
        let mut posting = posting;
        match posting.step(tree) {
            Progressed::Moved => {
                self.turn_to(Stage::Posts(posting, ending));
                Progress::Moved
            }
            Progressed::Waits => {
                self.turn_to(Stage::Posts(posting, ending));
                Progress::Waits
            }
            Progressed::Ended(_) => {
                self.turn_to(ended(ending));
                Progress::Moved
            }
        }
    }

    // Unlocks its border, and answers with its commit; or, if its border was split, begins to post the right half.
    pub(crate) fn end_stored(
        &mut self,
        alloc: Global,
        tree: &mut Tree,
        commit: u64,
        split: Option<Halves>,
    ) -> Progress
        requires may { MayBeAt tree.old self.old (Stage.Stored commit split) }
        requires idle { self.old.stage ≡ Stage.Seeks }
        ensures { TreeStep tree.old tree.new self.old (Stage.Stored commit split) result self.new }
    {
        let Some(split) = split else {
            tree.unlock_border(self.way.node);
            return Progress::Answered(written(&self.edit, commit));
        };
        self.unlock_left(alloc, tree, split, Ending::Stored(commit))
    }

    // Unlocks its border, and is refused; a border that it has split stays split, so its right half is posted first.
    #[inline(never)]
    pub(crate) fn end_failed(
        &mut self,
        alloc: Global,
        tree: &mut Tree,
        refusal: Refusal,
        split: Option<Halves>,
    ) -> Progress
        requires { MayBeAt tree.old self.old (Stage.Failed refusal split) }
        ensures { TreeStep tree.old tree.new self.old (Stage.Failed refusal split) result self.new }
    {
        let Some(split) = split else {
            tree.unlock_border(self.way.node);
            return Progress::Refused(refusal);
        };
        self.unlock_left(alloc, tree, split, Ending::Failed(refusal))
    }
}
