//! The row that a remove has hidden is dropped before its border is unlocked, so that it takes no memory.
//!
//! Others may still read the slot. So the border is marked first, as before a key is written into a slot that held one.

ghost use Rattle.std.specs.Prelude.{ℕ, ◌≡◌, IsSomeAnd};
ghost use Rattle.mt_commit.specs.Log.{IsLog, LogView};
ghost use Rattle.mt_write.specs.Follows.{TreeStep, MayBeAt};
ghost use Rattle.mt_write.specs.Runs.{HasForgotten, IsTrimmed, MayRun, stage_after, state};

use crate::finishing::Committed;
use crate::writing::{Stage, Write};
use mt_steps::progress::Progress;
use mt_tree::Tree;

impl Write {
    // Marks the border in which it has hidden a row. If the counter of insertions is at its greatest value, the border
    // can't be marked, and the row stays until its slot is used again.
    #[inline(never)]
    pub(crate) fn mark_hidden(&mut self, tree: &mut Tree, commit: u64) -> Progress
        requires { MayBeAt tree.old self.old (Stage.Hidden commit) }
        ensures { TreeStep tree.old tree.new self.old (Stage.Hidden commit) result self.new }
    {
        match tree.mark_inserting(self.way.node) {
            Ok(()) => {
                self.turn_to(Stage::Forgets(commit));
                Progress::Moved
            }
            Err(_) => {
                self.turn_to(Stage::Stored(commit, None));
                Progress::Moved
            }
        }
    }

    // Drops the row that it has hidden.
    #[inline(never)]
    pub(crate) fn forget_row(&mut self, tree: &mut Tree, commit: u64) -> Progress
        requires { MayBeAt tree.old self.old (Stage.Forgets commit) }
        ensures { TreeStep tree.old tree.new self.old (Stage.Forgets commit) result self.new }
    {
        tree.forget_row(self.way.node);
        self.turn_to(Stage::Stored(commit, None));
        Progress::Moved
    }

    // After a commit at its border: if that has hidden a row, makes both steps at once, and stores no stage between.
    // Returns how many steps were made.
    pub(crate) fn forget_hidden(&self, tree: &mut Tree, committed: Committed) -> u64
        requires { (C : ℕ) × (log : LogView)
            × MayRun C (state tree.old log (record self.now { stage = stage_after committed })) }
        ensures { (C : ℕ) (log : LogView) → MayRun C (state tree.old log (record self.now { stage = stage_after committed }))
            → IsTrimmed log → IsLog log → HasForgotten C tree.old tree.new log self.now committed result }
    {
        let _arena = tree.free_numbers();
        if !committed.hides {
            return 0;
        }
        let Ok(()) = tree.mark_inserting(self.way.node) else {
            let _same = tree.free_numbers();
            return 1;
        };
        let _marked = tree.free_numbers();
        tree.forget_row(self.way.node);
        let _forgotten = tree.free_numbers();
        2
    }
}
