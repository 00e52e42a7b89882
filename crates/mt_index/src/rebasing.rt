//! A machine whose rows are said to be those after another number of commits.

ghost use Rattle.std.specs.Prelude.{◌≡◌, ◌≤◌};
ghost use Rattle.mt_promise.specs.History.{History};
ghost use Rattle.mt_commit.specs.Log.{newest};
ghost use Rattle.mt_index.specs.Rebase.{CanBeAfter, HasSameRows, rebased};
ghost use Rattle.mt_index.specs.Stands.{Stands};

use crate::machine::Machine;

impl Machine {
    /// Lets the rows be those after `commits` commits, whichever commits led to them: the next commit has the number after
    /// that. The machine is then at each legal history of as many commits that has these rows, if each of its calls has made
    /// one commit and has ended, and it has no views (`stands`). There must be such a history: `mt_reach` says which rows
    /// and numbers have one.
    ///
    /// The log has no deltas then, and none of an earlier commit is to be had. O(n) in the deltas that it had.
    pub fn rebase(&mut self, commits: u64)
        requires later { newest self.old.log ≤ commits }
        requires reached { CanBeAfter commits self.old }
        ensures after { self.new ≡ rebased commits self.old }
        ensures stands { (h other : History) → Stands self.old h → HasSameRows self.old.columns commits h other
            → Stands self.new other }
    {
        self.log.begin_after(commits);
        self.calls.begin_after(commits);
    }
}
