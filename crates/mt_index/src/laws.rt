//! Laws of the log of a machine, at each history. Each function does nothing: its contract is the law.

ghost use Rattle.mt_index.specs.Laws.{LogTellsThePast, LogFits, EachCommitIsLogged};

/// The log determines the rows after each earlier commit that it reaches: the last `k` of its deltas, undone from the
/// newest to the oldest, lead from the present rows to those after all commits but the last `k`. Each of them finds its
/// row after the commit.
pub fn log_tells_the_past()
    ensures rows { LogTellsThePast }
    ensures fits { LogFits }
{}

/// The log has a delta for each commit that it reaches, under the number of the commit: the key, the row that it had
/// after the commits before, and the row that it had after this one. Redone, the delta leads from the rows before the
/// commit to those after it.
pub fn each_commit_is_logged()
    ensures { EachCommitIsLogged }
{}
