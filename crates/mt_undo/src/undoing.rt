//! The last puts are undone, from the newest to the oldest.

ghost use Rattle.std.specs.Prelude.{ℕ, List, [], ◌∷◌, ◌++◌};
ghost use Rattle.mt_types.specs.declared.row.Change.{Change as ChangeView};
ghost use Rattle.mt_commit.specs.Log.{IsLog};
ghost use Rattle.mt_steps.specs.Lone.{IsLoneTree};
ghost use Rattle.mt_undo.specs.Undoing.{CanGoBack, GoesBack, HaveGoneBack};

use crate::taking::take_back;
use mt_commit::log::Log;
use mt_slice::key_bytes;
use mt_tree::Tree;

// Undoes the last put.
fn undo_last(tree: &mut Tree, log: &mut Log, commits: u64, rows: u64)
    requires lone { IsLoneTree tree.old }
    requires made { (C : ℕ) × (first puts : List ChangeView) × (last : ChangeView)
        × CanGoBack C first (puts ++ last ∷ []) commits rows tree.old log.old }
    ensures goes { (lone : IsLoneTree tree.old) (C : ℕ) (first puts : List ChangeView) (last : ChangeView)
        → CanGoBack C first (puts ++ last ∷ []) commits rows tree.old log.old
        → GoesBack C first puts commits rows lone.now log.old tree.new log.new }
{
    let delta = log.take_back(rows);
    let _bytes = key_bytes(&delta.key);
    let before = delta.before;
    take_back(tree, &delta.key, before);
}

/// Undoes the puts after the first `commits` commits: the log gives their deltas back, and each key gets the row that it
/// had before. There are `rows` rows then. The log must keep all (`Log::keep_all`), and no change may be under way.
///
/// Costs the visit of each node on the way to the key, for each put. Allocates nothing, so it can't fail.
pub fn undo(tree: &mut Tree, log: &mut Log, commits: u64, rows: u64)
    requires lone { IsLoneTree tree.old }
    requires made { (C : ℕ) × (first puts : List ChangeView)
        × CanGoBack C first puts commits rows tree.old log.old }
    ensures back { (lone : IsLoneTree tree.old) (C : ℕ) (first puts : List ChangeView)
        → CanGoBack C first puts commits rows tree.old log.old
        → HaveGoneBack C first rows lone.now log.old tree.new log.new }
    ensures sound { IsLog log.new }
{
    while log.number() > commits {
        undo_last(tree, log, commits, rows);
    }
}
