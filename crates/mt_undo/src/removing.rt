//! Rows are removed at once, in room that was reserved: what can't fail of a remove.

ghost use Rattle.std.specs.Prelude.{ℕ, List, [], ◌∷◌};
ghost use Rattle.mt_types.specs.declared.row.Change.{Change as ChangeView};
ghost use Rattle.mt_steps.specs.Lone.{IsLoneTree};
ghost use Rattle.mt_undo.specs.Removing.{CanRemove, HaveRemoved, Taken as TakenView};

use crate::taking::take_back;
use mt_commit::log::Log;
use mt_slice::key_bytes;
use mt_tree::Tree;
use mt_types::key::Key;
use mt_types::row::{Delta, Row};

// Removes the row of a key.
fn remove_one(tree: &mut Tree, log: &mut Log, key: Key, before: Row)
    requires lone { IsLoneTree tree.old }
    requires can { (C : ℕ) × (changes : List ChangeView) × CanRemove C changes ((key, before) ∷ []) tree.old log.old }
    ensures removed { (lone : IsLoneTree tree.old) (C : ℕ) (changes : List ChangeView)
        → CanRemove C changes ((key, before) ∷ []) tree.old log.old
        → HaveRemoved C changes ((key, before) ∷ []) lone.now log.old tree.new log.new }
{
    let _bytes = key_bytes(&key);
    let number = log.number() + 1;
    take_back(tree, &key, None);
    log.append(Delta {
        number,
        key,
        before: Some(before),
        after: None,
    });
}

/// Removes the rows of these keys, one after the other, each by a commit, whose delta is logged in room that was reserved.
/// Each key has this row, and no key is there twice. No change may be under way.
///
/// Costs the visit of each node on the way to the key, for each key. Allocates nothing, so it can't fail.
pub fn remove_all(tree: &mut Tree, log: &mut Log, taken: Vec<(Key, Row)>)
    requires lone { IsLoneTree tree.old }
    requires can { (C : ℕ) × (changes : List ChangeView) × CanRemove C changes taken.items tree.old log.old }
    ensures removed { (lone : IsLoneTree tree.old) (C : ℕ) (changes : List ChangeView)
        → CanRemove C changes taken.items tree.old log.old
        → HaveRemoved C changes taken.items lone.now log.old tree.new log.new }
{
    for (key, before) in taken {
        remove_one(tree, log, key, before);
    }
}
