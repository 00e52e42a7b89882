//! Whether the border of a key is empty, read of a tree in which no change is under way.

ghost use Rattle.mt_steps.specs.Lone.{IsLoneTree};
ghost use Rattle.mt_walk.specs.Emptied.{IsEmptied};

use mt_steps::way::{START, Went, rest_of};
use mt_tree::Tree;
use mt_types::key::Key;

/// Returns whether the border in which the way of `key` ends has no entry, so that a tidy there may take it out.
///
/// Costs the visit of each node on the way to the key. Allocates nothing.
pub fn is_emptied(tree: &Tree, key: &Key) -> bool
    requires lone { IsLoneTree tree.now }
    ensures { IsEmptied tree.now key.now result }
{
    let _bytes = rest_of(key, 0);
    let mut way = START;
    loop {
        match way.visit(tree, key) {
            Went::To(next) => way = next,
            Went::Here => return tree.border(way.node).len() == 0,
            Went::Again => unreachable!(),
        }
    }
}
