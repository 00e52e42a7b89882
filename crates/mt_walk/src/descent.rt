//! The way down a layer to the border of a slice, in a tree in which no change is under way.

ghost use Rattle.mt_walk.specs.Descent.{MaySeek, SeeksBorder};

use mt_steps::ranging::seek;
use mt_tree::{Tree, Visit};
use mt_types::numbers::NodeNo;

/// Returns the border in whose interval a slice is, down from a node of the layer. Costs the visit of each node on the
/// way.
pub(crate) fn border_for(tree: &Tree, from: NodeNo, slice: u64) -> NodeNo
    requires { MaySeek tree.now from.0 slice }
    ensures { SeeksBorder tree.now from.0 slice result.0 }
{
    let mut node = from;
    loop {
        match seek(tree, node, slice) {
            Visit::To(next) => node = next,
            Visit::Here => return node,
            Visit::Again => unreachable!(),
            Visit::Below(_) => unreachable!(),
        }
    }
}
