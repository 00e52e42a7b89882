//! A collection: it frees retired nodes at which no open call can be.

ghost use Rattle.std.specs.Prelude.{◌≡◌, ◌+◌};
ghost use Rattle.mt_steps.specs.Collecting.{IsCollected, CollectLaw};

use mt_tree::Tree;
use mt_types::limits::MAX_NODES;

/// Frees the nodes that were retired in this epoch or before, and returns how many (Masstree, EuroSys 2012, section
/// 4.6.1).
/// If each open call began in a later epoch, no call can be at one of them. O(n) in those that are freed.
pub fn collect(tree: &mut Tree, upto: u64) -> u32
    ensures exactly { IsCollected tree.old tree.new (upto + 1) result }
    ensures keeps { CollectLaw tree.old tree.new (upto + 1) }
{
    let _sound = tree.free_numbers();
    for freed in 0..MAX_NODES {
        let _here = tree.free_numbers();
        let Some(first) = tree.first_retired() else {
            return freed;
        };
        if first.epoch > upto {
            return freed;
        }
        tree.free_first_retired();
    }
    MAX_NODES
}
