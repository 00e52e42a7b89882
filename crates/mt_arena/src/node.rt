//! What a number names.

use mt_border::Border;
use mt_interior::{Head, Interior};

/// A node of the tree: the head of a layer, an interior node or a border. A number names a node of one kind until it is
/// freed.
#[derive(Drop)]
pub enum Node {
    Head(Head),
    Interior(Interior),
    Border(Border),
}
