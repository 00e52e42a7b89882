//! What an interior node names.

use mt_types::numbers::NodeNo;

/// A child of an interior node: the node, the least slice that it was posted for, and its level, 0 for a border.
#[derive(Clone, Copy, Debug, PartialEq, Eq)]
pub struct Child {
    pub low: u64,
    pub node: NodeNo,
    pub level: u8,
}

impl Default for Child {
    /// What an unused place of an interior node holds.
    fn default() -> Child {
        Child {
            low: 0,
            node: NodeNo(0),
            level: 0,
        }
    }
}
