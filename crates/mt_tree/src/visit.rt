//! What a descent sees at a node.

use mt_types::numbers::NodeNo;

/// The step of a descent to a key from a node that it visits.
#[derive(Clone, Copy)]
pub enum Visit {
    /// The node is marked deleted: it begins again, at the head of layer 0.
    Again,
    /// To this node of the same layer.
    To(NodeNo),
    /// To this head, of the layer below.
    Below(NodeNo),
    /// It has come to the border that has the key's entry, if there is one.
    Here,
}
