//! What a search in a border finds.

use mt_types::numbers::NodeNo;

/// The place of an entry of some slice and class among a border's live entries, and what the entry is; or the place
/// that it would have.
#[derive(Clone, Copy, Debug, PartialEq, Eq)]
pub enum Found {
    /// No entry has this slice and class. One would be inserted at this place.
    Absent(usize),
    /// The row of the very key.
    Row(usize),
    /// The row of another key: the suffixes differ.
    OtherSuffix(usize),
    /// The next layer, and its head.
    Link(usize, NodeNo),
}
