//! The posting of the right half of a border that was split: an interior above it, or a new root, comes to name it.
#![tactic(auto)]

pub mod laws;
mod posting;
mod split;
mod waiting;

pub use posting::{LeftOutCause, PostEnd, PostStage, Posting, Progressed, Root};
pub use split::Split;
pub use waiting::Waiting;
