//! A view that one thread publishes, and that other threads read without waiting; and a publisher that follows an index
//! by the deltas of its log. A function takes O(1) time unless its documentation says otherwise.
#![tactic(auto)]

pub mod carriers;
mod chain;
pub mod follow;
pub mod mark;
pub mod publisher;
pub mod reader;
pub mod rule;
pub mod shown;
