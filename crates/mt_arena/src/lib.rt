//! The arena: each node of the tree under its number, and the numbers of those that are retired.
#![tactic(auto)]

mod arena;
mod node;
mod part;
mod retired;

pub use arena::Arena;
pub use node::Node;
pub use part::{Field, Part};
pub use retired::Retired;
