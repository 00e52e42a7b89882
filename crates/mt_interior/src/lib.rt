//! Interior nodes, which lead a search to the borders of a layer, and heads, which name its root.
#![tactic(auto)]

mod child;
mod head;
mod interior;

pub use child::Child;
pub use head::Head;
pub use interior::{Interior, KEPT_CHILDREN, MAX_CHILDREN};
