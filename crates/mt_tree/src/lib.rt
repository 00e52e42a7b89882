//! The tree of nodes: one call for each change of a node, and what each keeps of the whole tree.
#![tactic(auto)]

mod border_changes;
mod descent;
mod head_changes;
mod interior_changes;
pub mod laws;
mod layer_changes;
mod spares;
mod split_changes;
mod tree;
mod visit;

pub use descent::{arrive, find, visit_head, visit_interior, visit_node};
pub use tree::{TOP, Tree};
pub use visit::Visit;
