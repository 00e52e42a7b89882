//! The theory of the tree as laws: what its invariant is, what each step on a node does to it, why a scan is right
//! and a call ends.
#![tactic(auto)]

pub mod border_laws;
pub mod ending_laws;
pub mod inner_laws;
pub mod noted_laws;
pub mod scan_laws;
pub mod tree_laws;
