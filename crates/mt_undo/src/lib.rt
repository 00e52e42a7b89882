//! How a change of a tree is taken back.
#![tactic(auto)]

pub mod removing;
pub mod reserving;
pub mod taking;
pub mod undoing;
