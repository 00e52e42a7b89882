//! A map whose rows are in a folder, from one crash to the next: README.md describes it.
#![tactic(auto)]

pub mod laws;
pub mod life;
pub mod taking;
pub mod turn;
