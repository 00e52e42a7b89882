//! Batches: several changes as one, under conditions. README.md describes them.
#![tactic(auto)]

pub mod batch;
pub mod batching;
mod making;
pub mod places;
mod planning;
mod testing;
