//! The log of commits: the deltas of the last commits, held for those that still read them.
//!
//! A call costs O(1) unless it says otherwise.
#![tactic(auto)]

pub mod effect;
mod holders;
pub mod laws;
pub mod log;
