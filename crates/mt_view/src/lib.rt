//! The state of a view, which stays exact under deltas: its rows in a sorted map, their count and their sums; and the
//! views of an index, by their numbers.
//!
//! A call costs O(1) unless it says otherwise.
#![tactic(auto)]

mod amounts;
pub mod laws;
mod members;
pub mod state;
pub mod views;
