//! The rows of an index as one sorted map: the plain reference by which the index is tested and checked.
//!
//! A call costs O(1) unless it says otherwise.
#![tactic(auto)]

pub mod columns;
pub mod rows;
