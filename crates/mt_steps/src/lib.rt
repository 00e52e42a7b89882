//! What the steps of calls are to the tree: the law of a step, the way down, gets and ranges, and the freeing of nodes.
#![tactic(auto)]

pub mod alone;
pub mod collecting;
pub mod entering;
pub mod finding;
pub mod getting;
pub mod listing;
pub mod progress;
pub mod ranging;
pub mod reader;
pub mod way;
