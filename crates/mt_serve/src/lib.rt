//! Sessions: frames of queries in, frames of replies out, over an index that is shared or of one caller.
#![tactic(auto)]

pub mod answerer;
pub mod asking;
pub mod fault;
pub mod frames;
pub mod laws;
pub mod plain;
pub mod session;
