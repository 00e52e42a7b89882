//! Sessions as bytes in and bytes out, over anything that answers frames.
#![tactic(auto)]

pub mod facts;
pub mod growing;
pub mod laws;
pub mod listing;
pub mod replying;
pub mod server;
pub mod serving;
pub mod talk;
pub mod tokens;
