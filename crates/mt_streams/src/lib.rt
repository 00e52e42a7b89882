//! A reader whose calls are counted, and a writer that notes whether its last write failed. Scripts and sessions use
//! them.
#![tactic(auto)]

pub mod counted;
pub mod sink;
