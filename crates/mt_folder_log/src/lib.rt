//! The log of a folder that is in use: it continues in the other file from time to time. README.md describes it.
#![tactic(auto)]

pub mod checkpoint;
pub mod log;
mod starting;
