//! The commits of an index that many threads share, in the log of a folder. README.md describes it.
#![tactic(auto)]

pub mod checkpoint;
pub mod error;
pub mod logger;
mod reading;
