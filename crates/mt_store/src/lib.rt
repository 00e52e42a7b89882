//! A map of one caller whose commits are in a log on a disk. README.md describes it.
#![tactic(auto)]

mod changing;
pub mod error;
mod opening;
mod replaying;
pub mod store;
