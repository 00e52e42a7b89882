//! A map whose rows are in a folder: README.md describes it.
#![tactic(auto)]

pub mod error;
pub mod log;
pub mod opening;
