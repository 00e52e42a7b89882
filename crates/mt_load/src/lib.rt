//! Rows with their versions, loaded into a new index, which continues with the next commit. README.md describes it.
#![tactic(auto)]

mod ending;
pub mod error;
pub mod loading;
mod putting;
