//! A log of commits in one file, which a crash leaves whole up to some frame. README.md describes it.
#![tactic(auto)]

pub mod checkpoint;
pub mod error;
mod growing;
pub mod journal;
pub mod laws;
pub mod opening;
pub mod position;
pub mod recovery;
mod steps;
mod zeros;
