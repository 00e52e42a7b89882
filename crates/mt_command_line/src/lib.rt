//! What the command lines of the programs share: options that take a number, the options of an index, and how a program
//! ends.
#![tactic(auto)]

pub mod ending;
pub mod numbers;
pub mod opening;
