//! Tests of the frames and the journal of a log by the public surface of their crates. There is nothing else here: a crate
//! of its own, so that the crates below are proved once.
#![tactic(auto)]

#[cfg(test)]
mod failures;
#[cfg(test)]
mod frames;
