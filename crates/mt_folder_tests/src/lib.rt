//! Tests of a map whose rows are in a folder, by the public surface of its crate. There is nothing else here: a crate of its
//! own, so that the crates below are proved once.
#![tactic(auto)]

#[cfg(test)]
mod changed;
#[cfg(test)]
mod crashes;
#[cfg(test)]
mod leaving;
#[cfg(test)]
mod living;
#[cfg(test)]
mod recording;
#[cfg(test)]
mod reopened;
