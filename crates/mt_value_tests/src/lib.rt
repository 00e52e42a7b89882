//! Tests of the values, the parts of a node and the wire by the public surface of their crates. There
//! is nothing else here: a crate of its own, so that the crates below are proved once.
#![tactic(auto)]

#[cfg(test)]
mod arenas;
#[cfg(test)]
mod frames;
#[cfg(test)]
mod places;
#[cfg(test)]
mod values;
#[cfg(test)]
mod words;
