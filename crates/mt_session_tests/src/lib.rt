//! Tests of sessions by the public surface of `mt_serve` and `mt_talk`. There is nothing else here: a crate of its own,
//! so that the crates below are proved once.
#![tactic(auto)]

#[cfg(test)]
mod faulty;
#[cfg(test)]
mod sessions;
#[cfg(test)]
mod talks;
