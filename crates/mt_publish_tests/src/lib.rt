//! Tests of published views by the public surface of `mt_publish`. There is nothing else here: a crate of its own, so
//! that `mt_publish` is proved once.
#![tactic(auto)]

#[cfg(test)]
mod feeds;
