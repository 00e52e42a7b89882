//! Tests of `mt_logger` by its public surface. There is nothing else here: a crate of its own, so that `mt_logger` is
//! proved once.
#![tactic(auto)]

#[cfg(test)]
mod logged;
