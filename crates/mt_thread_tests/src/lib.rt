//! Tests of threads over one index, whose receipts are checked against its log. There is nothing else here: a crate of
//! its own, so that the crates below are proved once.
#![tactic(auto)]

#[cfg(test)]
mod audit;
#[cfg(test)]
mod many_calls;
#[cfg(test)]
mod two_threads;
