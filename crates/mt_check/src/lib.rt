//! The checker of receipts: whether each answer of an index was right, judged by the deltas of its log.
#![tactic(auto)]

mod calls;
pub mod check;
pub mod fault;
mod judge;
pub mod laws;
mod log;
mod pages;
mod ranges;
pub mod receipt;
mod versions;
mod writes;
