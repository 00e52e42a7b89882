//! The audit's text: a log and its receipts as lines, and the verdict on them.
#![tactic(auto)]

mod answers;
pub mod audit;
mod book;
mod line;
mod receipts;
pub mod verdict;
