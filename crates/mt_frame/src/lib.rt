//! The frames of a log file as bytes, written and read. README.md describes the format.
//!
//! A call costs O(n) in the bytes that it reads or writes.
#![tactic(auto)]

pub mod decode;
mod digest;
pub mod encode;
pub mod entry;
mod escape;
pub mod fault;
mod front;
pub mod laws;
pub mod limits;
mod reading;
mod writing;
