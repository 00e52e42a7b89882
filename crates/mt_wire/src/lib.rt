//! The wire: frames of queries, read from bytes and written, and frames of answers, written.
//!
//! A call costs O(n) in the bytes that it reads or writes.
#![tactic(auto)]

mod body;
pub mod decoder;
pub mod encode;
pub mod fault;
pub mod frame;
pub mod laws;
pub mod limits;
pub mod query;
mod query_reading;
mod query_writing;
pub mod read;
mod read_reading;
mod read_writing;
mod reading;
pub mod response;
mod response_writing;
pub mod server;
mod server_reading;
mod server_writing;
pub mod version;
mod writing;
