//! What the threads of a server share besides its index: addresses and streams, log lines, limits, and what is known of its
//! memory and of its log.
#![tactic(auto)]

pub mod address;
pub mod buffers;
pub mod descriptors;
pub mod durability;
pub mod fault;
pub mod limits;
pub mod memory;
pub mod parking;
mod quoting;
pub mod report;
pub mod reporting;
pub mod stream;
pub mod utc;
pub mod weight;
