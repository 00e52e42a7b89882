//! Many threads on one index: a lock around the machine and its counters, passes by which callers make events, and calls
//! that are driven to their end run by run.
#![tactic(auto)]

pub mod answers;
pub mod asking;
pub mod changing;
pub mod client;
mod client_calls;
mod client_door;
mod client_reads;
mod counters;
pub mod door;
pub mod driving;
pub mod holding;
mod inner;
pub mod loading;
pub mod lone;
pub mod map;
pub mod moment;
mod pages;
pub mod pass;
pub mod quiet;
mod reads;
mod runs;
pub mod settling;
mod tidying;
pub mod trace;
mod turn;
mod turns;
pub mod views;
pub mod walk;
