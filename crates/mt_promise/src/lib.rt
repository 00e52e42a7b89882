//! The promise of the index: which histories of events and outcomes are legal, and what follows from that for each get,
//! range and view, as laws.
#![tactic(auto)]

pub mod alone;
pub mod exact;
pub mod examples;
pub mod finished;
pub mod headline;
pub mod limited;
pub mod limits;
