//! A loop that serves many connections by each of a few threads: it reads what is ready, answers and writes.
#![tactic(auto)]

pub mod accepting;
mod answering;
pub mod checkpointing;
pub mod connection;
mod delaying;
pub mod desk;
mod ending;
mod gauge;
mod keeping;
pub mod laws;
pub mod logging;
mod moving;
mod patient;
pub mod serving;
pub mod stop;
mod turns;
mod waiting;
mod watching;
pub mod worker;
