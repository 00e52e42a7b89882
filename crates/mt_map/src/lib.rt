//! An index of one caller, with the methods of a map. Its views are advanced on demand.
#![tactic(auto)]

pub mod back;
mod batching;
mod calling;
mod changing;
pub mod map;
pub mod range;
mod tidying;
mod viewing;
pub mod walk;
