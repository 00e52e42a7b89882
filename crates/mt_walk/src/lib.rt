//! Walks: the pairs of a tree in which no change is under way, one by one, each row borrowed.
#![tactic(auto)]

mod course;
mod descent;
mod emptied;
pub mod place;
mod range;
mod spelling;
mod start;
mod walk;

pub use emptied::is_emptied;
pub use range::{pairs_of, range_of};
pub use walk::Walk;
