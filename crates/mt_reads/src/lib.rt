//! Reads of a machine on which no change is under way: walks over its rows both ways, and what is read by them.
#![tactic(auto)]

pub mod back;
pub mod counting;
pub mod gets;
mod nearby;
pub mod quiet;
pub mod ranging;
mod reading;
pub mod rows;

pub use back::RowsBack;
pub use counting::count;
pub use gets::get_many;
pub use quiet::{QuietAnswer, QuietRead, read_quiet};
pub use ranging::{last_of, pairs_back, range_back};
pub use rows::{Rows, first_of, key_of};
