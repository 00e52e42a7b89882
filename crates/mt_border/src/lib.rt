//! A border node: at most fifteen entries of one layer in key order, under a permutation.
#![tactic(auto)]

mod border;
mod entry;
mod field;
mod found;
mod inserting;
mod layering;
mod search;
mod slot_table;
mod splitting;
mod unwritten;

pub use border::Border;
pub use entry::{Content, Entry, RightLink, Suffix};
pub use field::{KeyPart, Mark, ValuePart};
pub use found::Found;
pub use unwritten::{KeyRest, SlotKey, Unwritten};
