//! The two words of nodes: which slots of a border hold its keys in which order, and the version of each node.
//!
//! A call costs O(1) unless it says otherwise.
#![tactic(auto)]

mod permutation_word;
mod version_word;

pub use permutation_word::{Permutation, SLOTS};
pub use version_word::{MAX_INSERTS, MAX_SPLITS, SpentCounter, Version};
