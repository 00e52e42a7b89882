//! Keys as places: how a key of bytes is cut into the slices of the trie's layers.
//!
//! A call costs O(1) unless it says otherwise.
#![tactic(auto)]

pub mod laws;
mod slice_class;
mod slicing;

pub use slice_class::{Class, Length, SLICE_BYTES};
pub use slicing::{compare, key_bytes, rest_after, rest_of, slice_at, slice_of};
