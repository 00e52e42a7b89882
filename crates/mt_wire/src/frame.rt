//! A frame, as a value.

use crate::version::WireVersion;
use mt_types::items::Items;

/// The messages of a frame, in their order, with the version in which they are spelled.
#[derive(Debug, PartialEq, Eq, Drop)]
pub struct Frame<T> {
    pub version: WireVersion,
    pub messages: Items<T>,
}
