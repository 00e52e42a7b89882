//! A node that is retired.

use mt_types::numbers::NodeNo;

/// A node that no new search comes to, and the epoch in which it was retired. Its number is in use until it is freed.
#[derive(Clone, Copy, Debug, PartialEq, Eq)]
pub struct Retired {
    pub node: NodeNo,
    pub epoch: u64,
}
