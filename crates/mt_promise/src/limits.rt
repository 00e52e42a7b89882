//! The limit of a get's way. It follows from what gets do, so nothing guards it.

/// The most steps in a row of a get at one node, of which a border takes 20 at most. So a get moves at most
/// `MAX_READS * MAX_NODES` times in a row.
pub const MAX_READS: u32 = 64;
