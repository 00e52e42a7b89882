//! The end of a log, and the numbers of its commits.

/// The end of a log, and the numbers of its commits.
#[derive(Clone, Copy, Debug, PartialEq, Eq)]
pub struct Position {
    /// The generation of the files that the log belongs to.
    pub generation: u64,
    /// The place of the next frame.
    pub end: usize,
    /// From the end to here the file had zeros when it was synced, one at least.
    pub room: usize,
    /// The number of the last commit of the log, or the number before its first.
    pub newest: u64,
    /// The number of the last commit that no crash undoes.
    pub durable: u64,
}
