//! The limits of frames, and what names a log.

/// The number of the format that is written, and the only one that is read.
pub const LOG_FORMAT: u16 = 1;

/// How many bytes the length of a frame has.
pub const LENGTH_BYTES: usize = 5;

/// How many bytes the digest at the end of a body has.
pub const DIGEST_BYTES: usize = 8;

/// The most bytes of a frame after its length; the least is 1.
pub const MAX_TEXT_BYTES: usize = 4_194_304;

/// The most records, or rows, of a frame.
pub const MAX_RECORDS: usize = 65_535;
