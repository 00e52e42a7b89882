//! The status that a call returns: the number of a refusal, or one of these.

/// The call was done.
pub const DONE: u16 = 0;

/// A batch is too long, or changes a key twice.
pub const BAD_BATCH: u16 = 17;

/// The handle holds no index.
pub const CLOSED: u16 = 100;

/// The handle holds an index already.
pub const HELD: u16 = 101;

/// The key has no row.
pub const ABSENT: u16 = 102;

/// The buffer has too little room for the answer.
pub const NO_ROOM: u16 = 103;

/// No view is behind.
pub const CURRENT: u16 = 104;

/// No test of rows is of this kind.
pub const NO_SUCH_TEST: u16 = 105;

/// The folder or its files can't be made, opened or read.
pub const FOLDER_FAILED: u16 = 106;

/// Another index or process has the folder.
pub const FOLDER_BUSY: u16 = 107;

/// The files of the folder are no logs of such an index, or rows or durable commits are missing.
pub const FOLDER_DAMAGED: u16 = 108;

/// The disk is full.
pub const DISK_FULL: u16 = 109;

/// The disk has failed, and the log is given up.
pub const DISK_FAILED: u16 = 110;

/// A condition of a batch doesn't hold.
pub const UNMET: u16 = 113;
