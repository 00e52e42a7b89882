//! Laws of logs, each of them the contract of a function that does nothing.

ghost use Rattle.mt_journal.specs.Laws.{HeadersAreShort, LogsHaveTheirFronts, LogsReadOneWay};

/// No bytes are two logs.
pub fn logs_are_read_one_way()
    ensures { LogsReadOneWay }
{}

/// A log that begins with the frames of some entries has them.
pub fn logs_have_their_fronts()
    ensures { LogsHaveTheirFronts }
{}

/// The frame of a header has 1 to 128 bytes.
pub fn headers_are_short()
    ensures { HeadersAreShort }
{}
