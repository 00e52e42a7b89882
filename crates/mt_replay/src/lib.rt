//! The records of a log's commits, and what they make of rows when their commits are made again, as a law. The rows of a
//! log that has checkpoints, done again, also if it was closed in the middle of one, and the law that they are those after
//! its last commit.
#![tactic(auto)]

pub mod reading;
pub mod records;
pub mod redoing;

ghost use Rattle.mt_replay.specs.Reading.{RowsAreRead};
ghost use Rattle.mt_replay.specs.RedoLaws.{CommitsAreRedone, RowsAreRedone};
ghost use Rattle.mt_replay.specs.Replay.{PrefixesMakeRecords, PrefixesMakeRows};

/// A law, whose body does nothing. Let a log keep a record of what each commit left of its key. Made again one after the other, from none on, the commits
/// of its first `m` records make exactly the rows that the first `m` commits made, with their versions. A record of a row is
/// made again by a put of all columns, and one of no row by a remove. What they leave has the same records, so the log
/// continues with the next commit as if it had never ended.
pub fn prefixes_make_rows()
    ensures rows { PrefixesMakeRows }
    ensures records { PrefixesMakeRecords }
{}

/// A law, whose body does nothing: what `redo` makes of a log that begins after some commits is the rows after its last
/// commit, with their versions.
///
/// Without the parts of checkpoints, this is so on the rows before the log. With them, it is so from no rows on, if they
/// are of all keys: each row that a part lists was its key's row at some time from the part's place in the log to the
/// log's end, and a key that neither a part nor a commit names had no row at some time since the log began. So the parts
/// may be read one after the other while commits are made.
///
/// What `reading::read_rows` makes from no rows on is the rows after the last commit too, if all this holds of the parts
/// that count. Nothing is asked of the others.
pub fn redone_logs_have_the_rows()
    ensures rows { RowsAreRedone }
    ensures commits { CommitsAreRedone }
    ensures read { RowsAreRead }
{}
