//! Laws of the logs of a folder, each of them a clause of a function that does nothing.

ghost use Rattle.mt_folder.specs.Laws.{FirstLogsHaveTheRows, LaterLogsHaveTheRows, ListingLogsHaveTheRows};

use mt_replay::redone_logs_have_the_rows;

/// A law, whose body does nothing: the rows that the logs of a folder leave are the rows after the last commit, with their
/// versions.
///
/// A log from the first commit on, without a seal, needs no premise but that it has the commits. A log with a seal needs that
/// its parts list what its keys had. A log that continues another one and has no seal yet needs nothing of its parts: they don't
/// count. So a crash in a checkpoint loses no row, and shows none of a commit that it has undone.
pub fn folders_have_the_rows()
    ensures first { FirstLogsHaveTheRows }
    ensures listing { ListingLogsHaveTheRows }
    ensures later { LaterLogsHaveTheRows }
{
    redone_logs_have_the_rows();
}
