//! What is read of a folder after a crash, as laws: README.md describes them.
#![tactic(auto)]

ghost use Rattle.mt_folder_laws.specs.Crashes.{SealedLogsSurvive};
ghost use Rattle.mt_folder_laws.specs.Left.{CheckpointsSurvive, FirstAreRead, FirstLogsSurvive, GrownLogsSurvive};

use mt_journal::laws::{logs_are_read_one_way, logs_have_their_fronts};
use mt_replay::redone_logs_have_the_rows;

/// A law, whose body does nothing: whatever a crash has left of the two files of a folder, what `open_log` of `mt_folder` reads
/// of them is the rows after the first m commits, and m is at least the last durable number. The files have these commits, whatever
/// others follow them later: a log that is opened over them continues there.
///
/// `first` is of a folder whose log begins with the first commit, and whose other file has no newer log. `checkpoint` is of a log
/// that continues one of the other file, which a crash can't change, while the rows are copied; nothing is asked of the copies.
/// `sealed` is of a log whose checkpoint is complete, and of which a crash leaves all entries. `grown` is of one to which commits
/// were appended after the seal, of which a crash leaves some. `read` is of files that have the first commits, however that came.
pub fn crashed_folders_have_the_rows()
    ensures first { FirstLogsSurvive }
    ensures checkpoint { CheckpointsSurvive }
    ensures sealed { SealedLogsSurvive }
    ensures grown { GrownLogsSurvive }
    ensures read { FirstAreRead }
{
    logs_are_read_one_way();
    logs_have_their_fronts();
    redone_logs_have_the_rows();
}
