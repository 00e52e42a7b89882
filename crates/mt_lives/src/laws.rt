//! What is true of lives one after the other, as a law.

ghost use Rattle.mt_lives.specs.Sentence.{LivesSurvive};

use mt_folder_laws::crashed_folders_have_the_rows;

/// A law, whose body does nothing: over every list of lives, each of any turns up to a crash, each over what the crash before
/// has left, a map whose rows are in a folder has after each crash exactly the rows after the first m of its changes, and m is
/// at least the last number that was said to be durable. It answers the turns that follow as a plain map of these rows does,
/// and continues with commit m + 1.
pub fn lives_survive_crashes()
    ensures { LivesSurvive }
{
    crashed_folders_have_the_rows();
}
