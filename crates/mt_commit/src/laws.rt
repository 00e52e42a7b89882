//! Laws of a log: what its deltas say of the rows at earlier commits, and what its holders say of how often each number
//! is held. Their bodies do nothing.

ghost use Rattle.mt_commit.specs.Laws.{DoneIsUndone, UndoneIsDone, UndoneLeavesBefore, NewestIsPresent, AppendingFits, AppendingKeepsRows, TrimmingFits, TrimmingKeepsRows, EachDeltaMakesRows, PinningCounts, UnpinningCounts, CountedIsHeld, LeastIsByCounts};

/// A delta that is done and undone, or undone and done again, leaves the rows as they were, and undone it leaves its
/// row before.
pub fn deltas_are_undone()
    ensures done { DoneIsUndone }
    ensures undone { UndoneIsDone }
    ensures before { UndoneLeavesBefore }
{}

/// The rows at the newest commit are the present rows.
pub fn newest_is_present()
    ensures { NewestIsPresent }
{}

/// A log that fits the rows still does after the next commit, and gives the same rows at each earlier number.
pub fn appending_keeps_the_past()
    ensures fits { AppendingFits }
    ensures rows { AppendingKeepsRows }
{}

/// A log that fits the rows still does when it is trimmed, and gives the same rows at each number that it reaches.
pub fn trimming_keeps_the_past()
    ensures fits { TrimmingFits }
    ensures rows { TrimmingKeepsRows }
{}

/// In a log that fits, each delta turns the rows at the number before it into the rows at its number. So a view is
/// advanced by one commit.
pub fn each_delta_makes_rows()
    ensures { EachDeltaMakesRows }
{}

/// A number that is pinned is held once more, and one that is unpinned once less. How often each number is held
/// determines which numbers are holders and which is the least.
pub fn holders_are_counted()
    ensures pinned { PinningCounts }
    ensures unpinned { UnpinningCounts }
    ensures held { CountedIsHeld }
    ensures least { LeastIsByCounts }
{}
