//! Checks of the definitions themselves, as laws on small histories: one that is legal, and wrong ones that are not.
//! Their bodies do nothing.

ghost use Rattle.mt_promise.specs.Examples.{VisibleIsLegal, LateAbsenceIsRefuted, EarlyRowIsRefuted, KeyLeftOutIsRefuted, WrongCommitIsRefuted, TwoCommitsAreRefuted, AmountLeftIsRefuted, PageAfterDropIsRefuted, PageLeftBehindIsRefuted, PageAfterDropIsNotRight, PageLeftBehindIsNotRight};

/// A row is visible by its commit alone: a get before finds nothing, a get after finds the row before the put is done.
pub fn visible_by_commit_alone()
    ensures { VisibleIsLegal }
{}

/// What no legal history holds.
pub fn wrong_histories()
    // a get that begins after a put was done finds nothing
    ensures late_absence { LateAbsenceIsRefuted }
    // a get finds a row before its commit
    ensures early_row { EarlyRowIsRefuted }
    // a range leaves out a key that was there throughout
    ensures key_left_out { KeyLeftOutIsRefuted }
    // the first commit has the number 2
    ensures wrong_commit { WrongCommitIsRefuted }
    // a put commits twice
    ensures two_commits { TwoCommitsAreRefuted }
    // a view keeps an amount in its sum whose row has gone
    ensures amount_left { AmountLeftIsRefuted }
    // a page of a view that was dropped is shown
    ensures page_after_drop { PageAfterDropIsRefuted }
    // a view is advanced by a commit, and its page is still the one from before it
    ensures page_left_behind { PageLeftBehindIsRefuted }
{}

/// Pages that the promise itself refuses, whatever is legal.
pub fn wrong_pages()
    // one of a view that was dropped
    ensures after_drop { PageAfterDropIsNotRight }
    // one from before a commit by which the view was advanced
    ensures left_behind { PageLeftBehindIsNotRight }
{}
