//! A law of splits, for a reader of the specifications. The function does nothing: its contract is the law.

ghost use Rattle.mt_write.specs.Uncut.{UncutEntriesAreInTheHalf};

/// States what gets, ranges and builds meet between the two steps of a split: the border's right link leads to the
/// half, and the order that they read names the border's entries and then those of the half. So a reader that
/// continues to the right finds there each entry that the order names and the border no longer has.
pub fn uncut_entries_are_in_the_half()
    ensures { UncutEntriesAreInTheHalf }
{}
