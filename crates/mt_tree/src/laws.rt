//! Laws of trees, for calls that go down them and along them, and for calls that post a node: each function does
//! nothing, and its contract is the law.

ghost use Rattle.mt_tree.specs.Descent.{HeldNodesMayBeVisited, HeldBordersHaveIntervals};
ghost use Rattle.mt_tree.specs.HeadSteps.{HeadNamesTheSplit, HeadOfAPostingIsAlive};

/// A call may visit what it holds, for the slice for which it holds it.
pub fn held_nodes_may_be_visited()
    ensures { HeldNodesMayBeVisited }
{}

/// What a range needs of a border that it holds: it begins at or before the slice that is sought, its entries are in
/// order, and with the layers under its links they are all that the tree has in its interval.
pub fn held_borders_have_intervals()
    ensures { HeldBordersHaveIntervals }
{}

/// What a posting finds at the head of its layer: if a border is to be posted, the head is not marked deleted; and if
/// an interior node is being split and the root is not above it, that node is the root.
pub fn heads_of_postings_are_so()
    ensures alive { HeadOfAPostingIsAlive }
    ensures root { HeadNamesTheSplit }
{}
