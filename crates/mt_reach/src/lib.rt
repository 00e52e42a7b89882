//! Which rows and which number of commits an index can have, as laws. Their bodies do nothing.
#![tactic(auto)]

ghost use Rattle.mt_reach.specs.Reach.{RowsAreReached, LegalRowsPass};

/// Let each row have a version from 1 to `n`, no two rows the same one, and let the rows keep the limits of an index.
/// They are the rows of a legal history of `n` commits if and only if a row has the version `n`, or at least two of the
/// numbers from 1 to `n` are of no row. For the first direction some key must have no row.
///
/// A single number that is of no row can't be the last one: its commit would be a remove, and the row that it removes
/// would need an earlier number that is of no row either.
pub fn rows_are_reached()
    ensures reached { RowsAreReached }
    ensures pass { LegalRowsPass }
{}
