//! What holds of the states of views, as laws. Their bodies do nothing.

ghost use Rattle.mt_view.specs.Laws.{AfreshByKey, AppliedIsAfresh, SortedPairsAreRows, ShowsPage};

/// A state is afresh for some rows exactly if it holds, under each key, the row that is there, if that belongs to the
/// view.
pub fn afresh_is_told_by_key()
    ensures { AfreshByKey }
{}

/// A state that is afresh for some rows is, after a delta, afresh for the rows with that delta.
pub fn deltas_keep_afresh()
    ensures { AppliedIsAfresh }
{}

/// Pairs in the order of their keys are the rows that they name, one by one.
pub fn sorted_pairs_are_rows()
    ensures { SortedPairsAreRows }
{}

/// The state of a standing view shows exactly the page of that view.
pub fn states_show_pages()
    ensures { ShowsPage }
{}
