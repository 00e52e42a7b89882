//! Why a build is exact, as laws. Their bodies do nothing.

ghost use Rattle.mt_works.specs.Laws.{ScansLeadToTheEnd, DeltasLeadOn, LedIsAfresh, BuildsAreExact, OthersKeepScans, RestartsKeepScans, WaysKeepScans};

/// What a scan has read, with the deltas since its begin, comes to what the view shows of the rows at the scan's end.
pub fn scans_and_deltas_are_exact()
    ensures scan { ScansLeadToTheEnd }
    ensures delta { DeltasLeadOn }
    ensures end { LedIsAfresh }
{}

/// A build is exact whatever others write while it scans the tree.
pub fn builds_are_exact()
    ensures { BuildsAreExact }
{}

/// What is true of a build's scan lasts: over what others do, over a new beginning of its way, and on its way down.
pub fn scans_go_on()
    ensures others { OthersKeepScans }
    ensures again { RestartsKeepScans }
    ensures way { WaysKeepScans }
{}
