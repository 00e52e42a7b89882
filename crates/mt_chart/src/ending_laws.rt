//! Laws by which a call ends: a descent advances in one order of places, and a call alone has a measure that falls.
//! Each function does nothing, and its contract is the law.

ghost use Rattle.mt_chart.specs.EndLaws.{MovesLeftFall, MovesGoOn, HeightsAreBounded, RunsAreBounded, LoneGetsEnd, LoneCallsStayOn, PostingsEnd, CursorsGoRight, CursorsLeaveLayers};

/// Each move of a descent goes to a greater height, and heights are bounded.
pub fn moves_go_on()
    ensures higher { MovesGoOn }
    ensures bounded { HeightsAreBounded }
    ensures fewer { MovesLeftFall }
{}

/// A run of moves of a get, among any other calls, is shorter than the bound on the numbers of nodes.
pub fn runs_of_moves_are_bounded()
    ensures { RunsAreBounded }
{}

/// A get alone ends in no more steps than there are nodes, and a call alone stays on nodes that are on.
pub fn lone_calls_end()
    ensures get { LoneGetsEnd }
    ensures stays { LoneCallsStayOn }
{}

/// Each step of a posting that runs alone lowers its measure.
pub fn postings_end()
    ensures { PostingsEnd }
{}

/// A scan's cursor advances when the scan leaves a border or a layer.
pub fn cursors_go_on()
    ensures right { CursorsGoRight }
    ensures layer { CursorsLeaveLayers }
{}
