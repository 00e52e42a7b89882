//! Laws of readers that read a border field by field: what others leave of what was noted, and that it is enough for a
//! scan. Each function does nothing, and its contract is the law.

ghost use Rattle.mt_chart.specs.Noted.{NotedSlotsStay};
ghost use Rattle.mt_chart.specs.NotedList.{NotedListsAreVisited, WholeBordersAreNoted};
ghost use Rattle.mt_chart.specs.ListNoted.{ListsAreNoted};

/// What a slot that was noted holds was there, however others change the border, while the border is quiet.
pub fn noted_slots_stay()
    ensures { NotedSlotsStay }
{}

/// What was read of the slots that were noted is a noted list, once the border is quiet still.
pub fn lists_are_noted()
    ensures { ListsAreNoted }
{}

/// A scan that visits a noted list keeps its fact, or ends with the right answer; a border that is on is noted whole.
pub fn noted_lists_are_visited()
    ensures visited { NotedListsAreVisited }
    ensures whole { WholeBordersAreNoted }
{}
