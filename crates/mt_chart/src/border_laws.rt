//! Laws of the steps on border nodes: each leads from an index to an index, and this is what it does to the content.
//! Each function does nothing, and its contract is the law.

ghost use Rattle.mt_chart.specs.StepLaws.{ShowingAddsTheRow, HidingRemovesTheRow, SettingReplacesTheRow, MarkingABorderKeeps, MarkingAGoneBorderKeeps, LinkingAHalfKeeps, MakingALayerKeeps, UnlinkingKeeps, DroppingALayerKeeps};

/// Once a border shows one more entry, the index has that row at its key, and all rows that it had.
pub fn showing_adds_the_row()
    ensures { ShowingAddsTheRow }
{}

/// Once a border hides an entry, the index has no row at its key, and all rows that it had at other keys.
pub fn hiding_removes_the_row()
    ensures { HidingRemovesTheRow }
{}

/// Once an entry of a border replaces another, the index has the new row at the key, and all rows that it had at other
/// keys.
pub fn setting_replaces_the_row()
    ensures { SettingReplacesTheRow }
{}

/// A border is locked, unlocked or marked deleted; one that is gone is locked or unlocked.
pub fn marking_a_border_keeps()
    ensures on { MarkingABorderKeeps }
    ensures gone { MarkingAGoneBorderKeeps }
{}

/// The link step of a border's split.
pub fn linking_a_half_keeps()
    ensures { LinkingAHalfKeeps }
{}

/// A link replaces a row, which is then one layer deeper.
pub fn making_a_layer_keeps()
    ensures { MakingALayerKeeps }
{}

/// An empty border is taken out of its chain.
pub fn unlinking_keeps()
    ensures { UnlinkingKeeps }
{}

/// An empty layer is taken out.
pub fn dropping_a_layer_keeps()
    ensures { DroppingALayerKeeps }
{}
