//! Laws of the steps on heads and interior nodes, and of numbers: each leads from an index to an index, with the same
//! content. Each function does nothing, and its contract is the law.

ghost use Rattle.mt_chart.specs.StepLaws.{LaterEpochsKeep, DroppingAChildKeeps, PostingABorderKeeps, BypassingKeeps, BypassingARootKeeps, MakingARootKeeps, MakingARootOverAHalfKeeps, MarkingAHeadKeeps, MarkingWhatIsGoneKeeps, MarkingAGoneHeadKeeps, PostingAHalfKeeps, KeepingChildrenKeeps, PartsNeedBeNoTwins, ChangingSparesKeeps, FreeingKeeps};

/// An interior node drops an empty border.
pub fn dropping_a_child_keeps()
    ensures { DroppingAChildKeeps }
{}

/// A border is posted in an interior node.
pub fn posting_a_border_keeps()
    ensures { PostingABorderKeeps }
{}

/// An interior node with one child is bypassed, below another or at the root.
pub fn bypassing_keeps()
    ensures inner { BypassingKeeps }
    ensures root { BypassingARootKeeps }
{}

/// A head names a new root, over the old one and a border, or over the old one, which is split, and its new half.
pub fn making_a_root_keeps()
    ensures border { MakingARootKeeps }
    ensures half { MakingARootOverAHalfKeeps }
{}

/// A head is locked, unlocked or marked deleted; an interior node that is gone is marked deleted; a head that is gone
/// is locked or unlocked.
pub fn marking_keeps()
    ensures head { MarkingAHeadKeeps }
    ensures gone { MarkingWhatIsGoneKeeps }
    ensures gone_head { MarkingAGoneHeadKeeps }
{}

/// The new half of an interior node is posted; the first half is cut, or a node is locked or unlocked; halves with no
/// child in common need be no twins.
pub fn splitting_an_interior_keeps()
    ensures half { PostingAHalfKeeps }
    ensures cut { KeepingChildrenKeeps }
    ensures apart { PartsNeedBeNoTwins }
{}

/// Spare numbers are occupied, filled and given back; the number of a node that is gone is freed; the
/// epoch advances.
pub fn changing_numbers_keeps()
    ensures spares { ChangingSparesKeeps }
    ensures freed { FreeingKeeps }
    ensures epochs { LaterEpochsKeep }
{}
