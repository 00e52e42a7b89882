//! How far a tidy is.

use crate::noted::{Noted, OneChild};
use crate::sign::Emptied;
use mt_border::RightLink;
use mt_steps::reader::Glance;
use mt_types::event::TidyRule;
use mt_types::numbers::NodeNo;
use mt_word::Permutation;

/// A border that is marked deleted, and the way to the border before it.
#[derive(Clone, Copy)]
pub struct Unlinking {
    pub border: NodeNo,
    /// The head of the layer.
    pub head: NodeNo,
    /// The place of the call on that way.
    pub node: NodeNo,
    /// The slice before the border's low.
    pub slice: u64,
    /// The border's right link, as it was when the border was marked.
    pub right: Option<RightLink>,
}

/// An empty layer, whose link is sought.
#[derive(Clone, Copy)]
pub struct EmptyLayer {
    /// The border above.
    pub above: NodeNo,
    /// The head of the layer.
    pub head: NodeNo,
    /// Its only border.
    pub root: NodeNo,
}

/// A layer that is being taken out.
#[derive(Clone, Copy)]
pub struct Layer {
    /// The border above.
    pub above: NodeNo,
    /// The place of its link to the layer.
    pub place: usize,
    /// The head of the layer.
    pub head: NodeNo,
    /// Its only border.
    pub root: NodeNo,
}

/// How far a tidy is.
#[derive(Clone, Copy)]
pub enum Stage {
    /// It is on its way.
    Seeks(Noted),
    /// It has locked a border that it read as empty, and is to read its order again.
    LooksAgain {
        border: NodeNo,
        /// The head of the layer.
        head: NodeNo,
        emptied: Emptied,
        /// What it read of the border.
        glance: Glance,
    },
    /// The order is the same, and its right link is to be read again.
    LooksRight {
        border: NodeNo,
        head: NodeNo,
        emptied: Emptied,
        /// The right link that it read.
        right: Option<RightLink>,
    },
    /// It has locked an empty border, which an interior is to drop.
    Locked {
        border: NodeNo,
        head: NodeNo,
        parent: NodeNo,
    },
    /// No interior names the border, which is to be marked deleted.
    Dropped {
        border: NodeNo,
        head: NodeNo,
    },
    /// The border is marked deleted, and is to be unlinked. The call is on its way to the border before it, or has read
    /// that border's version and right link, and is to lock it.
    Marked(Unlinking),
    /// It has locked the border before, and is to read its right link again.
    LeftLocked(Unlinking),
    /// That names the border, and is to become what the border's own was when it was marked.
    LeftNames(Unlinking),
    /// That names another. It is to be unlocked, and the way to the border before begins again.
    LeftMissed(Unlinking),
    /// The border is unlinked, and the border before it is to be unlocked.
    LeftWritten {
        border: NodeNo,
        left: NodeNo,
    },
    /// The border is unlinked, and is to be retired.
    Unlinked(NodeNo),
    /// An interior with one child is to be locked.
    Lonely(OneChild),
    /// It is locked, and what names it is to name its child.
    LoneLocked(OneChild),
    /// The interior is bypassed by this rule, and is to be marked deleted and retired.
    Bypassed {
        interior: NodeNo,
        rule: TidyRule,
    },
    /// It has locked the only border of a layer, an empty one. The border above is to be locked.
    RootLocked(EmptyLayer),
    /// The border above is locked too, and its right link is to be read.
    AboveLocked(EmptyLayer),
    /// The link's slice is before that, and its order is to be read.
    AboveBounded(EmptyLayer),
    /// Its keys are to be read from this place on.
    AboveSearched {
        layer: EmptyLayer,
        order: Permutation,
        place: usize,
        /// The place of the key of the link's slice that leads below, if it was read.
        at: Option<usize>,
    },
    /// That key is there, and the value of its slot is to be read.
    AboveFound {
        layer: Layer,
        slot: usize,
    },
    /// That is the link to the layer, and the head is to be marked deleted.
    LinkFound(Layer),
    /// The head is marked deleted, and the border is to be.
    HeadMarked(Layer),
    /// Both are, and the link to the layer is to be hidden.
    RootMarked(Layer),
    /// It is hidden, and the border above is to be unlocked.
    LinkHidden(Layer),
    /// The layer's border is to be retired, and then its head.
    LayerGone {
        root: NodeNo,
        head: NodeNo,
    },
    /// The border is retired, and the head is to be.
    RootRetired(NodeNo),
    /// It gives up, and is to unlock the border above as it was, and then the layer's.
    KeepsLayer {
        above: NodeNo,
        root: NodeNo,
    },
    /// It gives up, and is to unlock the border as it was.
    KeepsBorder(NodeNo),
    /// It gives up, and is to unlock the interior as it was.
    KeepsInterior(NodeNo),
}
