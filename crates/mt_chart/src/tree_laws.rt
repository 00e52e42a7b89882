//! Laws of an index: the places of its rows, and what a call that goes through it may rely on. Each function does
//! nothing, and its contract is the law.

ghost use Rattle.mt_chart.specs.TreeLaws.{LeftNeighboursAreFound, FreeInteriorsAreOn, FirstRowsCanBeShown, NewIndexIsIndex, NewIndexIsEmpty, RowsAreInBorders, KeysHaveOneRow, KeysAreAtTheirPlaces, KeysAreInTheirIntervals, HoldingLasts, EvolvingGoesOn, LayerZeroIsHeld, RootsAreHeld, ChildrenAreHeld, SomeChildLeadsOn, RightNeighboursAreHeld, LinkedHeadsAreHeld, HeldNodesAreThere, HeldBordersAreOn, RootsAreHighest, RootOfASplitIsIt, MarkedLayersHaveOneBorder};

/// A new index, head 0 over one empty border, meets the invariant and has no row, and a first row can be shown in it.
pub fn new_indexes_are_empty()
    ensures index { NewIndexIsIndex }
    ensures empty { NewIndexIsEmpty }
    ensures shows { FirstRowsCanBeShown }
{}

/// The rows that the tree has are those in borders that are on.
pub fn rows_are_in_borders()
    ensures { RowsAreInBorders }
{}

/// A key has at most one row.
pub fn keys_have_one_row()
    ensures { KeysHaveOneRow }
{}

/// At the border in whose interval it is, a call finds all that the tree has for a key.
pub fn keys_are_at_their_places()
    ensures place { KeysAreAtTheirPlaces }
    ensures interval { KeysAreInTheirIntervals }
{}

/// What a call holds stays held while other calls continue.
pub fn held_nodes_stay_held()
    ensures lasting { HoldingLasts }
    ensures again { EvolvingGoesOn }
{}

/// From a held node that is not marked deleted each step of a descent leads to a held node.
pub fn held_nodes_lead_on()
    ensures top { LayerZeroIsHeld }
    ensures root { RootsAreHeld }
    ensures child { ChildrenAreHeld }
    ensures some_child { SomeChildLeadsOn }
    ensures right { RightNeighboursAreHeld }
    ensures linked { LinkedHeadsAreHeld }
{}

/// At a held number there is a node. What may be taken to be on: a held border that is not marked deleted, an
/// interior node that is neither marked nor locked; and where the left neighbour of a border is found.
pub fn held_nodes_are_there()
    ensures there { HeldNodesAreThere }
    ensures borders { HeldBordersAreOn }
    ensures interiors { FreeInteriorsAreOn }
    ensures left { LeftNeighboursAreFound }
{}

/// The root of a head has the greatest level of its layer. So an interior node that is being split is the root, if the
/// root's level is no greater.
pub fn roots_are_highest()
    ensures highest { RootsAreHighest }
    ensures split { RootOfASplitIsIt }
{}

/// A layer whose head is marked deleted has one border, its root.
pub fn marked_layers_have_one_border()
    ensures { MarkedLayersHaveOneBorder }
{}
