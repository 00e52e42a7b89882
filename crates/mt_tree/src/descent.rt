//! How a call goes down the tree to a key, and what it knows on the way.

ghost use Rattle.std.specs.Prelude.{◌≡◌, ◌≢◌, ◌<◌, ◌≤◌, length, drop, true, false, Err, IfOk, IfErr, IsSome, IsSomeAnd};
ghost use Rattle.mt_slice.specs.Place.{slice_number};
ghost use Rattle.mt_border.specs.Order.{IsBorder};
ghost use Rattle.mt_interior.specs.Head.{IsHead};
ghost use Rattle.mt_interior.specs.Interior.{IsInterior};
ghost use Rattle.mt_arena.specs.Node.{border_at, IsNode};
ghost use Rattle.mt_arena.specs.Arena.{IsArena};
ghost use Rattle.mt_tree.specs.Descent.{is_marked, visit_head, visit_interior, visit_border, node_visit, found_for, MayVisitNode, IsFoundAt, TellsRow};

use crate::tree::Tree;
use crate::visit::Visit;
use mt_arena::Node;
use mt_border::{Border, Found};
use mt_interior::{Head, Interior};
use mt_slice::{rest_of, slice_of};
use mt_types::numbers::NodeNo;

/// What a descent sees at a head: it goes to the root. Constant cost.
pub fn visit_head(head: &Head) -> Visit
    ensures value { result ≡ visit_head head.now }
    ensures again { result ≡ Visit.Again → head.now.version.deleted ≡ true }
    ensures sound { IsHead head.now }
{
    if head.version().deleted() {
        return Visit::Again;
    }
    Visit::To(head.root())
}

/// What a descent sees at an interior node: it goes to the last child whose low is at most the slice. Costs a search of
/// its children.
pub fn visit_interior(interior: &Interior, slice: u64) -> Visit
    requires { interior.now.version.deleted ≡ false → (0 < length interior.now.children) × (interior.now.low ≤ slice) }
    ensures value { result ≡ visit_interior slice interior.now }
    ensures again { result ≡ Visit.Again → interior.now.version.deleted ≡ true }
    ensures sound { IsInterior interior.now }
{
    if interior.version().deleted() {
        return Visit::Again;
    }
    Visit::To(interior.child(interior.child_for(slice)).node)
}

/// What a search in a border finds for a key, of which `rest` is what the layers above have left. Looks at that border
/// alone, and takes no memory.
pub fn find(border: &Border, rest: &[u8]) -> Found
    ensures value { result ≡ found_for rest.now border.now.live }
    ensures stands { IsFoundAt rest.now border.now.live result }
    ensures sound { IsBorder border.now }
{
    let (slice, class) = slice_of(rest);
    border.find(slice, class, rest_of(rest))
}

/// What a search in a border finds for a key, of which `rest` is what the layers above have left, if the key's way ends
/// there. Otherwise returns where the way leads: to the right if the slice is there or beyond, or to the layer below if
/// there is a link. Searches that border once, and takes no memory.
pub fn arrive(border: &Border, rest: &[u8]) -> Result<Found, Visit>
    ensures ends { IfOk result (λ found. (visit_border rest.now border.now ≡ Visit.Here)
        × (found ≡ found_for rest.now border.now.live)) }
    ensures stands { IfOk result (IsFoundAt rest.now border.now.live) }
    ensures leads { IfErr result (λ visit. visit ≡ visit_border rest.now border.now) }
    ensures on { IfErr result (λ visit. visit ≢ Visit.Here) }
    ensures again { result ≡ Err Visit.Again → border.now.version.deleted ≡ true }
    ensures sound { IsBorder border.now }
{
    if border.version().deleted() {
        return Err(Visit::Again);
    }
    let (slice, _) = slice_of(rest);
    if let Some(right) = border.right_for(slice) {
        return Err(Visit::To(right));
    }
    match find(border, rest) {
        Found::Link(_, head) => Err(Visit::Below(head)),
        found => Ok(found),
    }
}

// What a descent sees at a border.
fn visit_border(border: &Border, rest: &[u8]) -> Visit
    ensures value { result ≡ visit_border rest.now border.now }
    ensures again { result ≡ Visit.Again → border.now.version.deleted ≡ true }
    ensures sound { IsBorder border.now }
{
    match arrive(border, rest) {
        Ok(_) => Visit::Here,
        Err(visit) => visit,
    }
}

/// What a descent to a key sees at a node. `rest` is what the layers above have left of the key (Masstree, EuroSys
/// 2012, section 4.6). Looks only at that node, as it is, locked or not: searches it, and takes no memory.
pub fn visit_node(node: &Node, rest: &[u8]) -> Visit
    requires { MayVisitNode node.now (slice_number rest.now) }
    ensures value { result ≡ node_visit rest.now node.now }
    ensures again { result ≡ Visit.Again → is_marked node.now ≡ true }
    ensures sound { IsNode node.now }
{
    match node {
        Node::Head(head) => visit_head(head),
        Node::Interior(interior) => {
            let (slice, _) = slice_of(rest);
            visit_interior(interior, slice)
        }
        Node::Border(border) => visit_border(border, rest),
    }
}

impl Tree {
    /// What a search in a border finds for a key, of which `rest` is what the layers above have left. Searches one
    /// border, and takes no memory.
    pub fn find(&self, number: NodeNo, rest: &[u8]) -> Found
        requires { IsSome (border_at self.now.nodes number.0) }
        ensures value { IsSomeAnd (border_at self.now.nodes number.0) (λ b. result ≡ found_for rest.now b.live) }
        ensures row { TellsRow self.now number.0 rest.now result }
        ensures stands { IsSomeAnd (border_at self.now.nodes number.0) (λ b. IsFoundAt rest.now b.live result) }
        ensures sound { IsSomeAnd (border_at self.now.nodes number.0) IsBorder }
        ensures arena { IsArena self.now }
    {
        find(self.border(number), rest)
    }
}
