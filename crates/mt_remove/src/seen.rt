//! What a tidy sees of an interior, and what it reads of a field of a border that it has locked.

ghost use Rattle.std.specs.Prelude.{◌≡◌, ◌<◌, Some, None, IsSome, IsSomeAnd, IfSome, IfNone, IsTrue};
ghost use Rattle.mt_word.specs.declared.permutation_word.TheConstants.{SLOTS};
ghost use Rattle.mt_border.specs.Order.{IsBorder};
ghost use Rattle.mt_border.specs.Slots.{slot_at, key_at, order_shown};
ghost use Rattle.mt_arena.specs.Node.{node_at, border_at};
ghost use Rattle.mt_tree.specs.InteriorSteps.{child_at};
ghost use Rattle.mt_remove.specs.Seen.{free_interior, is_lone, place_in, later_place, is_free_border, leads_below, link_of};

use mt_arena::{Field, Node, Part};
use mt_border::{Mark, RightLink, ValuePart};
use mt_interior::Interior;
use mt_tree::Tree;
use mt_types::numbers::NodeNo;
use mt_word::Permutation;

// The interior that a node is, if it is neither marked deleted nor locked.
fn free_interior(node: &Node) -> Option<&Interior>
    ensures some { IfSome result (λ interior. free_interior node.now ≡ Some interior.now) }
    ensures none { IfNone result (free_interior node.now ≡ None) }
{
    match node {
        Node::Interior(own) if !own.version().deleted() && !own.version().is_locked() => Some(own),
        Node::Head(_) | Node::Interior(_) | Node::Border(_) => None,
    }
}

/// Returns whether a node is an interior whose only child is `child`, and is neither marked deleted nor locked.
/// Constant cost.
pub fn is_lone(tree: &Tree, number: NodeNo, child: NodeNo) -> bool
    requires { IsSome (node_at tree.now.nodes number.0) }
    ensures { IsSomeAnd (node_at tree.now.nodes number.0) (λ node. result ≡ is_lone node child) }
{
    match free_interior(tree.node(number)) {
        Some(interior) => interior.len() == 1 && interior.child(0).node.0 == child.0,
        None => false,
    }
}

/// Returns the place of `child` among the children of a node, if the node is an interior that is neither marked deleted
/// nor locked, and names it. Looks at each child once.
pub fn place_in(tree: &Tree, number: NodeNo, child: NodeNo) -> Option<usize>
    requires { IsSome (node_at tree.now.nodes number.0) }
    ensures value { IsSomeAnd (node_at tree.now.nodes number.0) (λ node. result ≡ place_in node child) }
    ensures named { IfSome result
        (λ place. IsSomeAnd (child_at tree.now.nodes number.0 place) (λ there. there.node ≡ child)) }
{
    free_interior(tree.node(number))?.place_of(child)
}

/// Returns the same as `place_in`, but `None` if that is the first place.
pub fn later_place(tree: &Tree, number: NodeNo, child: NodeNo) -> Option<usize>
    requires { IsSome (node_at tree.now.nodes number.0) }
    ensures value { IsSomeAnd (node_at tree.now.nodes number.0) (λ node. result ≡ later_place node child) }
    ensures named { IfSome result
        (λ place. IsSomeAnd (child_at tree.now.nodes number.0 place) (λ there. there.node ≡ child)) }
    ensures later { IfSome result (λ place. 0 < place) }
{
    let place = place_in(tree, number, child)?;
    (place > 0).then_some(place)
}

/// Returns whether a node is a border that is neither marked deleted nor locked. Constant cost.
pub fn is_free_border(tree: &Tree, number: NodeNo) -> bool
    requires { IsSome (node_at tree.now.nodes number.0) }
    ensures value { IsSomeAnd (node_at tree.now.nodes number.0) (λ node. result ≡ is_free_border node) }
    ensures sound { IsTrue result → IsSomeAnd (border_at tree.now.nodes number.0) IsBorder }
{
    match tree.node(number) {
        Node::Border(own) => !own.version().deleted() && !own.version().is_locked(),
        Node::Head(_) | Node::Interior(_) => false,
    }
}

/// Returns the order of a border. Constant cost.
pub fn order_at(tree: &Tree, number: NodeNo) -> Permutation
    requires { IsSome (border_at tree.now.nodes number.0) }
    ensures { IsSomeAnd (border_at tree.now.nodes number.0) (λ b. IsBorder b × (result ≡ order_shown b)) }
{
    let _border = tree.border(number);
    match tree.part(number, Field::Order) {
        Part::Order(order) => order,
        _ => unreachable!(),
    }
}

/// Returns the right link of a border. Constant cost.
pub fn right_at(tree: &Tree, number: NodeNo) -> Option<RightLink>
    requires { IsSome (border_at tree.now.nodes number.0) }
    ensures { IsSomeAnd (border_at tree.now.nodes number.0) (λ b. result ≡ b.right) }
{
    let _border = tree.border(number);
    match tree.part(number, Field::Right) {
        Part::Right(right) => right,
        _ => unreachable!(),
    }
}

/// Returns whether the key of a slot of a border leads below from a slice. Constant cost.
pub fn leads_below(tree: &Tree, number: NodeNo, slot: usize, slice: u64) -> bool
    requires border { IsSome (border_at tree.now.nodes number.0) }
    requires slot { slot < SLOTS }
    ensures { IsSomeAnd (border_at tree.now.nodes number.0) (λ b. IsBorder b × (result ≡ leads_below slice (key_at b slot))) }
{
    let _border = tree.border(number);
    match tree.part(number, Field::Key(slot)) {
        Part::Key(key) => key.mark == Mark::Layer && key.slice == slice,
        _ => unreachable!(),
    }
}

/// Returns the head to which the value of a slot of a border leads, if it is a link. Constant cost.
pub fn link_at(tree: &Tree, number: NodeNo, slot: usize) -> Option<NodeNo>
    requires border { IsSome (border_at tree.now.nodes number.0) }
    requires slot { slot < SLOTS }
    ensures { IsSomeAnd (border_at tree.now.nodes number.0) (λ b. IsBorder b × (result ≡ link_of (slot_at b slot).entry.content)) }
{
    let _border = tree.border(number);
    match tree.part(number, Field::Value(slot)) {
        Part::Value(ValuePart::Link(head)) => Some(head),
        Part::Value(ValuePart::Row(_)) => None,
        _ => unreachable!(),
    }
}
