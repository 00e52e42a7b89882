//! What a tidy notes on its way through a layer.

ghost use Rattle.std.specs.Prelude.{◌≡◌, IsSome, IsSomeAnd};
ghost use Rattle.mt_arena.specs.Node.{node_at, border_at};
ghost use Rattle.mt_remove.specs.Noted.{is_first, namer_of, noted_from, noted_below, AtOrder, glanced};

use crate::seen::order_at;
use mt_arena::Node;
use mt_interior::Interior;
use mt_steps::finding::Finding;
use mt_steps::reader::{Glance, Reader};
use mt_steps::way::Way;
use mt_tree::{TOP, Tree};
use mt_types::numbers::NodeNo;

/// How a call came to the node at which it is.
#[derive(Clone, Copy)]
pub enum Came {
    /// From the head of the layer.
    Head,
    /// As a child of an interior.
    Child {
        parent: NodeNo,
        /// Whether it is the first one.
        first: bool,
    },
    /// From the border to its left.
    Left,
}

/// What names an interior: the head of the layer, or an interior above it.
#[derive(Clone, Copy)]
pub enum Namer {
    Head(NodeNo),
    Interior(NodeNo),
}

/// An interior with one child.
#[derive(Clone, Copy)]
pub struct OneChild {
    pub interior: NodeNo,
    pub child: NodeNo,
    pub namer: Namer,
}

/// What a tidy has noted in the layer in which it is.
#[derive(Clone, Copy)]
pub struct Noted {
    /// The head of the layer.
    pub head: NodeNo,
    /// The border above, whose link leads to the layer.
    pub above: Option<NodeNo>,
    pub came: Came,
    /// The lowest interior with one child, of those that it came through.
    pub lone: Option<OneChild>,
    /// What it has read of the border at which it is, up to its order.
    pub glance: Option<Glance>,
}

/// What is noted at the begin.
pub const NOTHING: Noted = Noted {
    head: TOP,
    above: None,
    came: Came::Head,
    lone: None,
    glance: None,
};

// Whether the node is the first child of an interior.
fn is_first(interior: &Interior, node: NodeNo) -> bool
    ensures { result ≡ is_first node interior.now.children }
{
    matches!(interior.place_of(node), Some(0))
}

impl Noted {
    // Returns what names the interior at which the call is.
    fn namer(&self) -> Namer
        ensures { result ≡ namer_of self.now }
    {
        match self.came {
            Came::Child { parent, .. } => Namer::Interior(parent),
            Came::Head | Came::Left => Namer::Head(self.head),
        }
    }

    // In the layer of a head, below a border.
    fn below(above: NodeNo, head: NodeNo) -> Noted
        ensures { result ≡ noted_below above head }
    {
        Noted {
            head,
            above: Some(above),
            came: Came::Head,
            lone: None,
            glance: None,
        }
    }

    /// Returns what is noted once the call reads the next field of a border: if that is the order, what it has read up to
    /// it. Constant cost.
    pub fn glanced(self, finding: &Finding, tree: &Tree, number: NodeNo) -> Noted
        requires { AtOrder finding.now → IsSome (border_at tree.now.nodes number.0) }
        ensures { result ≡ glanced finding.now (border_at tree.now.nodes number.0) self }
    {
        match finding {
            Reader::Bounded(counters, right) => Noted {
                glance: Some(Glance {
                    counters: *counters,
                    right: *right,
                    order: order_at(tree, number),
                }),
                ..self
            },
            _ => self,
        }
    }

    /// Returns what is noted once the call advances from the node of `way` to that of `next`. Looks at each child of an
    /// interior, of which there are at most sixteen.
    pub fn goes_on(&self, tree: &Tree, way: Way, next: Way) -> Noted
        requires { IsSome (node_at tree.now.nodes way.node.0) }
        ensures { IsSomeAnd (node_at tree.now.nodes way.node.0) (λ node. result ≡ noted_from node way next self.now) }
    {
        if next.layer != way.layer {
            return Noted::below(way.node, next.node);
        }
        match tree.node(way.node) {
            Node::Head(_) => Noted {
                came: Came::Head,
                glance: None,
                ..*self
            },
            Node::Interior(interior) => {
                let first = is_first(interior, next.node);
                let lone = if interior.len() == 1 {
                    Some(OneChild {
                        interior: way.node,
                        child: next.node,
                        namer: self.namer(),
                    })
                } else {
                    self.lone
                };
                Noted {
                    came: Came::Child {
                        parent: way.node,
                        first,
                    },
                    lone,
                    glance: None,
                    ..*self
                }
            }
            Node::Border(_) => Noted {
                came: Came::Left,
                glance: None,
                ..*self
            },
        }
    }
}
