//! The way of a call down the tree, to the border of its key.

ghost use Rattle.std.specs.Prelude.{◌≡◌, ◌≢◌, ◌*◌, ◌≤◌, length, true, Err, IfOk, IfErr};
ghost use Rattle.mt_types.specs.declared.limits.TheConstants.{MAX_KEY_BYTES};
ghost use Rattle.mt_slice.specs.Place.{rest_at, AreBytes};
ghost use Rattle.mt_arena.specs.Arena.{ArenaView, IsArena};
ghost use Rattle.mt_tree.specs.Descent.{is_marked};
ghost use Rattle.mt_steps.specs.Way.{Finds, MayGo, MayGoAt, Names, Visits, VisitIs, went_at, went_by};
ghost use Rattle.mt_steps.specs.Causes.{IsMarkedAt};

use mt_arena::Node;
use mt_border::Found;
use mt_slice::{SLICE_BYTES, key_bytes};
use mt_tree::{TOP, Tree, Visit, arrive, visit_node};
use mt_types::key::Key;
use mt_types::numbers::NodeNo;

/// The place of a call on its way: a node, in a layer.
#[derive(Clone, Copy)]
pub struct Way {
    pub node: NodeNo,
    /// How many layers are above.
    pub layer: usize,
}

/// What a visit of a node leads to.
#[derive(Clone, Copy)]
pub enum Went {
    /// The node is marked deleted.
    Again,
    /// The call continues at this place.
    To(Way),
    /// It is at the border of its key.
    Here,
}

/// Every way begins at the head of layer 0.
pub const START: Way = Way {
    node: TOP,
    layer: 0,
};

/// Returns what the layers above a layer have left of a key.
pub fn rest_of(key: &Key, layer: usize) -> &[u8]
    requires { 8 * layer ≤ length key.now }
    ensures value { result.now ≡ rest_at layer key.now }
    ensures bytes { AreBytes key.now }
    ensures fits { length key.now ≤ MAX_KEY_BYTES }
{
    &key_bytes(key)[SLICE_BYTES * layer..]
}

/// Returns where a visit leads from a place on a way.
pub fn led(way: Way, visit: Visit) -> Went
    requires { way.layer ≤ MAX_KEY_BYTES }
    ensures { result ≡ went_by way visit }
{
    match visit {
        Visit::Again => Went::Again,
        Visit::To(node) => Went::To(Way {
            node,
            layer: way.layer,
        }),
        Visit::Below(node) => Went::To(Way {
            node,
            layer: way.layer + 1,
        }),
        Visit::Here => Went::Here,
    }
}

impl Way {
    /// Visits the node at which the call is, and is lent no other.
    pub fn visit_node(&self, node: &Node, key: &Key) -> Went
        requires { MayGoAt key.now self.now node.now }
        ensures value { result ≡ went_at key.now self.now node.now }
        ensures again { result ≡ Went.Again → is_marked node.now ≡ true }
        ensures visits { (a : ArenaView) → Names a self.now.node.0 node.now → Visits a key.now self.now result }
        ensures bytes { AreBytes key.now }
    {
        led(*self, visit_node(node, rest_of(key, self.layer)))
    }

    /// Visits the node at which the call is.
    pub fn visit(&self, tree: &Tree, key: &Key) -> Went
        requires { MayGo tree.now key.now self.now }
        ensures visits { Visits tree.now key.now self.now result }
        ensures value { VisitIs tree.now key.now self.now result }
        ensures again { result ≡ Went.Again → IsMarkedAt tree.now self.now.node.0 }
        ensures sound { IsArena tree.now }
        ensures bytes { AreBytes key.now }
    {
        self.visit_node(tree.node(self.node), key)
    }
    /// Visits the node at which the call is. Returns what a search finds there if the node is the border of the key, and
    /// otherwise where the way leads. Searches the node once.
    pub fn arrive(&self, tree: &Tree, key: &Key) -> Result<Found, Went>
        requires { MayGo tree.now key.now self.now }
        ensures ends { IfOk result (λ found. Visits tree.now key.now self.now Went.Here) }
        ensures finds { IfOk result (Finds tree.now key.now self.now) }
        ensures leads { IfErr result (Visits tree.now key.now self.now) }
        ensures on { IfErr result (λ went. went ≢ Went.Here) }
        ensures again { result ≡ Err Went.Again → IsMarkedAt tree.now self.now.node.0 }
        ensures sound { IsArena tree.now }
        ensures bytes { AreBytes key.now }
    {
        let node = tree.node(self.node);
        let Node::Border(border) = node else {
            return Err(self.visit_node(node, key));
        };
        match arrive(border, rest_of(key, self.layer)) {
            Ok(found) => Ok(found),
            Err(visit) => Err(led(*self, visit)),
        }
    }
}
