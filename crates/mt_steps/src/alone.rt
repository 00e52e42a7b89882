//! The row of a key, read of a tree in which no change is under way.

ghost use Rattle.std.specs.Prelude.{◌≡◌, ◌≢◌, ◌*◌, ◌≤◌, length, true, Err, IfOk, IfErr};
ghost use Rattle.std.specs.Option.{option_copied};
ghost use Rattle.mt_types.specs.declared.limits.TheConstants.{MAX_KEY_BYTES};
ghost use Rattle.mt_slice.specs.Place.{rest_at, AreBytes};
ghost use Rattle.mt_border.specs.Order.{IsBorder};
ghost use Rattle.mt_tree.specs.Descent.{is_marked, visit_border, found_for, row_found};
ghost use Rattle.mt_arena.specs.Arena.{ArenaView};
ghost use Rattle.mt_steps.specs.Step.{RowIs};
ghost use Rattle.mt_steps.specs.Way.{Names, MayGoAt, Visits};
ghost use Rattle.mt_steps.specs.Lone.{EndsAt, IsLoneTree};

use crate::getting::row_at;
use crate::way::{START, Way, Went, led};
use mt_arena::Node;
use mt_border::{Border, Found};
use mt_slice::SLICE_BYTES;
use mt_tree::{Tree, Visit, arrive, visit_node};
use mt_types::row::Row;

// Returns what a border has for a key of which `rest` is left, if the key's way ends in it: the row, or none. Otherwise
// returns where the way leads. Searches the border once.
fn look_in<'t>(border: &'t Border, rest: &[u8]) -> Result<Option<&'t Row>, Visit>
    ensures ends { IfOk result (λ row. (visit_border rest.now border.now ≡ Visit.Here)
        × (option_copied row ≡ row_found border.now.live (found_for rest.now border.now.live))) }
    ensures leads { IfErr result (λ visit. visit ≡ visit_border rest.now border.now) }
    ensures on { IfErr result (λ visit. visit ≢ Visit.Here) }
    ensures again { result ≡ Err Visit.Again → border.now.version.deleted ≡ true }
    ensures sound { IsBorder border.now }
{
    match arrive(border, rest)? {
        Found::Row(place) => Ok(Some(row_at(border, place))),
        Found::Absent(_) | Found::OtherSuffix(_) | Found::Link(_, _) => Ok(None),
    }
}

// What the layers above a layer have left of a key.
fn rest_in(key: &[u8], layer: usize) -> &[u8]
    requires within { 8 * layer ≤ length key.now }
    requires fits { length key.now ≤ MAX_KEY_BYTES }
    ensures value { result.now ≡ rest_at layer key.now }
    ensures bytes { AreBytes key.now }
{
    // Of a variable the proof knows that its items are bytes.
    let bytes = key;
    &bytes[SLICE_BYTES * layer..]
}

// Returns what a search for a key's row finds at a node of its way: the row or none if the way ends there, otherwise
// where the way leads.
fn look<'t>(node: &'t Node, key: &[u8], way: Way) -> Result<Option<&'t Row>, Went>
    requires may { MayGoAt key.now way node.now }
    requires fits { length key.now ≤ MAX_KEY_BYTES }
    ensures ends { IfOk result (λ row. (a : ArenaView) → Names a way.node.0 node.now → EndsAt a key.now way
        (option_copied row)) }
    ensures leads { IfErr result (λ went. (a : ArenaView) → Names a way.node.0 node.now → Visits a key.now way went) }
    ensures on { IfErr result (λ went. went ≢ Went.Here) }
    ensures again { result ≡ Err Went.Again → is_marked node.now ≡ true }
{
    let rest = rest_in(key, way.layer);
    let Node::Border(border) = node else {
        return Err(led(way, visit_node(node, rest)));
    };
    match look_in(border, rest) {
        Ok(row) => Ok(row),
        Err(visit) => Err(led(way, visit)),
    }
}

/// Returns the row of `key`, borrowed of a tree in which no change is under way, or `None` if it has none.
///
/// Costs the visit of each node on the way to the key. Allocates nothing, and copies nothing.
pub fn row_of<'t>(tree: &'t Tree, key: &[u8]) -> Option<&'t Row>
    requires lone { IsLoneTree tree.now }
    requires fits { length key.now ≤ MAX_KEY_BYTES }
    ensures row { RowIs tree.now key.now (option_copied result) }
    ensures bytes { AreBytes key.now }
{
    let _bytes = rest_in(key, 0);
    let mut way = START;
    loop {
        match look(tree.node(way.node), key, way) {
            Ok(row) => return row,
            Err(Went::To(next)) => way = next,
            Err(Went::Again) => unreachable!(),
            Err(Went::Here) => unreachable!(),
        }
    }
}
