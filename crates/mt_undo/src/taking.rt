//! A key's row is given back as it was before a change.

ghost use Rattle.std.specs.Prelude.{ℕ, List, ◌≡◌, ◌≢◌, ◌↔◌, Some};
ghost use Rattle.mt_types.specs.declared.row.Row.{Row as RowView};
ghost use Rattle.mt_slice.specs.Place.{AreBytes};
ghost use Rattle.mt_tree.specs.Seen.{HasRow};
ghost use Rattle.mt_steps.specs.Step.{RowIs};
ghost use Rattle.mt_steps.specs.Lone.{IsLoneTree};
ghost use Rattle.mt_undo.specs.Taking.{IsEntryOf, IsTakenBack};

use mt_border::Found;
use mt_slice::key_bytes;
use mt_steps::way::{START, Went};
use mt_tree::Tree;
use mt_types::key::Key;
use mt_types::numbers::NodeNo;
use mt_types::row::Row;

// The border of a key that has a row, and the place of its entry.
fn entry_of(tree: &Tree, key: &Key) -> (NodeNo, usize)
    requires lone { IsLoneTree tree.now }
    requires there { (row : RowView) × RowIs tree.now key.now (Some row) }
    ensures { (lone : IsLoneTree tree.now)
        → (entry : IsEntryOf tree.now key.now result.0.0 result.1) × (entry.lone ≡ lone) }
{
    let _bytes = key_bytes(key);
    let mut way = START;
    loop {
        match way.arrive(tree, key) {
            Ok(found) => {
                let _sound = tree.border(way.node).len();
                let Found::Row(place) = found else {
                    unreachable!()
                };
                return (way.node, place);
            }
            Err(Went::To(next)) => way = next,
            Err(Went::Again) => unreachable!(),
            Err(Went::Here) => unreachable!(),
        }
    }
}

/// Gives a key that has a row the row that it had before, or none. No other key's row changes. No change may be under way.
///
/// Costs the visit of each node on the way to the key. Allocates nothing, so it can't fail.
pub fn take_back(tree: &mut Tree, key: &Key, before: Option<Row>)
    requires lone { IsLoneTree tree.old }
    requires there { (row : RowView) × RowIs tree.old key.now (Some row) }
    ensures back { (lone : IsLoneTree tree.old) → IsTakenBack tree.old key.now before lone.now tree.new }
{
    let (number, place) = entry_of(tree, key);
    match before {
        Some(row) => {
            let _gone = tree.set_value(number, place, row);
        }
        None => tree.hide_row(number, place),
    }
}
