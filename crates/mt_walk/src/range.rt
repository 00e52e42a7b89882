//! A range: a walk with a limit.

ghost use Rattle.std.specs.Prelude.{◌≡◌, ◌≤◌, ◌+◌, length, slice_range, IfOk};
ghost use Rattle.mt_types.specs.declared.event.Answer.TheVariants.{Rows};
ghost use Rattle.mt_types.specs.declared.event.Request.TheVariants.{Range};
ghost use Rattle.mt_types.specs.declared.limits.TheConstants.{MAX_KEY_BYTES};
ghost use Rattle.mt_steps.specs.Lone.{IsLoneTree, IsRightNow};
ghost use Rattle.mt_walk.specs.Gathered.{AreKeys, pairs_of};

use crate::course::Course;
use crate::spelling::spell;
use bytes::Bytes;
use mt_slice::key_bytes;
use mt_tree::Tree;
use mt_types::columns::shown;
use mt_types::items::Items;
use mt_types::key::Key;
use mt_types::refusal::NoMemory;
use mt_types::row::{ColumnNumbers, Pairs, Row};
use std::alloc::Global;

// For how many keys a range makes room at its begin, at most, and how many bytes for each.
const ROOM_KEYS: u16 = 128;

const ROOM_BYTES: usize = 16;

// Returns the key of this part of the block. Allocates nothing.
fn key_at(block: &Bytes, begin: usize, end: usize) -> Result<Key, NoMemory>
    requires begins { begin ≤ end }
    requires ends { end ≤ length block.now }
    requires fits { end ≤ begin + MAX_KEY_BYTES }
    ensures { IfOk result (λ key. key ≡ slice_range block.now begin end) }
{
    match Key::new(block.slice(begin..end)?) {
        Ok(key) => Ok(key),
        Err(_) => unreachable!(),
    }
}

/// Returns the pairs of these rows, with the columns that are asked for, or with all if none is asked for. The bytes of
/// their keys are one after the other, and each row is with the place at which its key ends.
///
/// Allocates the list of the pairs, the row of each pair, and one block that the keys share. Shares the bytes of the
/// columns.
///
/// # Errors
///
/// `NoMemory` if an allocation is refused.
pub fn pairs_of(
    alloc: Global,
    bytes: Vec<u8>,
    rows: &[(usize, &Row)],
    columns: &ColumnNumbers,
) -> Result<Pairs, NoMemory>
    requires { AreKeys bytes.items 0 rows.now }
    ensures { IfOk result (λ pairs. pairs ≡ pairs_of columns.now bytes.items 0 rows.now) }
{
    let block = Bytes::from_vec(bytes)?;
    let mut pairs = Vec::with_capacity(alloc, rows.len())?;
    let mut begin = 0;
    for (end, row) in rows {
        let key = key_at(&block, begin, *end)?;
        begin = *end;
        pairs.push((key, shown(alloc, columns, row)?))?;
    }
    Ok(Items::from_vec(pairs))
}

/// Returns the pairs of a tree in which no change is under way, from `start` on, at most `limit`, with the columns that
/// are asked for, or with all if none is asked for.
///
/// Costs the visit of the nodes on the way to `start`, and of each border from there on. Allocates for the walk, for
/// the list of the pairs and the one that it is made from, for the row of each pair, and one block that the keys share.
/// Shares the bytes of the columns.
///
/// # Errors
///
/// `NoMemory` if an allocation is refused.
pub fn range_of(
    alloc: Global,
    tree: &Tree,
    start: &Key,
    limit: u16,
    columns: &ColumnNumbers,
) -> Result<Pairs, NoMemory>
    requires { IsLoneTree tree.now }
    ensures { IfOk result (λ pairs. IsRightNow tree.now (Range start.now limit columns.now) (Rows pairs)) }
{
    let _bytes = key_bytes(start);
    let mut course = Course::begin(alloc, tree, start)?;
    let room = usize::from(limit.min(ROOM_KEYS));
    let mut keys = Vec::with_capacity(alloc, ROOM_BYTES * room)?;
    let mut rows = Vec::with_capacity(alloc, room)?;
    for _ in 0..limit {
        let Some((entry, row)) = course.next()? else {
            break;
        };
        spell(&mut keys, course.path(), entry)?;
        rows.push((keys.len(), row))?;
    }
    pairs_of(alloc, keys, rows.as_slice(), columns)
}
