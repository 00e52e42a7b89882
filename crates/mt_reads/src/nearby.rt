//! Where to begin to read the rows before a key: near it, so that few rows are read.

ghost use Rattle.std.specs.Prelude.{◌≡◌, ◌≢◌, ◌*◌, ◌≤◌, IfOk, Some, [], length};
ghost use Rattle.std.specs.Option.{option_copied};
ghost use Rattle.mt_steps.specs.Lone.{IsLoneTree};
ghost use Rattle.mt_reads.specs.Back.{IsBefore};

use crate::rows::{key_of, least_key};
use mt_border::{Border, Content, Entry};
use mt_slice::{SLICE_BYTES, key_bytes, rest_of as suffix_of, slice_of};
use mt_steps::way::{START, Went, rest_of};
use mt_tree::Tree;
use mt_types::key::Key;
use mt_types::limits::MAX_KEY_BYTES;
use mt_types::refusal::NoMemory;
use std::alloc::Global;

// How many borders are looked at for one begin, at most.
const LOOKS: u32 = 8;

// For how many bytes of a key there is room at first.
const ROOM: usize = 64;

// What is in front of a place of a layer.
#[derive(Drop)]
enum Front {
    // Rows, of which the first of those without a link in between is this entry.
    From(usize),
    // A layer below this slice.
    Below(u64),
    // Nothing, in a border of which this is the least slice.
    Left(u64),
}

// Appends the greatest bytes, to the end of a slice and for one slice more.
fn pad(bytes: &mut Vec<u8>) -> Result<(), NoMemory> {
    let most = 2 * SLICE_BYTES - bytes.len() % SLICE_BYTES;
    bytes.extend_from_slice(&[u8::MAX; 2 * SLICE_BYTES][..most])?;
    Ok(())
}

// Returns the bytes after which nearly no key is before `end`, or nearly no key is.
fn just_before(alloc: Global, end: Option<&[u8]>) -> Result<Vec<u8>, NoMemory> {
    let mut bytes = Vec::with_capacity(alloc, ROOM)?;
    if let Some(end) = end {
        bytes.extend_from_slice(end)?;
        match bytes.pop() {
            Some(byte) if byte > 0 => bytes.push(byte - 1)?,
            _ => return Ok(bytes),
        }
    }
    pad(&mut bytes)?;
    Ok(bytes)
}

// Whether an entry is at the rest of a key or before it. A link is before what isn't in its layer.
fn is_up_to(entry: &Entry, rest: &[u8]) -> bool {
    let (slice, _) = slice_of(rest);
    if entry.slice != slice {
        return entry.slice < slice;
    }
    match &entry.content {
        Content::Short(length, _) => length.get() <= rest.len(),
        Content::Long(suffix, _) => {
            rest.len() > SLICE_BYTES && suffix.as_slice().cmp(suffix_of(rest)).is_le()
        }
        Content::Link(_) => rest.len() > SLICE_BYTES,
    }
}

// Looks at what a border has up to the rest of a key.
fn look(border: &Border, rest: &[u8]) -> Front {
    let mut first = 0;
    let mut front = Front::Left(border.low());
    for place in 0..border.len() {
        let entry = border.entry(place);
        if !is_up_to(entry, rest) {
            break;
        }
        if let Content::Link(_) = &entry.content {
            first = place + 1;
            front = Front::Below(entry.slice);
        } else {
            front = Front::From(first);
        }
    }
    front
}

// Appends the key of an entry with a row, as far as the layer has it.
fn push_entry(bytes: &mut Vec<u8>, entry: &Entry) -> Result<(), NoMemory> {
    let slice = entry.slice.to_be_bytes();
    match &entry.content {
        Content::Short(length, _) => {
            let before = bytes.len();
            bytes.extend_from_slice(&slice)?;
            bytes.truncate(before + length.get());
        }
        Content::Long(suffix, _) => {
            bytes.extend_from_slice(&slice)?;
            bytes.extend_from_slice(suffix.as_slice())?;
        }
        Content::Link(_) => bytes.extend_from_slice(&slice)?,
    }
    Ok(())
}

// Appends a slice, and what is at the end of its layer.
fn push_end(bytes: &mut Vec<u8>, slice: u64) -> Result<(), NoMemory> {
    bytes.extend_from_slice(&slice.to_be_bytes())?;
    pad(bytes)
}

// Returns where the rows begin that are in front of a key in the border of the key, and whether there are some. If not,
// it is a key in front of which there may be some.
fn step(alloc: Global, tree: &Tree, key: &Key) -> Result<(Vec<u8>, bool), NoMemory>
    requires { IsLoneTree tree.now }
{
    let _bytes = rest_of(key, 0);
    let mut way = START;
    loop {
        match way.visit(tree, key) {
            Went::To(next) => way = next,
            Went::Here => return begin_in(alloc, tree.border(way.node), key, way.layer),
            Went::Again => unreachable!(),
        }
    }
}

// The same in this border.
fn begin_in(
    alloc: Global,
    border: &Border,
    key: &Key,
    layer: usize,
) -> Result<(Vec<u8>, bool), NoMemory>
    requires { 8 * layer ≤ length key.now }
{
    let rest = rest_of(key, layer);
    let above = &key_bytes(key)[..SLICE_BYTES * layer];
    let mut bytes = Vec::with_capacity(alloc, ROOM)?;
    bytes.extend_from_slice(above)?;
    match look(border, rest) {
        Front::From(place) if place < border.len() => {
            push_entry(&mut bytes, border.entry(place))?;
            Ok((bytes, true))
        }
        Front::From(_) => Ok((bytes, true)),
        Front::Below(slice) => {
            push_end(&mut bytes, slice)?;
            Ok((bytes, false))
        }
        Front::Left(0) => Ok((bytes, layer == 0)),
        Front::Left(low) => {
            push_end(&mut bytes, low - 1)?;
            Ok((bytes, false))
        }
    }
}

// Returns a key of the first of these bytes.
fn short_key(alloc: Global, bytes: &[u8]) -> Result<Key, NoMemory> {
    let most = bytes.len().min(MAX_KEY_BYTES);
    match key_of(alloc, &bytes[..most]) {
        Ok(key) => Ok(key),
        Err(_) => Err(NoMemory),
    }
}

// Returns a key from which on few rows are before `end`.
fn near(alloc: Global, tree: &Tree, end: Option<&[u8]>) -> Result<Key, NoMemory>
    requires { IsLoneTree tree.now }
{
    let bytes = just_before(alloc, end)?;
    let mut key = short_key(alloc, bytes.as_slice())?;
    for _ in 0..LOOKS {
        let (bytes, is_there) = step(alloc, tree, &key)?;
        key = short_key(alloc, bytes.as_slice())?;
        if is_there {
            break;
        }
    }
    Ok(key)
}

/// Returns a key before `end`, or any key if there is no end: one from which on few rows are before the end, if that is
/// cheap to find. The end isn't the empty key.
///
/// Costs the visits of the nodes on the way to a few borders, of which each is left of the last, and a few allocations.
///
/// # Errors
///
/// `NoMemory` if an allocation is refused.
pub(crate) fn begin_before(alloc: Global, tree: &Tree, end: Option<&[u8]>) -> Result<Key, NoMemory>
    requires lone { IsLoneTree tree.now }
    requires some { option_copied end ≢ Some [] }
    ensures { IfOk result (IsBefore (option_copied end.entry)) }
{
    let begin = near(alloc, tree, end)?;
    match end {
        Some(end) if key_bytes(&begin).cmp(end).is_ge() => Ok(least_key()),
        _ => Ok(begin),
    }
}
