//! The begin of a walk in a border: at the first entry that is not before what is left of its first key.

ghost use Rattle.std.specs.Prelude.{◌≡◌, ◌≤◌, length, IfSome, IsTrue, IsFalse, None};
ghost use Rattle.mt_slice.specs.Place.{deeper, AreBytes, Precedes, place_of, slice_number};
ghost use Rattle.mt_chart.specs.Scan.{AtMost};
ghost use Rattle.mt_border.specs.Entry.{IsEntry};
ghost use Rattle.mt_border.specs.Order.{IsBorder};
ghost use Rattle.mt_tree.specs.Seen.{entry_seen};
ghost use Rattle.mt_walk.specs.Start.{IsPassed, IsLeft, BeginsAt, LinksAt, LinksNot};

use mt_border::{Border, Content, Entry};
use mt_slice::{SLICE_BYTES, rest_of, slice_of};
use mt_types::numbers::NodeNo;
use std::cmp::Ordering;

// Whether a suffix is before what the rest of a key has after its slice.
fn is_less(suffix: &[u8], rest: &[u8]) -> bool
    requires { AreBytes suffix.now }
    ensures less { IsTrue result → Precedes (deeper (slice_number rest.now) (place_of suffix.now)) (place_of rest.now) }
    ensures more { IsFalse result → AtMost (place_of rest.now) (deeper (slice_number rest.now) (place_of suffix.now)) }
{
    if rest.len() <= SLICE_BYTES {
        return false;
    }
    match suffix.cmp(rest_of(rest)) {
        Ordering::Less => true,
        Ordering::Equal => false,
        Ordering::Greater => false,
    }
}

// Whether all that an entry has is before the rest of a key. Costs at most one comparison of bytes.
fn is_before(entry: &Entry, rest: &[u8]) -> bool
    requires { IsEntry entry.now }
    ensures passed { IsTrue result → IsPassed (place_of rest.now) (entry_seen entry.now) }
    ensures left { IsFalse result → IsLeft (place_of rest.now) (entry_seen entry.now) }
{
    let (slice, _) = slice_of(rest);
    if entry.slice != slice {
        return entry.slice < slice;
    }
    match &entry.content {
        Content::Short(length, _) => length.get() < rest.len(),
        Content::Long(suffix, _) => is_less(suffix.as_slice(), rest),
        Content::Link(_) => false,
    }
}

/// Returns how many entries of a border are before the rest of a key. Looks at each of them.
pub(crate) fn entries_before(border: &Border, rest: &[u8]) -> usize
    ensures begins { BeginsAt border.now.live (place_of rest.now) result }
    ensures sound { IsBorder border.now }
{
    for place in 0..border.len() {
        if !is_before(border.entry(place), rest) {
            return place;
        }
    }
    border.len()
}

/// Returns the head of the layer in which the rest of a key continues, if a border has a link to it at this place.
/// Constant cost.
pub(crate) fn link_at(border: &Border, place: usize, rest: &[u8]) -> Option<NodeNo>
    ensures some { IfSome result (LinksAt border.now.live place rest.now) }
    ensures none { result ≡ None → LinksNot border.now.live place rest.now }
{
    if rest.len() <= SLICE_BYTES || place >= border.len() {
        return None;
    }
    let entry = border.entry(place);
    let (slice, _) = slice_of(rest);
    if entry.slice != slice {
        return None;
    }
    match &entry.content {
        Content::Link(head) => Some(*head),
        Content::Short(_, _) => None,
        Content::Long(_, _) => None,
    }
}
