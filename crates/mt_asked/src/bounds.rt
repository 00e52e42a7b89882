//! Bounds of keys, as std has them: which keys are within them.

ghost use Rattle.std.specs.Prelude.{◌≡◌, filter};
ghost use Rattle.std.specs.Range.Bound.{bound_map};
ghost use Rattle.mt_asked.specs.Bounds.{is_from, is_up_to, is_within, start_key};

use mt_types::items::Items;
use mt_types::row::Pairs;
use std::ops::Bound;

/// A lower and an upper bound of keys.
///
///     let bounds = (Bound::Included(b"a"), Bound::Excluded(b"b"));
pub type Bounds<'a> = (Bound<&'a [u8]>, Bound<&'a [u8]>);

/// Returns the key of a lower bound, or the empty key if there is none.
pub fn start_key<'a>(start: Bound<&'a [u8]>) -> &'a [u8]
    ensures { result.now ≡ start_key (bound_map (λ key. key.now) start.entry) }
{
    match start {
        Bound::Included(key) => key,
        Bound::Excluded(key) => key,
        Bound::Unbounded => b"",
    }
}

/// Returns whether a key isn't before a lower bound.
pub fn is_from(start: Bound<&[u8]>, key: &[u8]) -> bool
    ensures { result ≡ is_from (bound_map (λ key. key.now) start.entry) key.now }
{
    match start {
        Bound::Included(first) => first.cmp(key).is_le(),
        Bound::Excluded(before) => before.cmp(key).is_lt(),
        Bound::Unbounded => true,
    }
}

/// Returns whether a key isn't after an upper bound.
pub fn is_up_to(end: Bound<&[u8]>, key: &[u8]) -> bool
    ensures { result ≡ is_up_to (bound_map (λ key. key.now) end.entry) key.now }
{
    match end {
        Bound::Included(last) => key.cmp(last).is_le(),
        Bound::Excluded(after) => key.cmp(after).is_lt(),
        Bound::Unbounded => true,
    }
}

/// Returns whether a key is within bounds.
pub fn is_within(bounds: Bounds<'_>, key: &[u8]) -> bool
    ensures { result ≡ is_within (bound_map (λ key. key.now) bounds.entry.0) (bound_map (λ key. key.now) bounds.entry.1)
        key.now }
{
    let (start, end) = bounds;
    is_from(start, key) && is_up_to(end, key)
}

/// Returns those of the pairs whose keys are within bounds. O(n) in the pairs. Allocates nothing.
pub fn pairs_within(bounds: Bounds<'_>, pairs: Pairs) -> Pairs
    ensures { result ≡ filter (λ pair. is_within (bound_map (λ key. key.now) bounds.entry.0)
        (bound_map (λ key. key.now) bounds.entry.1) pair.0) pairs }
{
    let mut kept = pairs.into_vec();
    kept.retain(|pair| is_within(bounds, pair.0.as_slice()));
    Items::from_vec(kept)
}
