//! Whether the answer of a range is right over a span of numbers.

ghost use Rattle.std.specs.Prelude.{◌≡◌, ℕ, List};
ghost use Rattle.std.specs.BTreeMap.{IsOrdered};
ghost use Rattle.mt_types.specs.Keys.{key_cmp};
ghost use Rattle.mt_check.specs.Versions.{Rising, versions_in};
ghost use Rattle.mt_check.specs.Ranges.{entries_from, walks_in};

use crate::versions::{Version, Versions, lacks_between, shows_between};
use mt_types::key::Key;
use mt_types::row::Row;
use std::cmp::Ordering;
use std::collections::btree_map::Range;

/// The numbers of commits from the begin of a call to its end.
#[derive(Clone, Copy)]
pub(crate) struct Span {
    pub(crate) from: u64,
    pub(crate) to: u64,
}

/// What a range asked for: at most `limit` rows from `start` on, shown by these columns.
#[derive(Drop)]
pub(crate) struct Asked<'a> {
    pub(crate) start: &'a Key,
    pub(crate) limit: u16,
    pub(crate) columns: &'a [u8],
}

fn from_key<'a>(versions: &'a Versions, start: &Key) -> Range<'a, Key, Vec<Version>>
    ensures items { result ≡ entries_from start.now versions.now }
    ensures ordered { IsOrdered key_cmp versions.now.of }
{
    versions.of.range(start..)
}

/// Walks over the pairs and over the keys from the start on. Returns whether each pair is one of the keys and was shown
/// so, and each key that is passed over lacked a row at some number of the span. O(log n + m) in the keys, those walked
/// over and their versions in the span. After the last pair it continues only if the limit was not met.
pub(crate) fn walk(versions: &Versions, asked: &Asked<'_>, span: Span, pairs: &[(Key, Row)]) -> bool
    requires { (key : List ℕ) → Rising 0 (versions_in versions.now key) }
    ensures ordered { IsOrdered key_cmp versions.now.of }
    ensures walked { result
        ≡ walks_in versions.now asked.now.start.now asked.now.limit asked.now.columns.now span.from span.to
        pairs.now }
{
    let full = pairs.len() >= asked.limit as usize;
    let mut rest = pairs;
    for (key, of_key) in from_key(versions, asked.start) {
        match rest.split_first() {
            None => {
                if full {
                    return true;
                }
                if !lacks_between(of_key, span.from, span.to) {
                    return false;
                }
            }
            Some((pair, more)) => match key.cmp(&pair.0) {
                Ordering::Less => {
                    if !lacks_between(of_key, span.from, span.to) {
                        return false;
                    }
                }
                Ordering::Equal => {
                    if !shows_between(of_key, span.from, span.to, asked.columns, &pair.1) {
                        return false;
                    }
                    rest = more;
                }
                Ordering::Greater => return false,
            },
        }
    }
    rest.is_empty()
}
