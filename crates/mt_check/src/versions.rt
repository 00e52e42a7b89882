//! The versions of each key: which row each commit of the key left, sorted by its number.

ghost use Rattle.std.specs.Prelude.{◌≡◌, ℕ, if◌then◌else◌, List, [], ◌∷◌, ◌++◌, None, nat_eq, OnOk};
ghost use Rattle.std.specs.Option.{is_none, option_copied};
ghost use Rattle.std.specs.Ordering.{is_eq};
ghost use Rattle.std.specs.Cmp.Lexicographic.{pointwise};
ghost use Rattle.mt_types.specs.Keys.{key_cmp};
ghost use Rattle.mt_types.specs.Rows.{chosen};
ghost use Rattle.mt_check.specs.Versions.{version_of, versions_in, Rising, standing, later, some_until, some_between, shows_as, last_row};

use mt_types::copying::TryCopy;
use mt_types::key::Key;
use mt_types::refusal::NoMemory;
use mt_types::row::{Columns, Delta, Row};
use std::alloc::Global;
use std::collections::BTreeMap;

/// The row that a commit left under its key, or none.
#[derive(Drop)]
pub(crate) struct Version {
    pub(crate) number: u64,
    pub(crate) row: Option<Row>,
}

/// The versions of each key, in the order of their numbers.
#[derive(Drop)]
pub(crate) struct Versions {
    pub(crate) of: BTreeMap<Key, Vec<Version>>,
}

impl Versions {
    /// Of no key. Takes no memory.
    pub(crate) fn new(alloc: Global) -> Versions
        ensures { (key : List ℕ) → versions_in result key ≡ [] }
    {
        Versions {
            of: BTreeMap::new(alloc),
        }
    }

    /// The versions of a key. O(log n) in the keys.
    pub(crate) fn of_key(&self, key: &Key) -> &[Version]
        ensures { result.now ≡ versions_in self.now key.now }
    {
        match self.of.get(key) {
            Some(versions) => versions.as_slice(),
            None => &[],
        }
    }

    /// Adds the version that a delta leaves. O(log n) in the keys, and at most three allocations.
    pub(crate) fn add(&mut self, alloc: Global, delta: &Delta) -> Result<(), NoMemory>
        ensures { OnOk result ((key : List ℕ) → versions_in self.new key
            ≡ (if is_eq (key_cmp key delta.now.key)
            then versions_in self.old key ++ version_of delta.now ∷ []
            else versions_in self.old key)) }
    {
        let version = Version {
            number: delta.number,
            row: delta.after.copy(alloc)?,
        };
        match self.of.get_mut(&delta.key) {
            Some(versions) => versions.push(version)?,
            None => {
                let first = Vec::from_array(alloc, [version])?;
                self.of.insert(delta.key.copy(alloc)?, first)?;
            }
        }
        Ok(())
    }
}

/// The row that the last version leaves.
pub(crate) fn last_of(versions: &[Version]) -> Option<&Row>
    ensures { option_copied result ≡ last_row None versions.now }
{
    match versions.last() {
        Some(version) => version.row.as_ref(),
        None => None,
    }
}

/// The row at a number, and the versions after that number. O(log n) in the versions.
fn split(versions: &[Version], number: u64) -> (Option<&Row>, &[Version])
    requires { Rising 0 versions.now }
    ensures standing { option_copied result.0 ≡ standing number None versions.now }
    ensures later { result.1.now ≡ later number versions.now }
{
    let count = versions.partition_point(|version| version.number <= number);
    let (before, after) = versions.split_at(count);
    (last_of(before), after)
}

// Whether the key has no row after one of the first versions, up to a number.
fn lacks_until(versions: &[Version], to: u64) -> bool
    ensures { result ≡ some_until is_none to versions.now }
{
    for version in versions {
        if version.number > to {
            return false;
        }
        if version.row.is_none() {
            return true;
        }
    }
    false
}

/// Whether the key has no row at some number from one to another. O(log n + m) in the versions of the key and those
/// between.
pub(crate) fn lacks_between(versions: &[Version], from: u64, to: u64) -> bool
    requires { Rising 0 versions.now }
    ensures { result ≡ some_between is_none from to versions.now }
{
    let (standing, later) = split(versions, from);
    standing.is_none() || lacks_until(later, to)
}

// Whether the columns that are asked for are these.
fn columns_show(asked: &[u8], columns: &Columns, answer: &Columns) -> bool
    ensures { result ≡ pointwise (pointwise nat_eq) (chosen asked.now columns.now) answer.now }
{
    if asked.is_empty() {
        return columns == answer;
    }
    if asked.len() != answer.len() {
        return false;
    }
    for (i, number) in asked.iter().enumerate() {
        if columns.get_or_empty(*number as usize) != answer.get_or_empty(i) {
            return false;
        }
    }
    true
}

fn is_shown(asked: &[u8], row: Option<&Row>, answer: &Row) -> bool
    ensures { result ≡ shows_as asked.now answer.now (option_copied row.entry) }
{
    match row {
        Some(row) => {
            row.version == answer.version && columns_show(asked, &row.columns, &answer.columns)
        }
        None => false,
    }
}

// Whether one of the first versions, up to a number, is shown so.
fn shows_until(versions: &[Version], to: u64, asked: &[u8], answer: &Row) -> bool
    ensures { result ≡ some_until (shows_as asked.now answer.now) to versions.now }
{
    for version in versions {
        if version.number > to {
            return false;
        }
        if is_shown(asked, version.row.as_ref(), answer) {
            return true;
        }
    }
    false
}

/// Whether the row at some number from one to another is shown so. O(log n + m) in the versions of the key and those
/// between.
pub(crate) fn shows_between(
    versions: &[Version],
    from: u64,
    to: u64,
    asked: &[u8],
    answer: &Row,
) -> bool
    requires { Rising 0 versions.now }
    ensures { result ≡ some_between (shows_as asked.now answer.now) from to versions.now }
{
    let (standing, later) = split(versions, from);
    is_shown(asked, standing, answer) || shows_until(later, to, asked, answer)
}
