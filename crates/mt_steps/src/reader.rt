//! The reading of a border, one field a step: its version, its right link, its order, the keys and values of its slots,
//! and its version again.

ghost use Rattle.std.specs.Prelude.{◌≡◌, ◌<◌, ◌≤◌, length, true, false};
ghost use Rattle.mt_arena.specs.Parts.{IsField};
ghost use Rattle.mt_tree.specs.Descent.{visit_head, visit_interior};
ghost use Rattle.mt_steps.specs.declared.reader.Reader.TheVariants.{Bounded, Reads, AtValue};
ghost use Rattle.mt_steps.specs.declared.reader.Reading.TheVariants.{Restarts};
ghost use Rattle.mt_steps.specs.Reader.{counters_of, looked, bounded, settled, by_visit, wants, IsReader, WantsVersion, WantsRight, WantsOrder, WantsKey, WantsValue, at_version, at_right};

use mt_arena::Field;
use mt_border::RightLink;
use mt_interior::{Head, Interior};
use mt_tree::{Visit, visit_head, visit_interior};
use mt_types::numbers::NodeNo;
use mt_word::{Permutation, Version};

/// The counters of a border's version, as they were read.
#[derive(Clone, Copy, Debug, PartialEq, Eq)]
pub struct Counters {
    pub inserts: u64,
    pub splits: u64,
}

/// What was read of a border before its keys: its counters, its right link and its order.
#[derive(Clone, Copy)]
pub struct Glance {
    pub counters: Counters,
    pub right: Option<RightLink>,
    pub order: Permutation,
}

/// What was read of a border's slots so far.
#[derive(Drop)]
pub struct Notes<N> {
    /// What was read before the keys.
    pub glance: Glance,
    /// What is kept of the slots up to this place.
    pub kept: N,
    /// The place of the next.
    pub place: usize,
}

/// How far a call has read the border at which it is. It keeps an `N` of the slots that it has read, and a `K` of a key
/// until it has read the value. In the end it has found an `F`.
#[derive(Drop)]
pub enum Reader<N, K, F> {
    /// It has read nothing of it. So it is at a head and at an interior node, too.
    Begins,
    /// It has read the version.
    Looked(Counters),
    /// And the right link: its slice is before it.
    Bounded(Counters, Option<RightLink>),
    /// And the order: it reads the key of the slot at the next place.
    Reads(Notes<N>),
    /// It has read that key: it reads the value.
    AtValue(Notes<N>, K),
    /// It has read all that it needs: it looks at the version again.
    Settles(Counters, F),
}

/// What a call does after it has read a field.
#[derive(Drop)]
pub enum Reading<N, K, F> {
    /// The border is marked deleted: it begins its way again, at the head of layer 0.
    Restarts,
    /// The border is being changed, or was: it begins to read it again.
    Repeats,
    /// It reads the next field.
    GoesOn(Reader<N, K, F>),
    /// To this node of the same layer.
    To(NodeNo),
    /// It has read the border, which was the same all the while, and has found this.
    Finds(F),
}

impl Counters {
    /// Those of a version. Constant cost.
    pub fn of(version: Version) -> Counters
        ensures { result ≡ counters_of version }
    {
        Counters {
            inserts: version.vinsert(),
            splits: version.vsplit(),
        }
    }
}

// The version is read first.
fn look<N, K, F>(version: Version) -> Reading<N, K, F>
    ensures { result ≡ looked version }
{
    if version.deleted() {
        return Reading::Restarts;
    }
    if version.is_flagged() {
        return Reading::Repeats;
    }
    Reading::GoesOn(Reader::Looked(Counters::of(version)))
}

// Then the right link.
fn bound<N, K, F>(counters: Counters, right: Option<RightLink>, slice: u64) -> Reading<N, K, F>
    ensures { result ≡ bounded slice counters right }
{
    match right {
        Some(link) if link.low <= slice => Reading::To(link.node),
        _ => Reading::GoesOn(Reader::Bounded(counters, right)),
    }
}

// At last the version again: what was read is right if the border is as it was.
fn settle<N, K, F: Drop>(counters: Counters, found: F, version: Version) -> Reading<N, K, F>
    ensures { result ≡ settled counters found version }
{
    if version.deleted() {
        return Reading::Restarts;
    }
    if version.is_flagged() || Counters::of(version) != counters {
        return Reading::Repeats;
    }
    Reading::Finds(found)
}

// What a head or an interior node leads to.
fn by_visit<N, K, F>(visit: Visit) -> Reading<N, K, F>
    ensures { result ≡ by_visit visit }
{
    match visit {
        Visit::Again => Reading::Restarts,
        Visit::To(next) => Reading::To(next),
        Visit::Below(_) | Visit::Here => Reading::Repeats,
    }
}

/// Returns what a call does after a visit of a head. Constant cost.
pub fn at_head<N, K, F>(head: &Head) -> Reading<N, K, F>
    ensures { result ≡ by_visit (visit_head head.now) }
{
    by_visit(visit_head(head))
}

/// Returns what a call does after a visit of an interior node, on the way to a slice. Costs a binary search.
pub fn at_interior<N, K, F>(interior: &Interior, slice: u64) -> Reading<N, K, F>
    requires { interior.now.version.deleted ≡ false → (0 < length interior.now.children) × (interior.now.low ≤ slice) }
    ensures value { result ≡ by_visit (visit_interior slice interior.now) }
    ensures marked { result ≡ Restarts → interior.now.version.deleted ≡ true }
{
    by_visit(visit_interior(interior, slice))
}

impl<N: Drop, K: Drop, F: Drop> Reader<N, K, F> {
    /// Returns the field that is read next, if the call is at a border. Constant cost.
    pub fn wants(&self) -> Field
        requires { IsReader self.now }
        ensures value { result ≡ wants self.now }
        ensures field { IsField result }
    {
        match self {
            Reader::Begins | Reader::Settles(_, _) => Field::Version,
            Reader::Looked(_) => Field::Right,
            Reader::Bounded(_, _) => Field::Order,
            Reader::Reads(notes) => Field::Key(notes.glance.order.slot(notes.place)),
            Reader::AtValue(notes, _) => Field::Value(notes.glance.order.slot(notes.place)),
        }
    }

    /// Returns what a call does after it has read the version. Constant cost.
    pub fn at_version(self, version: Version) -> Reading<N, K, F>
        requires { WantsVersion self }
        ensures { result ≡ at_version self version }
    {
        match self {
            Reader::Begins => look(version),
            Reader::Settles(counters, found) => settle(counters, found, version),
            _ => unreachable!(),
        }
    }

    /// Returns what a call does after it has read the right link, for the slice that it seeks. Constant cost.
    pub fn at_right(self, right: Option<RightLink>, slice: u64) -> Reading<N, K, F>
        requires { WantsRight self }
        ensures { result ≡ at_right self right slice }
    {
        match self {
            Reader::Looked(counters) => bound(counters, right, slice),
            _ => unreachable!(),
        }
    }

    /// Returns what was read before the keys, once the order is read. Constant cost.
    pub fn glance(self, order: Permutation) -> Glance
        requires { WantsOrder self }
        ensures before { self ≡ Bounded result.counters result.right }
        ensures order { result.order ≡ order }
    {
        match self {
            Reader::Bounded(counters, right) => Glance {
                counters,
                right,
                order,
            },
            _ => unreachable!(),
        }
    }

    /// Returns what was read of the slots before the key that is read next. Constant cost.
    pub fn before_key(self) -> Notes<N>
        requires { WantsKey self }
        ensures { self ≡ Reads result }
    {
        match self {
            Reader::Reads(notes) => notes,
            _ => unreachable!(),
        }
    }

    /// Returns what was read of the slots before the value that is read next, and of its key. Constant cost.
    pub fn before_value(self) -> (Notes<N>, K)
        requires { WantsValue self }
        ensures { self ≡ AtValue result.0 result.1 }
    {
        match self {
            Reader::AtValue(notes, key) => (notes, key),
            _ => unreachable!(),
        }
    }
}
