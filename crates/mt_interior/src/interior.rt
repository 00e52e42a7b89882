//! The interior node itself.

ghost use Rattle.std.specs.Prelude.{◌≡◌, ◌==◌, ◌+◌, ◌<◌, ◌≤◌, ◌↔◌, length, slice_get, slice_set, slice_index_or, position, [], Some, IsSomeAnd, IsTrue, IfSome, true, false};
ghost use Rattle.std.specs.Bool.{IsFalse};
ghost use Rattle.arrayvec.specs.ArrayVec.{array_vec_len};
ghost use Rattle.mt_types.specs.declared.limits.TheConstants.{MAX_LEVEL};
ghost use Rattle.mt_interior.specs.Interior.{new_interior, children_up_to, with_children, with_child, without_child, with_bypass, with_first, blank_child, with_lock, with_deleted, IsInterior};

use crate::child::Child;
use arrayvec::ArrayVec;
use mt_types::numbers::NodeNo;
use mt_word::Version;
use std::marker::Model;

/// The most children of an interior node.
pub const MAX_CHILDREN: usize = 16;

/// A full interior node is split before this place: it keeps this many children, and the others go to a new node.
pub const KEPT_CHILDREN: usize = 8;

/// An interior node: it leads a search for a slice to a child of a lower level (Masstree, EuroSys 2012, section 4.2).
///
/// It has at most sixteen children, in the order of their lows; the first child's low is its own. It is only an aid:
/// if the child to which it leads is too far to the left, right links do the rest. The children are stored in the node
/// itself.
#[derive(Drop)]
pub struct Interior {
    version: Version,
    level: u8,
    low: u64,
    children: ArrayVec<Child, MAX_CHILDREN>,
}

impl Model for Interior {
    ghost use Rattle.mt_interior.specs.Interior.{InteriorView, IsInterior, interior_view};

    ghost Value = { InteriorView };

    ghost view = { λ i. interior_view i.version i.level i.low i.children.items };

    ghost invariant = { λ i. IsInterior (interior_view i.version i.level i.low i.children.items) };
}

// Writes the node and the level of the child at a place.
fn rename(children: &mut ArrayVec<Child, MAX_CHILDREN>, place: usize, node: NodeNo, level: u8)
    requires { place < array_vec_len children.old }
    ensures { children.new.items ≡ slice_set children.old.items place
        (record (slice_index_or children.old.items place blank_child) { node = node; level = level }) }
{
    let child = &mut children.as_mut_slice()[place];
    child.node = node;
    child.level = level;
}

impl Interior {
    /// A locked interior node of this level and low with no child yet. It allocates nothing.
    pub fn new_locked(level: u8, low: u64) -> Interior
        requires least { 1 ≤ level }
        requires most { level ≤ MAX_LEVEL }
        ensures value { result ≡ new_interior level low }
        ensures sound { IsInterior result }
    {
        let mut version = Version::new_inner();
        version.lock();
        Interior {
            version,
            level,
            low,
            children: ArrayVec::new(),
        }
    }

    /// The level of the node, from 1 to 15. Constant cost.
    pub fn level(&self) -> u8
        ensures value { result ≡ self.now.level }
        ensures sound { IsInterior self.now }
    {
        self.level
    }

    /// The least slice that the node was posted for. Constant cost.
    pub fn low(&self) -> u64
        ensures value { result ≡ self.now.low }
        ensures sound { IsInterior self.now }
    {
        self.low
    }

    /// How many children the node has. Constant cost.
    #[inline]
    pub fn len(&self) -> usize
        ensures value { result ≡ length self.now.children }
        ensures within { result ≤ MAX_CHILDREN }
        ensures sound { IsInterior self.now }
    {
        self.children.len()
    }

    /// Whether the node has as many children as it may. Constant cost.
    pub fn is_full(&self) -> bool
        ensures full { IsTrue result ↔ (length self.now.children ≡ MAX_CHILDREN) }
        ensures room { IsFalse result ↔ (length self.now.children < MAX_CHILDREN) }
        ensures sound { IsInterior self.now }
    {
        self.len() == MAX_CHILDREN
    }

    /// The version word. Constant cost.
    pub fn version(&self) -> Version
        ensures value { result ≡ self.now.version }
        ensures sound { IsInterior self.now }
    {
        self.version
    }

    /// The child at a place. Constant cost.
    #[inline]
    pub fn child(&self, place: usize) -> Child
        requires { place < length self.now.children }
        ensures value { slice_get self.now.children place ≡ Some result }
        ensures lower { result.level < self.now.level }
        ensures from_low { self.now.low ≤ result.low }
        ensures sound { IsInterior self.now }
    {
        self.children.as_slice()[place]
    }

    /// The place of the child for a slice: the last whose low is at most the slice. A binary search, which takes no
    /// memory.
    pub fn child_for(&self, slice: u64) -> usize
        requires some { 0 < length self.now.children }
        requires from_low { self.now.low ≤ slice }
        ensures place { result + 1 ≡ children_up_to slice self.now.children }
        ensures leads { IsSomeAnd (slice_get self.now.children result) (λ child. child.low ≤ slice) }
        ensures within { result < length self.now.children }
        ensures sound { IsInterior self.now }
    {
        let up_to = self
            .children
            .as_slice()
            .partition_point(|child| child.low <= slice);
        up_to - 1
    }

    /// The place of the first child that is this node, if one is. Looks at each child at most once.
    pub fn place_of(&self, node: NodeNo) -> Option<usize>
        ensures value { result ≡ position (λ child. child.node.0 == node.0) self.now.children }
        ensures named { IfSome result (λ place. IsSomeAnd (slice_get self.now.children place) (λ child. child.node
            ≡ node)) }
        ensures within { IfSome result (λ place. place < length self.now.children) }
        ensures sound { IsInterior self.now }
    {
        self.children
            .as_slice()
            .iter()
            .position(|child| child.node.0 == node.0)
    }

    /// Locks the node. Constant cost.
    pub fn lock(&mut self)
        requires { self.old.version.locked ≡ false }
        ensures value { self.new ≡ with_lock self.old true }
        ensures sound { IsInterior self.new }
    {
        self.version.lock();
    }

    /// Unlocks the node. Constant cost.
    pub fn unlock(&mut self)
        requires { self.old.version.locked ≡ true }
        ensures value { self.new ≡ with_lock self.old false }
        ensures sound { IsInterior self.new }
    {
        self.version.unlock();
    }

    /// Marks the node as deleted. Constant cost.
    pub fn mark_deleted(&mut self)
        ensures value { self.new ≡ with_deleted self.old }
        ensures sound { IsInterior self.new }
    {
        self.version.mark_deleted();
    }

    /// Adds these children to a node that has none. Costs a copy of each.
    pub fn fill(&mut self, children: &[Child])
        requires empty { self.old.children ≡ [] }
        requires sound { IsInterior (with_children self.old children.now) }
        ensures value { self.new ≡ with_children self.old children.now }
        ensures sound { IsInterior self.new }
    {
        for child in children {
            self.children.push(*child);
        }
    }

    /// Puts a child in after those whose low is at most its own. Costs a binary search, and a move of each child after
    /// it.
    pub fn insert(&mut self, child: Child)
        requires some { 0 < length self.old.children }
        requires room { length self.old.children < MAX_CHILDREN }
        requires lower { child.level < self.old.level }
        requires from_low { self.old.low ≤ child.low }
        ensures value { self.new ≡ with_child self.old child }
        ensures sound { IsInterior self.new }
    {
        let place = self.child_for(child.low) + 1;
        self.children.insert(place, child);
    }

    /// Drops the child at a place, which is not the first. Costs a move of each child after it.
    pub fn drop_child(&mut self, place: usize)
        requires later { 0 < place }
        requires within { place < length self.old.children }
        ensures value { self.new ≡ without_child self.old place }
        ensures sound { IsInterior self.new }
    {
        self.children.remove(place);
    }

    /// Names another node, of this level, instead of the child at a place. The child's low stays. Constant cost.
    pub fn bypass(&mut self, place: usize, node: NodeNo, level: u8)
        requires within { place < length self.old.children }
        requires lower { level < self.old.level }
        ensures value { self.new ≡ with_bypass self.old place node level }
        ensures sound { IsInterior self.new }
    {
        rename(&mut self.children, place, node, level);
    }

    /// Keeps the first `count` children, at least one. Costs a write of each child that is dropped.
    pub fn keep_first(&mut self, count: usize)
        requires some { 1 ≤ count }
        requires within { count ≤ length self.old.children }
        ensures value { self.new ≡ with_first self.old count }
        ensures sound { IsInterior self.new }
    {
        self.children.truncate(count);
    }
}
