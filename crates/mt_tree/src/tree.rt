//! The tree itself: its nodes under their numbers.

ghost use Rattle.std.specs.Prelude.{◌≡◌, ◌+◌, ℕ, List, Some, IsSome, IsSomeAnd, IfOk, []};
ghost use Rattle.mt_types.specs.declared.limits.TheConstants.{MAX_NODES};
ghost use Rattle.mt_types.specs.declared.row.Row.{Row};
ghost use Rattle.mt_slice.specs.Place.{Place};
ghost use Rattle.mt_border.specs.Order.{IsBorder};
ghost use Rattle.mt_interior.specs.Head.{IsHead};
ghost use Rattle.mt_interior.specs.Interior.{IsInterior};
ghost use Rattle.mt_arena.specs.Node.{node_at, head_at, interior_at, border_at, occupied, IsNode};
ghost use Rattle.mt_arena.specs.Parts.{IsField, IsPart};
ghost use Rattle.mt_arena.specs.Arena.{IsArena};
ghost use Rattle.mt_chart.specs.Tree.{Has};
ghost use Rattle.mt_chart.specs.NewIndex.{new_chart};
ghost use Rattle.mt_tree.specs.Seen.{arena_seen};
ghost use Rattle.mt_tree.specs.Keeping.{IsIndexAt};
ghost use Rattle.mt_tree.specs.NewTree.{IsNewTree};

use mt_arena::{Arena, Field, Node, Part};
use mt_border::Border;
use mt_interior::{Head, Interior};
use mt_types::numbers::NodeNo;
use mt_types::refusal::NoMemory;
use std::alloc::Global;
use std::marker::Model;

/// The nodes of an index under their numbers: the heads of layers, interior nodes and borders. Number 0 is the head of
/// layer 0.
///
/// Each change is of one node. What it keeps of the whole tree is a clause of its own, which speaks of every chart at
/// which the tree is an index: a chart tells where each node stands, and exists in proofs only.
#[derive(Drop)]
pub struct Tree {
    pub(crate) arena: Arena,
}

impl Model for Tree {
    ghost use Rattle.mt_arena.specs.Arena.{ArenaView};

    ghost Value = { ArenaView };

    ghost view = { λ t. t.arena };
}

/// The number of the head of layer 0.
pub const TOP: NodeNo = NodeNo(0);

impl Tree {
    /// A tree with no row: the head of layer 0, over one border. Costs two allocations.
    ///
    /// # Errors
    ///
    /// `NoMemory` if an allocation is refused.
    pub fn open(alloc: Global) -> Result<Tree, NoMemory>
        ensures new { IfOk result IsNewTree }
        ensures index { IfOk result (λ tree. (new : IsNewTree tree) → IsIndexAt tree 0 [] (new_chart new.root.0)) }
        ensures empty { IfOk result (λ tree. (place : Place) (row : Row) → Has (arena_seen tree) place row → ⊥) }
    {
        let mut arena = Arena::open(alloc, Node::Head(Head::new(TOP, 0)))?;
        let Ok(root) = arena.spare(Node::Border(Border::new(alloc, 0, 0))) else {
            return Err(NoMemory);
        };
        arena.head_mut(TOP).set_root(root, 0);
        Ok(Tree { arena })
    }

    /// How many numbers name no node. Constant cost.
    pub fn free_numbers(&self) -> usize
        ensures value { result + occupied self.now.nodes ≡ MAX_NODES }
        ensures arena { IsArena self.now }
    {
        self.arena.free_numbers()
    }

    /// The node under a number. Constant cost.
    pub fn node(&self, number: NodeNo) -> &Node
        requires { IsSome (node_at self.now.nodes number.0) }
        ensures value { node_at self.now.nodes number.0 ≡ Some result.now }
        ensures arena { IsArena self.now }
    {
        self.arena.get(number)
    }

    /// The node under a number, to be read: of a border this field alone. Constant cost.
    pub fn part(&self, number: NodeNo, field: Field) -> Part<'_>
        requires named { IsSome (node_at self.now.nodes number.0) }
        requires field { IsField field }
        ensures value { IsSomeAnd (node_at self.now.nodes number.0) (λ node. IsPart node field result) }
        ensures sound { IsSomeAnd (node_at self.now.nodes number.0) IsNode }
        ensures arena { IsArena self.now }
    {
        self.node(number).part(field)
    }

    /// The head under a number. Constant cost.
    pub fn head(&self, number: NodeNo) -> &Head
        requires { IsSome (head_at self.now.nodes number.0) }
        ensures value { head_at self.now.nodes number.0 ≡ Some result.now }
        ensures sound { IsHead result.now }
        ensures arena { IsArena self.now }
    {
        let Node::Head(head) = self.node(number) else {
            unreachable!()
        };
        let _level = head.level();
        head
    }

    /// The interior node under a number. Constant cost.
    pub fn interior(&self, number: NodeNo) -> &Interior
        requires { IsSome (interior_at self.now.nodes number.0) }
        ensures value { interior_at self.now.nodes number.0 ≡ Some result.now }
        ensures sound { IsInterior result.now }
        ensures arena { IsArena self.now }
    {
        let Node::Interior(interior) = self.node(number) else {
            unreachable!()
        };
        let _level = interior.level();
        interior
    }

    /// The border under a number. Constant cost.
    pub fn border(&self, number: NodeNo) -> &Border
        requires { IsSome (border_at self.now.nodes number.0) }
        ensures value { border_at self.now.nodes number.0 ≡ Some result.now }
        ensures sound { IsBorder result.now }
        ensures arena { IsArena self.now }
    {
        let Node::Border(border) = self.node(number) else {
            unreachable!()
        };
        let _layer = border.layer();
        border
    }
}
