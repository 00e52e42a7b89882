//! The arena: nodes under numbers, spares among them, and the list of retired ones.

ghost use Rattle.std.specs.Prelude.{◌≡◌, ◌≢◌, ◌+◌, ◌<◌, ◌≤◌, ◌↔◌, ◌⊎◌, length, [], slice_get, All, Some, None, Err, IsSome, IfOk, IfErr, OnOk, OnErr};
ghost use Rattle.std.specs.Borrow.{sem};
ghost use Rattle.mt_types.specs.declared.limits.TheConstants.{MAX_NODES};
ghost use Rattle.mt_arena.specs.Node.{node_at, head_at, interior_at, border_at, occupied, Updates};
ghost use Rattle.mt_border.specs.Order.{IsBorder};
ghost use Rattle.mt_interior.specs.Head.{IsHead};
ghost use Rattle.mt_interior.specs.Interior.{IsInterior};
ghost use Rattle.mt_arena.specs.Arena.{without_node, with_retired, FreesFirst, IsArena};
ghost use Rattle.slab.specs.Slab.{slab_len, SameValues};

use crate::node::Node;
use crate::retired::Retired;
use mt_border::Border;
use mt_interior::{Head, Interior};
use mt_types::limits::MAX_NODES;
use mt_types::numbers::NodeNo;
use mt_types::refusal::{NoMemory, Refusal};
use slab::Slab;
use std::alloc::Global;
use std::collections::VecDeque;
use std::marker::Model;

/// The nodes of the tree, each under its number, and the retired ones in the order of their retiring.
///
/// There are 4,294,967,295 numbers. A number names the node that was put there until that node is freed; a node that is
/// retired still has its number (Masstree, EuroSys 2012, section 4.6.1). Each node that is put in makes room for
/// itself in the list of retired nodes, so that retiring takes no memory.
#[derive(Drop)]
pub struct Arena {
    nodes: Slab<Node>,
    retired: VecDeque<Retired>,
}

/// The arena keeps room for this many nodes.
const KEPT_ROOM: usize = 64;

// Returns the room past the last node, if fewer than a quarter of the nodes are left for which there is room. It looks
// only when their number has halved, so the moves of nodes cost less than what put them in.
fn give_room_back(nodes: &mut Slab<Node>)
    ensures nodes { SameValues nodes.old nodes.new }
    ensures count { slab_len nodes.new ≡ slab_len nodes.old }
{
    let count = nodes.len();
    let room = nodes.capacity();
    if count.is_power_of_two() && room > KEPT_ROOM && count < room / 4 {
        nodes.shrink_to_fit();
    }
}

impl Model for Arena {
    ghost use Rattle.std.specs.VecDeque.{deque_capacity};
    ghost use Rattle.mt_arena.specs.Arena.{ArenaView, IsSoundArena, arena_view};

    ghost Value = { ArenaView };

    ghost view = { λ a. arena_view a.nodes.slots a.retired.items };

    ghost invariant = { λ a. IsSoundArena (arena_view a.nodes.slots a.retired.items) (deque_capacity a.retired) };
}

impl Arena {
    ghost use Rattle.mt_arena.specs.Lends.{lends_head_at, lends_interior_at, lends_border_at};

    /// An arena with this node, which has number 0.
    ///
    /// # Errors
    ///
    /// `NoMemory` if an allocation is refused.
    pub fn open(alloc: Global, first: Node) -> Result<Arena, NoMemory>
        ensures first { IfOk result (λ arena. Updates [] arena.nodes 0 (Some first)) }
        ensures retired { IfOk result (λ arena. arena.retired ≡ []) }
        ensures occupied { IfOk result (λ arena. occupied arena.nodes ≡ 1) }
        ensures sound { IfOk result IsArena }
    {
        let retired = VecDeque::with_capacity(alloc, 1)?;
        let mut nodes = Slab::new(alloc);
        nodes.insert(first)?;
        Ok(Arena { nodes, retired })
    }

    /// How many numbers name no node; those of retired nodes still do. Constant cost.
    pub fn free_numbers(&self) -> usize
        ensures value { result + occupied self.now.nodes ≡ MAX_NODES }
        ensures sound { IsArena self.now }
    {
        MAX_NODES as usize - self.nodes.len()
    }

    /// The node under a number. Constant cost.
    pub fn get(&self, number: NodeNo) -> &Node
        requires { IsSome (node_at self.now.nodes number.0) }
        ensures value { node_at self.now.nodes number.0 ≡ Some result.now }
        ensures sound { IsArena self.now }
    {
        &self.nodes[number.0 as usize]
    }

    /// The head under a number, to be changed. Constant cost.
    pub fn head_mut(&mut self, number: NodeNo) -> &mut Head
        requires { IsSome (head_at self.old.nodes number.0) }
        ensures* writes_back { sem 𝓛 (lends_head_at self.entry number.0 result) }
        ensures value { head_at self.old.nodes number.0 ≡ Some result.now }
        ensures sound { IsHead result.now }
    {
        let Node::Head(head) = &mut self.nodes[number.0 as usize] else {
            unreachable!()
        };
        let _level = head.level();
        head
    }

    /// The interior node under a number, to be changed. Constant cost.
    pub fn interior_mut(&mut self, number: NodeNo) -> &mut Interior
        requires { IsSome (interior_at self.old.nodes number.0) }
        ensures* writes_back { sem 𝓛 (lends_interior_at self.entry number.0 result) }
        ensures value { interior_at self.old.nodes number.0 ≡ Some result.now }
        ensures sound { IsInterior result.now }
    {
        let Node::Interior(interior) = &mut self.nodes[number.0 as usize] else {
            unreachable!()
        };
        let _level = interior.level();
        interior
    }

    /// The border under a number, to be changed. Constant cost.
    pub fn border_mut(&mut self, number: NodeNo) -> &mut Border
        requires { IsSome (border_at self.old.nodes number.0) }
        ensures* writes_back { sem 𝓛 (lends_border_at self.entry number.0 result) }
        ensures value { border_at self.old.nodes number.0 ≡ Some result.now }
        ensures sound { IsBorder result.now }
    {
        let Node::Border(border) = &mut self.nodes[number.0 as usize] else {
            unreachable!()
        };
        let _layer = border.layer();
        border
    }

    /// Puts a node under a number that named none, and returns that number. Makes room for it in the list of retired
    /// nodes too. Constant cost, but for a move of all nodes when their number doubles.
    ///
    /// # Errors
    ///
    /// `ArenaFull` if each number names a node, `NoMemory` if an allocation is refused. Nothing is changed then.
    pub fn spare(&mut self, node: Node) -> Result<NodeNo, Refusal>
        ensures vacant { IfOk result (λ number. node_at self.old.nodes number.0 ≡ None) }
        ensures below { IfOk result (λ number. number.0 < MAX_NODES) }
        ensures updates { IfOk result (λ number. Updates self.old.nodes self.new.nodes number.0 (Some node)) }
        ensures occupied { OnOk result (occupied self.new.nodes ≡ occupied self.old.nodes + 1) }
        ensures retired { self.new.retired ≡ self.old.retired }

        ensures full { (result ≡ Err Refusal.ArenaFull) ↔ (occupied self.old.nodes ≡ MAX_NODES) }
        ensures only { IfErr result (λ refusal. (refusal ≡ Refusal.ArenaFull) ⊎ (refusal ≡ Refusal.NoMemory)) }
        ensures err { OnErr result (self.new ≡ self.old) }
        ensures sound { IsArena self.new }
    {
        let count = self.nodes.len();
        if count >= MAX_NODES as usize {
            return Err(Refusal::ArenaFull);
        }
        // The slab gives out numbers without a gap. Its contract does not say so.
        if self.nodes.vacant_key() >= MAX_NODES as usize {
            return Err(Refusal::NoMemory);
        }
        self.retired
            .reserve((count + 1).saturating_sub(self.retired.len()))?;
        let number = self.nodes.insert(node)?;
        Ok(NodeNo(number as u32))
    }

    /// Frees a number whose node is not retired, and drops the node. Constant cost.
    pub fn free(&mut self, number: NodeNo)
        requires named { IsSome (node_at self.old.nodes number.0) }
        requires not_retired { All (λ retired. retired.node.0 ≢ number.0) self.old.retired }
        ensures value { self.new ≡ without_node self.old number.0 }
        ensures sound { IsArena self.new }
    {
        drop(self.nodes.remove(number.0 as usize));
    }

    /// Retires a node in an epoch which is not before that of any retired node. Takes no memory. Constant cost.
    pub fn retire(&mut self, number: NodeNo, epoch: u64)
        requires named { IsSome (node_at self.old.nodes number.0) }
        requires not_retired { All (λ retired. retired.node.0 ≢ number.0) self.old.retired }
        requires no_earlier { All (λ retired. retired.epoch ≤ epoch) self.old.retired }
        ensures value { self.new ≡ with_retired self.old number epoch }
        ensures sound { IsArena self.new }
    {
        self.retired.push_back_reserved(Retired {
            node: number,
            epoch,
        });
    }

    /// The node that was retired first, if one is retired: no other was in an earlier epoch. Constant cost.
    pub fn first_retired(&self) -> Option<Retired>
        ensures value { result ≡ slice_get self.now.retired 0 }
        ensures some { IsSome result ↔ (0 < length self.now.retired) }
        ensures sound { IsArena self.now }
    {
        self.retired.front().copied()
    }

    /// Frees the node that was retired first, and drops it. Constant cost, but for a move of all nodes when few are left
    /// of those for which there is room.
    pub fn free_first_retired(&mut self)
        requires { 0 < length self.old.retired }
        ensures frees { FreesFirst self.old self.new }
        ensures sound { IsArena self.new }
    {
        if let Some(first) = self.retired.pop_front() {
            drop(self.nodes.remove(first.node.0 as usize));
            give_room_back(&mut self.nodes);
        }
    }
}
