//! Numbers that are occupied, filled, given back, retired and freed, and what each change keeps.

ghost use Rattle.std.specs.Prelude.{◌≡◌, ◌≢◌, ◌+◌, ◌<◌, ◌≤◌, ◌↔◌, ◌⊎◌, length, slice_get, All, None, Some, Err, IsSome, IsSomeAnd, IfOk, IfErr, OnOk, OnErr};
ghost use Rattle.mt_types.specs.declared.limits.TheConstants.{MAX_NODES};
ghost use Rattle.mt_border.specs.Border.{with_entries};
ghost use Rattle.mt_border.specs.Order.{IsBorder};
ghost use Rattle.mt_arena.specs.Node.{node_at, border_at, occupied, Updates};
ghost use Rattle.mt_arena.specs.Arena.{without_node, with_retired, FreesFirst, with_border_changed, IsArena};
ghost use Rattle.mt_tree.specs.Keeping.{KeepsTree, KeepsUnknown, IsUnknown, FreesNode};
ghost use Rattle.mt_tree.specs.Spares.{MayFill};

use crate::tree::Tree;
use mt_arena::{Node, Retired};
use mt_border::{Entry, RightLink};
use mt_types::items::Items;
use mt_types::numbers::NodeNo;
use mt_types::refusal::Refusal;

#[tactic(auto, using(crate::proofs::SeenLemmas::sound_border, crate::proofs::SpareLemmas::given_unknown, crate::proofs::SpareLemmas::keeps_nodes, crate::proofs::SpareLemmas::frees_first))]
impl Tree {
    /// Puts a node under a number that named none, and returns that number: it is a spare, which nothing else names.
    /// Constant cost, but for a move of all nodes when their number doubles.
    ///
    /// # Errors
    ///
    /// `ArenaFull` if all 4,294,967,295 numbers name a node, `NoMemory` if an allocation is refused. Nothing is changed then.
    pub fn occupy(&mut self, node: Node) -> Result<NodeNo, Refusal>
        ensures vacant { IfOk result (λ number. node_at self.old.nodes number.0 ≡ None) }
        ensures below { IfOk result (λ number. number.0 < MAX_NODES) }
        ensures updates { IfOk result (λ number. Updates self.old.nodes self.new.nodes number.0 (Some node)) }
        ensures occupied { OnOk result (occupied self.new.nodes ≡ occupied self.old.nodes + 1) }
        ensures retired { self.new.retired ≡ self.old.retired }
        ensures full { (result ≡ Err Refusal.ArenaFull) ↔ (occupied self.old.nodes ≡ MAX_NODES) }
        ensures only { IfErr result (λ refusal. (refusal ≡ Refusal.ArenaFull) ⊎ (refusal ≡ Refusal.NoMemory)) }
        ensures err { OnErr result (self.new ≡ self.old) }
        ensures arena { IsArena self.new }
        ensures unknown { IfOk result (λ number. IsUnknown self.old number.0) }
        ensures keeps { KeepsTree self.old self.new }
    {
        self.arena.spare(node)
    }

    /// Makes these entries live in a border that has none, and of whose slots none held a key, and names what is to its
    /// right. Costs a move of each entry.
    pub fn fill_border(&mut self, number: NodeNo, entries: Items<Entry>, right: Option<RightLink>)
        requires { IsSomeAnd (border_at self.old.nodes number.0) (λ b. MayFill b entries right) }
        ensures value { self.new ≡ with_border_changed self.old number.0 (λ b. with_entries b entries right) }
        ensures sound { IsSomeAnd (border_at self.new.nodes number.0) IsBorder }
        ensures keeps { KeepsUnknown self.old self.new number.0 }
    {
        self.arena.border_mut(number).fill(entries, right);
    }

    /// Gives a spare back: its number names nothing. Constant cost.
    pub fn give_back(&mut self, number: NodeNo)
        requires named { IsSome (node_at self.old.nodes number.0) }
        requires not_retired { All (λ retired. retired.node.0 ≢ number.0) self.old.retired }
        ensures value { self.new ≡ without_node self.old number.0 }
        ensures keeps { KeepsUnknown self.old self.new number.0 }
    {
        self.arena.free(number);
    }

    /// Retires a node in an epoch which is not before that of any retired node: its number is freed once no call can
    /// stand there. Takes no memory. Constant cost.
    pub fn retire(&mut self, number: NodeNo, epoch: u64)
        requires named { IsSome (node_at self.old.nodes number.0) }
        requires not_retired { All (λ retired. retired.node.0 ≢ number.0) self.old.retired }
        requires no_earlier { All (λ retired. retired.epoch ≤ epoch) self.old.retired }
        ensures value { self.new ≡ with_retired self.old number epoch }
        ensures keeps { KeepsTree self.old self.new }
    {
        self.arena.retire(number, epoch);
    }

    /// The node that was retired first, if one is retired: no other was in an earlier epoch. Constant cost.
    pub fn first_retired(&self) -> Option<Retired>
        ensures value { result ≡ slice_get self.now.retired 0 }
    {
        self.arena.first_retired()
    }

    /// Frees the node that was retired first, and returns its number. Constant cost, but for a move of all nodes when few
    /// are left of those for which there is room.
    pub fn free_first_retired(&mut self) -> NodeNo
        requires { 0 < length self.old.retired }
        ensures first { IsSomeAnd (slice_get self.old.retired 0) (λ first. result ≡ first.node) }
        ensures value { FreesFirst self.old self.new }
        ensures frees { FreesNode self.old self.new result.0 }
    {
        let Some(first) = self.arena.first_retired() else {
            unreachable!()
        };
        self.arena.free_first_retired();
        first.node
    }
}
