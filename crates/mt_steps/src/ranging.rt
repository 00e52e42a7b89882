//! A range: its way to the border of the slice that its scan seeks, and what the scan takes there.

ghost use Rattle.std.specs.Prelude.{◌≡◌, ℕ, ◌⊎◌, IsSome, true};
ghost use Rattle.mt_types.specs.declared.refusal.Refusal.TheVariants.{NoMemory as NoMemoryRefusal};
ghost use Rattle.mt_scan.specs.Listed.{list_of};
ghost use Rattle.mt_scan.specs.Scan.{HoldsKeys};
ghost use Rattle.mt_steps.specs.declared.progress.Progress.TheVariants.{Refused};
ghost use Rattle.mt_commit.specs.Log.{LogView};
ghost use Rattle.mt_arena.specs.Arena.{ArenaView};
ghost use Rattle.mt_arena.specs.Node.{border_of};
ghost use Rattle.mt_chart.specs.Walk.{Moves};
ghost use Rattle.mt_tree.specs.Seen.{arena_seen};
ghost use Rattle.mt_tree.specs.Descent.{is_marked};
ghost use Rattle.mt_steps.specs.Way.{Names};
ghost use Rattle.mt_steps.specs.Step.{StepLaw, MayStep, nothing};
ghost use Rattle.mt_steps.specs.Causes.{IsMarkedAt, ReadFails};
ghost use Rattle.mt_steps.specs.Reader.{FindsAt, FailsAt};
ghost use Rattle.mt_steps.specs.Ranging.{range_request, RangeIsTrue, RangeScans, RangeDoes, ListHasKeys, RangeReads, RangeWaits, IsHeldFor, Seeks};

use crate::listing::{ListReading, Listed, Listing, read};
use crate::progress::Progress;
use crate::reader::{Reader, Reading};
use mt_arena::Node;
use mt_scan::{Scan, ScanMove};
use mt_tree::{TOP, Tree, Visit, visit_node};
use mt_types::event::Answer;
use mt_types::key::Key;
use mt_types::numbers::NodeNo;
use mt_types::refusal::Refusal;
use mt_types::row::ColumnNumbers;
use std::alloc::Global;
use std::mem;

/// A range of the pairs from a key on, up to a limit.
#[derive(Drop)]
pub struct Range {
    pub start: Key,
    pub limit: u16,
    pub columns: ColumnNumbers,
    pub scan: Scan,
    pub node: NodeNo,
    /// How far it has read the border at which it is.
    pub listing: Listing,
}

/// Visits the node of a number on the way to a slice of its layer. No link leads further from a slice alone.
pub fn seek(tree: &Tree, number: NodeNo, slice: u64) -> Visit
    requires { IsHeldFor tree.now number.0 slice }
    ensures seeks { Seeks tree.now number.0 slice result }
    ensures again { result ≡ Visit.Again → IsMarkedAt tree.now number.0 }
    ensures moves { (next : NodeNo) → result ≡ Visit.To next → Moves (arena_seen tree.now) number.0 next.0 }
{
    visit_node(tree.node(number), &slice.to_be_bytes())
}

impl Range {
    // Its scan visits what it has read of a border.
    fn scan_list(&mut self, alloc: Global, listed: Listed) -> Progress
        requires { HoldsKeys self.old.scan.prefix listed.entries }
        ensures request { range_request self.new ≡ range_request self.old }
        ensures scans { (result ≡ Refused NoMemoryRefusal)
            ⊎ RangeScans self.old (list_of listed.entries listed.right) result self.new }
        ensures fails { (a : ArenaView) (number : ℕ) → FailsAt a number → ReadFails a number result }
    {
        let Listed { entries, right } = listed;
        match self.scan.visit(alloc, entries.as_slice(), right) {
            Ok(ScanMove::To(next)) => {
                self.node = next;
                Progress::Moved
            }
            Ok(ScanMove::Top) => {
                self.node = TOP;
                Progress::Moved
            }
            Ok(ScanMove::Done) => Progress::Answered(Answer::Rows(self.scan.take_pairs(alloc))),
            Err(_) => Progress::Refused(Refusal::NoMemory),
        }
    }

    // Does what a reading leads to.
    fn follow(&mut self, alloc: Global, reading: ListReading) -> Progress
        requires { ListHasKeys self.old.scan.prefix reading }
        ensures request { range_request self.new ≡ range_request self.old }
        ensures does { RangeDoes self.old reading result self.new }
        ensures fails { (a : ArenaView) (number : ℕ) → FindsAt a number reading → ReadFails a number result }
    {
        match reading {
            Reading::Restarts => {
                self.scan.restart();
                self.node = TOP;
                Progress::Waits
            }
            Reading::Repeats => Progress::Waits,
            Reading::GoesOn(listing) => {
                self.listing = listing;
                Progress::Moved
            }
            Reading::To(next) => {
                self.node = next;
                Progress::Moved
            }
            Reading::Finds(listed) => self.scan_list(alloc, listed),
        }
    }

    /// Reads one field of the border at which it is, or visits the head or interior node at which it is. It is lent
    /// only that. Once it has read a border, its scan visits what it has read.
    pub fn step(&mut self, alloc: Global, tree: &Tree) -> Progress
        requires { (log : LogView) × MayStep tree.now log nothing (RangeIsTrue self.old) }
        ensures request { range_request self.new ≡ range_request self.old }
        ensures steps { (C : ℕ) (log : LogView)
            → StepLaw C tree.now tree.now log log (range_request self.old) nothing result nothing (RangeIsTrue self.old)
            (RangeIsTrue self.new) }
        ensures waits { RangeWaits tree.now self.old result }
        ensures fails { ReadFails tree.now self.old.node.0 result }
        ensures gets_on { RangeReads tree.now self.old result self.new }
    {
        let slice = self.scan.slice();
        let listing = mem::replace(&mut self.listing, Reader::Begins);
        match read(alloc, listing, tree, self.node, slice) {
            Ok(reading) => self.follow(alloc, reading),
            Err(_) => Progress::Refused(Refusal::NoMemory),
        }
    }
}
