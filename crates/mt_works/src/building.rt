//! A build of a view as a call: a scan of the view's keys, border by border, and then a step for each delta since its
//! begin.

ghost use Rattle.std.specs.Prelude.{◌≡◌, ◌≢◌, ◌↔◌, ◌⊎◌, ◌≤◌, ℕ, length, IsTrue, IsSome, Some, None};
ghost use Rattle.mt_types.specs.declared.refusal.Refusal.TheVariants.{NoMemory as NoMemoryRefusal};
ghost use Rattle.mt_word.specs.declared.permutation_word.TheConstants.{SLOTS};
ghost use Rattle.mt_scan.specs.Listed.{list_of};
ghost use Rattle.mt_scan.specs.Scan.{HoldsKeys};
ghost use Rattle.mt_steps.specs.declared.progress.Progress.TheVariants.{Moved, Refused};
ghost use Rattle.mt_steps.specs.Listing.{WaitsForField};
ghost use Rattle.mt_arena.specs.Arena.{ArenaView};
ghost use Rattle.mt_steps.specs.Step.{MayStep, nothing};
ghost use Rattle.mt_steps.specs.Causes.{ReadFails};
ghost use Rattle.mt_steps.specs.Reader.{FindsAt};
ghost use Rattle.mt_works.specs.Building.{building_request, BuildingIsTrue, BuildingLaw, IsBuilt, IsInLog, BuildsOn, BuildFollows, BuildLists, BuildDoes, MayScan, BuildReads, BuildTakes, BuildWaits, BuildFails, OnlyForMemory};

use crate::build::Build;
use mt_commit::log::Log;
use mt_scan::ScanMove;
use mt_steps::listing::{ListReading, Listed, Listing, read};
use mt_steps::progress::Progress;
use mt_steps::reader::{Reader, Reading};
use mt_tree::{TOP, Tree};
use mt_types::numbers::NodeNo;
use mt_types::refusal::Refusal;
use std::alloc::Global;
use std::mem;

/// A build of a view.
#[derive(Drop)]
pub struct Building {
    pub build: Build,
    /// The node at which its scan is.
    pub node: NodeNo,
    /// Once it has scanned all: the number of the last commit whose delta it is to take.
    pub upto: Option<u64>,
    /// How far it has read the border at which it is.
    pub listing: Listing,
}

impl Building {
    /// Returns whether it has taken all that it was to take. The machine is then to open its view.
    pub fn is_built(&self) -> bool
        ensures { IsTrue result ↔ IsBuilt self.now }
    {
        match self.upto {
            Some(upto) => self.build.at() == upto,
            None => false,
        }
    }

    /// Reads one field of the border at which it is, or visits the head or interior node at which it is: what it does
    /// follows from that alone. Or, after it has scanned all, it takes the next delta.
    pub fn step(&mut self, alloc: Global, tree: &Tree, log: &Log) -> Progress
        requires may { MayStep tree.now log.now nothing (BuildingIsTrue self.old) }
        requires next { IsInLog log.now self.old.build.state.at self.old.upto }
        ensures request { building_request self.new ≡ building_request self.old }
        ensures steps { (C : ℕ) → BuildingLaw C tree.now log.now self.old result self.new }
        ensures builds { BuildsOn tree.now log.now self.old result self.new }
        ensures gets_on { BuildFollows tree.now log.now self.old result self.new }
        ensures waits { BuildWaits tree.now self.old result }
        ensures fails { BuildFails tree.now self.old result }
    {
        match self.upto {
            Some(_) => self.take(log),
            None => self.read(alloc, tree, log),
        }
    }

    // Its scan visits what it has read of a border.
    fn scan_list(&mut self, alloc: Global, listed: Listed, log: &Log) -> Progress
        requires keys { HoldsKeys self.old.build.prefix listed.entries }
        requires few { length listed.entries ≤ SLOTS }
        ensures request { building_request self.new ≡ building_request self.old }
        ensures lists { (result ≡ Refused NoMemoryRefusal) ⊎ ((result ≡ Moved)
            × BuildLists log.now self.old (list_of listed.entries listed.right) self.new) }
    {
        let Listed { entries, right } = listed;
        match self.build.visit(alloc, entries.as_slice(), right) {
            Ok(ScanMove::To(next)) => {
                self.node = next;
                Progress::Moved
            }
            Ok(ScanMove::Top) => {
                self.node = TOP;
                Progress::Moved
            }
            Ok(ScanMove::Done) => {
                self.upto = Some(log.number());
                Progress::Moved
            }
            Err(_) => Progress::Refused(Refusal::NoMemory),
        }
    }

    // Does what a reading leads to.
    fn follow(&mut self, alloc: Global, reading: ListReading, log: &Log) -> Progress
        requires { MayScan self.old.build.prefix reading }
        ensures request { building_request self.new ≡ building_request self.old }
        ensures does { BuildDoes log.now self.old reading result self.new }
        ensures fails { (a : ArenaView) (number : ℕ) → FindsAt a number reading → ReadFails a number result }
    {
        match reading {
            Reading::Restarts => {
                self.build.restart();
                self.node = TOP;
                Progress::Waits
            }
            Reading::Repeats => Progress::Waits,
            Reading::GoesOn(listing) => {
                self.listing = listing;
                Progress::Moved
            }
            Reading::To(next) => {
                self.node = next;
                Progress::Moved
            }
            Reading::Finds(listed) => self.scan_list(alloc, listed, log),
        }
    }

    // Reads the next field of the border at which it is, or visits the head or interior node at which it is.
    fn read(&mut self, alloc: Global, tree: &Tree, log: &Log) -> Progress
        requires may { MayStep tree.now log.now nothing (BuildingIsTrue self.old) }
        requires scans { self.old.upto ≡ None }
        ensures request { building_request self.new ≡ building_request self.old }
        ensures steps { (C : ℕ) → BuildingLaw C tree.now log.now self.old result self.new }
        ensures builds { BuildsOn tree.now log.now self.old result self.new }
        ensures reads { BuildReads tree.now log.now self.old result self.new }
        ensures waits { WaitsForField tree.now self.old.node.0 self.old.listing result }
        ensures fails { ReadFails tree.now self.old.node.0 result }
    {
        let slice = self.build.slice();
        let listing = mem::replace(&mut self.listing, Reader::Begins);
        match read(alloc, listing, tree, self.node, slice) {
            Ok(reading) => self.follow(alloc, reading, log),
            Err(_) => Progress::Refused(Refusal::NoMemory),
        }
    }

    // Takes the delta of the next commit.
    fn take(&mut self, log: &Log) -> Progress
        requires next { IsInLog log.now self.old.build.state.at self.old.upto }
        requires scanned { IsSome self.old.upto }
        ensures listing { self.new.listing ≡ self.old.listing }
        ensures request { building_request self.new ≡ building_request self.old }
        ensures steps { (a : ArenaView) (C : ℕ) → BuildingLaw C a log.now self.old result self.new }
        ensures builds { (a : ArenaView) → BuildsOn a log.now self.old result self.new }
        ensures takes { (upto : ℕ) → self.old.upto ≡ Some upto → BuildTakes upto self.old result self.new }
        ensures waits { result ≢ Progress.Waits }
        ensures fails { OnlyForMemory result }
    {
        let at = self.build.at();
        prove!(at < log.number());
        let next = at + 1;
        match self.build.take(log.delta(next)) {
            Ok(()) => Progress::Moved,
            Err(_) => Progress::Refused(Refusal::NoMemory),
        }
    }
}
