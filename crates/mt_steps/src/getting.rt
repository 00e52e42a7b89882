//! A get: its way to its key's border, and what it reads there, one field a step.

ghost use Rattle.std.specs.Prelude.{◌≡◌, ℕ, ◌≤◌, ◌<◌, ◌-◌, ◌*◌, ◌⊎◌, length, IfOk, IsSome, Some, false, true};
ghost use Rattle.mt_types.specs.declared.refusal.Refusal.TheVariants.{NoMemory as NoMemoryRefusal};
ghost use Rattle.mt_slice.specs.Place.{AreBytes, slice_number};
ghost use Rattle.mt_border.specs.Border.{row_at};
ghost use Rattle.mt_commit.specs.Log.{LogView};
ghost use Rattle.mt_steps.specs.Step.{StepLaw, MayStep, nothing};
ghost use Rattle.mt_steps.specs.Causes.{ReadFails};
ghost use Rattle.mt_steps.specs.Way.{rest_of};
ghost use Rattle.mt_steps.specs.declared.progress.Progress.TheVariants.{Refused};
ghost use Rattle.mt_steps.specs.Getting.{get_request, progress_of, get_after, GetIsTrue, GetWaits, GetFollows};

use crate::finding::{FindReading, Finding, Sight, read};
use crate::progress::Progress;
use crate::reader::{Reader, Reading};
use crate::way::{START, Way, rest_of};
use mt_border::{Border, Content};
use mt_tree::Tree;
use mt_types::event::Answer;
use mt_types::key::Key;
use mt_types::refusal::Refusal;
use mt_types::row::{ColumnNumbers, Row};
use std::alloc::Global;
use std::mem;

/// A get of some columns of a key's row.
#[derive(Drop)]
pub struct Get {
    pub key: Key,
    pub columns: ColumnNumbers,
    pub way: Way,
    /// How far it has read the border at which it is.
    pub finding: Finding,
}

// The row of the entry at a place.
pub fn row_at(border: &Border, place: usize) -> &Row
    requires within { place < length border.now.live }
    requires row { IsSome (row_at place border.now.live) }
    ensures { row_at place border.now.live ≡ Some result.now }
{
    match &border.entry(place).content {
        Content::Short(_, row) => row,
        Content::Long(_, row) => row,
        Content::Link(_) => unreachable!(),
    }
}

impl Get {
    // Does what a reading leads to.
    fn follow(&mut self, reading: FindReading) -> Progress
        requires { 8 * self.old.way.layer ≤ length self.old.key - 1 }
        ensures bytes { AreBytes self.old.key }
        ensures progress { result ≡ progress_of reading }
        ensures after { self.new ≡ get_after self.old reading }
    {
        let _fits = rest_of(&self.key, self.way.layer);
        self.finding = Reader::Begins;
        match reading {
            Reading::Restarts => {
                self.way = START;
                Progress::Waits
            }
            Reading::Repeats => Progress::Waits,
            Reading::GoesOn(finding) => {
                self.finding = finding;
                Progress::Moved
            }
            Reading::To(node) => {
                self.way.node = node;
                Progress::Moved
            }
            Reading::Finds(Sight::Link(node)) => {
                let layer = self.way.layer + 1;
                self.way = Way { node, layer };
                Progress::Moved
            }
            Reading::Finds(Sight::Absent) => Progress::Answered(Answer::Absent),
            Reading::Finds(Sight::Row(row)) => Progress::Answered(Answer::Found(row)),
        }
    }

    /// Reads one field of the border at which it is, or visits the head or interior node at which it is. It is lent
    /// only that.
    pub fn step(&mut self, alloc: Global, tree: &Tree) -> Progress
        requires { (log : LogView) × MayStep tree.now log nothing (GetIsTrue self.old) }
        ensures request { get_request self.new ≡ get_request self.old }
        ensures steps { (C : ℕ) (log : LogView)
            → StepLaw C tree.now tree.now log log (get_request self.old) nothing result nothing (GetIsTrue self.old)
            (GetIsTrue self.new) }
        ensures waits { GetWaits tree.now self.old result }
        ensures fails { ReadFails tree.now self.old.way.node.0 result }
        ensures gets_on { GetFollows tree.now self.old result self.new }
        ensures bytes { AreBytes self.old.key }
    {
        let finding = mem::replace(&mut self.finding, Reader::Begins);
        let rest = rest_of(&self.key, self.way.layer);
        match read(alloc, finding, tree, self.way.node, rest, &self.columns) {
            Ok(reading) => self.follow(reading),
            Err(_) => Progress::Refused(Refusal::NoMemory),
        }
    }
}
