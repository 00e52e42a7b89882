//! Runs of a put or remove: its steps one after the other, while nobody else steps.

ghost use Rattle.std.specs.Prelude.{◌≡◌, ◌≢◌, ◌≤◌, ◌<◌, ◌↔◌, length, max, IsTrue, None};
ghost use Rattle.std.specs.Option.{IfSome};
ghost use Rattle.mt_commit.specs.Log.{trimmed};
ghost use Rattle.mt_word.specs.declared.permutation_word.TheConstants.{SLOTS};
ghost use Rattle.mt_write.specs.Runs.{Advances, HasRun, IsStraight, IsTrimmed, MayRun, commits_in, state};

use crate::writing::{Edit, Write};
use mt_border::{Border, Found};
use mt_commit::log::Log;
use mt_steps::progress::Progress;
use mt_steps::way::rest_of;
use mt_tree::{Tree, arrive};
use std::alloc::Global;

/// What a run of a put or remove came to.
#[derive(Drop)]
pub struct WriteRun {
    /// How many steps were made.
    pub steps: u64,
    /// How many of them were commits.
    pub commits: u64,
    /// What the last step came to.
    pub last: Progress,
}

// How many steps a put or remove makes at most at a border, if it need not split it or make a layer: it locks the border,
// reads at most eighteen fields of it, makes ready, writes the key and the row of a new key, commits and unlocks.
const STEPS_AT_BORDER: u64 = 24;

// Returns whether the call continues after a step, and has not waited.
fn advances(progress: &Progress) -> bool
    ensures { IsTrue result ↔ Advances progress.now }
{
    matches!(progress, Progress::Moved | Progress::Committed(_))
}

// Trims the log after a step, and returns how many commits the step was. Only a commit leaves something to trim.
fn trim_after(log: &mut Log, progress: &Progress) -> u64
    requires { commits_in progress.now ≡ 0 → IsTrimmed log.old }
    ensures commits { result ≡ commits_in progress.now }
    ensures trims { log.new ≡ trimmed log.old }
    ensures trimmed { IsTrimmed log.new }
{
    let Progress::Committed(_) = progress else {
        return 0;
    };
    log.trim();
    1
}

// How many steps a put makes at most, from the lock of a border that it splits until the new row is to be made for a half.
const STEPS_OF_SPLIT: u64 = 37;

// The place of its key in the border that a write splits, if it has found this.
fn split_place(edit: &Edit, border: &Border, found: Found) -> Option<usize>
    ensures some { IfSome result (λ place. (found ≡ Found.Absent place) × (length border.now.live ≡ SLOTS)
        × (edit.now ≢ Edit.Remove)) }
    ensures none { result ≡ None → IsStraight edit.now border.now found }
{
    match (edit, found) {
        (Edit::Put { .. }, Found::Absent(place)) if border.is_full() => Some(place),
        _ => None,
    }
}

// Returns what a step came to that was no commit.
fn one_step(last: Progress) -> WriteRun
    ensures { result ≡ record { steps = 1; commits = 0; last = last } }
{
    WriteRun {
        steps: 1,
        commits: 0,
        last,
    }
}

impl Write {
    // Makes one step, as its stage requires.
    pub(crate) fn step_once(
        &mut self,
        alloc: Global,
        columns: u8,
        tree: &mut Tree,
        log: &mut Log,
    ) -> WriteRun
        requires may { MayRun columns (state tree.old log.old self.old) }
        requires trimmed { IsTrimmed log.old }
        ensures runs { HasRun columns (state tree.old log.old self.old) result (state tree.new log.new self.new) }
        ensures one { result.steps ≡ 1 }
        ensures next { Advances result.last → MayRun columns (state tree.new log.new self.new) }
        ensures trimmed { IsTrimmed log.new }
    {
        let _before = tree.free_numbers();
        let _trimmed = log.number();
        let last = self.go(alloc, columns, tree, log);
        let _after = tree.free_numbers();
        let _sound = log.number();
        let commits = trim_after(log, &last);
        WriteRun {
            steps: 1,
            commits,
            last,
        }
    }

    // Makes one step. At a border that it need not split, if twenty-four are left, it makes all from the lock to the
    // unlock; at one that it splits, if thirty-seven are left, all from the lock to the cut.
    fn advance(
        &mut self,
        alloc: Global,
        columns: u8,
        tree: &mut Tree,
        log: &mut Log,
        most: u64,
    ) -> WriteRun
        requires may { MayRun columns (state tree.old log.old self.old) }
        requires trimmed { IsTrimmed log.old }
        ensures runs { HasRun columns (state tree.old log.old self.old) result (state tree.new log.new self.new) }
        ensures some { 0 < result.steps }
        ensures most { result.steps ≤ max 1 most }
        ensures next { Advances result.last → MayRun columns (state tree.new log.new self.new) }
        ensures trimmed { IsTrimmed log.new }
    {
        if most < STEPS_AT_BORDER || !self.is_seeking() {
            return self.step_once(alloc, columns, tree, log);
        }
        let _before = tree.free_numbers();
        let _trimmed = log.number();
        if let Some(last) = self.visit(tree) {
            return one_step(last);
        }
        let border = tree.border(self.way.node);
        match arrive(border, rest_of(&self.key, self.way.layer)) {
            Ok(found) => match split_place(&self.edit, border, found) {
                Some(place) if most >= STEPS_OF_SPLIT => {
                    self.halve(alloc, columns, tree, log, place)
                }
                Some(_) => self.step_once(alloc, columns, tree, log),
                None => self.finish(alloc, columns, tree, log, found),
            },
            Err(visit) => self.pass(tree, visit),
        }
    }

    /// Makes steps, one after the other, until one of them ends the call or waits, or `most` are made. At least one is
    /// made, also if `most` is 0. After each the log is trimmed.
    ///
    /// Costs what the steps cost. A border is searched once, if twenty-four steps are left when it is reached, or
    /// thirty-seven if a put splits it; otherwise it is read field by field.
    pub fn run(
        &mut self,
        alloc: Global,
        columns: u8,
        tree: &mut Tree,
        log: &mut Log,
        most: u64,
    ) -> WriteRun
        requires may { MayRun columns (state tree.old log.old self.old) }
        requires trimmed { IsTrimmed log.old }
        ensures runs { HasRun columns (state tree.old log.old self.old) result (state tree.new log.new self.new) }
        ensures most { result.steps ≤ max 1 most }
        ensures ends { result.steps < most → Advances result.last → ⊥ }
    {
        let mut steps = 0;
        let mut commits = 0;
        loop {
            let part = self.advance(alloc, columns, tree, log, most - steps);
            steps += part.steps;
            commits += part.commits;
            if steps >= most || !advances(&part.last) {
                return WriteRun {
                    steps,
                    commits,
                    last: part.last,
                };
            }
            drop(part);
        }
    }
}
