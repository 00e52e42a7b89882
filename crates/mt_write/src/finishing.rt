//! What a run does at the border of its key: it locks the border, reads it, makes ready, commits and unlocks it, and stores
//! no stage between.

ghost use Rattle.std.specs.Prelude.{◌≡◌, ℕ, ◌<◌, ◌≤◌, ◌+◌, length, IfOk, IfErr, IsSomeAnd, None, true};
ghost use Rattle.std.specs.Option.{IfSome};
ghost use Rattle.mt_border.specs.Border.{with_unlocked};
ghost use Rattle.mt_arena.specs.Node.{border_at};
ghost use Rattle.mt_arena.specs.Arena.{IsArena, with_border_changed};
ghost use Rattle.mt_tree.specs.Keeping.{KeepsTree};
ghost use Rattle.mt_tree.specs.Descent.{visit_border};
ghost use Rattle.mt_tree.specs.declared.visit.Visit.{Visit};
ghost use Rattle.mt_steps.specs.Way.{Finds, rest_of};
ghost use Rattle.mt_border.specs.declared.unwritten.Unwritten.TheVariants.{Nothing};
ghost use Rattle.mt_steps.specs.declared.entering.There.{There};
ghost use Rattle.mt_write.specs.Writing.{MayStage};
ghost use Rattle.mt_write.specs.Follows.{WriteStep, FindsNone, MayLock};
ghost use Rattle.mt_write.specs.Runs.{values_read, Advances, ComesTo, HasRun, IsStraight, IsTrimmed, MayAct, MayRun, CommitsStage, state};

use crate::commit::{hide, overwrite, show};
use crate::ending::written;
use crate::inserting::write_slot;
use crate::ready::{NewRow, other_version, prepare, prepare_remove};
use crate::running::WriteRun;
use crate::writing::{Edit, Insertion, Stage, Write};
use mt_border::{Border, Found};
use mt_commit::log::Log;
use mt_steps::progress::Progress;
use mt_steps::way::rest_of;
use mt_tree::Tree;
use mt_types::event::Answer;
use std::alloc::Global;

/// A commit at the border of a key, how many steps it took since the lock, and whether it has hidden a row, which is then
/// to be dropped.
#[derive(Clone, Copy)]
pub struct Committed {
    pub commit: u64,
    pub steps: u64,
    pub hides: bool,
}

/// What a put or remove came to at the border of its key, which it had locked.
#[derive(Drop)]
pub enum AtBorder {
    /// There is no row to remove.
    Absent,
    /// It has committed.
    Commits(Committed),
    /// It has made this stage ready, and no commit.
    Ready(Stage),
}

// How many fields of its border a write reads that finds this there: the right link, the order, each key, and the value of
// the slot that has its slice and class, if there is one.
fn found_fields(border: &Border, found: Found) -> u64
    ensures fields { result ≡ 2 + length border.now.live + values_read found }
    ensures few { result ≤ 18 }
{
    let keys = border.len() as u64;
    match found {
        Found::Absent(_) => keys + 2,
        Found::Row(_) | Found::OtherSuffix(_) | Found::Link(_, _) => keys + 3,
    }
}

impl Write {
    // Commits a row that is ready to be written and shown, written over another, or hidden. Otherwise returns the stage as
    // it was.
    fn commit(&self, tree: &mut Tree, log: &mut Log, stage: Stage) -> Result<Committed, Stage>
        requires { (C : ℕ) × MayRun C (state tree.old log.old (record self.now { stage = stage })) }
        ensures commits { IfOk result (λ committed. CommitsStage tree.old tree.new log.old log.new self.now stage committed) }
        ensures not { IfErr result (λ same. (same ≡ stage) × (tree.new ≡ tree.old) × (log.new ≡ log.old)) }
    {
        let number = self.way.node;
        let _arena = tree.free_numbers();
        match stage {
            Stage::Reserved(new, slot_key, row) => {
                let Insertion {
                    place,
                    key,
                    logged,
                    split,
                } = new;
                if split.is_some() {
                    let new = Insertion {
                        place,
                        key,
                        logged,
                        split,
                    };
                    return Err(Stage::Reserved(new, slot_key, row));
                }
                write_slot(tree, number, slot_key, row);
                let _written = tree.free_numbers();
                let commit = show(tree, log, number, place, key, logged);
                Ok(Committed {
                    commit,
                    steps: 4,
                    hides: false,
                })
            }
            Stage::Made {
                place,
                key,
                columns,
                logged,
            } => Ok(Committed {
                commit: overwrite(tree, log, number, place, key, columns, logged),
                steps: 2,
                hides: false,
            }),
            Stage::Taken { place, key, before } => Ok(Committed {
                commit: hide(tree, log, number, place, key, before),
                steps: 2,
                hides: true,
            }),
            stage => Err(stage),
        }
    }

    // At its border, which it has locked: makes ready with what was found there, and returns the next stage, or none if
    // there is no row to remove.
    fn ready_found(
        &self,
        alloc: Global,
        columns: u8,
        tree: &mut Tree,
        log: &mut Log,
        found: Found,
    ) -> Option<Stage>
        requires may { (there : There) × MayStage columns tree.old log.old self.now (Stage.Searched there) }
        requires finds { Finds tree.old self.now.key self.now.way found }
        requires straight { IsSomeAnd (border_at tree.old.nodes self.now.way.node.0)
            (λ b. IsStraight self.now.edit b found) }
        ensures some { (there : There) → IfSome result (λ stage. WriteStep columns tree.old tree.new log.old log.new self.now
            (Stage.Searched there) Progress.Moved (record self.now { stage = stage })) }
        ensures none { (there : There) → result ≡ None
            → FindsNone columns tree.old tree.new log.old log.new self.now there }
    {
        let _bytes = rest_of(&self.key, self.way.layer);
        match &self.edit {
            Edit::Put { sets, only } => {
                let border = tree.border(self.way.node);
                if let Some(refusal) = other_version(border, found, *only) {
                    return Some(Stage::Failed(refusal, None));
                }
                let row = NewRow {
                    columns,
                    key: &self.key,
                    sets,
                    way: self.way,
                };
                Some(prepare(alloc, tree, log, &row, found))
            }
            Edit::Remove => prepare_remove(alloc, tree, log, self.way, &self.key, found),
        }
    }

    // At its border, which it has locked: makes ready with what was found there, and commits if that is next.
    fn act(
        &self,
        alloc: Global,
        columns: u8,
        tree: &mut Tree,
        log: &mut Log,
        found: Found,
    ) -> AtBorder
        requires { (there : There) × MayAct columns tree.old log.old self.now found there }
        ensures { (there : There) → MayAct columns tree.old log.old self.now found there
            → ComesTo columns tree.old tree.new log.old log.new self.now there result }
    {
        match self.commit_unread(alloc, columns, tree, log, found) {
            Ok(Some(committed)) => return AtBorder::Commits(committed),
            Ok(None) => {}
            Err(refusal) => return AtBorder::Ready(Stage::Failed(refusal, None)),
        }
        let Some(stage) = self.ready_found(alloc, columns, tree, log, found) else {
            return AtBorder::Absent;
        };
        let _arena = tree.free_numbers();
        let _reserved = log.number();
        match self.commit(tree, log, stage) {
            Ok(committed) => {
                let _appended = log.number();
                let _committed = tree.free_numbers();
                log.trim();
                AtBorder::Commits(committed)
            }
            Err(stage) => AtBorder::Ready(stage),
        }
    }

    // Unlocks its border, and answers. Returns the run that has made this number of steps, and of commits among them.
    fn unlock(&self, tree: &mut Tree, steps: u64, commits: u64, answer: Answer) -> WriteRun
        requires locked { IsSomeAnd (border_at tree.old.nodes self.now.way.node.0) (λ b. b.version.locked ≡ true) }
        requires written { IsSomeAnd (border_at tree.old.nodes self.now.way.node.0) (λ b. b.unwritten ≡ Nothing) }
        ensures run { result ≡ record { steps = steps; commits = commits; last = Progress.Answered answer } }
        ensures unlocked { tree.new ≡ with_border_changed tree.old self.now.way.node.0 with_unlocked }
        ensures keeps { KeepsTree tree.old tree.new }
        ensures arena { IsArena tree.new }
    {
        tree.unlock_border(self.way.node);
        let _arena = tree.free_numbers();
        WriteRun {
            steps,
            commits,
            last: Progress::Answered(answer),
        }
    }

    // At the border of its key, which is not locked and which it need not split: locks it, reads it, makes ready with what
    // was found there, commits, drops the row that it has hidden, and unlocks it. If it is to make a layer, or has failed, it stops before that.
    pub(crate) fn finish(
        &mut self,
        alloc: Global,
        columns: u8,
        tree: &mut Tree,
        log: &mut Log,
        found: Found,
    ) -> WriteRun
        requires may { MayRun columns (state tree.old log.old self.old) }
        requires trimmed { IsTrimmed log.old }
        requires idle { self.old.stage ≡ Stage.Seeks }
        requires here { IsSomeAnd (border_at tree.old.nodes self.old.way.node.0)
            (λ b. visit_border (rest_of self.old.key self.old.way) b ≡ Visit.Here) }
        requires finds { Finds tree.old self.old.key self.old.way found }
        requires straight { IsSomeAnd (border_at tree.old.nodes self.old.way.node.0)
            (λ b. IsStraight self.old.edit b found) }
        requires lock { MayLock tree.old self.old.way.node.0 }
        ensures runs { HasRun columns (state tree.old log.old self.old) result (state tree.new log.new self.new) }
        ensures some { 0 < result.steps }
        ensures most { result.steps ≤ 24 }
        ensures next { Advances result.last → MayRun columns (state tree.new log.new self.new) }
        ensures trimmed { IsTrimmed log.new }
    {
        let _before = tree.free_numbers();
        let _trimmed = log.number();
        let fields = found_fields(tree.border(self.way.node), found);
        tree.lock_border(self.way.node);
        let _locked = tree.free_numbers();
        let came_to = self.act(alloc, columns, tree, log, found);
        let _acted = tree.free_numbers();
        let _sound = log.number();
        match came_to {
            AtBorder::Absent => self.unlock(tree, fields + 2, 0, Answer::Absent),
            AtBorder::Commits(committed) => {
                let answer = written(&self.edit, committed.commit);
                let more = self.forget_hidden(tree, committed);
                self.unlock(tree, fields + committed.steps + more + 2, 1, answer)
            }
            AtBorder::Ready(stage) => {
                self.turn_to(stage);
                WriteRun {
                    steps: fields + 2,
                    commits: 0,
                    last: Progress::Moved,
                }
            }
        }
    }
}
