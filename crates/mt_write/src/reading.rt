//! A border that a put or remove has locked on its way: it reads it, one field a step, continues to the right or in the layer
//! below, or makes ready with what it has found there.

ghost use Rattle.std.specs.Prelude.{◌≡◌, None};
ghost use Rattle.std.specs.Option.{IfSome};
ghost use Rattle.mt_types.specs.Rows.{version_of};
ghost use Rattle.mt_commit.specs.Log.{LogView};
ghost use Rattle.mt_write.specs.Writing.{MayStage, entered_stage, there_row};
ghost use Rattle.mt_write.specs.Ready.{IsNotFull};
ghost use Rattle.mt_write.specs.Follows.{WriteStep, TreeStep, MayBeAt, FindsNone};

use crate::layering::prepare_layer;
use crate::ready::{NewRow, prepare, prepare_over, refused_version, take_row};
use crate::splitting::prepare_split;
use crate::writing::{Edit, Stage, Write};
use mt_border::Found;
use mt_commit::log::Log;
use mt_steps::entering::{Entered, Entering, Outline, There, read};
use mt_steps::progress::Progress;
use mt_steps::way::rest_of;
use mt_tree::Tree;
use mt_types::event::Answer;
use mt_types::numbers::NodeNo;
use mt_types::refusal::Refusal;
use std::alloc::Global;

// Returns the stage of a write that has read a field.
fn stage_after(entered: Entered) -> Stage
    ensures { result ≡ entered_stage entered }
{
    match entered {
        Entered::Enters(entering) => Stage::Enters(entering),
        Entered::Right(next) => Stage::Rightward(next),
        Entered::Below(head) => Stage::Layered(head),
        Entered::Here(there) => Stage::Searched(there),
    }
}

// The version of the row that was found, or 0 if none was.
fn version_there(there: &There) -> u64
    ensures { result ≡ version_of (there_row there.now) }
{
    match there {
        There::Row(_, row) => row.version,
        There::Absent(_) | There::Full(_, _) | There::Other(_, _, _) => 0,
    }
}

impl Write {
    // Reads the next field of the border that it has locked.
    #[inline(never)]
    pub(crate) fn enter(&mut self, alloc: Global, tree: &Tree, entering: Entering) -> Progress
        requires { MayBeAt tree.now self.old (Stage.Enters entering) }
        ensures { TreeStep tree.now tree.now self.old (Stage.Enters entering) result self.new }
    {
        let _border = tree.border(self.way.node);
        let rest = rest_of(&self.key, self.way.layer);
        match read(alloc, entering, tree, self.way.node, rest) {
            Ok(entered) => {
                self.turn_to(stage_after(entered));
                Progress::Moved
            }
            Err(_) => {
                self.turn_to(Stage::Failed(Refusal::NoMemory, None));
                Progress::Moved
            }
        }
    }

    // Unlocks its border, and continues to the right.
    #[inline(never)]
    pub(crate) fn go_right(&mut self, tree: &mut Tree, next: NodeNo) -> Progress
        requires { MayBeAt tree.old self.old (Stage.Rightward next) }
        ensures { TreeStep tree.old tree.new self.old (Stage.Rightward next) result self.new }
    {
        tree.unlock_border(self.way.node);
        self.way.node = next;
        self.turn_to(Stage::Seeks);
        Progress::Moved
    }

    // Makes ready with the row, or none, that it has read of its border, which it need not split. Returns the next stage, or
    // none if there is no row to remove.
    fn ready_by(
        &self,
        alloc: Global,
        columns: u8,
        tree: &mut Tree,
        log: &mut Log,
        there: &There,
    ) -> Option<Stage>
        requires may { MayStage columns tree.old log.old self.now (Stage.Searched there.now) }
        requires room { IsNotFull there.now }
        ensures some { IfSome result (λ stage. WriteStep columns tree.old tree.new log.old log.new self.now
            (Stage.Searched there.now) Progress.Moved (record self.now { stage = stage })) }
        ensures none { result ≡ None → FindsNone columns tree.old tree.new log.old log.new self.now there.now }
    {
        let _bytes = rest_of(&self.key, self.way.layer);
        let _border = tree.border(self.way.node);
        let Edit::Put { sets, only } = &self.edit else {
            return match there {
                There::Row(place, old) => Some(take_row(
                    alloc, tree, log, self.way, *place, &self.key, old,
                )),
                There::Absent(_) | There::Full(_, _) | There::Other(_, _, _) => None,
            };
        };
        if let Some(refusal) = refused_version(version_there(there), *only) {
            return Some(Stage::Failed(refusal, None));
        }
        let row = NewRow {
            columns,
            key: &self.key,
            sets,
            way: self.way,
        };
        Some(match there {
            There::Row(place, old) => prepare_over(alloc, tree, log, &row, *place, old),
            There::Absent(place) => prepare(alloc, tree, log, &row, Found::Absent(*place)),
            There::Other(place, suffix, old) => {
                prepare_layer(alloc, tree, &row, *place, suffix, old)
            }
            There::Full(_, _) => unreachable!(),
        })
    }

    // The same, and takes what it has read.
    fn ready(
        &self,
        alloc: Global,
        columns: u8,
        tree: &mut Tree,
        log: &mut Log,
        there: There,
    ) -> Option<Stage>
        requires may { MayStage columns tree.old log.old self.now (Stage.Searched there) }
        requires room { IsNotFull there }
        ensures some { IfSome result (λ stage. WriteStep columns tree.old tree.new log.old log.new self.now
            (Stage.Searched there) Progress.Moved (record self.now { stage = stage })) }
        ensures none { result ≡ None → FindsNone columns tree.old tree.new log.old log.new self.now there }
    {
        self.ready_by(alloc, columns, tree, log, &there)
    }

    // The same, if its border is full and has no place for its key: a put splits it.
    pub(crate) fn ready_full(
        &self,
        alloc: Global,
        columns: u8,
        tree: &mut Tree,
        place: usize,
        outline: Outline,
    ) -> Option<Stage>
        requires { (log : LogView) × MayStage columns tree.old log self.now (Stage.Searched (There.Full place outline)) }
        ensures some { (log : LogView) → MayStage columns tree.old log self.now (Stage.Searched (There.Full place outline))
            → IfSome result (λ stage. WriteStep columns tree.old tree.new log log self.now
            (Stage.Searched (There.Full place outline)) Progress.Moved (record self.now { stage = stage })) }
        ensures none { (log : LogView) → MayStage columns tree.old log self.now (Stage.Searched (There.Full place outline))
            → result ≡ None → FindsNone columns tree.old tree.new log log self.now (There.Full place outline) }
        ensures put { result ≡ None → self.now.edit ≡ Edit.Remove }
    {
        let _bytes = rest_of(&self.key, self.way.layer);
        let _border = tree.border(self.way.node);
        let Edit::Put { sets, only } = &self.edit else {
            return None;
        };
        if let Some(refusal) = refused_version(0, *only) {
            return Some(Stage::Failed(refusal, None));
        }
        let row = NewRow {
            columns,
            key: &self.key,
            sets,
            way: self.way,
        };
        Some(prepare_split(alloc, tree, &row, place, outline))
    }

    // Makes ready with what it has read of its border, or ends if there is no row to remove.
    #[inline(never)]
    pub(crate) fn make_ready(
        &mut self,
        alloc: Global,
        columns: u8,
        tree: &mut Tree,
        log: &mut Log,
        there: There,
    ) -> Progress
        requires { MayStage columns tree.old log.old self.old (Stage.Searched there) }
        ensures { WriteStep columns tree.old tree.new log.old log.new self.old (Stage.Searched there) result self.new }
    {
        let stage = match there {
            There::Full(place, outline) => self.ready_full(alloc, columns, tree, place, outline),
            there => self.ready(alloc, columns, tree, log, there),
        };
        let Some(stage) = stage else {
            tree.unlock_border(self.way.node);
            return Progress::Answered(Answer::Absent);
        };
        self.turn_to(stage);
        Progress::Moved
    }
}
