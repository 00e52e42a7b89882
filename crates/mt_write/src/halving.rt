//! A run that splits the border of its key: it locks it, reads it, copies its upper half and cuts it, and stores no stage
//! between.

ghost use Rattle.std.specs.Prelude.{◌≡◌, ◌≢◌, ℕ, ◌<◌, ◌≤◌, ◌+◌, ◌-◌, List, length, IfOk, IfErr, IsSomeAnd};
ghost use Rattle.mt_commit.specs.Log.{LogView, IsLog};
ghost use Rattle.mt_word.specs.declared.permutation_word.TheConstants.{SLOTS};
ghost use Rattle.mt_border.specs.declared.entry.Entry.{Entry as EntryView};
ghost use Rattle.mt_border.specs.declared.found.Found.TheVariants.{Absent as AbsentFound};
ghost use Rattle.mt_border.specs.declared.unwritten.Unwritten.TheVariants.{Nothing};
ghost use Rattle.mt_arena.specs.Node.{border_at};
ghost use Rattle.mt_tree.specs.Descent.{visit_border};
ghost use Rattle.mt_tree.specs.declared.visit.Visit.{Visit};
ghost use Rattle.mt_steps.specs.Entering.{entry_noted};
ghost use Rattle.mt_steps.specs.Way.{Finds, rest_of};
ghost use Rattle.mt_write.specs.Follows.{MayLock};
ghost use Rattle.mt_write.specs.Runs.{Advances, HasRun, IsTrimmed, MayRun, PassesAt, state};
ghost use Rattle.mt_write.specs.Splitting.{CopiesFrom, IsRead};

use crate::copying::copy_next;
use crate::running::WriteRun;
use crate::writing::{Edit, Stage, Write};
use mt_border::{Border, Content, Entry};
use mt_commit::log::Log;
use mt_steps::entering::Outline;
use mt_steps::listing::{KeyRead, SlotKey};
use mt_steps::progress::Progress;
use mt_tree::Tree;
use mt_types::copying::TryCopy;
use mt_types::items::Items;
use mt_types::numbers::NodeNo;
use mt_types::refusal::NoMemory;
use mt_word::SLOTS;
use std::alloc::Global;

// How many steps there are from the lock of a full border until its split is prepared: the lock, its right link, its
// order, fifteen keys, and the spare of the half.
const STEPS_TO_SPARE: u64 = 19;

// The key of an entry, without its value. It shares what follows the slice.
fn key_of(alloc: Global, entry: &Entry) -> Result<SlotKey, NoMemory>
    ensures { IfOk result (λ key. key ≡ entry_noted entry.now) }
{
    let rest = match &entry.content {
        Content::Short(length, _) => KeyRead::Short(*length),
        Content::Long(suffix, _) => KeyRead::Long(suffix.copy(alloc)?),
        Content::Link(_) => KeyRead::Layer,
    };
    Ok(SlotKey {
        slice: entry.slice,
        rest,
    })
}

// What a write notes of a full border that it reads.
fn outline_of(alloc: Global, border: &Border) -> Result<Outline, NoMemory>
    requires { border.now.unwritten ≡ Nothing }
    ensures { IfOk result (λ outline. IsRead border.now outline) }
{
    let mut keys = Vec::with_capacity(alloc, SLOTS)?;
    for place in 0..border.len() {
        keys.push(key_of(alloc, border.entry(place))?)?;
    }
    Ok(Outline {
        right: border.right(),
        order: border.order(),
        keys: Items::from_vec(keys),
    })
}

// Copies the entries of a full border, of which this was read, from a place on; some are copied. If one can't be copied,
// returns how many more were.
fn copy_upper(
    alloc: Global,
    tree: &Tree,
    number: NodeNo,
    outline: &Outline,
    cut: usize,
    entries: Items<Entry>,
) -> Result<Items<Entry>, u64>
    requires read { IsSomeAnd (border_at tree.now.nodes number.0) (λ b. IsRead b outline.now × (length b.live ≡ SLOTS)
        × (b.unwritten ≡ Nothing)) }
    requires within { cut + length entries < SLOTS }
    ensures all { IfOk result (λ copies.
        CopiesFrom tree.now number.0 outline.now cut entries (SLOTS - (cut + length entries)) copies) }
    ensures some { IfErr result (λ count. (cut + length entries + count < SLOTS)
        × ((copies : List EntryView) × CopiesFrom tree.now number.0 outline.now cut entries count copies)) }
{
    let first = cut + entries.len();
    let mut copies = entries;
    for next in first..SLOTS {
        match copy_next(alloc, tree, number, outline, next, copies) {
            Ok(more) => copies = more,
            Err(_) => return Err((next - first) as u64),
        }
    }
    Ok(copies)
}

// A run of steps that have all moved.
fn moved(steps: u64) -> WriteRun
    ensures { result ≡ record { steps = steps; commits = 0; last = Progress.Moved } }
{
    WriteRun {
        steps,
        commits: 0,
        last: Progress::Moved,
    }
}

impl Write {
    // Once the split of its border is prepared: copies the upper half, fills and links the half, and cuts the order. If a
    // value can't be copied, it stops where the half is to be given back.
    fn split_off(
        &mut self,
        alloc: Global,
        tree: &mut Tree,
        half: NodeNo,
        cut: usize,
        place: usize,
        outline: Outline,
        entries: Items<Entry>,
    ) -> WriteRun
        requires may { (C : ℕ) × (log : LogView)
            × MayRun C (state tree.old log (record self.old { stage = Stage.Copies half cut place outline entries }))
            × IsTrimmed log × IsLog log }
        ensures runs { (C : ℕ) (log : LogView)
            → MayRun C (state tree.old log (record self.old { stage = Stage.Copies half cut place outline entries }))
            → IsTrimmed log → IsLog log
            → PassesAt C tree.old tree.new log (record self.old { stage = Stage.Copies half cut place outline entries })
            result self.new }
        ensures some { 0 < result.steps }
        ensures most { result.steps ≤ 18 }
    {
        let _before = tree.free_numbers();
        let left = (SLOTS - cut - entries.len()) as u64;
        match copy_upper(alloc, tree, self.way.node, &outline, cut, entries) {
            Ok(copies) => {
                self.fill_spared(tree, half, cut, place, outline.right, copies);
                let _filled = tree.free_numbers();
                self.link(tree, half, cut, place);
                let _linked = tree.free_numbers();
                self.cut(tree, half, cut, place);
                let _cut = tree.free_numbers();
                moved(left + 3)
            }
            Err(count) => {
                self.turn_to(Stage::GivesBack(half));
                moved(count + 1)
            }
        }
    }

    // At the border of its key, which is full and not locked, and in which its key has this place: locks it, reads it, and
    // splits it, until the new row is to be made for a half. If what it reads can't be noted, makes the first step alone.
    pub(crate) fn halve(
        &mut self,
        alloc: Global,
        columns: u8,
        tree: &mut Tree,
        log: &mut Log,
        place: usize,
    ) -> WriteRun
        requires may { MayRun columns (state tree.old log.old self.old) }
        requires trimmed { IsTrimmed log.old }
        requires idle { self.old.stage ≡ Stage.Seeks }
        requires put { self.old.edit ≢ Edit.Remove }
        requires here { IsSomeAnd (border_at tree.old.nodes self.old.way.node.0)
            (λ b. visit_border (rest_of self.old.key self.old.way) b ≡ Visit.Here) }
        requires finds { Finds tree.old self.old.key self.old.way (AbsentFound place) }
        requires full { IsSomeAnd (border_at tree.old.nodes self.old.way.node.0) (λ b. length b.live ≡ SLOTS) }
        requires lock { MayLock tree.old self.old.way.node.0 }
        ensures runs { HasRun columns (state tree.old log.old self.old) result (state tree.new log.new self.new) }
        ensures some { 0 < result.steps }
        ensures most { result.steps ≤ 37 }
        ensures next { Advances result.last → MayRun columns (state tree.new log.new self.new) }
        ensures trimmed { IsTrimmed log.new }
    {
        let _before = tree.free_numbers();
        let _trimmed = log.number();
        let Ok(outline) = outline_of(alloc, tree.border(self.way.node)) else {
            return self.step_once(alloc, columns, tree, log);
        };
        tree.lock_border(self.way.node);
        let _locked = tree.free_numbers();
        let Some(stage) = self.ready_full(alloc, columns, tree, place, outline) else {
            unreachable!();
        };
        let _ready = tree.free_numbers();
        match stage {
            Stage::Copies {
                half,
                cut,
                place,
                outline,
                entries,
            } => {
                let part = self.split_off(alloc, tree, half, cut, place, outline, entries);
                WriteRun {
                    steps: STEPS_TO_SPARE + part.steps,
                    commits: part.commits,
                    last: part.last,
                }
            }
            stage => {
                self.turn_to(stage);
                moved(STEPS_TO_SPARE)
            }
        }
    }
}
