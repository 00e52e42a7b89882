//! The copies of a split: the entries of the upper half, by the keys that were read and the values, one value a step. If a
//! value can't be copied, the spared half is given back.

ghost use Rattle.std.specs.Prelude.{◌≡◌, ◌<◌, ◌≤◌, ◌+◌, List, [], ◌∷◌, ◌++◌, length, slice_get, IfOk, IsSomeAnd, Some, true};
ghost use Rattle.mt_border.specs.Parts.{IsValueOf};
ghost use Rattle.mt_border.specs.declared.entry.Entry.{Entry as EntryView};
ghost use Rattle.mt_border.specs.declared.unwritten.Unwritten.TheVariants.{Nothing};
ghost use Rattle.mt_arena.specs.Node.{border_at};
ghost use Rattle.mt_steps.specs.Entering.{entry_noted};
ghost use Rattle.mt_write.specs.Splitting.{copied_stage, entry_copied, CopiesValue, IsRead};
ghost use Rattle.mt_word.specs.declared.permutation_word.TheConstants.{SLOTS};
ghost use Rattle.mt_write.specs.Follows.{TreeStep, MayBeAt};

use crate::writing::{Stage, Write};
use mt_arena::{Field, Part};
use mt_border::{Content, Entry, ValuePart};
use mt_steps::entering::Outline;
use mt_steps::listing::{KeyRead, SlotKey};
use mt_steps::progress::Progress;
use mt_tree::Tree;
use mt_types::copying::TryCopy;
use mt_types::items::Items;
use mt_types::numbers::NodeNo;
use mt_types::refusal::{NoMemory, Refusal};
use mt_word::SLOTS;
use std::alloc::Global;

// The entry of a key that was noted, with this value. It shares the bytes of both.
fn entry_of(alloc: Global, key: &SlotKey, value: &ValuePart<'_>) -> Result<Entry, NoMemory>
    requires { (entry : EntryView) × (key.now ≡ entry_noted entry) × IsValueOf entry.content value.now }
    ensures { IfOk result (λ entry. entry_copied key.now value.now ≡ Some entry) }
{
    let content = match (&key.rest, value) {
        (KeyRead::Short(length), ValuePart::Row(row)) => Content::Short(*length, row.copy(alloc)?),
        (KeyRead::Long(suffix), ValuePart::Row(row)) => {
            Content::Long(suffix.copy(alloc)?, row.copy(alloc)?)
        }
        (_, ValuePart::Link(head)) => Content::Link(*head),
        (KeyRead::Layer, ValuePart::Row(_)) => unreachable!(),
    };
    Ok(Entry {
        slice: key.slice,
        content,
    })
}

// Reads the value of the slot at a place of the border under a number, of which this was read, and returns the entries
// with the one that it makes with the key there.
pub(crate) fn copy_next(
    alloc: Global,
    tree: &Tree,
    number: NodeNo,
    outline: &Outline,
    place: usize,
    entries: Items<Entry>,
) -> Result<Items<Entry>, NoMemory>
    requires read { IsSomeAnd (border_at tree.now.nodes number.0) (λ b. IsRead b outline.now × (place < length b.live)
        × (b.unwritten ≡ Nothing)) }
    ensures copies { IfOk result (λ copies. CopiesValue tree.now number.0 outline.now place entries copies) }
{
    let _border = tree.border(number);
    let number_there = outline.order.slot(place);
    let Part::Value(value) = tree.part(number, Field::Value(number_there)) else {
        unreachable!();
    };
    let entry = entry_of(alloc, &outline.keys.as_slice()[place], &value)?;
    let mut copies = entries.into_vec();
    copies.push(entry)?;
    Ok(Items::from_vec(copies))
}

// Returns the stage once these entries of the upper half are copied: all of them, or some.
fn stage_copied(
    half: NodeNo,
    cut: usize,
    place: usize,
    outline: Outline,
    entries: Items<Entry>,
) -> Stage
    requires { cut + length entries ≤ SLOTS }
    ensures { result ≡ copied_stage half cut place outline entries }
{
    if cut + entries.len() == SLOTS {
        return Stage::Spared {
            half,
            cut,
            place,
            right: outline.right,
            entries,
        };
    }
    Stage::Copies {
        half,
        cut,
        place,
        outline,
        entries,
    }
}

impl Write {
    // The next entry of the upper half is copied, or the half is to be given back.
    #[inline(never)]
    pub(crate) fn copy_value(
        &mut self,
        alloc: Global,
        tree: &Tree,
        half: NodeNo,
        cut: usize,
        place: usize,
        outline: Outline,
        entries: Items<Entry>,
    ) -> Progress
        requires { MayBeAt tree.now self.old (Stage.Copies half cut place outline entries) }
        ensures { TreeStep tree.now tree.now self.old (Stage.Copies half cut place outline entries) result self.new }
    {
        let next = cut + entries.len();
        match copy_next(alloc, tree, self.way.node, &outline, next, entries) {
            Ok(copies) => {
                self.turn_to(stage_copied(half, cut, place, outline, copies));
                Progress::Moved
            }
            Err(_) => {
                self.turn_to(Stage::GivesBack(half));
                Progress::Moved
            }
        }
    }

    // The spared half is given back, and the border is unlocked.
    #[inline(never)]
    pub(crate) fn give_back(&self, tree: &mut Tree, half: NodeNo) -> Progress
        requires may { MayBeAt tree.old self.now (Stage.GivesBack half) }
        ensures { TreeStep tree.old tree.new self.now (Stage.GivesBack half) result self.now }
    {
        tree.give_back(half);
        tree.unlock_border(self.way.node);
        Progress::Refused(Refusal::NoMemory)
    }
}
