//! A border that a call has locked, read one field in each step: its right link, its order, the key of each live slot in order,
//! and the value of the slot that has the slice and class of the key sought.

ghost use Rattle.std.specs.Prelude.{◌≡◌, ◌+◌, ◌*◌, ◌≤◌, nat_lt, IfOk, IsSome};
ghost use Rattle.mt_arena.specs.Node.{border_at};
ghost use Rattle.mt_arena.specs.Parts.{IsField};
ghost use Rattle.mt_steps.specs.Entering.{part_key, match_of, sought_at, sought_then, noted, absent_there, keys_read, next_key, bounded, value_there, wants, IsEntering, WantsRight, WantsOrder, WantsKey, WantsValue, at_order, at_key, at_value, EnterReads, EnterLeads};

use crate::finding::is_before;
use crate::listing::{SlotKey, key_read};
use mt_arena::{Field, Part};
use mt_border::{KeyPart, Mark, RightLink, Suffix, ValuePart};
use mt_slice::{rest_of, slice_of};
use mt_tree::Tree;
use mt_types::copying::TryCopy;
use mt_types::items::Items;
use mt_types::numbers::NodeNo;
use mt_types::refusal::NoMemory;
use mt_types::row::Row;
use mt_word::{Permutation, SLOTS};
use std::alloc::Global;

/// What was read of a locked border: its right link, its order, and, if no slot is unused, the keys so far.
#[derive(Drop)]
pub struct Outline {
    pub right: Option<RightLink>,
    pub order: Permutation,
    pub keys: Items<SlotKey>,
}

/// What a key that has the slice and class of the key sought is to it.
#[derive(Drop)]
pub enum Match {
    /// The key itself.
    Same,
    /// Another key: this follows its slice.
    Other(Suffix),
    /// The key of a layer, in which the key sought continues.
    Layer,
}

/// What the keys before a place are to the key sought.
#[derive(Drop)]
pub enum Sought {
    /// All of them are before it.
    Before,
    /// The key at this place has its slice and class, and is this to it.
    At(usize, Match),
    /// The key at this place is the first that is after it, and none has its slice and class.
    After(usize),
}

/// How far a call has read the border that it has locked.
#[derive(Drop)]
pub enum Entering {
    /// It has read nothing of it.
    Locked,
    /// It has read the right link: its slice is before it.
    Bounded(Option<RightLink>),
    /// And the order: it reads the key of the slot at the next place.
    Reads {
        outline: Outline,
        place: usize,
        sought: Sought,
    },
    /// It has read all keys: it reads the value of the slot at the place whose key has its slice and class.
    AtValue {
        outline: Outline,
        place: usize,
        matched: Match,
    },
}

/// What a call finds at the border that it has locked.
#[derive(Drop)]
pub enum There {
    /// No key of its slice and class: its own belongs at this place. A slot is unused.
    Absent(usize),
    /// The same, but no slot is unused. This was read of the border.
    Full(usize, Outline),
    /// Its key, at this place, with this row.
    Row(usize, Row),
    /// Another key of its slice, at this place: what follows its slice, and its row.
    Other(usize, Suffix, Row),
}

/// What a call does after it has read a field of the border that it has locked.
#[derive(Drop)]
pub enum Entered {
    /// It reads the next field.
    Enters(Entering),
    /// Its slice is in this border to the right, or beyond.
    Right(NodeNo),
    /// Its key continues in the layer of this head.
    Below(NodeNo),
    /// It has read the border, and has found this.
    Here(There),
}

// The right link is read first.
fn bound(right: Option<RightLink>, slice: u64) -> Entered
    ensures { result ≡ bounded slice right }
{
    match right {
        Some(link) if link.low <= slice => Entered::Right(link.node),
        _ => Entered::Enters(Entering::Bounded(right)),
    }
}

// No key has the slice and class sought: its own belongs at a place.
fn absent_there(outline: Outline, place: usize) -> There
    ensures { result ≡ absent_there outline place }
{
    if outline.order.len() == SLOTS {
        There::Full(place, outline)
    } else {
        There::Absent(place)
    }
}

// All keys are read, and there are as many as `count`: the value of the slot that has the slice and class sought is
// next, if there is one.
fn keys_read(outline: Outline, count: usize, sought: Sought) -> Entered
    ensures { result ≡ keys_read outline count sought }
{
    match sought {
        Sought::Before => Entered::Here(absent_there(outline, count)),
        Sought::After(place) => Entered::Here(absent_there(outline, place)),
        Sought::At(place, matched) => Entered::Enters(Entering::AtValue {
            outline,
            place,
            matched,
        }),
    }
}

// The key of the slot at a place is next, if there is one.
fn next_key(outline: Outline, place: usize, sought: Sought) -> Entered
    ensures { result ≡ next_key outline place sought }
{
    if place < outline.order.len() {
        return Entered::Enters(Entering::Reads {
            outline,
            place,
            sought,
        });
    }
    keys_read(outline, place, sought)
}

// What was read, with the key of one more slot, if no slot is unused. Costs at the first key the room for all.
fn noted(alloc: Global, outline: Outline, part: &KeyPart<'_>) -> Result<Outline, NoMemory>
    ensures { IfOk result (λ next. next ≡ noted outline part.now) }
{
    if outline.order.len() != SLOTS {
        return Ok(outline);
    }
    let Outline { right, order, keys } = outline;
    let mut keys = keys.into_vec();
    keys.reserve(SLOTS.saturating_sub(keys.len()))?;
    keys.push(SlotKey {
        slice: part.slice,
        rest: key_read(alloc, part)?,
    })?;
    Ok(Outline {
        right,
        order,
        keys: Items::from_vec(keys),
    })
}

// What a key that has the slice and class sought is to the key sought, of which this follows the slice. No key is
// unstable while the call has the lock and has written nothing.
fn match_of(alloc: Global, part: &KeyPart<'_>, suffix: &[u8]) -> Result<Match, NoMemory>
    ensures { IfOk result (λ matched. matched ≡ match_of suffix.now (part_key part.now)) }
{
    match part.mark {
        Mark::Layer => Ok(Match::Layer),
        Mark::Plain | Mark::Unstable => match part.suffix {
            Some(own) if own.as_slice() != suffix => Ok(Match::Other(own.copy(alloc)?)),
            _ => Ok(Match::Same),
        },
    }
}

// What the keys up to a place are to the key sought, if those before the place are before it.
fn sought_at(
    alloc: Global,
    place: usize,
    part: &KeyPart<'_>,
    rest: &[u8],
) -> Result<Sought, NoMemory>
    ensures { IfOk result (λ sought. sought ≡ sought_at rest.now place (part_key part.now)) }
{
    let (slice, class) = slice_of(rest);
    let (own, number) = (part.class.number(), class.number());
    if is_before(part.slice, own, slice, number) {
        return Ok(Sought::Before);
    }
    if is_before(slice, number, part.slice, own) {
        return Ok(Sought::After(place));
    }
    Ok(Sought::At(place, match_of(alloc, part, rest_of(rest))?))
}

// What the keys up to a place are to the key sought, by what those before the place are.
fn sought_then(
    alloc: Global,
    sought: Sought,
    place: usize,
    part: &KeyPart<'_>,
    rest: &[u8],
) -> Result<Sought, NoMemory>
    ensures { IfOk result (λ next. next ≡ sought_then rest.now sought place (part_key part.now)) }
{
    match sought {
        Sought::Before => sought_at(alloc, place, part, rest),
        told => Ok(told),
    }
}

// Then the value. Only a layer's key has a link.
fn value(
    alloc: Global,
    place: usize,
    matched: Match,
    part: &ValuePart<'_>,
) -> Result<Entered, NoMemory>
    ensures { IfOk result (λ entered. entered ≡ value_there place matched part.now) }
{
    match part {
        ValuePart::Link(head) => Ok(Entered::Below(*head)),
        ValuePart::Row(row) => {
            let row = row.copy(alloc)?;
            Ok(Entered::Here(match matched {
                Match::Other(suffix) => There::Other(place, suffix, row),
                Match::Same | Match::Layer => There::Row(place, row),
            }))
        }
    }
}

impl Entering {
    /// Returns the field that is read next. Constant cost.
    pub fn wants(&self) -> Field
        requires { IsEntering self.now }
        ensures value { result ≡ wants self.now }
        ensures field { IsField result }
    {
        match self {
            Entering::Locked => Field::Right,
            Entering::Bounded(_) => Field::Order,
            Entering::Reads { outline, place, .. } => Field::Key(outline.order.slot(*place)),
            Entering::AtValue { outline, place, .. } => Field::Value(outline.order.slot(*place)),
        }
    }

    /// Returns what a call does after it has read the right link, for the slice that it seeks. Constant cost.
    pub fn at_right(self, right: Option<RightLink>, slice: u64) -> Entered
        requires { WantsRight self }
        ensures { result ≡ bounded slice right }
    {
        match self {
            Entering::Locked => bound(right, slice),
            _ => unreachable!(),
        }
    }

    /// Returns what a call does after it has read the order. Constant cost.
    pub fn at_order(self, alloc: Global, order: Permutation) -> Entered
        requires { WantsOrder self }
        ensures { result ≡ at_order self order }
    {
        match self {
            Entering::Bounded(right) => {
                let keys = Items::new(alloc);
                next_key(Outline { right, order, keys }, 0, Sought::Before)
            }
            _ => unreachable!(),
        }
    }

    /// Returns what a call does after it has read the key of a slot. `rest` is what the layers above have left of the
    /// key sought. Costs a look at what follows the slice, which is shared if it is another key's, or if no slot of the
    /// border is unused.
    ///
    /// # Errors
    ///
    /// `NoMemory` if an allocation is refused.
    pub fn at_key(self, alloc: Global, part: &KeyPart<'_>, rest: &[u8]) -> Result<Entered, NoMemory>
        requires { WantsKey self }
        ensures { IfOk result (λ entered. entered ≡ at_key rest.now self part.now) }
    {
        match self {
            Entering::Reads {
                outline,
                place,
                sought,
            } => {
                let then = sought_then(alloc, sought, place, part, rest)?;
                Ok(next_key(noted(alloc, outline, part)?, place + 1, then))
            }
            _ => unreachable!(),
        }
    }

    /// Returns what a call does after it has read the value of a slot. Costs a copy of the row, which shares the bytes
    /// of its columns.
    ///
    /// # Errors
    ///
    /// `NoMemory` if an allocation is refused.
    pub fn at_value(self, alloc: Global, part: &ValuePart<'_>) -> Result<Entered, NoMemory>
        requires { WantsValue self }
        ensures { IfOk result (λ entered. entered ≡ at_value self part.now) }
    {
        match self {
            Entering::AtValue { place, matched, .. } => value(alloc, place, matched, part),
            _ => unreachable!(),
        }
    }
}

/// Reads the next field of the border under a number, which the call has locked, on the way to a key of which `rest` is
/// what the layers above have left, and returns what the call does then. It is lent only that field. What follows the
/// slice of another key is shared; a row costs a copy that shares the bytes of its columns. The right link and the order
/// take no memory.
///
/// # Errors
///
/// `NoMemory` if an allocation is refused.
pub fn read(
    alloc: Global,
    entering: Entering,
    tree: &Tree,
    number: NodeNo,
    rest: &[u8],
) -> Result<Entered, NoMemory>
    requires border { IsSome (border_at tree.now.nodes number.0) }
    requires entering { IsEntering entering }
    ensures reads { EnterReads tree.now number.0 rest.now entering result }
    ensures leads { EnterLeads tree.now number.0 rest.now entering result }
{
    match tree.part(number, entering.wants()) {
        Part::Right(right) => Ok(entering.at_right(right, slice_of(rest).0)),
        Part::Order(order) => Ok(entering.at_order(alloc, order)),
        Part::Key(key) => entering.at_key(alloc, &key, rest),
        Part::Value(value) => entering.at_value(alloc, &value),
        Part::Head(_) | Part::Interior(_) | Part::Version(_) => unreachable!(),
    }
}
