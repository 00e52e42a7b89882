//! A get at a border: what it finds among the keys, and what the value of a slot leads to.

ghost use Rattle.std.specs.Prelude.{◌≡◌, ◌⊎◌, ◌+◌, ◌*◌, ◌≤◌, nat_lt, IfOk, IsErr, IsSome};
ghost use Rattle.mt_slice.specs.Place.{slice_number};
ghost use Rattle.mt_border.specs.declared.field.Mark.TheVariants.{Unstable};
ghost use Rattle.mt_arena.specs.Node.{node_at};
ghost use Rattle.mt_steps.specs.Causes.{TakesMemory};
ghost use Rattle.mt_steps.specs.Reader.{IsOn, IsReader, WantsOrder, WantsKey, WantsValue, MayRead, ReadWaits, FailsAt};
ghost use Rattle.mt_steps.specs.Finding.{settles, next_key, key_found, is_before, value_read, at_order, at_key, at_value, FindReads, FindingWaits};

use crate::reader::{Counters, Notes, Reader, Reading, at_head, at_interior};
use mt_arena::Part;
use mt_border::{KeyPart, Mark, ValuePart};
use mt_slice::{rest_of, slice_of};
use mt_tree::Tree;
use mt_types::columns::shown;
use mt_types::numbers::NodeNo;
use mt_types::refusal::NoMemory;
use mt_types::row::{ColumnNumbers, Row};
use mt_word::Permutation;
use std::alloc::Global;

/// What the slot at which a get has found its key is to hold.
#[derive(Clone, Copy, Debug, PartialEq, Eq)]
pub enum Kind {
    Row,
    Link,
}

/// What a get has found at a border.
#[derive(Drop)]
pub enum Sight {
    /// No row of its key, and no link at its slice.
    Absent,
    /// The row of its key, as it is to be answered.
    Row(Row),
    /// The head of the layer in which its key continues.
    Link(NodeNo),
}

/// How far a get has read the border at which it is. It keeps nothing of the slots before its key's.
pub type Finding = Reader<(), Kind, Sight>;

/// What a get does after it has read a field.
pub type FindReading = Reading<(), Kind, Sight>;

// It has read all that it needs, and found this.
fn settles(counters: Counters, sight: Sight) -> FindReading
    ensures value { result ≡ settles counters sight }
    ensures on { IsOn result }
{
    Reading::GoesOn(Reader::Settles(counters, sight))
}

// The key of the slot at the next place is read, if there is one.
fn next_key(notes: Notes<()>) -> FindReading
    ensures value { result ≡ next_key notes }
    ensures on { IsOn result }
{
    if notes.place < notes.glance.order.len() {
        return Reading::GoesOn(Reader::Reads(notes));
    }
    settles(notes.glance.counters, Sight::Absent)
}

// Returns what the get does if a slot's key is at the slice and class of the rest of the key sought. `is_same` says
// whether what follows its slice is the same.
fn found(notes: Notes<()>, mark: Mark, is_same: bool) -> FindReading
    ensures value { result ≡ key_found notes mark is_same }
    ensures on { IsOn result ⊎ (mark ≡ Unstable) }
{
    match mark {
        Mark::Layer => Reading::GoesOn(Reader::AtValue(notes, Kind::Link)),
        Mark::Plain if is_same => Reading::GoesOn(Reader::AtValue(notes, Kind::Row)),
        Mark::Plain => settles(notes.glance.counters, Sight::Absent),
        Mark::Unstable => Reading::Repeats,
    }
}

// Whether a slice and the number of a class are before others.
pub(crate) fn is_before(slice: u64, number: u8, other_slice: u64, other: u8) -> bool
    ensures value { result ≡ is_before slice number other_slice other }
    ensures spelled { number ≤ 9 → other ≤ 9 → result ≡ nat_lt (slice * 10 + number) (other_slice * 10 + other) }
{
    slice < other_slice || slice == other_slice && number < other
}

// Then the value. If it isn't of the kind that the key had, the slot was changed since.
fn value(
    alloc: Global,
    asked: &ColumnNumbers,
    counters: Counters,
    kind: Kind,
    part: &ValuePart<'_>,
) -> Result<FindReading, NoMemory>
    ensures { IfOk result (λ reading. reading ≡ value_read asked.now counters kind part.now) }
{
    match part {
        ValuePart::Row(row) => match kind {
            Kind::Row => Ok(settles(counters, Sight::Row(shown(alloc, asked, row)?))),
            Kind::Link => Ok(settles(counters, Sight::Absent)),
        },
        ValuePart::Link(head) => match kind {
            Kind::Row => Ok(Reading::Repeats),
            Kind::Link => Ok(settles(counters, Sight::Link(*head))),
        },
    }
}

/// Returns what a get does after it has read the order. Constant cost.
pub fn at_order(finding: Finding, order: Permutation) -> FindReading
    requires { WantsOrder finding }
    ensures { result ≡ at_order finding order }
{
    next_key(Notes {
        glance: finding.glance(order),
        kept: (),
        place: 0,
    })
}

/// Returns what a get does after it has read the key of a slot. `rest` is what the layers above have left of the key
/// sought. The get reads keys up to the first that isn't before that. While a layer is being made of a key, it waits.
/// Costs a look at what follows its slice.
pub fn at_key(finding: Finding, part: &KeyPart<'_>, rest: &[u8]) -> FindReading
    requires { WantsKey finding }
    ensures value { result ≡ at_key finding part.now rest.now }
    ensures on { IsOn result ⊎ (part.now.mark ≡ Unstable) }
{
    if part.mark == Mark::Unstable {
        return Reading::Repeats;
    }
    let notes = finding.before_key();
    let (slice, class) = slice_of(rest);
    let (own, sought) = (part.class.number(), class.number());
    if is_before(part.slice, own, slice, sought) {
        let place = notes.place + 1;
        return next_key(Notes { place, ..notes });
    }
    if is_before(slice, sought, part.slice, own) {
        return settles(notes.glance.counters, Sight::Absent);
    }
    found(notes, part.mark, part.bytes() == rest_of(rest))
}

// Returns what a get does after it has read the value of a slot. Costs the allocations of the columns that are asked for,
// whose bytes it shares.
fn at_value(
    alloc: Global,
    finding: Finding,
    part: &ValuePart<'_>,
    asked: &ColumnNumbers,
) -> Result<FindReading, NoMemory>
    requires { WantsValue finding }
    ensures reading { IfOk result (λ reading. reading ≡ at_value finding part.now asked.now) }
    ensures takes { IsErr result → TakesMemory finding }
{
    let (notes, kind) = finding.before_value();
    value(alloc, asked, notes.glance.counters, kind, part)
}

/// Reads the next field of the border under a number, or visits the head or interior node there, on the way to a key of
/// which `rest` is what the layers above have left, and returns what the get does then. It is lent only that field or
/// node. The value of a row costs the allocations of the columns that are asked for, whose bytes it shares. No other
/// field takes memory.
///
/// # Errors
///
/// `NoMemory` if an allocation is refused.
pub fn read(
    alloc: Global,
    finding: Finding,
    tree: &Tree,
    number: NodeNo,
    rest: &[u8],
    asked: &ColumnNumbers,
) -> Result<FindReading, NoMemory>
    requires node { IsSome (node_at tree.now.nodes number.0) }
    requires finding { IsReader finding }
    requires may { MayRead tree.now number.0 (slice_number rest.now) finding }
    ensures reads { FindReads tree.now number.0 rest.now asked.now finding result }
    ensures waits { IfOk result (λ reading. ReadWaits (FindingWaits finding) tree.now number.0 reading) }
    ensures fails { IsErr result → FailsAt tree.now number.0 }
{
    match tree.part(number, finding.wants()) {
        Part::Head(head) => Ok(at_head(head)),
        Part::Interior(interior) => Ok(at_interior(interior, slice_of(rest).0)),
        Part::Version(version) => Ok(finding.at_version(version)),
        Part::Right(right) => Ok(finding.at_right(right, slice_of(rest).0)),
        Part::Order(order) => Ok(at_order(finding, order)),
        Part::Key(key) => Ok(at_key(finding, &key, rest)),
        Part::Value(value) => at_value(alloc, finding, &value, asked),
    }
}
