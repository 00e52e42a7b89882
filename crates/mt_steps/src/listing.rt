//! A range or build at a border: what it keeps of the slots that it reads.

ghost use Rattle.std.specs.Prelude.{◌≡◌, ◌⊎◌, ◌<◌, ◌≤◌, length, IfOk, IsErr, IsSome, false};
ghost use Rattle.std.specs.Option.{option_copied};
ghost use Rattle.mt_border.specs.declared.field.Mark.TheVariants.{Unstable};
ghost use Rattle.mt_arena.specs.Node.{node_at};
ghost use Rattle.mt_steps.specs.Causes.{KeepsSlot};
ghost use Rattle.mt_steps.specs.Reader.{IsOn, HasNext, IsReader, WantsOrder, WantsKey, WantsValue, MayRead, ReadWaits, FindsAt, FailsAt};
ghost use Rattle.mt_steps.specs.Listing.{list_next, key_read_of, entry_for, is_before_link, kept_with, one_more, list_value, list_at_order, list_at_key, list_at_value, ListReads, ListingWaits};

use crate::reader::{Notes, Reader, Reading, at_head, at_interior};
use mt_arena::Part;
use mt_border::{Content, Entry, KeyPart, Mark, RightLink, Suffix, ValuePart};
use mt_slice::{Class, Length};
use mt_tree::Tree;
use mt_types::copying::TryCopy;
use mt_types::items::Items;
use mt_types::numbers::NodeNo;
use mt_types::refusal::NoMemory;
use mt_types::row::Row;
use mt_word::Permutation;
use std::alloc::Global;

/// What was read of a slot's key, without its slice.
#[derive(Drop)]
pub enum KeyRead {
    /// It ends in the slice, after this number of bytes.
    Short(Length),
    /// It continues past its slice, with these bytes.
    Long(Suffix),
    /// It leads to the layer below.
    Layer,
}

/// What was read of a slot's key: its slice, and the rest.
#[derive(Drop)]
pub struct SlotKey {
    pub slice: u64,
    pub rest: KeyRead,
}

/// What a range or build has found at a border: what its slots held before what is to the right, and that.
#[derive(Drop)]
pub struct Listed {
    pub entries: Items<Entry>,
    pub right: Option<RightLink>,
}

/// How far a range or build has read the border at which it is. It keeps what the slots held, except what is not before
/// the right link.
pub type Listing = Reader<Items<Entry>, SlotKey, Listed>;

/// What a range or build does after it has read a field.
pub type ListReading = Reading<Items<Entry>, SlotKey, Listed>;

/// What was read of a border's slots so far.
pub type ListNotes = Notes<Items<Entry>>;

// The key of the slot at the next place is read, if there is one.
fn next(notes: ListNotes) -> ListReading
    ensures { result ≡ list_next notes }
{
    if notes.place < notes.glance.order.len() {
        return Reading::GoesOn(Reader::Reads(notes));
    }
    let Notes { glance, kept, .. } = notes;
    let listed = Listed {
        entries: kept,
        right: glance.right,
    };
    Reading::GoesOn(Reader::Settles(glance.counters, listed))
}

// Room for what the slots from the next place on hold: so it is made once, at the first key.
fn with_room(notes: ListNotes) -> Result<ListNotes, NoMemory>
    ensures { IfOk result (λ roomy. roomy ≡ notes) }
{
    let Notes {
        glance,
        kept,
        place,
    } = notes;
    let mut entries = kept.into_vec();
    entries.reserve(glance.order.len().saturating_sub(place))?;
    Ok(Notes {
        glance,
        kept: Items::from_vec(entries),
        place,
    })
}

// What a slot's key is, without its slice. It shares what follows the slice. Only a layer's key continues past its slice
// and has no bytes there.
pub fn key_read(alloc: Global, part: &KeyPart<'_>) -> Result<KeyRead, NoMemory>
    ensures { IfOk result (λ key. key ≡ key_read_of part.now.class (option_copied part.now.suffix)) }
{
    match (part.class, part.suffix) {
        (Class::Len(length), _) => Ok(KeyRead::Short(length)),
        (Class::Long, Some(suffix)) => Ok(KeyRead::Long(suffix.copy(alloc)?)),
        (Class::Long, None) => Ok(KeyRead::Layer),
    }
}

// The entry of a row, whose key was not that of a layer.
pub fn entry_for(slice: u64, key: KeyRead, row: Row) -> Option<Entry>
    ensures { result ≡ entry_for slice key row }
{
    let content = match key {
        KeyRead::Short(length) => Content::Short(length, row),
        KeyRead::Long(suffix) => Content::Long(suffix, row),
        KeyRead::Layer => return None,
    };
    Some(Entry { slice, content })
}

// Whether a slice is before what is to the right.
fn is_before_link(right: Option<RightLink>, slice: u64) -> bool
    ensures { result ≡ is_before_link right slice }
{
    match right {
        Some(link) => slice < link.low,
        None => true,
    }
}

// An entry is kept if it is before what is to the right.
fn keep(
    right: Option<RightLink>,
    entries: Items<Entry>,
    entry: Option<Entry>,
) -> Result<Items<Entry>, NoMemory>
    ensures { IfOk result (λ kept. kept ≡ kept_with right entries entry) }
{
    let Some(entry) = entry else {
        return Ok(entries);
    };
    if !is_before_link(right, entry.slice) {
        return Ok(entries);
    }
    let mut kept = entries.into_vec();
    kept.push(entry)?;
    Ok(Items::from_vec(kept))
}

// One more slot was read, which holds this entry, or none that can be right.
fn one_more(notes: ListNotes, entry: Option<Entry>) -> Result<ListReading, NoMemory>
    requires { HasNext notes }
    ensures { IfOk result (λ reading. reading ≡ one_more notes entry) }
{
    let Notes {
        glance,
        kept,
        place,
    } = notes;
    let kept = keep(glance.right, kept, entry)?;
    Ok(next(Notes {
        glance,
        kept,
        place: place + 1,
    }))
}

// Then the value. If it isn't of the kind that the key had, the slot was changed since.
fn value(
    alloc: Global,
    notes: ListNotes,
    key: SlotKey,
    part: &ValuePart<'_>,
) -> Result<ListReading, NoMemory>
    requires { HasNext notes }
    ensures { IfOk result (λ reading. reading ≡ list_value notes key part.now) }
{
    let SlotKey { slice, rest } = key;
    match part {
        ValuePart::Row(row) => one_more(notes, entry_for(slice, rest, row.copy(alloc)?)),
        ValuePart::Link(head) => match rest {
            KeyRead::Layer => {
                let content = Content::Link(*head);
                one_more(notes, Some(Entry { slice, content }))
            }
            KeyRead::Short(_) | KeyRead::Long(_) => Ok(Reading::Repeats),
        },
    }
}

// Returns what the call does after it has read the order. Takes no memory.
fn at_order(alloc: Global, listing: Listing, order: Permutation) -> ListReading
    requires { WantsOrder listing }
    ensures { result ≡ list_at_order listing order }
{
    next(Notes {
        glance: listing.glance(order),
        kept: Items::new(alloc),
        place: 0,
    })
}

// Returns what the call does after it has read the key of a slot. While a layer is being made of the key, it waits. Costs
// at the first key the room for what the slots hold. What follows the slice of a key is shared.
fn at_key(alloc: Global, listing: Listing, part: &KeyPart<'_>) -> Result<ListReading, NoMemory>
    requires { WantsKey listing }
    ensures reading { IfOk result (λ reading. reading ≡ list_at_key listing part.now) }
    ensures on { IfOk result (λ reading. IsOn reading ⊎ (part.now.mark ≡ Unstable)) }
    ensures takes { IsErr result → KeepsSlot listing }
{
    if part.mark == Mark::Unstable {
        return Ok(Reading::Repeats);
    }
    let notes = with_room(listing.before_key())?;
    let key = SlotKey {
        slice: part.slice,
        rest: key_read(alloc, part)?,
    };
    Ok(Reading::GoesOn(Reader::AtValue(notes, key)))
}

// Returns what the call does after it has read the value of a slot. Costs a copy of the row, which shares the bytes of
// its columns.
fn at_value(alloc: Global, listing: Listing, part: &ValuePart<'_>) -> Result<ListReading, NoMemory>
    requires { WantsValue listing }
    ensures reading { IfOk result (λ reading. reading ≡ list_at_value listing part.now) }
    ensures takes { IsErr result → KeepsSlot listing }
{
    let (notes, key) = listing.before_value();
    value(alloc, notes, key, part)
}

/// Reads the next field of the border under a number, or visits the head or interior node there, on the way to a slice
/// of its layer, and returns what the call does then. It is lent only that field or node. For the first key it costs the
/// room for what the slots hold; what follows the slice of a key is shared. For a row it costs a copy that shares the
/// bytes of its columns. The version, the right link and the order take no memory.
///
/// # Errors
///
/// `NoMemory` if an allocation is refused.
pub fn read(
    alloc: Global,
    listing: Listing,
    tree: &Tree,
    number: NodeNo,
    slice: u64,
) -> Result<ListReading, NoMemory>
    requires node { IsSome (node_at tree.now.nodes number.0) }
    requires listing { IsReader listing }
    requires may { MayRead tree.now number.0 slice listing }
    ensures reads { ListReads tree.now number.0 slice listing result }
    ensures waits { IfOk result (λ reading. ReadWaits (ListingWaits listing) tree.now number.0 reading) }
    ensures finds { IfOk result (FindsAt tree.now number.0) }
    ensures fails { IsErr result → FailsAt tree.now number.0 }
{
    match tree.part(number, listing.wants()) {
        Part::Head(head) => Ok(at_head(head)),
        Part::Interior(interior) => Ok(at_interior(interior, slice)),
        Part::Version(version) => Ok(listing.at_version(version)),
        Part::Right(right) => Ok(listing.at_right(right, slice)),
        Part::Order(order) => Ok(at_order(alloc, listing, order)),
        Part::Key(key) => at_key(alloc, listing, &key),
        Part::Value(value) => at_value(alloc, listing, &value),
    }
}
