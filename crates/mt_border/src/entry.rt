//! The entries of a layer: what is at a slice and class.

ghost use Rattle.std.specs.Prelude.{◌≡◌, ◌≤◌, ◌<◌, IfOk, IsOk, length, drop};
ghost use Rattle.mt_slice.specs.Place.{AreBytes, place_of};
ghost use Rattle.mt_slice.specs.Classes.{place_at};
ghost use Rattle.std.specs.Option.{option_copied};
ghost use Rattle.mt_border.specs.Entry.{entry_class, entry_of_row, entry_row, IsEntry};

use crate::unwritten::SlotKey;
use mt_slice::{Class, Length};
use mt_types::copying::TryCopy;
use mt_types::numbers::NodeNo;
use mt_types::refusal::NoMemory;
use mt_types::row::Row;
use std::alloc::Global;
use std::marker::Model;
use std::sync::ArcSlice;

/// What follows the slice of a key that is longer than its slice: at least one byte. Copies share the bytes.
#[derive(Debug, Drop)]
pub struct Suffix {
    block: ArcSlice<u8, Global>,
}

impl Model for Suffix {
    ghost use Rattle.std.specs.Prelude.{ℕ, List, length, ◌<◌};
    ghost use Rattle.mt_slice.specs.Place.{AreBytes};

    ghost Value = { List ℕ };

    ghost view = { λ s. s.block.items.value.items };

    ghost invariant = { λ s. (0 < length s.block.items.value.items) × AreBytes s.block.items.value.items };
}

// The bytes, each of which is below 256.
fn each_byte(bytes: &[u8]) -> &[u8]
    ensures value { result.now ≡ bytes.now }
    ensures bytes { AreBytes bytes.now }
{
    // Of a variable the proof knows that its items are bytes.
    let read = bytes;
    read
}

impl Suffix {
    /// Returns the suffix of these bytes, of which there is at least one. Copies them, with two allocations.
    ///
    /// # Errors
    ///
    /// `NoMemory` if an allocation is refused.
    pub fn copied(alloc: Global, bytes: &[u8]) -> Result<Suffix, NoMemory>
        requires { 0 < length bytes.now }
        ensures value { IfOk result (λ suffix. suffix ≡ bytes.now) }
        ensures bytes { IfOk result AreBytes }
    {
        let block = ArcSlice::from_vec(each_byte(bytes).to_vec(alloc)?)?;
        Ok(Suffix { block })
    }

    /// The bytes, to be read. Constant cost.
    pub fn as_slice(&self) -> &[u8]
        ensures value { result.now ≡ self.now }
        ensures some { 0 < length self.now }
        ensures bytes { AreBytes self.now }
    {
        self.block.as_slice()
    }
}

/// What an entry leads to (Masstree, EuroSys 2012, section 4.2).
#[derive(Debug, Drop)]
pub enum Content {
    /// The row of a key that ends in this slice, and how many bytes of the slice are the key's.
    Short(Length, Row),
    /// The row of a longer key, with what follows the slice.
    Long(Suffix, Row),
    /// The head of the next layer, which has the keys that continue past this slice.
    Link(NodeNo),
}

/// One entry of a layer: a slice, and what is there.
///
/// The entries of a layer are ordered by their slice, then by their class, and no two agree in both.
#[derive(Debug, Drop)]
pub struct Entry {
    pub slice: u64,
    pub content: Content,
}

/// The border to the right: its number, and the least slice that may be in it.
#[derive(Clone, Copy, Debug, PartialEq, Eq)]
pub struct RightLink {
    pub low: u64,
    pub node: NodeNo,
}

impl Entry {
    /// The entry of a key in a layer, from its rest there and its row.
    ///
    /// Takes no memory if the rest has at most eight bytes. Otherwise it copies the bytes after the eighth, with two
    /// allocations.
    ///
    /// # Errors
    ///
    /// `NoMemory` if an allocation is refused.
    pub fn of_row(alloc: Global, rest: &[u8], row: Row) -> Result<Entry, NoMemory>
        ensures value { IfOk result (λ entry. entry ≡ entry_of_row rest.now row) }
        ensures place { IfOk result (λ entry. place_of rest.now ≡ place_at entry.slice (entry_class entry)
            (place_of (drop 8 rest.now))) }
        ensures whole { IfOk result IsEntry }
        ensures short { length rest.now ≤ 8 → IsOk result }
    {
        Ok(SlotKey::of_rest(alloc, rest)?.with_row(row))
    }

    /// The row, if the entry has one: a link has none. Constant cost.
    pub fn row(&self) -> Option<&Row>
        ensures { option_copied result ≡ entry_row self.now }
    {
        match &self.content {
            Content::Short(_, row) => Some(row),
            Content::Long(_, row) => Some(row),
            Content::Link(_) => None,
        }
    }

    /// The class of the entry. Constant cost.
    pub fn class(&self) -> Class
        ensures value { result ≡ entry_class self.now }
        ensures whole { IsEntry self.now }
    {
        let _slice = self.slice;
        match &self.content {
            Content::Short(bytes, _) => {
                let _fits = bytes.get();
                Class::Len(*bytes)
            }
            Content::Long(suffix, _) => {
                let _some = suffix.as_slice();
                Class::Long
            }
            Content::Link(_) => Class::Long,
        }
    }
}

impl TryCopy for Suffix {
    /// Shares the bytes. Allocates nothing.
    fn copy(&self, _alloc: Global) -> Result<Suffix, NoMemory> {
        Ok(Suffix {
            block: self.block.clone()?,
        })
    }
}

impl TryCopy for Content {
    /// Shares the bytes of the suffix and of the row's columns. Allocates nothing.
    fn copy(&self, alloc: Global) -> Result<Content, NoMemory> {
        match self {
            Content::Short(bytes, row) => Ok(Content::Short(*bytes, row.copy(alloc)?)),
            Content::Long(suffix, row) => Ok(Content::Long(suffix.copy(alloc)?, row.copy(alloc)?)),
            Content::Link(head) => Ok(Content::Link(*head)),
        }
    }
}

impl TryCopy for Entry {
    /// Shares the bytes of the suffix and of the row's columns. Allocates nothing.
    fn copy(&self, alloc: Global) -> Result<Entry, NoMemory> {
        Ok(Entry {
            slice: self.slice,
            content: self.content.copy(alloc)?,
        })
    }
}
