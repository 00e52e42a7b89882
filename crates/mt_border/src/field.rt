//! The key and the value of one slot, for calls that read a border one field at a time.

ghost use Rattle.std.specs.Prelude.{◌≡◌, IsSome};
ghost use Rattle.std.specs.Option.{option_copied};
ghost use Rattle.mt_border.specs.Entry.{entry_suffix};
ghost use Rattle.mt_border.specs.Keys.{content_mark, entry_key, unstable, part_bytes, IsKeyPart};
ghost use Rattle.mt_border.specs.Parts.{IsValueOf};

use crate::entry::{Content, Entry, Suffix};
use crate::unwritten::unstable_key;
use mt_slice::Class;
use mt_types::numbers::NodeNo;
use mt_types::row::Row;

/// Whether a slot's key has a row, or leads to the layer below.
#[derive(Clone, Copy, Debug, PartialEq, Eq)]
pub enum Mark {
    /// It has a row.
    Plain,
    /// A layer is being made of it: its value is the row or the link.
    Unstable,
    /// It leads to the layer below.
    Layer,
}

/// A slot's key: its slice and class, what follows the slice (nothing if the class is a length, or if the mark is that
/// of a layer), and its mark.
#[derive(Clone, Copy)]
pub struct KeyPart<'a> {
    pub slice: u64,
    pub class: Class,
    pub suffix: Option<&'a Suffix>,
    pub mark: Mark,
}

impl<'a> KeyPart<'a> {
    /// The bytes that follow the slice. Constant cost.
    pub fn bytes(&self) -> &'a [u8]
        ensures { result.now ≡ part_bytes self.now }
    {
        match self.suffix {
            Some(suffix) => suffix.as_slice(),
            None => &[],
        }
    }
}

/// A slot's value: the row of its key, or the head of the layer to which it leads.
#[derive(Clone, Copy)]
pub enum ValuePart<'a> {
    Row(&'a Row),
    Link(NodeNo),
}

impl Entry {
    // What follows its slice.
    fn suffix(&self) -> Option<&Suffix>
        ensures { option_copied result ≡ entry_suffix self.now }
    {
        match &self.content {
            Content::Long(suffix, _) => Some(suffix),
            Content::Short(_, _) | Content::Link(_) => None,
        }
    }

    // Whether it has a row, or leads to the layer below.
    fn mark(&self) -> Mark
        ensures { result ≡ content_mark self.now.content }
    {
        match &self.content {
            Content::Short(_, _) | Content::Long(_, _) => Mark::Plain,
            Content::Link(_) => Mark::Layer,
        }
    }

    /// The key of the slot that holds this entry. Constant cost.
    pub fn key_part(&self) -> KeyPart<'_>
        ensures { IsKeyPart (entry_key self.now) result }
    {
        KeyPart {
            slice: self.slice,
            class: self.class(),
            suffix: self.suffix(),
            mark: self.mark(),
        }
    }

    /// The key of the slot that holds this entry, a longer key's, while it is marked unstable. Constant cost.
    pub fn unstable_part(&self) -> KeyPart<'_>
        requires { IsSome (entry_suffix self.now) }
        ensures { IsKeyPart (unstable (entry_key self.now)) result }
    {
        let Content::Long(suffix, _) = &self.content else {
            unreachable!();
        };
        unstable_key(self.slice, suffix)
    }

    /// The value of the slot that holds this entry. Constant cost.
    pub fn value_part(&self) -> ValuePart<'_>
        ensures { IsValueOf self.now.content result }
    {
        match &self.content {
            Content::Short(_, row) => ValuePart::Row(row),
            Content::Long(_, row) => ValuePart::Row(row),
            Content::Link(head) => ValuePart::Link(*head),
        }
    }
}
