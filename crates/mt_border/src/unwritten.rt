//! What of a locked border isn't written yet where others read it.

ghost use Rattle.std.specs.Prelude.{◌≡◌, ◌≤◌, IfOk, IsOk, length, drop};
ghost use Rattle.mt_slice.specs.Place.{place_of};
ghost use Rattle.mt_slice.specs.Classes.{place_at};
ghost use Rattle.mt_border.specs.Entry.{entry_with, key_of_rest, IsEntry};
ghost use Rattle.std.specs.Option.{option_copied};
ghost use Rattle.mt_border.specs.Keys.{key_class, key_suffix, key_seen, unstable_with, IsKey, IsKeyPart};

use crate::entry::{Content, Entry, Suffix};
use crate::field::{KeyPart, Mark};
use mt_slice::{Class, Length, SLICE_BYTES, slice_of};
use mt_types::refusal::NoMemory;
use mt_types::row::Row;
use mt_word::Permutation;
use std::alloc::Global;

/// How the key of a row continues after its slice.
#[derive(Debug, Drop)]
pub enum KeyRest {
    /// It ends in the slice, and has this number of the slice's bytes.
    Ends(Length),
    /// It has these bytes more.
    Continues(Suffix),
}

/// The key of a row in a slot, without the row.
#[derive(Debug, Drop)]
pub struct SlotKey {
    pub slice: u64,
    pub rest: KeyRest,
}

/// What of a border isn't written yet. Only the call that has locked the border leaves something unwritten.
#[derive(Debug, Drop)]
pub enum Unwritten {
    /// Nothing: each slot has the key and the value of its entry.
    Nothing,
    /// The value of the first unused slot. Its key is this one already.
    Value(SlotKey),
    /// The order: its upper entries are in the border to the right already. Others still read this one.
    Order(Permutation),
    /// The link, in the slot of this number. Its key is marked unstable already.
    LinkAt(usize),
    /// The mark of a layer, of the key of the slot of this number. The slot's value is the link already. This follows the
    /// key's slice, for those that read the key.
    MarkAt(usize, Suffix),
}

/// The key with this slice and what follows it, marked unstable. Constant cost.
pub fn unstable_key(slice: u64, suffix: &Suffix) -> KeyPart<'_>
    ensures { IsKeyPart (unstable_with slice suffix.now) result }
{
    let _some = suffix.as_slice();
    KeyPart {
        slice,
        class: Class::Long,
        suffix: Some(suffix),
        mark: Mark::Unstable,
    }
}

impl KeyRest {
    // The bytes after the slice, if there are some.
    fn suffix(&self) -> Option<&Suffix>
        ensures { option_copied result ≡ key_suffix self.now }
    {
        match self {
            KeyRest::Ends(_) => None,
            KeyRest::Continues(suffix) => Some(suffix),
        }
    }
}

impl SlotKey {
    /// The key in a layer, from its rest there.
    ///
    /// Takes no memory if the rest has at most eight bytes. Otherwise it copies the bytes after the eighth, with two
    /// allocations.
    ///
    /// # Errors
    ///
    /// `NoMemory` if an allocation is refused.
    pub fn of_rest(alloc: Global, rest: &[u8]) -> Result<SlotKey, NoMemory>
        ensures value { IfOk result (λ key. key ≡ key_of_rest rest.now) }
        ensures place { IfOk result (λ key. place_of rest.now ≡ place_at key.slice (key_class key.rest)
            (place_of (drop 8 rest.now))) }
        ensures whole { IfOk result (λ key. IsKey (key_seen key)) }
        ensures short { length rest.now ≤ 8 → IsOk result }
    {
        let (slice, class) = slice_of(rest);
        let rest = match class {
            Class::Len(bytes) => KeyRest::Ends(bytes),
            Class::Long => KeyRest::Continues(Suffix::copied(alloc, &rest[SLICE_BYTES..])?),
        };
        Ok(SlotKey { slice, rest })
    }

    /// The entry of the key with a row. Takes no memory.
    pub fn with_row(self, row: Row) -> Entry
        requires { IsKey (key_seen self) }
        ensures value { result ≡ entry_with self row }
        ensures whole { IsEntry result }
    {
        let SlotKey { slice, rest } = self;
        let content = match rest {
            KeyRest::Ends(bytes) => Content::Short(bytes, row),
            KeyRest::Continues(suffix) => Content::Long(suffix, row),
        };
        Entry { slice, content }
    }

    // The class of the key.
    fn class(&self) -> Class
        ensures value { result ≡ key_class self.now.rest }
        ensures whole { IsKey (key_seen self.now) }
    {
        let _slice = self.slice;
        match &self.rest {
            KeyRest::Ends(bytes) => {
                let _fits = bytes.get();
                Class::Len(*bytes)
            }
            KeyRest::Continues(suffix) => {
                let _some = suffix.as_slice();
                Class::Long
            }
        }
    }

    /// The key, to be read. Constant cost.
    pub fn part(&self) -> KeyPart<'_>
        ensures { IsKeyPart (key_seen self.now) result }
    {
        KeyPart {
            slice: self.slice,
            class: self.class(),
            suffix: self.rest.suffix(),
            mark: Mark::Plain,
        }
    }
}
