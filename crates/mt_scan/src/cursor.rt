//! The cursor of a scan: a place of the tree, and the layer in which the scan is.

ghost use Rattle.std.specs.Prelude.{ℕ, ◌≡◌, ◌<◌, ◌≤◌, ◌≢◌, ◌∷◌, ◌++◌, [], length, slice_index, vec_len, take, reverse, IfOk, OnOk};
ghost use Rattle.std.specs.Ordering.{is_le};
ghost use Rattle.mt_slice.specs.Place.{last, under, place_of, place_cmp, first_slice};
ghost use Rattle.mt_scan.specs.Cursor.{StepsAt, Leaves, is_inside, entered_at, place_from, place_with, content_end};
ghost use Rattle.mt_scan.specs.Onward.{HasDigits};

use mt_border::{Content, Entry};
use mt_slice::{SLICE_BYTES, key_bytes, rest_of, slice_of};
use mt_types::key::Key;
use mt_types::numbers::NodeNo;
use mt_types::refusal::NoMemory;
use std::alloc::Global;
use std::cmp::Ordering;
use std::marker::Model;

// The number of the class of what continues past a slice.
const LONG: u8 = 9;

// The class after all that continues past a slice.
const BEHIND: u8 = 10;

/// What a scan does at an entry.
#[derive(Clone, Copy)]
pub(crate) enum Step {
    /// It leaves it out, since it is before the cursor.
    Pass,
    /// It takes its row.
    Take,
    /// It continues in the layer of this head.
    Enter(NodeNo),
}

/// A place of the tree, by its slices from layer 0 on and the class of the last: a number of bytes, or after all keys
/// that continue past that slice. The scan is in the layer of one of its slices.
#[derive(Drop)]
pub(crate) struct Cursor {
    slices: Vec<u64>,
    class: u8,
    depth: usize,
}

impl Model for Cursor {
    ghost use Rattle.mt_scan.specs.Cursor.{CursorView};
    ghost use Rattle.mt_scan.specs.CursorCode.{cursor_code};

    ghost Value = { CursorView };

    ghost coded = { cursor_code };

    ghost use Rattle.mt_scan.specs.Cursor.{cursor_view, IsCursor};

    ghost view = { λ c. cursor_view c.slices.items c.class c.depth };

    ghost invariant = { λ c. IsCursor c.slices.items c.class c.depth };
}

// How a place compares with a cursor. The place is this slice and this number of a class, with these bytes after it if
// that number is 9. The cursor is these slices and the class of their last.
fn compare(slice: u64, class: u8, rest: &[u8], cursor: &[u64], end: u8) -> Ordering
    requires some { 0 < length cursor.now }
    requires no_long { end ≢ 9 }
    ensures { result ≡ place_cmp (place_with slice class (place_of rest.now)) (place_from end cursor.now) }
{
    let here = if cursor.len() == 1 { end } else { LONG };
    let order = slice.cmp(&cursor[0]).then(class.cmp(&here));
    if order != Ordering::Equal || here != LONG {
        return order;
    }
    let (slice, class) = slice_of(rest);
    compare(slice, class.number(), rest_of(rest), &cursor[1..], end)
}

// The first of these slices. Each of them is of 64 bits, and so a cursor of them has digits.
fn first_of(slices: &[u64]) -> u64
    requires some { 0 < length slices.now }
    ensures value { result ≡ slice_index slices.now 0 }
    ensures digits { (class : ℕ) → HasDigits (place_from class slices.now) }
{
    slices[0]
}

// Ends the slices at a place, with this one.
fn end_with(slices: &mut Vec<u64>, place: usize, slice: u64)
    requires { place < vec_len slices.old }
    ensures { slices.new.items ≡ take place slices.old.items ++ slice ∷ [] }
{
    slices.truncate(place + 1);
    slices[place] = slice;
}

impl Cursor {
    /// At a key, in layer 0. Costs an allocation for the slices.
    pub(crate) fn new(alloc: Global, key: &Key) -> Result<Cursor, NoMemory>
        ensures { IfOk result (λ cursor. cursor ≡ record { prefix = []; at = place_of key.now }) }
    {
        let mut rest = key_bytes(key);
        let mut slices = Vec::new(alloc);
        while rest.len() > SLICE_BYTES {
            let (slice, _) = slice_of(rest);
            slices.push(slice)?;
            rest = rest_of(rest);
        }
        let (slice, class) = slice_of(rest);
        slices.push(slice)?;
        Ok(Cursor {
            slices,
            class: class.number(),
            depth: 0,
        })
    }

    /// The slice that the scan seeks in its layer.
    pub(crate) fn slice(&self) -> u64
        ensures { result ≡ first_slice self.now.at }
    {
        first_of(&self.slices[self.depth..])
    }

    /// Its slices are of 64 bits, and so each of them gives a digit.
    pub(crate) fn has_digits(&self)
        ensures { HasDigits (under self.now.prefix self.now.at) }
    {
        let _first = first_of(&self.slices);
    }

    /// The slices above the layer in which the scan is, from layer 0 on.
    pub(crate) fn above(&self) -> &[u64]
        ensures { reverse result.now ≡ self.now.prefix }
    {
        &self.slices[..self.depth]
    }

    /// Goes back to layer 0, at the same place of the tree.
    pub(crate) fn restart(&mut self)
        ensures { self.new ≡ record { prefix = []; at = under self.old.prefix self.old.at } }
    {
        self.depth = 0;
    }

    /// Whether it is at or after the place of these bytes. Looks at each slice of them at most once.
    pub(crate) fn is_from(&self, bytes: &[u8]) -> bool
        ensures { result ≡ is_le (place_cmp (place_of bytes.now) (under self.now.prefix self.now.at)) }
    {
        let (slice, class) = slice_of(bytes);
        compare(
            slice,
            class.number(),
            rest_of(bytes),
            &self.slices,
            self.class,
        )
        .is_le()
    }

    // How an entry compares with the cursor: by its row's key, or by the end of its link's layer.
    fn compare(&self, entry: &Entry) -> Ordering
        ensures { result ≡ place_cmp (content_end entry.now.slice entry.now.content) self.now.at }
    {
        let cursor = &self.slices[self.depth..];
        match &entry.content {
            Content::Short(bytes, _) => {
                compare(entry.slice, bytes.get() as u8, &[], cursor, self.class)
            }
            Content::Long(suffix, _) => {
                compare(entry.slice, LONG, suffix.as_slice(), cursor, self.class)
            }
            Content::Link(_) => compare(entry.slice, BEHIND, &[], cursor, self.class),
        }
    }

    /// What the scan does at an entry. Looks at each slice of the cursor at most once.
    pub(crate) fn step(&self, entry: &Entry) -> Step
        ensures { StepsAt self.now.at entry.now.slice entry.now.content result }
    {
        match (&entry.content, self.compare(entry)) {
            (Content::Link(head), Ordering::Greater) => Step::Enter(*head),
            (Content::Link(_), _) => Step::Pass,
            (_, Ordering::Less) => Step::Pass,
            _ => Step::Take,
        }
    }

    /// Goes to this slice of its layer, at a number of bytes.
    pub(crate) fn go_to(&mut self, slice: u64, bytes: u8)
        requires { bytes ≤ 8 }
        ensures { self.new ≡ record self.old { at = last slice bytes } }
    {
        end_with(&mut self.slices, self.depth, slice);
        self.class = bytes;
    }

    // Whether the place is in the layer below a slice.
    fn is_inside(&self, slice: u64) -> bool
        ensures { result ≡ is_inside slice self.now.at }
    {
        self.depth + 1 < self.slices.len() && self.slices[self.depth] == slice
    }

    /// Goes into the layer below a slice: to the rest of its place, if that is there, or to the layer's first place.
    /// Costs at most one allocation.
    pub(crate) fn enter(&mut self, slice: u64) -> Result<(), NoMemory>
        ensures { OnOk result (self.new ≡ record {
          prefix = slice ∷ self.old.prefix;
          at = entered_at slice self.old.at;
        }) }
    {
        if self.is_inside(slice) {
            self.depth += 1;
            return Ok(());
        }
        end_with(&mut self.slices, self.depth, slice);
        self.slices.push(0)?;
        self.class = 0;
        self.depth += 1;
        Ok(())
    }

    /// Goes after all of its layer and back to layer 0, and returns true. In layer 0 it stays, and returns false.
    pub(crate) fn leave(&mut self) -> bool
        ensures { Leaves self.old result self.new }
    {
        if self.depth == 0 {
            return false;
        }
        self.slices.truncate(self.depth);
        self.class = BEHIND;
        self.depth = 0;
        true
    }
}
