//! The columns of a row in one block of bytes, what a put makes of them, and which of them an answer shows.

ghost use Rattle.std.specs.Prelude.{◌≡◌, ◌<◌, if◌then◌else◌, Some, None, [], length, replicate, slice_get, slice_index_or, nat_eq, IfOk};
ghost use Rattle.std.specs.Option.{option_copied};
ghost use Rattle.mt_types.specs.Rows.{new_columns, chosen, shown};
ghost use Rattle.mt_types.specs.Packed.{packed, are_packable, ArePackable};

use crate::block::{Block, Making};
use crate::copying::TryCopy;
use crate::piece::{MAX_PIECE, are_packable, new_bytes, push_piece, split_first};
use crate::refusal::NoMemory;
use crate::row::{Column, ColumnNumbers, Row};
use std::alloc::Global;
use std::iter::FusedIterator;
use std::marker::Model;

/// The columns of a row, in the order of their numbers, which begin at 0.
///
/// They are one block of bytes: the number of columns, a byte, then for each column its length, a byte, and its bytes. A
/// block of at most 22 bytes, such as that of one column of 20 bytes, lies in place, and copies share a longer one. A row
/// has at most 255 columns of at most 255 bytes; an index has narrower limits.
#[derive(Debug, Drop)]
pub struct Columns {
    block: Block,
}

impl Model for Columns {
    ghost use Rattle.std.specs.Prelude.{◌≡◌, ℕ, List};
    ghost use Rattle.mt_types.specs.Packed.{unpacked, packed};

    ghost Value = { List (List ℕ) };

    ghost view = { λ s. unpacked s.block };

    ghost invariant = { λ s. s.block ≡ packed (unpacked s.block) };
}

impl Columns {
    /// Returns no columns. Allocates nothing.
    pub fn none() -> Columns
        ensures { result ≡ [] }
    {
        Columns {
            block: Block::few(&[0]),
        }
    }

    /// Returns the columns with these bytes, or `None` if there are more than 255 of them, or if one of them has more
    /// than 255 bytes. O(n) in the bytes, with at most two allocations.
    ///
    /// # Errors
    ///
    /// `NoMemory` if an allocation is refused.
    pub fn pack(alloc: Global, parts: &[Column]) -> Result<Option<Columns>, NoMemory>
        ensures { IfOk result (λ made. made ≡ (if are_packable parts.now then Some parts.now else None)) }
    {
        if !are_packable(parts) {
            return Ok(None);
        }
        Ok(Some(Columns::of_parts(alloc, parts)?))
    }

    fn of_parts(alloc: Global, parts: &[Column]) -> Result<Columns, NoMemory>
        ensures { IfOk result (λ made. made ≡ parts.now) }
    {
        if parts.len() > MAX_PIECE {
            return Err(NoMemory);
        }
        let mut room: usize = 1;
        for part in parts {
            room = room.saturating_add(1).saturating_add(part.len());
        }
        let mut made = Making::with_room(alloc, room)?;
        made.push(parts.len() as u8)?;
        for part in parts {
            push_piece(&mut made, part.as_slice())?;
        }
        Ok(Columns {
            block: made.done()?,
        })
    }

    /// Returns the `count` columns that a put makes if there is no row. If `sets` names a column twice, its first set
    /// counts, and a set of a column that does not exist does nothing. O(n) in the bytes and in the columns times the
    /// sets, with at most two allocations.
    ///
    /// # Errors
    ///
    /// `NoMemory` if an allocation is refused, or if a set has more than 255 bytes.
    pub fn of_new_row(alloc: Global, count: u8, sets: &[(u8, Column)]) -> Result<Columns, NoMemory>
        ensures { IfOk result (λ made. made ≡ new_columns sets.now 0 (replicate count [])) }
    {
        let mut room: usize = 1;
        for number in 0..count {
            room = room
                .saturating_add(1)
                .saturating_add(new_bytes(sets, number, &[]).len());
        }
        let mut made = Making::with_room(alloc, room)?;
        made.push(count)?;
        for number in 0..count {
            push_piece(&mut made, new_bytes(sets, number, &[]))?;
        }
        Ok(Columns {
            block: made.done()?,
        })
    }

    /// Returns the block: the number of columns, then for each column its length and its bytes.
    pub fn as_packed(&self) -> &[u8]
        ensures { result.now ≡ packed self.now }
    {
        self.block.as_slice()
    }

    /// Returns the number of columns.
    pub fn len(&self) -> usize
        ensures count { result ≡ length self.now }
        ensures packable { ArePackable self.now }
    {
        // Of a variable the proof knows that its items are bytes.
        let block = self.as_packed();
        block[0] as usize
    }

    /// Returns whether there are no columns.
    pub fn is_empty(&self) -> bool
        ensures { result ≡ nat_eq (length self.now) 0 }
    {
        self.len() == 0
    }

    /// Returns the columns in their order.
    pub fn iter(&self) -> Iter<'_>
        ensures { result ≡ self.now }
    {
        let (_, rest) = self.as_packed().split_at(1);
        Iter {
            left: self.len(),
            rest,
        }
    }

    // The bytes of the column of this number. O(n) in the number.
    fn column(&self, number: usize) -> &[u8]
        requires { number < length self.now }
        ensures { result.now ≡ slice_index_or self.now number [] }
    {
        let (_, mut rest) = self.as_packed().split_at(1);
        for _ in 0..number {
            rest = split_first(rest).1;
        }
        split_first(rest).0
    }

    /// Returns the bytes of the column of this number, if there is one. O(n) in the number.
    pub fn get(&self, number: usize) -> Option<&[u8]>
        ensures { option_copied result ≡ slice_get self.now number }
    {
        if number < self.len() {
            Some(self.column(number))
        } else {
            None
        }
    }

    /// Returns the bytes of the column of this number, or no bytes if there is no such column. O(n) in the number.
    pub fn get_or_empty(&self, number: usize) -> &[u8]
        ensures { result.now ≡ slice_index_or self.now number [] }
    {
        if number < self.len() {
            self.column(number)
        } else {
            &[]
        }
    }

    // How many bytes the block of a put's columns has. O(n) in the columns times the sets.
    fn room_with(&self, sets: &[(u8, Column)]) -> usize {
        let block = self.as_packed();
        let (_, mut rest) = block.split_at(1);
        let mut room: usize = 1;
        for number in 0..block[0] {
            let (old, others) = split_first(rest);
            room = room
                .saturating_add(1)
                .saturating_add(new_bytes(sets, number, old).len());
            rest = others;
        }
        room
    }

    /// Returns what a put makes of these columns: those that `sets` names get new bytes, as in
    /// [`of_new_row`](Self::of_new_row), and the others keep theirs. O(n) in the bytes and in the columns times the
    /// sets, with at most two allocations.
    ///
    /// # Errors
    ///
    /// `NoMemory` if an allocation is refused, or if a set has more than 255 bytes.
    pub fn with_sets(&self, alloc: Global, sets: &[(u8, Column)]) -> Result<Columns, NoMemory>
        ensures { IfOk result (λ made. made ≡ new_columns sets.now 0 self.now) }
    {
        let block = self.as_packed();
        let (_, mut rest) = block.split_at(1);
        let mut made = Making::with_room(alloc, self.room_with(sets))?;
        made.push(block[0])?;
        for number in 0..block[0] {
            let (old, others) = split_first(rest);
            push_piece(&mut made, new_bytes(sets, number, old))?;
            rest = others;
        }
        Ok(Columns {
            block: made.done()?,
        })
    }

    /// Returns the columns that `asked` names, in the order of `asked`, or all columns, whose block is then shared, if
    /// `asked` is empty. A column that does not exist is empty in the result. Otherwise O(n) in the columns times
    /// `asked`, with at most three allocations.
    ///
    /// # Errors
    ///
    /// `NoMemory` if an allocation is refused, or if `asked` has more than 255 numbers.
    pub fn chosen(&self, alloc: Global, asked: &[u8]) -> Result<Columns, NoMemory>
        ensures { IfOk result (λ made. made ≡ chosen asked.now self.now) }
    {
        if asked.is_empty() {
            return self.copy(alloc);
        }
        if asked.len() > MAX_PIECE {
            return Err(NoMemory);
        }
        let mut made = Making::with_room(alloc, self.as_packed().len())?;
        made.push(asked.len() as u8)?;
        for number in asked {
            push_piece(&mut made, self.get_or_empty(*number as usize))?;
        }
        Ok(Columns {
            block: made.done()?,
        })
    }
}

impl TryCopy for Columns {
    /// Shares the block. Allocates nothing.
    fn copy(&self, _alloc: Global) -> Result<Columns, NoMemory> {
        Ok(Columns {
            block: self.block.copy()?,
        })
    }
}

impl PartialEq for Columns {
    ghost use Rattle.std.specs.Prelude.{nat_eq};
    ghost use Rattle.std.specs.Cmp.{partial_equiv_from_equiv};
    ghost use Rattle.std.specs.Cmp.Lexicographic.{pointwise, nat_list_eq_equiv, lists_equiv};

    ghost eq = { pointwise (pointwise nat_eq) };

    ghost laws = { partial_equiv_from_equiv (lists_equiv nat_list_eq_equiv) };

    fn eq(&self, other: &Columns) -> bool {
        self.block == other.block
    }
}

impl Eq for Columns {
    ghost use Rattle.std.specs.Cmp.Lexicographic.{nat_list_eq_equiv, lists_equiv};

    ghost laws = { lists_equiv nat_list_eq_equiv };
}

/// The columns of a row that are still to come, in their order.
#[derive(Drop)]
pub struct Iter<'a> {
    left: usize,
    rest: &'a [u8],
}

impl<'a> Model for Iter<'a> {
    ghost use Rattle.std.specs.Prelude.{◌≡◌, ℕ, List, length};
    ghost use Rattle.mt_types.specs.Packed.{cut, pieces};

    ghost Value = { List (List ℕ) };

    ghost view = { λ it. cut it.left it.rest.now };

    ghost invariant = { λ it. (it.rest.now ≡ pieces (cut it.left it.rest.now)) × (length (cut it.left it.rest.now) ≡ it.left) };
}

impl<'a> Iterator for Iter<'a> {
    type Item = &'a [u8];

    ghost use Rattle.std.specs.Iterator.{YieldsFirstBy, item_count};

    ghost next_gives = { YieldsFirstBy (λ item. item.now) (λ rest. rest) };

    ghost remaining = { item_count (λ rest. rest) };

    fn next(&mut self) -> Option<&'a [u8]> {
        if self.left == 0 {
            return None;
        }
        let (first, others) = split_first(self.rest);
        self.left -= 1;
        self.rest = others;
        Some(first)
    }
}

impl<'a> FusedIterator for Iter<'a> {}

/// Returns the row with the columns that `asked` names, in the order of `asked`, or with all columns if `asked` is
/// empty. A column that does not exist is empty in the result. The version stays. The cost is that of
/// [`Columns::chosen`].
///
/// # Errors
///
/// `NoMemory` if an allocation is refused, or if `asked` has more than 255 numbers.
pub fn shown(alloc: Global, asked: &ColumnNumbers, row: &Row) -> Result<Row, NoMemory>
    ensures { IfOk result (λ made. made ≡ shown asked.now row.now) }
{
    Ok(Row {
        version: row.version,
        columns: row.columns.chosen(alloc, asked.as_slice())?,
    })
}
