//! Rows that are read before a bound, some at a time, and returned from the last on.

ghost use Rattle.std.specs.Prelude.{◌≡◌, true, false, ◌+◌, IfSome, ◌≢◌, ◌<◌, ◌≤◌, length, take, drop, ◌↔◌, IfOk, IsTrue, MatchOption, OnOk, OnSome, Some, None, [], ◌∷◌, ◌++◌, List, ℕ};
ghost use Rattle.std.specs.Option.{option_copied};
ghost use Rattle.mt_types.specs.declared.limits.TheConstants.{MAX_KEY_BYTES};
ghost use Rattle.mt_slice.specs.Place.{AreBytes};
ghost use Rattle.mt_index.specs.Alone.{IsQuiet};
ghost use Rattle.mt_reads.specs.Back.{IsBefore, bound_of, keys_before};
ghost use Rattle.mt_reads.specs.Reading.{GivesRow, IsBound, IsKept, Reads, bound_at};

use crate::nearby::begin_before;
use crate::rows::Rows;
use bytes::Bytes;
use mt_index::machine::Machine;
use mt_slice::key_bytes;
use mt_types::key::Key;
use mt_types::refusal::NoMemory;
use mt_types::row::Row;
use std::alloc::Global;

// For how many rows there is room at first, those of a border, and for how many bytes of their keys.
const ROOM: usize = 16;

const ROOM_BYTES: usize = 512;

/// Rows in the order of their keys, each with the place at which its key begins in the bytes.
#[derive(Drop)]
pub(crate) struct Chunk<'m> {
    pub(crate) keys: Vec<u8>,
    pub(crate) rows: Vec<(usize, &'m Row)>,
}

/// Returns whether a key is before a bound, if there is one.
pub(crate) fn is_before(key: &[u8], end: Option<&[u8]>) -> bool
    ensures { IsTrue result ↔ IsBefore (option_copied end.entry) key.now }
{
    match end {
        Some(end) => key.cmp(end).is_lt(),
        None => true,
    }
}

/// Returns a bound, borrowed.
pub(crate) fn bound(bytes: &Option<Bytes>) -> Option<&[u8]>
    ensures { option_copied result ≡ bytes.now }
{
    match bytes {
        Some(bytes) => Some(bytes.as_slice()),
        None => None,
    }
}

// Moves the bytes from a place on into a buffer, in the place of what it has.
fn move_end(bytes: &mut Vec<u8>, begin: usize, buffer: &mut Vec<u8>) -> Result<(), NoMemory>
    requires { begin ≤ length bytes.old.items }
    ensures left { OnOk result (bytes.new.items ≡ take begin bytes.old.items) }
    ensures moved { OnOk result (buffer.new.items ≡ drop begin bytes.old.items) }
{
    let (_left, end) = bytes.as_slice().split_at(begin);
    buffer.clear();
    buffer.extend_from_slice(end)?;
    bytes.truncate(begin);
    Ok(())
}

// Reads the rows from a key on and before a bound.
fn read<'m>(
    alloc: Global,
    machine: &'m Machine,
    start: &Key,
    end: Option<&[u8]>,
) -> Result<Chunk<'m>, NoMemory>
    requires quiet { IsQuiet machine.now }
    requires before { IsBefore (option_copied end) start.now }
    ensures { IfOk result (λ chunk. IsKept machine.now chunk.keys.items chunk.rows.items (Some start.now)
        (option_copied end.entry)) }
{
    let _stands = machine.is_idle();
    let mut walk = Rows::of(alloc, machine, start)?;
    let mut keys = Vec::with_capacity(alloc, ROOM_BYTES)?;
    let mut rows = Vec::with_capacity(alloc, ROOM)?;
    while let Some(row) = walk.next()? {
        let key = walk.key();
        if !is_before(key, end) {
            break;
        }
        rows.push((keys.len(), row))?;
        keys.extend_from_slice(key)?;
    }
    Ok(Chunk { keys, rows })
}

/// The rows of a machine before a bound: those that are read and still to come, and those that aren't read.
#[derive(Drop)]
pub(crate) struct Reading<'m> {
    pub(crate) alloc: Global,
    pub(crate) machine: &'m Machine,
    pub(crate) chunk: Chunk<'m>,
    // Rows that aren't read have keys before these bytes, if there are any.
    pub(crate) unread: Option<Bytes>,
    // The bound of the rows to come, if there is one.
    pub(crate) key: Vec<u8>,
    pub(crate) is_bounded: bool,
}

// Says that the bytes of a slice are bytes.
fn are_bytes(bytes: &[u8])
    ensures { AreBytes bytes.now }
{}

impl<'m> Reading<'m> {
    // Nothing is read yet.
    fn with(
        alloc: Global,
        machine: &'m Machine,
        unread: Option<Bytes>,
        key: Vec<u8>,
        is_bounded: bool,
    ) -> Reading<'m>
        requires quiet { IsQuiet machine.now }
        requires bound { bound_of is_bounded key.items ≡ unread }
        requires unbounded { is_bounded ≡ false → key.items ≡ [] }
        requires short { IsBound unread }
        ensures reading { Reads result }
        ensures machine { result.machine ≡ machine.exit }
        ensures before { bound_at result ≡ unread }
    {
        let chunk = Chunk {
            keys: Vec::new(alloc),
            rows: Vec::new(alloc),
        };
        Reading {
            alloc,
            machine,
            chunk,
            unread,
            key,
            is_bounded,
        }
    }

    /// Returns the rows of a machine on which no put, remove or tidy is open, before a bound if there is one.
    ///
    /// # Errors
    ///
    /// `NoMemory` if an allocation is refused.
    pub(crate) fn new(
        alloc: Global,
        machine: &'m Machine,
        before: Option<&[u8]>,
    ) -> Result<Reading<'m>, NoMemory>
        requires quiet { IsQuiet machine.now }
        requires fits { IfSome (option_copied before) (λ key. length key ≤ MAX_KEY_BYTES + 1) }
        ensures reading { IfOk result Reads }
        ensures machine { IfOk result (λ reading. reading.machine ≡ machine.exit) }
        ensures before { IfOk result (λ reading. bound_at reading ≡ option_copied before.exit) }
    {
        let Some(before) = before else {
            return Ok(Reading::with(alloc, machine, None, Vec::new(alloc), false));
        };
        are_bytes(before);
        let unread = Bytes::copy_from_slice(alloc, before)?;
        let mut key = Vec::new(alloc);
        key.extend_from_slice(before)?;
        Ok(Reading::with(alloc, machine, Some(unread), key, true))
    }

    // Whether no row is unread.
    fn is_all_read(&self) -> bool
        ensures { IsTrue result ↔ (self.now.unread ≡ Some []) }
    {
        match &self.unread {
            Some(bytes) => bytes.is_empty(),
            None => false,
        }
    }

    // Reads the rows in front of those that were read.
    fn refill(&mut self) -> Result<(), NoMemory>
        requires reading { Reads self.old }
        requires none { self.old.chunk.rows.items ≡ [] }
        requires more { self.old.unread ≢ Some [] }
        ensures reading { OnOk result (Reads self.new) }
        ensures further { OnOk result (keys_before self.new.unread < keys_before self.old.unread) }
        ensures machine { self.new.machine ≡ self.old.machine }
        ensures bound { bound_at self.new ≡ bound_at self.old }
    {
        let _stands = self.machine.is_idle();
        let end = bound(&self.unread);
        let start = begin_before(self.alloc, self.machine.tree(), end)?;
        let _bytes = key_bytes(&start);
        self.chunk = read(self.alloc, self.machine, &start, end)?;
        self.unread = Some(start.into_bytes());
        Ok(())
    }

    // Returns the last row that is read and still to come.
    fn pop(&mut self) -> Result<Option<&'m Row>, NoMemory>
        requires reading { Reads self.old }
        requires done { self.old.chunk.rows.items ≡ [] → self.old.unread ≡ Some [] }
        ensures reading { OnOk result (Reads self.new) }
        ensures row { IfOk result (GivesRow self.old self.new) }
        ensures fewer { IfOk result (λ row. OnSome row (keys_before (bound_at self.new) < keys_before (bound_at self.old))) }
        ensures fits { IfOk result (λ row. OnSome row (length self.new.key.items ≤ MAX_KEY_BYTES)) }
        ensures bounded { IfOk result (λ row. OnSome row (self.new.is_bounded ≡ true)) }
        ensures machine { self.new.machine ≡ self.old.machine }
    {
        let _stands = self.machine.is_idle();
        match self.chunk.rows.pop() {
            Some((begin, row)) => {
                move_end(&mut self.chunk.keys, begin, &mut self.key)?;
                self.is_bounded = true;
                Ok(Some(row))
            }
            None => Ok(None),
        }
    }

    /// Returns the row of the greatest key before the bound, which is this key then, or `None` if there is none.
    ///
    /// # Errors
    ///
    /// `NoMemory` if an allocation is refused. The reading must not be used after that.
    pub(crate) fn next(&mut self) -> Result<Option<&'m Row>, NoMemory>
        requires { Reads self.old }
        ensures reading { OnOk result (Reads self.new) }
        ensures row { IfOk result (GivesRow self.old self.new) }
        ensures fewer { IfOk result (λ row. OnSome row (keys_before (bound_at self.new) < keys_before (bound_at self.old))) }
        ensures fits { IfOk result (λ row. OnSome row (length self.new.key.items ≤ MAX_KEY_BYTES)) }
        ensures bounded { IfOk result (λ row. OnSome row (self.new.is_bounded ≡ true)) }
        ensures machine { self.new.machine ≡ self.old.machine }
    {
        while self.chunk.rows.is_empty() && !self.is_all_read() {
            self.refill()?;
        }
        self.pop()
    }
}
