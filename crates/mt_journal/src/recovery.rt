//! A log, read from the bytes of its file.

ghost use Rattle.std.specs.Prelude.{◌≡◌, ◌+◌, ◌++◌, ◌∷◌, ◌<◌, ◌≤◌, ◌^◌, ℕ, List, [], length, drop, IsTrue, OnOk, IfOk, IfErr, MatchResult, IfSome, IfNone};
ghost use Rattle.mt_frame.specs.declared.entry.Entry.{Entry};
ghost use Rattle.mt_frame.specs.declared.entry.LogHeader.{LogHeader};
ghost use Rattle.mt_frame.specs.declared.entry.Entry.TheVariants.{Header};
ghost use Rattle.mt_frame.specs.Ends.{ends};
ghost use Rattle.mt_frame.specs.Fits.{HasFrame};
ghost use Rattle.mt_journal.specs.Log.{AreNumbered, header_frame, last_number, IsLog};
ghost use Rattle.mt_journal.specs.Recovery.{HasRead, HasReadAll};
ghost use Rattle.mt_journal.specs.Refusing.{of_fault, NextFails, EntriesFail, HeaderFails, LogFails};

use crate::error::{Damage, JournalError};
use crate::position::Position;
use mt_frame::decode::decode;
use mt_frame::entry::{Entry, LogHeader};
use mt_frame::fault::{DecodeError, FrameFault};
use std::alloc::Global;

/// What was read of a log.
#[derive(Debug, Drop)]
pub struct Recovered {
    /// The header of the log.
    pub header: LogHeader,
    /// The entries after the header, in their order.
    pub entries: Vec<Entry>,
    /// The end of the log.
    pub at: Position,
}

// The number of the last commit after this entry, if the entry follows the commit `newest`.
fn number_after(newest: u64, entry: &Entry) -> Option<u64>
    ensures some { IfSome result (λ number. AreNumbered newest (entry.now ∷ [])
        × (number ≡ last_number newest (entry.now ∷ []))) }
    ensures none { IfNone result (AreNumbered newest (entry.now ∷ []) → 2 ^ 64 ≤ last_number newest (entry.now ∷ [])) }
{
    match entry {
        Entry::Commits(commits) => {
            let first = commits.first;
            if first == 0 || first - 1 != newest {
                return None;
            }
            newest.checked_add(commits.records.len() as u64)
        }
        Entry::Closed(number) => {
            if *number == newest {
                Some(newest)
            } else {
                None
            }
        }
        Entry::Rows(_) | Entry::Sealed(_) => Some(newest),
        Entry::Header(_) => None,
    }
}

// The bytes from here on.
fn rest_of(bytes: &[u8], at: usize) -> &[u8]
    requires { at ≤ length bytes.now }
    ensures { result.now ≡ drop at bytes.now }
{
    bytes.split_at(at).1
}

// Takes the next entry, if the log does not end here.
fn next_entry(alloc: Global, bytes: &[u8], at: &mut Position) -> Result<Option<Entry>, JournalError>
    requires { at.old.end ≤ length bytes.now }
    ensures some { (header : LogHeader) (entries : List Entry) → HasRead header entries at.old bytes.now
        → IfOk result (λ read. IfSome read (λ entry. HasRead header (entries ++ entry ∷ []) at.new bytes.now)) }
    ensures more { IfOk result (λ read. IfSome read (λ entry. at.old.end < at.new.end)) }
    ensures within { at.new.end ≤ length bytes.now }
    ensures none { IfOk result (λ read. IfNone read (IsTrue (ends (drop at.new.end bytes.now)) × (at.new ≡ at.old))) }
    ensures room { at.new.room ≡ at.old.room }
    ensures refused { (header : LogHeader) (entries others : List Entry) → HasRead header entries at.old bytes.now
        → IsLog header others bytes.now → last_number header.base others < 2 ^ 64
        → IfErr result (λ error. error ≡ JournalError.NoMemory) }
    ensures cause { IfErr result (NextFails at.old bytes.now) }
{
    match decode(alloc, at.generation, at.end as u64, rest_of(bytes, at.end)) {
        Ok(None) => Ok(None),
        Ok(Some((entry, count))) => {
            let Some(newest) = number_after(at.newest, &entry) else {
                return Err(JournalError::Damaged {
                    place: at.end,
                    damage: Damage::Order,
                });
            };
            at.end += count;
            at.newest = newest;
            Ok(Some(entry))
        }
        Err(DecodeError::NoMemory) => Err(JournalError::NoMemory),
        Err(DecodeError::Faulty(fault)) => Err(JournalError::Damaged {
            place: at.end,
            damage: Damage::Frame(fault),
        }),
    }
}

// Takes the entries up to the end of the log.
fn all_entries(alloc: Global, bytes: &[u8], at: &mut Position) -> Result<Vec<Entry>, JournalError>
    requires { at.old.end ≤ length bytes.now }
    ensures read { (header : LogHeader) → HasRead header [] at.old bytes.now
        → IfOk result (λ entries. HasRead header entries.items at.new bytes.now) }
    ensures ended { OnOk result (IsTrue (ends (drop at.new.end bytes.now))) }
    ensures refused { (header : LogHeader) (others : List Entry) → HasRead header [] at.old bytes.now
        → IsLog header others bytes.now → last_number header.base others < 2 ^ 64
        → IfErr result (λ error. error ≡ JournalError.NoMemory) }
    ensures within { at.new.end ≤ length bytes.now }
    ensures room { at.new.room ≡ at.old.room }
    ensures cause { (header : LogHeader) → HasRead header [] at.old bytes.now
        → IfErr result (EntriesFail header bytes.now) }
{
    let mut entries = Vec::new(alloc);
    loop {
        match next_entry(alloc, bytes, at)? {
            Some(entry) => entries.push(entry)?,
            None => return Ok(entries),
        }
    }
}

// The header that an entry is.
fn header_of(entry: Entry) -> Option<LogHeader>
    ensures some { IfSome result (λ header. entry ≡ Header header) }
    ensures none { IfNone result ((header : LogHeader) → entry ≡ Header header → ⊥) }
{
    match entry {
        Entry::Header(header) => Some(header),
        Entry::Commits(_) | Entry::Rows(_) | Entry::Sealed(_) | Entry::Closed(_) => None,
    }
}

/// Reads the header of a log of an index with `columns` columns from the first bytes of its file. Returns it with the
/// position after it. O(1): the frames after it aren't read.
///
/// # Errors
///
/// Those of [`read_log`] for the first frame.
pub fn read_header(
    alloc: Global,
    bytes: &[u8],
    columns: u8,
) -> Result<(LogHeader, Position), JournalError>
    ensures read { IfOk result (λ read. HasRead read.0 [] read.1 bytes.now × (read.1.room ≡ length bytes.now)) }
    ensures refused { (header : LogHeader) (others : List Entry) → IsLog header others bytes.now → header.columns ≡ columns
        → MatchResult result (λ read. read.0 ≡ header) (λ error. error ≡ JournalError.NoMemory) }
    ensures headed { (header : LogHeader) (rest : List ℕ) → HasFrame 0 0 (Header header) → bytes.now ≡ header_frame header ++ rest
        → header.columns ≡ columns → MatchResult result (λ read. read.0 ≡ header) (λ error. error ≡ JournalError.NoMemory) }
    ensures columns { IfOk result (λ read. read.0.columns ≡ columns) }
    ensures cause { IfErr result (HeaderFails columns bytes.now) }
{
    match decode(alloc, 0, 0, bytes) {
        Ok(Some((entry, count))) => {
            let Some(header) = header_of(entry) else {
                return Err(JournalError::NotALog);
            };
            if header.columns != columns {
                return Err(JournalError::OtherColumns {
                    found: header.columns,
                });
            }
            let at = Position {
                generation: header.generation,
                end: count,
                room: bytes.len(),
                newest: header.base,
                durable: header.base,
            };
            Ok((header, at))
        }
        Ok(None) => Err(JournalError::NoLog),
        Err(DecodeError::NoMemory) => Err(JournalError::NoMemory),
        Err(DecodeError::Faulty(fault)) => Err(no_header(fault)),
    }
}

// Why no header is at the front.
fn no_header(fault: FrameFault) -> JournalError
    ensures { result ≡ of_fault fault }
{
    match fault {
        FrameFault::UnknownFormat => JournalError::UnknownFormat,
        FrameFault::Length | FrameFault::Cut | FrameFault::Escape => JournalError::NotALog,
        FrameFault::Digest | FrameFault::Entry => JournalError::Damaged {
            place: 0,
            damage: Damage::Frame(fault),
        },
    }
}

/// Reads a log of an index with `columns` columns from the bytes of its file. O(n) in the bytes.
///
/// # Errors
///
/// `NoLog`, `NotALog`, `UnknownFormat`, `OtherColumns`: the first frame is no such header. `Damaged`: the bytes at this
/// place are no frame that follows, and no zero ends the log there. `NoMemory` if an allocation is refused.
pub fn read_log(alloc: Global, bytes: &[u8], columns: u8) -> Result<Recovered, JournalError>
    ensures read { IfOk result (λ read. HasReadAll read.header read.entries.items read.at bytes.now) }
    ensures within { IfOk result (λ read. read.at.end ≤ length bytes.now) }
    ensures refused { (header : LogHeader) (others : List Entry) → IsLog header others bytes.now → header.columns ≡ columns
        → last_number header.base others < 2 ^ 64
        → IfErr result (λ error. error ≡ JournalError.NoMemory) }
    ensures columns { IfOk result (λ read. read.header.columns ≡ columns) }
    ensures cause { IfErr result (LogFails columns bytes.now) }
{
    let (header, mut at) = read_header(alloc, bytes, columns)?;
    let entries = all_entries(alloc, bytes, &mut at)?;
    at.durable = at.newest;
    Ok(Recovered {
        header,
        entries,
        at,
    })
}
