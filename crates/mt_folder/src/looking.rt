//! What is looked at in the file of a log before it is opened: whether a crash alone can have left it so.

ghost use Rattle.std.specs.Prelude.{◌≡◌, ◌<◌, min, ℕ, List, length, IsTrue, IfErr, IfOk, OnOk};
ghost use Rattle.sqlite_disk.specs.Disk.{Holds};
ghost use Rattle.mt_folder.specs.Files.{is_blank, HeaderOf};
ghost use Rattle.mt_folder.specs.Looking.{entry_says_more, is_frame, may_begin, says_more, IsFirstFrame, IsFirstLost, IsRefusedRightly, LacksNone};
ghost use Rattle.mt_folder.specs.declared.looking.TheConstants.{HEADER as HEADER_BYTES};

use crate::error::{FolderError, LogFile};
use mt_frame::decode::decode;
use mt_frame::entry::{Entry, LogHeader};
use mt_frame::fault::DecodeError;
use mt_journal::error::JournalError;
use mt_journal::laws::headers_are_short;
use mt_journal::position::Position;
use mt_journal::recovery::{read_header, read_log};
use sqlite_disk::Disk;
use std::alloc::{AllocError, Global};
use std::io;

/// Within how many bytes the header of a log lies.
pub const HEADER: usize = 128;

// The least first byte of a frame.
const FIRST: u8 = 0x80;

// The first bytes of a file, within which the header lies.
fn front_of<D: Disk>(alloc: Global, disk: &mut D) -> io::Result<Vec<u8>>
    requires { IsTrue (D.Disk.is_usable disk.old) }
    ensures length { IfOk result (λ bytes. IsTrue (D.Disk.is_clean disk.new)
        → length bytes.items ≡ min (length (D.Disk.seen disk.old)) HEADER_BYTES) }
    ensures front { IfOk result (λ bytes. IsTrue (D.Disk.is_clean disk.new) → 0 < length bytes.items
        → Holds (D.Disk.seen disk.old) 0 bytes.items) }
    ensures clean { IsTrue (D.Disk.is_clean disk.new) → IsTrue (D.Disk.is_clean disk.old) }
    ensures seen { D.Disk.seen disk.new ≡ D.Disk.seen disk.old }
    ensures usable { IsTrue (D.Disk.is_usable disk.new) }
{
    let len = disk.len()?.min(HEADER);
    let mut bytes = Vec::from_elem(alloc, 0u8, len)?;
    if len > 0 {
        disk.read_at(0, bytes.as_mut_slice())?;
    }
    Ok(bytes)
}

/// Returns the bytes of a file. Two calls of the disk.
pub fn bytes_of<D: Disk>(alloc: Global, disk: &mut D) -> io::Result<Vec<u8>>
    requires { IsTrue (D.Disk.is_usable disk.old) }
    ensures bytes { IfOk result (λ bytes. IsTrue (D.Disk.is_clean disk.new) → bytes.items ≡ D.Disk.seen disk.old) }
    ensures clean { IsTrue (D.Disk.is_clean disk.new) → IsTrue (D.Disk.is_clean disk.old) }
    ensures crash { (left : List ℕ) → D.Disk.may_leave disk.new left → D.Disk.may_leave disk.old left }
    ensures seen { D.Disk.seen disk.new ≡ D.Disk.seen disk.old }
    ensures usable { IsTrue (D.Disk.is_usable disk.new) }
{
    let len = disk.len()?;
    let mut bytes = Vec::from_elem(alloc, 0u8, len)?;
    if len > 0 {
        disk.read_at(0, bytes.as_mut_slice())?;
    }
    Ok(bytes)
}

/// Returns the header of the log that a file has: if the read returns no wrong byte, the file has no log of such an index with
/// another one. `None` if it has none: no byte, or what is left if the making of a log was cut short. Reads the first bytes
/// alone.
///
/// # Errors
///
/// If the file has something else, or the log of an index with another number of columns.
pub fn header_of<D: Disk>(
    alloc: Global,
    disk: &mut D,
    file: LogFile,
    columns: u8,
) -> Result<Option<LogHeader>, FolderError>
    requires { IsTrue (D.Disk.is_usable disk.old) }
    ensures header { IfOk result (λ found. IsTrue (D.Disk.is_clean disk.new) → HeaderOf columns (D.Disk.seen disk.old) found) }
    ensures clean { IsTrue (D.Disk.is_clean disk.new) → IsTrue (D.Disk.is_clean disk.old) }
    ensures seen { D.Disk.seen disk.new ≡ D.Disk.seen disk.old }
    ensures usable { IsTrue (D.Disk.is_usable disk.new) }
{
    headers_are_short();
    let bytes = front_of(alloc, disk)?;
    if bytes.is_empty() {
        return Ok(None);
    }
    match read_header(alloc, &bytes, columns) {
        Ok((header, _)) => Ok(Some(header)),
        Err(JournalError::NoLog) => Ok(None),
        Err(error) => Err(FolderError::Journal { file, error }),
    }
}

// Whether no byte but zeros is after what a header takes.
fn is_blank(bytes: &[u8]) -> bool
    ensures { result ≡ is_blank bytes.now }
{
    bytes.iter().skip(HEADER).all(|byte| *byte == 0)
}

/// Succeeds if a file without a log has nothing else: no byte but zeros after what a header takes.
///
/// # Errors
///
/// If it has something else.
pub fn look_for_nothing<D: Disk>(
    alloc: Global,
    disk: &mut D,
    file: LogFile,
) -> Result<(), FolderError>
    requires { IsTrue (D.Disk.is_usable disk.old) }
    ensures nothing { OnOk result (IsTrue (D.Disk.is_clean disk.new) → IsTrue (is_blank (D.Disk.seen disk.old))) }
    ensures clean { IsTrue (D.Disk.is_clean disk.new) → IsTrue (D.Disk.is_clean disk.old) }
    ensures usable { IsTrue (D.Disk.is_usable disk.new) }
{
    let bytes = bytes_of(alloc, disk)?;
    if is_blank(&bytes) {
        return Ok(());
    }
    let error = JournalError::NotALog;
    Err(FolderError::Journal { file, error })
}

// Whether these bytes may begin with a frame.
fn may_begin(bytes: &[u8]) -> bool
    ensures { result ≡ may_begin bytes.now }
{
    match bytes.first() {
        Some(byte) => *byte >= FIRST,
        None => false,
    }
}

// Whether the bytes at the front are a whole frame of a log of this generation.
fn is_frame(alloc: Global, generation: u64, bytes: &[u8], place: usize) -> Result<bool, AllocError>
    ensures { IfOk result (λ is. is ≡ is_frame generation place bytes.now) }
{
    if !may_begin(bytes) {
        return Ok(false);
    }
    match decode(alloc, generation, place as u64, bytes) {
        Ok(Some(_)) => Ok(true),
        Ok(None) | Err(DecodeError::Faulty(_)) => Ok(false),
        Err(DecodeError::NoMemory) => Err(AllocError),
    }
}

// The place of the first whole frame of a log of this generation. O(n) in the bytes that may begin one.
fn first_frame(alloc: Global, bytes: &[u8], generation: u64) -> Result<Option<usize>, AllocError>
    ensures { IfOk result (IsFirstFrame generation bytes.now) }
{
    for place in 0..bytes.len() {
        if is_frame(alloc, generation, &bytes[place..], place)? {
            return Ok(Some(place));
        }
    }
    Ok(None)
}

/// Returns the place of the first whole frame of a log of this generation in a file that has no header. A crash never leaves
/// one. Reads the file once.
///
/// # Errors
///
/// If the file can't be read.
pub fn frame_without_header<D: Disk>(
    alloc: Global,
    disk: &mut D,
    generation: u64,
) -> Result<Option<usize>, FolderError>
    requires { IsTrue (D.Disk.is_usable disk.old) }
    ensures first { IfOk result (λ found. IsTrue (D.Disk.is_clean disk.new) → IsFirstFrame generation (D.Disk.seen disk.old) found) }
    ensures clean { IsTrue (D.Disk.is_clean disk.new) → IsTrue (D.Disk.is_clean disk.old) }
    ensures usable { IsTrue (D.Disk.is_usable disk.new) }
{
    let bytes = bytes_of(alloc, disk)?;
    Ok(first_frame(alloc, &bytes, generation)?)
}

// Whether an entry says that more commits than these were durable.
fn entry_says_more(entry: &Entry, newest: u64) -> bool
    ensures { result ≡ entry_says_more newest entry.now }
{
    match entry {
        Entry::Commits(commits) => commits.durable > newest,
        _ => false,
    }
}

// Whether the bytes at the front are a whole frame of commits that says that more were durable than `newest`.
fn says_more(alloc: Global, bytes: &[u8], at: &Position, place: usize) -> Result<bool, AllocError>
    ensures { IfOk result (λ says. says ≡ says_more at.now.generation at.now.newest place bytes.now) }
{
    if !may_begin(bytes) {
        return Ok(false);
    }
    match decode(alloc, at.generation, place as u64, bytes) {
        Ok(Some((entry, _))) => Ok(entry_says_more(&entry, at.newest)),
        Ok(None) | Err(DecodeError::Faulty(_)) => Ok(false),
        Err(DecodeError::NoMemory) => Err(AllocError),
    }
}

// The place of the first frame after the end of a log by which synced commits are missing. A crash never leaves one. O(n) in
// the bytes that may begin one.
fn lost_frame(alloc: Global, bytes: &[u8], at: &Position) -> Result<Option<usize>, AllocError>
    ensures { IfOk result (IsFirstLost at.now bytes.now) }
{
    for place in at.end..bytes.len() {
        if says_more(alloc, &bytes[place..], at, place)? {
            return Ok(Some(place));
        }
    }
    Ok(None)
}

/// Looks at the log of a file. Reads the file once.
///
/// # Errors
///
/// If the file has no log for an index with `columns` columns, or one of which commits are missing that were durable.
pub fn look<D: Disk>(
    alloc: Global,
    disk: &mut D,
    file: LogFile,
    columns: u8,
) -> Result<(), FolderError>
    requires { IsTrue (D.Disk.is_usable disk.old) }
    ensures whole { OnOk result (IsTrue (D.Disk.is_clean disk.new) → LacksNone columns (D.Disk.seen disk.old)) }
    ensures refused { IfErr result (λ error. IsTrue (D.Disk.is_clean disk.new) → IsRefusedRightly columns (D.Disk.seen disk.old) error) }
    ensures clean { IsTrue (D.Disk.is_clean disk.new) → IsTrue (D.Disk.is_clean disk.old) }
    ensures seen { D.Disk.seen disk.new ≡ D.Disk.seen disk.old }
    ensures usable { IsTrue (D.Disk.is_usable disk.new) }
{
    let bytes = bytes_of(alloc, disk)?;
    match read_log(alloc, &bytes, columns) {
        Ok(read) => match lost_frame(alloc, &bytes, &read.at)? {
            Some(place) => Err(FolderError::Lost {
                file,
                commit: read.at.newest,
                place,
            }),
            None => Ok(()),
        },
        Err(error) => Err(FolderError::Journal { file, error }),
    }
}
