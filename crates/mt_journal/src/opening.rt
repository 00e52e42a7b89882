//! Logs, made and opened.

ghost use Rattle.std.specs.Prelude.{◌≡◌, ◌⊎◌, ◌++◌, ◌+◌, ◌<◌, ◌≤◌, ◌^◌, ℕ, List, [], length, replicate, true, Err, OnOk, IfOk, IfErr, IsTrue};
ghost use Rattle.mt_frame.specs.declared.entry.Entry.{Entry};
ghost use Rattle.mt_frame.specs.declared.entry.LogHeader.{LogHeader};
ghost use Rattle.sqlite_disk.specs.Disk.{Only, CountsFault};
ghost use Rattle.mt_journal.specs.Log.{IsLog, header_frame, last_number};
ghost use Rattle.mt_frame.specs.Fits.{HasFrame};
ghost use Rattle.mt_frame.specs.declared.entry.Entry.TheVariants.{Header};
ghost use Rattle.mt_journal.specs.Keeping.{Keeps, AllAreLogs};
ghost use Rattle.mt_journal.specs.Recovery.{HasReadAll, Mixes, IsUnwritten};
ghost use Rattle.mt_journal.specs.Refusing.{FileFails, IsNoRefusal};
ghost use Rattle.mt_journal.specs.Causes.{may_ask, OpenHasCause, OnRefusal};

use crate::error::JournalError;
use crate::journal::{Journal, ZEROS_AHEAD};
use crate::position::Position;
use crate::recovery::{Recovered, read_log};
use crate::zeros::zeros;
use mt_frame::encode::encode;
use mt_frame::entry::{Entry, LogHeader};
use sqlite_disk::Disk;
use std::alloc::Global;
use std::io;

// Sets what follows the end of a log to zero. Two calls of the disk.
fn repair<D: Disk>(disk: &mut D, at: &Position, zeros: &[u8]) -> io::Result<()>
    requires usable { IsTrue (D.Disk.is_usable disk.old) }
    requires zeros { zeros.now ≡ replicate (length zeros.now) 0 }
    requires tail { at.now.end + length zeros.now ≡ at.now.room }
    requires fits { at.now.room < 2 ^ 64 }
    ensures kept { (header : LogHeader) (entries : List Entry)
        → HasReadAll header entries at.now (D.Disk.seen disk.old)
        → OnOk result (Keeps at.now (D.Disk.seen disk.new) (D.Disk.may_leave disk.new) header entries) }
    ensures whole { (header : LogHeader) (entries : List Entry)
        → HasReadAll header entries at.now (D.Disk.seen disk.old)
        → OnOk result (AllAreLogs header entries (D.Disk.may_leave disk.new)) }
    ensures crash { (header : LogHeader) (entries : List Entry)
        → HasReadAll header entries at.now (D.Disk.seen disk.old) → Mixes D.Disk.is_mixing
        → Only (D.Disk.seen disk.old) (D.Disk.may_leave disk.old)
        → AllAreLogs header entries (D.Disk.may_leave disk.new) }
    ensures clean { IsTrue (D.Disk.is_clean disk.new) → IsTrue (D.Disk.is_clean disk.old) }
    ensures usable { OnOk result (IsTrue (D.Disk.is_usable disk.new)) }
    ensures faults { CountsFault result (D.Disk.faults disk.old) (D.Disk.faults disk.new) }
{
    disk.write_at(at.end, zeros)?;
    disk.sync()
}

// The bytes of the file.
fn read_file<D: Disk>(alloc: Global, disk: &mut D) -> Result<Vec<u8>, JournalError>
    requires { IsTrue (D.Disk.is_usable disk.old) }
    ensures bytes { IfOk result (λ bytes. IsTrue (D.Disk.is_clean disk.new) → bytes.items ≡ D.Disk.seen disk.old) }
    ensures seen { D.Disk.seen disk.new ≡ D.Disk.seen disk.old }
    ensures crash { (left : List ℕ) → D.Disk.may_leave disk.new left → D.Disk.may_leave disk.old left }
    ensures clean { IsTrue (D.Disk.is_clean disk.new) → IsTrue (D.Disk.is_clean disk.old) }
    ensures usable { IsTrue (D.Disk.is_usable disk.new) }
    ensures some { IfOk result (λ bytes. 0 < length bytes.items) }
    ensures cause { OpenHasCause result true
        (λ error. (error ≡ JournalError.NoLog) × (IsTrue (D.Disk.is_clean disk.new) → D.Disk.seen disk.old ≡ []))
        (D.Disk.faults disk.old) (D.Disk.faults disk.new) }
{
    let count = disk.len()?;
    if count == 0 {
        return Err(JournalError::NoLog);
    }
    let mut bytes = zeros(alloc, count)?;
    disk.read_at(0, &mut bytes)?;
    Ok(bytes)
}

/// Reads the log of a file, and sets what follows its end to zero, so that frames may be appended. The file must be a log
/// of an index with `columns` columns. Up to five calls of the disk. It keeps the bytes of the file in memory meanwhile.
///
/// A crash during the call leaves what a crash could leave before, or a log of the same entries.
///
/// # Errors
///
/// `NoLog`, `NotALog`, `UnknownFormat`, `OtherColumns`, `Damaged`: nothing was written. `Disk`: the disk failed. `GivenUp`
/// if a sync of the file failed before. `NoMemory`: nothing was written. The call can be made again.
pub fn recover<D: Disk>(alloc: Global, disk: &mut D, columns: u8) -> Result<Recovered, JournalError>
    ensures read { IfOk result (λ read. IsTrue (D.Disk.is_clean disk.new) → IsLog read.header read.entries.items (D.Disk.seen disk.old)) }
    ensures kept { IfOk result (λ read. IsTrue (D.Disk.is_clean disk.new)
        → Keeps read.at (D.Disk.seen disk.new) (D.Disk.may_leave disk.new) read.header read.entries.items) }
    ensures whole { IfOk result (λ read. IsTrue (D.Disk.is_clean disk.new)
        → AllAreLogs read.header read.entries.items (D.Disk.may_leave disk.new)) }
    ensures crash { (header : LogHeader) (entries : List Entry) → IsLog header entries (D.Disk.seen disk.old)
        → IsTrue (D.Disk.is_clean disk.new) → Mixes D.Disk.is_mixing
        → (left : List ℕ) → D.Disk.may_leave disk.new left → D.Disk.may_leave disk.old left ⊎ IsLog header entries left }
    ensures durable { IfOk result (λ read. read.at.durable ≡ read.at.newest) }
    ensures columns { IfOk result (λ read. read.header.columns ≡ columns) }
    ensures usable { OnOk result (IsTrue (D.Disk.is_usable disk.new)) }
    ensures clean { IsTrue (D.Disk.is_clean disk.new) → IsTrue (D.Disk.is_clean disk.old) }

    // A file that is refused is left as it was, and so is one that is no log.
    ensures cause { OpenHasCause result (D.Disk.is_usable disk.old)
        (λ error. IsTrue (D.Disk.is_clean disk.new) → FileFails columns (D.Disk.seen disk.old) error)
        (D.Disk.faults disk.old) (D.Disk.faults disk.new) }
    ensures unwritten { OnRefusal result (IsUnwritten (D.Disk.seen disk.old) (D.Disk.seen disk.new)
        (D.Disk.may_leave disk.old) (D.Disk.may_leave disk.new)) }
    ensures no_log { ((header : LogHeader) (entries : List Entry) → IsLog header entries (D.Disk.seen disk.old) → ⊥)
        → IsTrue (D.Disk.is_clean disk.new)
        → IsUnwritten (D.Disk.seen disk.old) (D.Disk.seen disk.new) (D.Disk.may_leave disk.old) (D.Disk.may_leave disk.new) }

    // A log of the right columns, whose numbers fit, is read.
    ensures refused { (header : LogHeader) (others : List Entry) → IsLog header others (D.Disk.seen disk.old)
        → header.columns ≡ columns → last_number header.base others < 2 ^ 64 → IsTrue (D.Disk.is_clean disk.new)
        → IfErr result IsNoRefusal }
{
    if !disk.may_be_used() {
        return Err(JournalError::GivenUp);
    }
    disk.sync()?;
    let bytes = read_file(alloc, disk)?;
    let recovered = read_log(alloc, &bytes, columns)?;
    let tail = zeros(alloc, bytes.len() - recovered.at.end)?;
    repair(disk, &recovered.at, &tail)?;
    Ok(recovered)
}

/// A log that was opened, with what it says.
#[derive(Drop)]
pub struct Opened<D: Disk> {
    pub journal: Journal<D>,
    pub header: LogHeader,
    /// The entries after the header, in their order.
    pub entries: Vec<Entry>,
}

/// Opens the log of a file, as `recover`, and continues it.
///
/// # Errors
///
/// Those of `recover`.
pub fn open<D: Disk + Drop>(
    alloc: Global,
    mut disk: D,
    columns: u8,
) -> Result<Opened<D>, JournalError>
    ensures read { IfOk result (λ opened. IsTrue (D.Disk.is_clean opened.journal.disk)
        → IsLog opened.header opened.entries.items (D.Disk.seen disk)) }
    ensures kept { IfOk result (λ opened. IsTrue (D.Disk.is_clean opened.journal.disk)
        → Keeps opened.journal.at (D.Disk.seen opened.journal.disk) (D.Disk.may_leave opened.journal.disk) opened.header opened.entries.items) }

    // No crash undoes an entry that was read.
    ensures whole { IfOk result (λ opened. IsTrue (D.Disk.is_clean opened.journal.disk)
        → AllAreLogs opened.header opened.entries.items (D.Disk.may_leave opened.journal.disk)) }
    ensures durable { IfOk result (λ opened. opened.journal.at.durable ≡ opened.journal.at.newest) }
    ensures columns { IfOk result (λ opened. opened.header.columns ≡ columns) }
    ensures asks { IfOk result (λ opened. IsTrue (may_ask opened.journal.is_given_up (D.Disk.is_usable opened.journal.disk))) }
    ensures clean { IfOk result (λ opened. IsTrue (D.Disk.is_clean opened.journal.disk) → IsTrue (D.Disk.is_clean disk)) }

    // `last` is the disk as the call leaves it.
    ensures cause { (last : D) × OpenHasCause result (D.Disk.is_usable disk)
        (λ error. IsTrue (D.Disk.is_clean last) → FileFails columns (D.Disk.seen disk) error)
        (D.Disk.faults disk) (D.Disk.faults last) }
    ensures refused { (header : LogHeader) (others : List Entry) → IsLog header others (D.Disk.seen disk)
        → header.columns ≡ columns → last_number header.base others < 2 ^ 64
        → (last : D) × (IsTrue (D.Disk.is_clean last) → IfErr result IsNoRefusal) }
{
    let Recovered {
        header,
        entries,
        at,
    } = recover(alloc, &mut disk, columns)?;
    Ok(Opened {
        journal: Journal::new(disk, at),
        header,
        entries,
    })
}

// Writes the frame of a header over zeros. Two calls of the disk.
fn put_header<D: Disk>(
    disk: &mut D,
    frame: &[u8],
    header: &LogHeader,
    room: usize,
) -> Result<Position, JournalError>
    requires usable { IsTrue (D.Disk.is_usable disk.old) }
    requires frame { frame.now ≡ header_frame header.now }
    requires has { HasFrame 0 0 (Header header.now) }
    requires room { length frame.now < room }
    ensures durable { IfOk result (λ at. at.durable ≡ at.newest) }
    ensures kept { IfOk result (λ at. (rest : List ℕ) → D.Disk.seen disk.old ≡ replicate room 0 ++ rest
        → Keeps at (D.Disk.seen disk.new) (D.Disk.may_leave disk.new) header.now []) }
    ensures usable { OnOk result (IsTrue (D.Disk.is_usable disk.new)) }
    ensures cause { OpenHasCause result true (λ error. ⊥) (D.Disk.faults disk.old) (D.Disk.faults disk.new) }
    ensures again { result ≡ Err JournalError.NoMemory → IsTrue (D.Disk.is_usable disk.new) }
    ensures clean { IsTrue (D.Disk.is_clean disk.new) → IsTrue (D.Disk.is_clean disk.old) }
{
    disk.write_at(0, frame)?;
    disk.sync()?;
    Ok(Position {
        generation: header.generation,
        end: frame.len(),
        room,
        newest: header.base,
        durable: header.base,
    })
}

/// Makes a log with this header and no entries, over whatever the file has, and returns its end: [`Journal::new`] continues
/// it. Six calls of the disk. The log is there only if the call returns `Ok`: after a crash before, the file can be anything.
/// If the call fails, it can be made again as long as the disk may be used.
///
/// # Errors
///
/// `Disk`: the disk failed. `GivenUp` if a sync of the file failed before. `NoMemory` if an allocation is refused.
pub fn start<D: Disk>(
    alloc: Global,
    disk: &mut D,
    header: LogHeader,
) -> Result<Position, JournalError>
    ensures durable { IfOk result (λ at. at.durable ≡ at.newest) }
    ensures kept { IfOk result (λ at. Keeps at (D.Disk.seen disk.new) (D.Disk.may_leave disk.new) header []) }
    ensures usable { OnOk result (IsTrue (D.Disk.is_usable disk.new)) }
    ensures clean { IsTrue (D.Disk.is_clean disk.new) → IsTrue (D.Disk.is_clean disk.old) }
    ensures cause { OpenHasCause result (D.Disk.is_usable disk.old) (λ error. ⊥) (D.Disk.faults disk.old) (D.Disk.faults disk.new) }

    // Memory that is refused leaves the disk usable.
    ensures again { result ≡ Err JournalError.NoMemory → IsTrue (D.Disk.is_usable disk.new) }
{
    if !disk.may_be_used() {
        return Err(JournalError::GivenUp);
    }
    let frame = encode(alloc, 0, 0, &Entry::Header(header))?;
    let room = disk.len()?.max(ZEROS_AHEAD);
    if room <= frame.len() {
        return Err(JournalError::TooLong);
    }
    disk.write_at(0, &zeros(alloc, room)?)?;
    disk.sync()?;
    put_header(disk, &frame, &header, room)
}

/// Makes a log as [`start`] does, and returns its journal. If the call fails, the disk is dropped.
///
/// # Errors
///
/// Those of [`start`].
pub fn create<D: Disk + Drop>(
    alloc: Global,
    mut disk: D,
    header: LogHeader,
) -> Result<Journal<D>, JournalError>
    ensures durable { IfOk result (λ journal. journal.at.durable ≡ journal.at.newest) }
    ensures kept { IfOk result (λ journal. Keeps journal.at (D.Disk.seen journal.disk) (D.Disk.may_leave journal.disk) header []) }
    ensures asks { IfOk result (λ journal. IsTrue (may_ask journal.is_given_up (D.Disk.is_usable journal.disk))) }
    ensures clean { IfOk result (λ journal. IsTrue (D.Disk.is_clean journal.disk) → IsTrue (D.Disk.is_clean disk)) }

    // `last` is the disk as the call leaves it.
    ensures cause { (last : D) × OpenHasCause result (D.Disk.is_usable disk) (λ error. ⊥) (D.Disk.faults disk) (D.Disk.faults last) }
{
    let at = start(alloc, &mut disk, header)?;
    Ok(Journal::new(disk, at))
}
