//! How the logs of a folder are opened: the current one, with the rows that it has.

ghost use Rattle.std.specs.Prelude.{◌≡◌, ◌⊎◌, ℕ, List, None as NoneOf, IsSome, IsTrue, IsFalse, IfOk};
ghost use Rattle.mt_folder.specs.Files.{AreRows, HeaderOf};
ghost use Rattle.mt_folder.specs.Kept.{BeginsLog, IsOpened, KeepsBoth, KeepsLog, KeepsLogs, KeepsRows, KeepsSource};
ghost use Rattle.mt_folder.specs.Logs.{last_number, AreOfSource, Continues, HasRows, HasRowsOfBoth};
ghost use Rattle.mt_folder.specs.Sides.{IsNoNewer};
ghost use Rattle.mt_journal.specs.Keeping.{AllAreLogs, Keeps};
ghost use Rattle.mt_journal.specs.Recovery.{Mixes};
ghost use Rattle.mt_folder.specs.Spares.{disk_of, is_needed, AreClean, IsSpareOf};

use crate::error::{FolderError, LogFile};
use crate::reading::{RowsRead, rows_of, rows_of_both};
use crate::side::{OpenedSide, Side};
use crate::source::{Source, decide};
use mt_journal::journal::Journal;
use mt_rows::rows::Rows;
use sqlite_disk::Disk;
use std::alloc::Global;

/// The file of a folder that the current log isn't in.
#[derive(Drop)]
pub enum Spare<D: Disk + Drop> {
    /// The current log has all rows itself. They took about `size` bytes of it; `size` is 0 if it was never shortened.
    Free { disk: D, size: usize },
    /// The current log continues the one of this file, which has the rows until they are copied.
    Needed { disk: D },
}

/// The current log of a folder, with the rows that it has.
#[derive(Drop)]
pub struct OpenedLog<D: Disk + Drop> {
    /// The file of the current log.
    pub file: LogFile,
    pub journal: Journal<D>,
    /// The rows, and how many commits led to them.
    pub read: RowsRead,
    pub spare: Spare<D>,
    /// Which logs the rows are of. None: both files had nothing, and a log was made.
    pub source: Option<Source>,
}

// About how many bytes a frame takes, and a row besides the bytes of its key and of its columns.
const BESIDES: usize = 32;

// About how many bytes of a log the rows take.
fn size_of(rows: &Rows) -> usize {
    rows.iter().fold(BESIDES, |size: usize, (key, row)| {
        let columns = row
            .columns
            .iter()
            .fold(0, |sum: usize, column| sum.saturating_add(column.len()));
        size.saturating_add(key.as_slice().len())
            .saturating_add(columns)
            .saturating_add(BESIDES)
    })
}

// Makes a log in a folder that has none.
fn make_log<D: Disk + Drop>(
    alloc: Global,
    side: Side<D>,
    other: Side<D>,
    columns: u8,
) -> Result<OpenedLog<D>, FolderError>
    requires usable { IsTrue (D.Disk.is_usable side.disk) }
    requires other { IsTrue (D.Disk.is_usable other.disk) }
    requires none { side.header ≡ NoneOf }
    requires order { IsNoNewer other.header side.header }
    requires header { IsTrue (D.Disk.is_clean side.disk) → HeaderOf columns (D.Disk.seen side.disk) side.header }
    requires other_header { IsTrue (D.Disk.is_clean other.disk) → HeaderOf columns (D.Disk.seen other.disk) other.header }
    ensures rows { IfOk result (λ opened. AreClean D.Disk.is_clean opened
        → AreRows columns (D.Disk.seen side.disk) (D.Disk.seen other.disk) opened.source opened.read) }
    ensures continues { IfOk result (λ r. r.journal.at.newest ≡ r.read.commits) }
    ensures durable { IfOk result (λ r. r.journal.at.durable ≡ r.journal.at.newest) }
    ensures spare { IfOk result (λ r. IsSpareOf r.source r.spare) }
    ensures kept { IfOk result (KeepsRows D.Disk.seen D.Disk.may_leave) }
    ensures logs { (bytes others : List ℕ) → IfOk result (λ r. KeepsLogs columns D.Disk.seen D.Disk.may_leave bytes others r.source r) }
    ensures begins { IfOk result (BeginsLog columns D.Disk.seen D.Disk.may_leave) }
{
    let mut side = side;
    let mut other = other;
    side.look_for_nothing(alloc)?;
    other.look_for_nothing(alloc)?;
    let file = side.file();
    let journal = side.make(alloc, columns)?;
    Ok(OpenedLog {
        file,
        journal,
        read: RowsRead {
            rows: Rows::open(alloc),
            commits: 0,
        },
        spare: Spare::Free {
            disk: other.into_disk(),
            size: 0,
        },
        source: None,
    })
}

// The rows of a log that has them all.
fn whole_log<D: Disk + Drop>(
    alloc: Global,
    opened: OpenedSide<D>,
    other: D,
    source: Source,
) -> Result<OpenedLog<D>, FolderError>
    ensures rows { IfOk result (λ r. HasRows opened.log r.read) }
    ensures source { IfOk result (λ r. r.source ≡ Some source) }
    ensures journal { IfOk result (λ r. r.journal ≡ opened.journal) }
    ensures durable { opened.journal.at.durable ≡ opened.journal.at.newest
        → IfOk result (λ r. r.journal.at.durable ≡ r.journal.at.newest) }
    ensures spare { IfOk result (λ r. IsFalse (is_needed r.spare)) }
    ensures disk { IfOk result (λ r. disk_of r.spare ≡ other) }
    ensures kept { (IsTrue (D.Disk.is_clean opened.journal.disk) → Keeps opened.journal.at (D.Disk.seen opened.journal.disk)
        (D.Disk.may_leave opened.journal.disk) opened.log.header opened.log.entries.items)
        → IfOk result (λ r. AreClean D.Disk.is_clean r → KeepsRows D.Disk.seen D.Disk.may_leave r) }
    ensures logs { (IsTrue (D.Disk.is_clean opened.journal.disk) → Keeps opened.journal.at (D.Disk.seen opened.journal.disk)
        (D.Disk.may_leave opened.journal.disk) opened.log.header opened.log.entries.items)
        → (IsTrue (D.Disk.is_clean opened.journal.disk)
        → AllAreLogs opened.log.header opened.log.entries.items (D.Disk.may_leave opened.journal.disk))
        → IfOk result (λ r. AreClean D.Disk.is_clean r → KeepsLog D.Disk.seen D.Disk.may_leave opened.log r) }
{
    let OpenedSide { file, journal, log } = opened;
    let read = rows_of(alloc, &log)?;
    // (a log from the first commit on was never shortened)
    let size = if log.header.base == 0 {
        0
    } else {
        size_of(&read.rows)
    };
    Ok(OpenedLog {
        file,
        journal,
        read,
        spare: Spare::Free { disk: other, size },
        source: Some(source),
    })
}

// The rows of a log whose checkpoint isn't complete: those of the log before, and its commits.
fn later_log<D: Disk + Drop>(
    alloc: Global,
    newer: OpenedSide<D>,
    older: OpenedSide<D>,
) -> Result<OpenedLog<D>, FolderError>
    requires { Continues newer.log older.log }
    ensures rows { IfOk result (λ r. HasRowsOfBoth newer.log older.log r.read) }
    ensures source { IfOk result (λ r. r.source ≡ Some Source.Both) }
    ensures newest { IfOk result (λ r. r.journal.at.newest ≡ newer.journal.at.newest) }
    ensures durable { newer.journal.at.durable ≡ newer.journal.at.newest
        → IfOk result (λ r. r.journal.at.durable ≡ r.journal.at.newest) }
    ensures spare { IfOk result (λ r. IsTrue (is_needed r.spare)) }
    ensures clean { IfOk result (λ r. IsTrue (D.Disk.is_clean r.journal.disk) → IsTrue (D.Disk.is_clean newer.journal.disk)) }
    ensures disk { IfOk result (λ r. disk_of r.spare ≡ older.journal.disk) }
    ensures kept { (IsTrue (D.Disk.is_clean newer.journal.disk) → Keeps newer.journal.at (D.Disk.seen newer.journal.disk)
        (D.Disk.may_leave newer.journal.disk) newer.log.header newer.log.entries.items) → Mixes D.Disk.is_mixing
        → IfOk result (λ r. AreClean D.Disk.is_clean r → KeepsRows D.Disk.seen D.Disk.may_leave r) }
    ensures logs { (IsTrue (D.Disk.is_clean newer.journal.disk) → Keeps newer.journal.at (D.Disk.seen newer.journal.disk)
        (D.Disk.may_leave newer.journal.disk) newer.log.header newer.log.entries.items)
        → (IsTrue (D.Disk.is_clean older.journal.disk)
        → AllAreLogs older.log.header older.log.entries.items (D.Disk.may_leave older.journal.disk)) → Mixes D.Disk.is_mixing
        → IfOk result (λ r. AreClean D.Disk.is_clean r → KeepsBoth D.Disk.seen D.Disk.may_leave newer.log older.log r) }
{
    let read = rows_of_both(alloc, &newer.log, &older.log)?;
    let OpenedSide { file, journal, .. } = newer;
    let mut journal = journal;
    // (what was copied of rows before may have been made by commits that a crash has undone)
    if let Err(error) = journal.append_end(alloc) {
        return Err(FolderError::Journal { file, error });
    }
    let OpenedSide {
        journal: before,
        ..
    } = older;
    Ok(OpenedLog {
        file,
        journal,
        read,
        spare: Spare::Needed {
            disk: before.into_disk(),
        },
        source: Some(Source::Both),
    })
}

// Opens the current one of two logs.
fn open_both<D: Disk + Drop>(
    alloc: Global,
    newer: OpenedSide<D>,
    older: OpenedSide<D>,
) -> Result<OpenedLog<D>, FolderError>
    requires newer { IsTrue (D.Disk.is_clean newer.journal.disk) → Keeps newer.journal.at (D.Disk.seen newer.journal.disk)
        (D.Disk.may_leave newer.journal.disk) newer.log.header newer.log.entries.items }
    requires older { IsTrue (D.Disk.is_clean older.journal.disk) → Keeps older.journal.at (D.Disk.seen older.journal.disk)
        (D.Disk.may_leave older.journal.disk) older.log.header older.log.entries.items }
    requires newer_all { IsTrue (D.Disk.is_clean newer.journal.disk)
        → AllAreLogs newer.log.header newer.log.entries.items (D.Disk.may_leave newer.journal.disk) }
    requires older_all { IsTrue (D.Disk.is_clean older.journal.disk)
        → AllAreLogs older.log.header older.log.entries.items (D.Disk.may_leave older.journal.disk) }
    ensures rows { IfOk result (λ r. AreOfSource newer.log older.log r.source r.read) }
    ensures continues { newer.journal.at.newest ≡ last_number newer.log → older.journal.at.newest ≡ last_number older.log
        → IfOk result (λ r. r.journal.at.newest ≡ r.read.commits) }
    ensures durable { newer.journal.at.durable ≡ newer.journal.at.newest → older.journal.at.durable ≡ older.journal.at.newest
        → IfOk result (λ r. r.journal.at.durable ≡ r.journal.at.newest) }
    ensures spare { IfOk result (λ r. IsSpareOf r.source r.spare) }
    ensures clean { IfOk result (λ r. AreClean D.Disk.is_clean r
        → IsTrue (D.Disk.is_clean newer.journal.disk) × IsTrue (D.Disk.is_clean older.journal.disk)) }
    ensures kept { Mixes D.Disk.is_mixing
        → IfOk result (λ r. AreClean D.Disk.is_clean r → KeepsRows D.Disk.seen D.Disk.may_leave r) }
    ensures logs { Mixes D.Disk.is_mixing → IfOk result (λ r. AreClean D.Disk.is_clean r
        → KeepsSource D.Disk.seen D.Disk.may_leave newer.log older.log r.source r) }
    ensures some { IfOk result (λ r. IsSome r.source) }
{
    match decide(&newer.log, &older.log) {
        Source::Newer => {
            let OpenedSide { journal, .. } = older;
            whole_log(alloc, newer, journal.into_disk(), Source::Newer)
        }
        Source::Older => {
            let OpenedSide { journal, .. } = newer;
            whole_log(alloc, older, journal.into_disk(), Source::Older)
        }
        Source::Both => later_log(alloc, newer, older),
        Source::Neither => Err(newer.lacks_rows()),
    }
}

// Opens the current log of two files, of which the first has the newer one.
fn open_newer<D: Disk + Drop>(
    alloc: Global,
    newer: Side<D>,
    older: Side<D>,
    columns: u8,
) -> Result<OpenedLog<D>, FolderError>
    requires usable { IsTrue (D.Disk.is_usable newer.disk) }
    requires other { IsTrue (D.Disk.is_usable older.disk) }
    requires order { IsNoNewer older.header newer.header }
    requires header { IsTrue (D.Disk.is_clean newer.disk) → HeaderOf columns (D.Disk.seen newer.disk) newer.header }
    requires other_header { IsTrue (D.Disk.is_clean older.disk) → HeaderOf columns (D.Disk.seen older.disk) older.header }
    ensures rows { IfOk result (λ opened. AreClean D.Disk.is_clean opened
        → AreRows columns (D.Disk.seen newer.disk) (D.Disk.seen older.disk) opened.source opened.read) }
    ensures continues { IfOk result (λ opened. AreClean D.Disk.is_clean opened → opened.journal.at.newest ≡ opened.read.commits) }
    ensures kept { Mixes D.Disk.is_mixing
        → IfOk result (λ opened. AreClean D.Disk.is_clean opened → KeepsRows D.Disk.seen D.Disk.may_leave opened) }
    ensures logs { Mixes D.Disk.is_mixing → IfOk result (λ opened. AreClean D.Disk.is_clean opened → KeepsLogs columns
        D.Disk.seen D.Disk.may_leave (D.Disk.seen newer.disk) (D.Disk.seen older.disk) opened.source opened) }
    ensures durable { IfOk result (λ r. r.journal.at.durable ≡ r.journal.at.newest) }
    ensures spare { IfOk result (λ r. IsSpareOf r.source r.spare) }
    ensures begins { IfOk result (BeginsLog columns D.Disk.seen D.Disk.may_leave) }
{
    if !newer.has_log() {
        return make_log(alloc, newer, older, columns);
    }
    let opened = newer.read(alloc, columns)?;
    if opened.log.is_whole() {
        let mut older = older;
        older.look_for_later(alloc, &opened.journal.position())?;
        return whole_log(alloc, opened, older.into_disk(), Source::Newer);
    }
    if !older.has_log() {
        return Err(opened.lacks_rows());
    }
    let earlier = older.read(alloc, columns)?;
    open_both(alloc, opened, earlier)
}

/// Opens the current log of two files for an index with `columns` columns, or makes it if there is none. Reads each log that
/// is needed twice.
///
/// # Errors
///
/// Those of [`open_log`].
pub fn open_sides<D: Disk + Drop>(
    alloc: Global,
    even: Side<D>,
    odd: Side<D>,
    columns: u8,
) -> Result<OpenedLog<D>, FolderError>
    requires even { IsTrue (D.Disk.is_usable even.disk) }
    requires odd { IsTrue (D.Disk.is_usable odd.disk) }
    requires header { IsTrue (D.Disk.is_clean even.disk) → HeaderOf columns (D.Disk.seen even.disk) even.header }
    requires other_header { IsTrue (D.Disk.is_clean odd.disk) → HeaderOf columns (D.Disk.seen odd.disk) odd.header }
    ensures rows { IfOk result (λ opened. AreClean D.Disk.is_clean opened
        → AreRows columns (D.Disk.seen even.disk) (D.Disk.seen odd.disk) opened.source opened.read
        ⊎ AreRows columns (D.Disk.seen odd.disk) (D.Disk.seen even.disk) opened.source opened.read) }
    ensures continues { IfOk result (λ opened. AreClean D.Disk.is_clean opened → opened.journal.at.newest ≡ opened.read.commits) }
    ensures kept { Mixes D.Disk.is_mixing
        → IfOk result (λ opened. AreClean D.Disk.is_clean opened → KeepsRows D.Disk.seen D.Disk.may_leave opened) }
    ensures logs { Mixes D.Disk.is_mixing → IfOk result (λ opened. AreClean D.Disk.is_clean opened
        → IsOpened columns D.Disk.seen D.Disk.may_leave (D.Disk.seen even.disk) (D.Disk.seen odd.disk) opened
        ⊎ IsOpened columns D.Disk.seen D.Disk.may_leave (D.Disk.seen odd.disk) (D.Disk.seen even.disk) opened) }
    ensures durable { IfOk result (λ r. r.journal.at.durable ≡ r.journal.at.newest) }
    ensures spare { IfOk result (λ r. IsSpareOf r.source r.spare) }
    ensures begins { IfOk result (BeginsLog columns D.Disk.seen D.Disk.may_leave) }
{
    if odd.is_newer(&even) {
        open_newer(alloc, odd, even, columns)
    } else {
        open_newer(alloc, even, odd, columns)
    }
}

/// Opens the current log of a folder for an index with `columns` columns, or makes it if there is none. `even` is the disk of
/// the first file of the folder, `odd` that of the other one. Reads each log that is needed twice, and the header of the
/// other file.
///
/// If no read of the two disks has returned a wrong byte, the rows are exactly those that the logs of the files leave, of which
/// the one of the greater generation is the newer, and the next commit in the log is the one after the last that led to them.
/// The other file is needed if its rows are. The journal keeps the log that was read, of which no crash undoes an entry, so what
/// is appended follows its rows.
///
/// # Errors
///
/// If a file is no log of such an index, or a log of which synced commits are missing; if the rows before a log are missing;
/// if a disk fails; or out of memory. Then nothing was written but zeros over a torn frame at the end of a log.
pub fn open_log<D: Disk + Drop>(
    alloc: Global,
    even: D,
    odd: D,
    columns: u8,
) -> Result<OpenedLog<D>, FolderError>
    ensures rows { IfOk result (λ opened. AreClean D.Disk.is_clean opened
        → AreRows columns (D.Disk.seen even) (D.Disk.seen odd) opened.source opened.read
        ⊎ AreRows columns (D.Disk.seen odd) (D.Disk.seen even) opened.source opened.read) }
    ensures continues { IfOk result (λ opened. AreClean D.Disk.is_clean opened → opened.journal.at.newest ≡ opened.read.commits) }
    ensures kept { Mixes D.Disk.is_mixing
        → IfOk result (λ opened. AreClean D.Disk.is_clean opened → KeepsRows D.Disk.seen D.Disk.may_leave opened) }
    ensures logs { Mixes D.Disk.is_mixing → IfOk result (λ opened. AreClean D.Disk.is_clean opened
        → IsOpened columns D.Disk.seen D.Disk.may_leave (D.Disk.seen even) (D.Disk.seen odd) opened
        ⊎ IsOpened columns D.Disk.seen D.Disk.may_leave (D.Disk.seen odd) (D.Disk.seen even) opened) }
    ensures durable { IfOk result (λ r. r.journal.at.durable ≡ r.journal.at.newest) }
    ensures spare { IfOk result (λ r. IsSpareOf r.source r.spare) }
    ensures begins { IfOk result (BeginsLog columns D.Disk.seen D.Disk.may_leave) }
{
    let even = Side::new(alloc, LogFile::Even, even, columns)?;
    let odd = Side::new(alloc, LogFile::Odd, odd, columns)?;
    open_sides(alloc, even, odd, columns)
}
