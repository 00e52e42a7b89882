//! How a map is opened over a folder.

ghost use Rattle.std.specs.Prelude.{◌≡◌, ◌⊎◌, ℕ, List, [], IfOk, MatchOption, Err};
ghost use Rattle.mt_types.specs.Limits.{open_fault};
ghost use Rattle.mt_types.specs.declared.row.Change.{Change};
ghost use Rattle.mt_folder.specs.declared.reading.RowsRead.{RowsRead};
ghost use Rattle.mt_folder_laws.specs.Left.{HaveFirst};
ghost use Rattle.mt_load.specs.Loaded.{IsLoaded};
ghost use Rattle.mt_map_folder.specs.declared.error.OpenError.TheVariants.{Refused};
ghost use Rattle.mt_journal.specs.Recovery.{Mixes};
ghost use Rattle.mt_map_folder.specs.Changes.{KeepsChanges};
ghost use Rattle.mt_map_folder.specs.Read.{AreClean, IsReadFrom, KeepsRows};

use crate::error::OpenError;
use crate::log::MapLog;
use mt_folder::opening::{OpenedLog, open_log};
use mt_folder::reading::RowsRead;
use mt_folder_log::log::FolderLog;
use mt_index::options::Options;
use mt_map::map::Map;
use mt_types::limits::open_fault;
use sqlite_disk::Disk;
use std::alloc::Global;

/// A map, and the log to which its commits go.
#[derive(Drop)]
pub struct OpenedMap<D: Disk + Drop> {
    pub map: Map,
    pub log: MapLog<D>,
}

// For how many commits the map keeps what is to be written to the log.
const KEPT: u64 = 1000;

/// Opens a map with the rows of a folder, of which `even` and `odd` are the two files, and the log to which its commits are to
/// be written. If the folder has none, it is made, and the map is empty. A checkpoint is due when the log has `least` bytes
/// more than its rows took, and twice as many as they took; never if `least` is 0.
///
///     let files = mt_log_disk::files::open(b"fruit")?;
///     let OpenedMap { mut map, mut log } = open(alloc, files.even, files.odd, Options::default(), 67_108_864)?;
///
/// Costs a read of the logs, and a put for each row. From two empty files on, each call of the log keeps the changes that the map
/// makes (`begins`, [`MapLog`]); and so it does after a crash, which leaves the first of them (`again`).
///
/// # Errors
///
/// `Refused` for a limit that the options break: then nothing was read. `Folder` with the errors of [`open_log`], `Load` with
/// those of [`Map::load`].
pub fn open<D: Disk + Drop>(
    alloc: Global,
    even: D,
    odd: D,
    options: Options,
    least: usize,
) -> Result<OpenedMap<D>, OpenError>
    ensures loaded { IfOk result (λ opened. (read : RowsRead) × IsLoaded options.columns read.commits read.rows opened.map.machine
        × (AreClean D.Disk.is_clean opened.log → IsReadFrom options.columns (D.Disk.seen even) (D.Disk.seen odd) read
        × (opened.log.log.journal.at.newest ≡ read.commits)
        × (Mixes D.Disk.is_mixing → KeepsRows D.Disk.seen D.Disk.may_leave opened.log read.rows))) }
    ensures begins { D.Disk.seen even ≡ [] → D.Disk.seen odd ≡ [] → IfOk result (λ opened. AreClean D.Disk.is_clean opened.log
        → (changes : List Change) → KeepsChanges D.Disk.seen D.Disk.may_leave changes opened.map.machine opened.log) }

    // If the files have the first n of some changes, as a crash leaves them, the map has the rows after these, and the log keeps
    // the changes that follow them.
    ensures again { (changes : List Change) (n : ℕ) → HaveFirst options.columns changes n (D.Disk.seen even) (D.Disk.seen odd)
        ⊎ HaveFirst options.columns changes n (D.Disk.seen odd) (D.Disk.seen even) → Mixes D.Disk.is_mixing
        → IfOk result (λ opened. AreClean D.Disk.is_clean opened.log → (opened.log.log.journal.at.newest ≡ n)
        × KeepsChanges D.Disk.seen D.Disk.may_leave changes opened.map.machine opened.log) }
    ensures durable { IfOk result (λ opened. opened.log.log.journal.at.durable ≡ opened.log.log.journal.at.newest) }
    ensures least { IfOk result (λ opened. opened.log.log.least ≡ least) }
    ensures tidies { IfOk result (λ opened. opened.map.tidies ≡ options.tidies) }
    ensures fault { MatchOption (open_fault options.columns options.log_capacity options.log_retention) (Unit {0})
        (λ refusal. result ≡ Err (Refused refusal)) }
{
    if let Some(refusal) = open_fault(
        options.columns,
        options.log_capacity,
        options.log_retention,
    ) {
        return Err(OpenError::Refused(refusal));
    }
    // (an empty map has the number of columns as the logs have it)
    let columns = match Map::open(alloc, options) {
        Ok(map) => map.columns(),
        Err(refusal) => return Err(OpenError::Refused(refusal)),
    };
    let OpenedLog {
        journal,
        read,
        spare,
        ..
    } = open_log(alloc, even, odd, columns)?;
    let RowsRead { rows, commits } = read;
    let kept = Options {
        log_retention: options.log_retention.max(KEPT),
        ..options
    };
    let map = Map::load(alloc, kept, rows, commits)?;
    Ok(OpenedMap {
        map,
        log: MapLog {
            alloc,
            log: FolderLog::new(alloc, columns, journal, spare, least),
        },
    })
}
