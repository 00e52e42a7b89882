//! The functions that C calls for an index over a folder. bindings/c/folder.c calls them.

ghost use Rattle.std.specs.Prelude.{◌≡◌, None as NoneOf, IfOk, IsTrue, IsFalse, true};
ghost use Rattle.rowanspan_c.specs.Logs.{close_status, AdvancesLog, CountsLog, HasRows, OpensFolder, SyncsLog, WritesLog};

use crate::file_log::FileLog;
use crate::handle::Handle;
use crate::log_calls::{advance_file, sync_file, write_file};
use crate::log_handle::LogHandle;
use crate::log_telling::{open_status, tell_why};
use crate::status::{CLOSED, DONE, HELD};
use mt_folder::error::FolderError;
use mt_index::options::Options;
use mt_log_disk::files::{OpenError as FilesError, open as open_files};
use mt_map::map::Map;
use mt_map_folder::error::OpenError;
use mt_map_folder::opening::{OpenedMap, open};
use mt_types::limits::open_fault;
use mt_types::refusal::Refusal;
use std::alloc::Global;

// An index and its log, each in a box.
struct Boxed {
    index: Box<Map>,
    log: Box<FileLog>,
}

// Opens the files of a folder, and the index with their rows.
fn opened(alloc: Global, folder: &[u8], options: Options, least: usize) -> Result<Boxed, OpenError>
    ensures { IfOk result (λ opened. HasRows options opened.index.value opened.log.value) }
{
    // (limits are tested before a file is made)
    if let Some(refusal) = open_fault(
        options.columns,
        options.log_capacity,
        options.log_retention,
    ) {
        return Err(OpenError::Refused(refusal));
    }
    let files = match open_files(folder) {
        Ok(files) => files,
        Err(FilesError::Busy) => return Err(OpenError::Folder(FolderError::Busy)),
        Err(FilesError::Io(error)) => return Err(OpenError::Folder(FolderError::Io(error))),
    };
    let OpenedMap { map, log } = open(alloc, files.even, files.odd, options, least)?;
    let refused = OpenError::Refused(Refusal::NoMemory);
    let index = match Box::new(alloc, map) {
        Ok(index) => index,
        Err(_map) => return Err(refused),
    };
    match Box::new(alloc, FileLog { log }) {
        Ok(log) => Ok(Boxed { index, log }),
        Err(_log) => Err(refused),
    }
}

// Whether a handle holds no index.
fn is_index_free(handle: &mut Handle, alloc: Global) -> bool
    ensures same { handle.new.held ≡ handle.old.held }
    ensures free { IsTrue result → handle.old.held ≡ NoneOf }
    ensures held { IsFalse result → handle.old.held ≡ NoneOf → ⊥ }
{
    match handle.take(alloc) {
        Some(index) => {
            handle.fill(index);
            false
        }
        None => true,
    }
}

// Whether a handle holds no log.
fn is_log_free(log: &mut LogHandle, alloc: Global) -> bool
    ensures same { log.new.held ≡ log.old.held }
    ensures free { IsTrue result → log.old.held ≡ NoneOf }
    ensures held { IsFalse result → log.old.held ≡ NoneOf → ⊥ }
{
    match log.take(alloc) {
        Some(kept) => {
            log.fill(kept);
            false
        }
        None => true,
    }
}

/// Opens an index with the rows of a folder, and the log to which its commits go. If it fails, `message` has why as text, of
/// `told` bytes.
#[unsafe(no_mangle)]
pub extern "C" fn rowanspan_raw_open_folder(
    handle: &mut Handle,
    log: &mut LogHandle,
    alloc: Global,
    folder: &[u8],
    columns: u64,
    log_capacity: u64,
    log_retention: u64,
    checkpoint: u64,
    message: &mut [u8],
    told: &mut u64,
) -> u16
    ensures { OpensFolder handle.old.held log.old.held
        (record { columns = columns; log_capacity = log_capacity; log_retention = log_retention; tidies = true })
        handle.new.held log.new.held result }
{
    *told = 0;
    if !is_index_free(handle, alloc) {
        return HELD;
    }
    if !is_log_free(log, alloc) {
        return HELD;
    }
    let options = Options {
        columns,
        log_capacity,
        log_retention,
        tidies: true,
    };
    match opened(alloc, folder, options, checkpoint as usize) {
        Ok(boxed) => {
            let Boxed { index, log: kept } = boxed;
            handle.fill(index);
            log.fill(kept);
            DONE
        }
        Err(error) => {
            *told = tell_why(alloc, &error, message) as u64;
            open_status(&error)
        }
    }
}

/// Ends a log. It is not synced by that.
#[unsafe(no_mangle)]
pub extern "C" fn rowanspan_raw_log_close(log: &mut LogHandle, alloc: Global) -> u16
    ensures emptied { log.new.held ≡ NoneOf }
    ensures told { result ≡ close_status log.old.held }
{
    match log.take(alloc) {
        Some(_) => DONE,
        None => CLOSED,
    }
}

/// Reports the number of the last commit that no crash undoes.
#[unsafe(no_mangle)]
pub extern "C" fn rowanspan_raw_log_durable(
    log: &mut LogHandle,
    alloc: Global,
    told: &mut u64,
) -> u16
    ensures number { CountsLog log.old.held (λ s. s.log.log.journal.at.durable) result told.new }
    ensures kept { log.new.held ≡ log.old.held }
{
    let Some(kept) = log.take(alloc) else {
        *told = 0;
        return CLOSED;
    };
    *told = kept.log.durable();
    log.fill(kept);
    DONE
}

/// Makes all that was written to the log durable, and reports the number of its last commit.
#[unsafe(no_mangle)]
pub extern "C" fn rowanspan_raw_log_sync(log: &mut LogHandle, alloc: Global, told: &mut u64) -> u16
    ensures { SyncsLog log.old.held log.new.held result told.new }
{
    let Some(mut kept) = log.take(alloc) else {
        *told = 0;
        return CLOSED;
    };
    let status = sync_file(&mut kept, told);
    log.fill(kept);
    status
}

/// Writes the next commits of the index that its log lacks, at most a thousand. Reports how many commits the log lacks still.
#[unsafe(no_mangle)]
pub extern "C" fn rowanspan_raw_log_commits(
    handle: &mut Handle,
    log: &mut LogHandle,
    alloc: Global,
    told: &mut u64,
) -> u16
    ensures writes { WritesLog handle.old.held log.old.held log.new.held result told.new }
    ensures kept { handle.new.held ≡ handle.old.held }
{
    *told = 0;
    let Some(index) = handle.take(alloc) else {
        return CLOSED;
    };
    let Some(mut kept) = log.take(alloc) else {
        handle.fill(index);
        return CLOSED;
    };
    let status = write_file(&mut kept, &index, told);
    handle.fill(index);
    log.fill(kept);
    status
}

/// Makes a round of a checkpoint if one is due, or if `begins` is true. Reports 1 if it has to be continued.
#[unsafe(no_mangle)]
pub extern "C" fn rowanspan_raw_log_checkpoint(
    handle: &mut Handle,
    log: &mut LogHandle,
    alloc: Global,
    begins: bool,
    told: &mut u64,
) -> u16
    ensures advances { AdvancesLog handle.old.held begins log.old.held log.new.held result told.new }
    ensures kept { handle.new.held ≡ handle.old.held }
{
    *told = 0;
    let Some(index) = handle.take(alloc) else {
        return CLOSED;
    };
    let Some(mut kept) = log.take(alloc) else {
        handle.fill(index);
        return CLOSED;
    };
    let status = advance_file(&mut kept, &index, begins, told);
    handle.fill(index);
    log.fill(kept);
    status
}
