//! An index that is opened, served and closed.

ghost use Rattle.std.specs.Prelude.{◌≡◌, ◌||◌};

use crate::command_line::{Settings, WITHOUT_END};
use crate::tokens::{TokenError, read_tokens};
use mt_folder::error::FolderError;
use mt_folder::files::{FileDisk, open_folder};
use mt_folder::opening::OpenedLog;
use mt_folder::reading::RowsRead;
use mt_folder_log::log::FolderLog;
use mt_host::address::Address;
use mt_host::durability::Syncing;
use mt_host::limits::Limits;
use mt_host::reporting::Reporter;
use mt_index::options::Options;
use mt_load::error::LoadError;
use mt_loop::logging::Log;
use mt_loop::serving::{Access, Ended, Plan, serve};
use mt_shared::map::SharedMap;
use mt_shared::pass::Pass;
use mt_shared::settling::Totals;
use mt_types::limits::{MAX_LOG_RETENTION, open_fault};
use mt_types::refusal::Refusal;
use std::alloc::Global;
use std::net::{Ipv4Addr, Net, SocketAddr};
use std::random::RandomSource;
use std::rt::Files;
use std::sync::Wait;
use std::thread::Threads;
use std::time::Clock;
use std::{io, thread};
use thiserror::Error;

// The most workers that there are if no number is given.
const WORKERS: u64 = 8;

/// Why there is nothing to serve, or no end of it.
#[derive(Debug, Error, Drop)]
pub enum ServeError {
    /// Listening, a thread, a wait or the first line failed.
    #[error("{0}")]
    Io(#[from] io::Error),
    /// The secrets couldn't be read.
    #[error("{0}")]
    Tokens(#[from] TokenError),
    /// `--listen` says no address.
    #[error("--listen takes addresses with ports, as 127.0.0.1:7070, and unix:PATH, with commas between")]
    Address,
    /// All could do all.
    #[error("an address that others reach wants --token-file, or --open")]
    Open,
    /// The rows of the folder can't be read.
    #[error("{0}")]
    Folder(#[from] FolderError),
    /// No index can have the rows of the folder.
    #[error("the data folder: {0}")]
    Load(LoadError),
    /// The last commits are not in the log.
    #[error("the last commits are not in the log")]
    Unlogged,
    /// The index wasn't opened, or its end didn't add up.
    #[error("{0}")]
    Index(#[from] Refusal),
}

// How many sessions there are to be, if they are counted: some for each worker that was asked for.
fn session_count(settings: Settings<'_>) -> Option<u64> {
    if settings.forever || settings.sessions >= WITHOUT_END {
        None
    } else {
        Some(settings.sessions.saturating_mul(settings.workers.max(1)))
    }
}

// How many workers there are: as many as processors if no number is given, and sessions aren't counted.
fn worker_count<R: Threads>(rt: &R, settings: Settings<'_>) -> u64 {
    if settings.workers > 0 {
        return settings.workers;
    }
    if session_count(settings).is_some() {
        return 1;
    }
    match thread::available_parallelism(rt) {
        Ok(count) => (count.get() as u64).min(WORKERS),
        Err(_) => 1,
    }
}

fn plan_of(settings: Settings<'_>) -> Plan {
    Plan {
        limits: Limits {
            connections: settings.connections,
            hello: settings.hello,
            idle: settings.idle,
            frame: settings.frame,
            write: settings.write,
            buffers: settings.buffers,
            memory: settings.memory,
        },
        sessions: session_count(settings),
        watches_input: settings.watches_input,
    }
}

// The addresses of a text, with commas between. `None` if one of them is none.
fn read_addresses(alloc: Global, texts: &str) -> io::Result<Option<Vec<Address<'_>>>> {
    let mut addresses = Vec::new(alloc);
    for text in texts.split(',') {
        let Some(address) = Address::parse(text) else {
            return Ok(None);
        };
        addresses.push(address)?;
    }
    Ok(Some(addresses))
}

// Where to listen.
fn addresses_of<'a>(alloc: Global, settings: Settings<'a>) -> Result<Vec<Address<'a>>, ServeError> {
    if let Some(texts) = settings.listen {
        return read_addresses(alloc, texts)?.ok_or(ServeError::Address);
    }
    let port = settings.port.min(65535) as u16;
    let address = Address::Tcp(SocketAddr::from((Ipv4Addr::LOCALHOST, port)));
    Ok(vec![in alloc; address].map_err(io::Error::from)?)
}

// Whether a server may listen: at an address that others reach only if it has secrets, or all are to do all.
fn may_listen(is_local: bool, has_secrets: bool, is_open: bool) -> bool
    ensures { result ≡ (is_local || has_secrets || is_open) }
{
    is_local || is_open || has_secrets
}

// The options of an index whose commits go to a log: its own log keeps those that are to be written.
fn logged_options(options: Options) -> Options
    ensures columns { result.columns ≡ options.columns }
{
    Options {
        log_retention: MAX_LOG_RETENTION,
        ..options
    }
}

/// What is read of texts of the command line.
#[derive(Clone, Copy)]
pub struct Manner<'a> {
    /// When the log is synced.
    pub syncing: Syncing,
    /// What writes the lines on standard error.
    pub reporter: &'a Reporter,
}

type FileLog = Log<FileDisk>;

// Opens the index: with the rows of the folder, and the log to which its commits go, or an empty one.
fn open_index<R: Threads + Wait>(
    host: &HostRuntime,
    rt: &R,
    settings: Settings<'_>,
    syncing: Syncing,
) -> Result<(SharedMap, Vec<Pass>, Option<FileLog>), ServeError> {
    // (a worker more is for long frames)
    let passes = worker_count(rt, settings).saturating_add(1);
    let alloc = host.alloc();
    let Some(folder) = settings.folder else {
        let (index, passes) = SharedMap::start(alloc, settings.options, passes)?;
        return Ok((index, passes, None));
    };
    let options = logged_options(settings.options);
    if let Some(refusal) = open_fault(
        options.columns,
        options.log_capacity,
        options.log_retention,
    ) {
        return Err(ServeError::Index(refusal));
    }
    let columns = options.columns as u8;
    let OpenedLog {
        journal,
        read,
        spare,
        ..
    } = open_folder(host, folder, columns)?;
    let least = settings.checkpoint as usize;
    let log = Log::new(
        alloc,
        FolderLog::new(alloc, columns, journal, spare, least),
        syncing,
    );
    let RowsRead { rows, commits } = read;
    match SharedMap::load(alloc, options, rows, commits, passes) {
        Ok((index, passes)) => Ok((index, passes, Some(log))),
        Err(LoadError::Refused(refusal)) => Err(ServeError::Index(refusal)),
        Err(error) => Err(ServeError::Load(error)),
    }
}

/// Opens an index, with the rows of a folder if there is one, and serves it as the settings ask. Returns how many events and
/// commits were made, with those by which the rows of the folder were made again.
///
/// # Errors
///
/// If the secrets couldn't be read; if the address is none, or all could do all from elsewhere; if listening, a thread,
/// a wait or the first line failed; if the index can't be opened with these options, or the rows of the folder not be read;
/// if the last commits could not be written; or if the counts at its end don't add up. (`host` opens the files of the folder.)
pub fn serve_all<R>(
    host: &HostRuntime,
    rt: &R,
    settings: Settings<'_>,
    manner: Manner<'_>,
) -> Result<Totals, ServeError>
where
    R: Net + Threads + Wait + Clock + Files + RandomSource + AllocGlobal + Sync + Eprint,
{
    let alloc = host.alloc();
    let tokens = match settings.token_file {
        Some(path) => read_tokens(rt, alloc, path)?,
        None => Vec::new(alloc),
    };
    let addresses = addresses_of(alloc, settings)?;
    let is_local = addresses.iter().all(|address| address.is_local());
    if !may_listen(is_local, !tokens.is_empty(), settings.is_open) {
        return Err(ServeError::Open);
    }
    let (index, passes, log) = open_index(host, rt, settings, manner.syncing)?;
    let access = Access {
        addresses: &addresses,
        tokens: &tokens,
    };
    let Ended { passes, is_logged } = serve(
        rt,
        alloc,
        &index,
        passes,
        access,
        plan_of(settings),
        log,
        manner.reporter,
    )?;
    let totals = index.close(passes)?;
    if is_logged {
        Ok(totals)
    } else {
        Err(ServeError::Unlogged)
    }
}
