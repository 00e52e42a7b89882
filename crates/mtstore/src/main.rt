//! A map whose rows are in a file: `mtstore FILE` reads commands on standard input, a line each, and answers each with a
//! line. `put KEY VALUE` and `remove KEY` change a row, `get KEY` and `rows` read, and `sync` makes all changes durable, as
//! the end of the input does. `FILE-wal` has the log, and `FILE` the lock.
#![tactic(auto)]

use anyhow::{Result, anyhow, bail};
use mt_asked::borrowed::Set;
use mt_command_line::ending::words;
use mt_index::options::Options;
use mt_journal::error::JournalError;
use mt_store::error::StoreError;
use mt_store::store::Store;
use sqlite_disk::Disk;
use sqlite_std_file::{FileFrom, Unknown};
use std::ops::Bound;

// The text of a key or a value, as it is printed.
fn text_of(bytes: &[u8]) -> &str {
    match str::from_utf8(bytes) {
        Ok(text) => text,
        Err(_) => "?",
    }
}

fn print_row(rt: &impl Print, key: &str, value: Option<&[u8]>) -> Result<()> {
    match value {
        Some(value) => println!(rt; "{key} {}", text_of(value))?,
        None => println!(rt; "{key} has no row")?,
    }
    Ok(())
}

fn print_commit(rt: &impl Print, commit: Option<u64>) -> Result<()> {
    match commit {
        Some(commit) => println!(rt; "commit {commit}")?,
        None => println!(rt; "nothing to remove")?,
    }
    Ok(())
}

fn print_rows<D: Disk + Drop>(rt: &impl Print, store: &Store<D>) -> Result<()> {
    let mut rows = store.map().range((Bound::Unbounded, Bound::Unbounded))?;
    while let Some(row) = rows.next()? {
        print_row(rt, text_of(rows.key()), Some(row.columns.get_or_empty(0)))?;
    }
    Ok(())
}

// Does what a line says.
fn answer<D: Disk + Drop>(rt: &impl Print, store: &mut Store<D>, line: &str) -> Result<()> {
    let (command, rest) = line.split_once(' ').unwrap_or((line, ""));
    let (key, value) = rest.split_once(' ').unwrap_or((rest, ""));
    match command {
        "put" => print_commit(
            rt,
            Some(store.put(key.as_bytes(), &[Set::new(0, value.as_bytes())])?),
        ),
        "remove" => print_commit(rt, store.remove(key.as_bytes())?),
        "get" => {
            let row = store.map().get(key.as_bytes())?;
            print_row(rt, key, row.map(|row| row.columns.get_or_empty(0)))
        }
        "rows" => print_rows(rt, store),
        "sync" => {
            let durable = store.sync()?;
            println!(rt; "durable {durable}")?;
            Ok(())
        }
        _ => bail!("a line is put KEY VALUE, remove KEY, get KEY, rows or sync"),
    }
}

fn run<D: Disk + Drop>(
    rt: &(impl Input + Print + AllocGlobal),
    store: &mut Store<D>,
) -> Result<()> {
    println!(rt; "{} commits", store.map().commits())?;
    for line in rt.lines(rt.alloc()) {
        answer(rt, store, line?.as_str())?;
    }
    let durable = store.sync()?;
    println!(rt; "durable {durable}")?;
    Ok(())
}

// The file of a log, locked.
fn open_log(rt: &HostRuntime, file: &str) -> Result<FileFrom<Unknown>> {
    match sqlite_std_file::open(rt, file, Unknown) {
        Ok(files) => Ok(files.log),
        Err(error) => Err(anyhow!("{error}")),
    }
}

// Opens the store of a file, or makes it.
fn open_store(rt: &HostRuntime, file: &str) -> Result<Store<FileFrom<Unknown>>> {
    let options = Options::default();
    match Store::open(rt.alloc(), open_log(rt, file)?, options) {
        Ok(store) => return Ok(store),
        Err(StoreError::Journal(JournalError::NoLog)) => {}
        Err(error) => bail!("{error}"),
    }
    match Store::make(rt.alloc(), open_log(rt, file)?, options) {
        Ok(store) => Ok(store),
        Err(error) => bail!("{error}"),
    }
}

fn main(rt: HostRuntime) -> Result<()> {
    let words = words(&rt)?;
    let Some(file) = words.get(1) else {
        bail!("usage: mtstore FILE")
    };
    let mut store = open_store(&rt, file.as_str())?;
    run(&rt, &mut store)
}
