//! What is printed of logs and rows.

use crate::copies::header_in;
use crate::cutting::{Cut, Plan};
use mt_folder::error::LogFile;
use mt_folder::opening::OpenedLog;
use mt_folder::reading::RowsRead;
use mt_folder::source::Source;
use mt_frame::entry::{Entry, LogHeader};
use mt_journal::recovery::{Recovered, read_log};
use mt_replay::redoing::is_sealed;
use mt_types::key::Key;
use mt_types::row::Row;
use sqlite_disk::Memory;
use std::alloc::{AllocError, Global};
use std::{fmt, io};

/// How many rows there are, and how many commits led to them, as a text.
#[derive(Clone, Copy, Debug, PartialEq, Eq)]
pub struct RowCount {
    rows: usize,
    commits: u64,
}

impl fmt::Display for RowCount {
    fn fmt<W: fmt::Write>(&self, f: &mut fmt::Formatter<W>) -> fmt::Result {
        write!(f, "rows {} commits {}", self.rows, self.commits)
    }
}

/// Returns how many rows there are, and how many commits led to them.
pub fn row_count(read: &RowsRead) -> RowCount {
    RowCount {
        rows: read.rows.len(),
        commits: read.commits,
    }
}

// The number of the last commit that a log says is durable.
fn durable_number(header: &LogHeader, entries: &[Entry]) -> u64 {
    let mut durable = header.base;
    for entry in entries {
        if let Entry::Commits(commits) = entry {
            durable = durable.max(commits.durable);
        }
    }
    durable
}

// The words that say how a log ends.
fn state_of(entries: &[Entry]) -> &'static str {
    let is_closed = matches!(entries.last(), Some(Entry::Closed(_)));
    match (is_sealed(entries), is_closed) {
        (true, true) => " sealed closed",
        (true, false) => " sealed",
        (false, true) => " closed",
        (false, false) => "",
    }
}

fn print_entries(rt: &impl Print, file: LogFile, read: &Recovered) -> io::Result<()> {
    let Recovered {
        header,
        entries,
        at,
    } = read;
    let commits = at.newest.saturating_sub(header.base);
    println!(rt;
        "{file} commits {commits} last {} durable {} bytes {}{}",
        at.newest,
        durable_number(header, entries),
        at.end,
        state_of(entries)
    )
}

/// Prints what a log has, or why it can't be read.
pub fn print_log(rt: &HostRuntime, file: LogFile, bytes: &[u8]) -> io::Result<()> {
    let header = match header_in(rt.alloc(), bytes) {
        Ok(Some(header)) => header,
        Ok(None) => return println!(rt; "{file} no log"),
        Err(error) => return println!(rt; "{file} {error}"),
    };
    let LogHeader {
        columns,
        generation,
        base,
        run,
    } = header;
    println!(rt; "{file} generation {generation} base {base} columns {columns} run {run}")?;
    match read_log(rt.alloc(), bytes, columns) {
        Ok(read) => print_entries(rt, file, &read),
        Err(error) => println!(rt; "{file} {error}"),
    }
}

/// Prints which logs a start reads, and how many rows it finds.
pub fn print_source(rt: &impl Print, opened: &OpenedLog<Memory>) -> io::Result<()> {
    let file = opened.file;
    match opened.source {
        Some(Source::Both) => println!(rt; "reads {} {file}", file.other())?,
        Some(_) => println!(rt; "reads {file}")?,
        None => println!(rt; "reads no log")?,
    }
    println!(rt; "{}", row_count(&opened.read))
}

fn print_cut(rt: &impl Print, file: LogFile, cut: Option<Cut>) -> io::Result<()> {
    match cut {
        Some(Cut { from, gone }) => println!(rt; "{file} cut from {from} gone {gone}"),
        None => Ok(()),
    }
}

/// Prints what was cut off each file, how many rows are left, and how many commits led to them.
pub fn print_cuts(rt: &impl Print, plan: &Plan) -> io::Result<()> {
    print_cut(rt, LogFile::Even, plan.cuts.even)?;
    print_cut(rt, LogFile::Odd, plan.cuts.odd)?;
    println!(rt; "left {}", row_count(&plan.read))
}

/// Prints what a cut would leave.
pub fn print_plan(rt: &impl Print, plan: &Plan) -> io::Result<()> {
    println!(rt;
        "cut --at {} leaves {}",
        plan.read.commits,
        row_count(&plan.read)
    )
}

// Bytes as hex; `-` for none.
fn push_bytes(alloc: Global, text: &mut String, bytes: &[u8]) -> Result<(), AllocError> {
    if bytes.is_empty() {
        return text.push_str("-");
    }
    let digits = hex::encode(alloc, bytes)?;
    text.push_str(digits.as_str())
}

// The line of a row.
fn line_of(alloc: Global, key: &Key, row: &Row) -> Result<String, AllocError> {
    let mut line = String::new(alloc);
    push_bytes(alloc, &mut line, key.as_slice())?;
    write!(line, ":{}:", row.version)?;
    for number in 0..row.columns.len() {
        if number > 0 {
            line.push_str(",")?;
        }
        push_bytes(alloc, &mut line, row.columns.get_or_empty(number))?;
    }
    Ok(line)
}

/// Prints how many rows there are, and each of them, in the order of their keys.
pub fn print_rows(rt: &HostRuntime, read: &RowsRead) -> io::Result<()> {
    println!(rt; "{}", row_count(read))?;
    for (key, row) in read.rows.iter() {
        rt.println(line_of(rt.alloc(), key, row)?)?;
    }
    Ok(())
}
