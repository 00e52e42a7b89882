//! Reads a server's data folder, and changes nothing in it: `mtfolder show FOLDER` says what its logs have, `mtfolder verify
//! FOLDER` whether a server opens it, and `mtfolder rows FOLDER` prints its rows. `mtfolder cut FOLDER --at COMMIT` cuts off what
//! can't be read, so that a server opens it.
#![tactic(auto)]

mod command_line;
mod copies;
mod cutting;
mod faults;
mod printing;
mod zeroing;

use crate::command_line::{Asked, Task, read_words};
use crate::copies::{FolderCopy, copy_folder};
use crate::cutting::{plan_cuts, plan_cuts_at};
use crate::faults::{CutError, own_faults, status_of, status_of_cut, status_of_no_cut};
use crate::printing::{print_cuts, print_log, print_plan, print_rows, print_source, row_count};
use crate::zeroing::cut_folder;
use mt_command_line::ending::{exit_code, status_without_run, words};
use mt_folder::error::{FolderError, LogFile};
use std::io;
use std::process::ExitCode;

// Says why there is nothing to print, and returns the status.
fn tell(rt: &impl Eprint, error: &FolderError) -> io::Result<u8> {
    eprintln!(rt; "mtfolder: {error}")?;
    Ok(status_of(error))
}

// Says what the logs of the folder have, and which of them a start reads.
fn show(rt: &HostRuntime, folder: &FolderCopy) -> io::Result<u8> {
    print_log(rt, LogFile::Even, &folder.even)?;
    print_log(rt, LogFile::Odd, &folder.odd)?;
    match folder.opened(rt.alloc()) {
        Ok(opened) => print_source(rt, &opened)?,
        Err(error) => println!(rt; "not opened: {error}")?,
    }
    Ok(0)
}

// Says whether a server opens the folder, or else each fault.
fn verify(rt: &HostRuntime, folder: &FolderCopy) -> io::Result<u8> {
    let error = match folder.opened(rt.alloc()) {
        Ok(opened) => {
            println!(rt; "ok {}", row_count(&opened.read))?;
            return Ok(0);
        }
        Err(error) => error,
    };
    let own = own_faults(rt.alloc(), folder)?;
    for fault in &own {
        println!(rt; "{fault}")?;
    }
    // (a fault of one log alone is the reason, if there is one)
    if own.is_empty() {
        println!(rt; "{error}")?;
    }
    say_plan(rt, folder, status_of(&error))
}

// Says what a cut would leave of a folder that a server doesn't open, if it helps. Returns the status, or that of memory that was
// refused.
fn say_plan(rt: &HostRuntime, folder: &FolderCopy, status: u8) -> io::Result<u8> {
    match plan_cuts(rt.alloc(), folder) {
        Ok(plan) => {
            print_plan(rt, &plan)?;
            Ok(status)
        }
        Err(why) => Ok(status.max(status_of_no_cut(&why))),
    }
}

// Prints the rows of the folder.
fn rows(rt: &HostRuntime, folder: &FolderCopy) -> io::Result<u8> {
    match folder.opened(rt.alloc()) {
        Ok(opened) => {
            print_rows(rt, &opened.read)?;
            Ok(0)
        }
        Err(error) => tell(rt, &error),
    }
}

// Says why nothing, or not all, was cut, and returns the status.
fn tell_cut(rt: &impl Eprint, error: &CutError) -> io::Result<u8> {
    eprintln!(rt; "mtfolder: {error}")?;
    Ok(status_of_cut(error))
}

// Cuts the logs of the folder, so that a server opens it with exactly the first `commit` commits.
fn cut(rt: &HostRuntime, name: &str, folder: &FolderCopy, commit: u64) -> io::Result<u8> {
    // (files that are missing are made only if something is cut)
    if let Err(why) = plan_cuts_at(rt.alloc(), folder, commit) {
        return tell_cut(rt, &CutError::Refused(why));
    }
    match cut_folder(rt, name, commit) {
        Ok(plan) => {
            print_cuts(rt, &plan)?;
            Ok(0)
        }
        Err(error) => tell_cut(rt, &error),
    }
}

// Does what the command line asks for, and returns the status.
fn answer(rt: &HostRuntime, asked: Asked<'_>) -> io::Result<u8> {
    let folder = match copy_folder(rt, asked.folder) {
        Ok(folder) => folder,
        Err(error) => return tell(rt, &error),
    };
    match asked.task {
        Task::Show => show(rt, &folder),
        Task::Verify => verify(rt, &folder),
        Task::Rows => rows(rt, &folder),
        Task::Cut { at } => cut(rt, asked.folder, &folder, at),
    }
}

fn run(rt: &HostRuntime) -> io::Result<u8> {
    let words = words(rt)?;
    match read_words(rt.alloc(), words.as_slice()) {
        Ok(Some(asked)) => answer(rt, asked),
        Ok(None) => {
            eprintln!(rt;
                "mtfolder: it takes show, verify or rows, and a folder, or cut, a folder and --at; --help says more"
            )?;
            Ok(2)
        }
        Err(fault) => status_without_run(rt, fault),
    }
}

fn main(rt: HostRuntime) -> ExitCode {
    exit_code(&rt, "mtfolder", run(&rt))
}
