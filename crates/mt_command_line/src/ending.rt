//! How a program begins and ends: its words, its status, and what it says on standard error.

ghost use Rattle.std.specs.Prelude.{◌≡◌, ◌≢◌, IfOk, IfErr, IsErr};
ghost use Rattle.std.specs.IoError.{error_kind};
ghost use Rattle.std.specs.Process.{exit_status};
ghost use Rattle.clap.specs.Words.{kind_of};

use clap::Error;
use clap::error::ErrorKind as FaultKind;
use std::fmt::Display;
use std::io::ErrorKind;
use std::process::ExitCode;
use std::rt::Env;
use std::{env, io};

/// How a run ends, and what there is to say of it on standard error.
#[derive(Drop)]
pub struct Ending<F> {
    pub status: u8,
    pub fault: Option<F>,
}

/// Returns the words of the command line. The first is the name of the program.
///
/// # Errors
///
/// `InvalidData` if a word is not text; `OutOfMemory`.
pub fn words(rt: &(impl Env + AllocGlobal)) -> io::Result<Vec<String>> {
    let mut words = Vec::new(rt.alloc());
    for word in env::args(rt)? {
        words.push(word)?;
    }
    Ok(words)
}

/// Prints the text that there is instead of a run: help on standard output, or what is wrong with the command line on
/// standard error. Returns the status.
///
/// # Errors
///
/// That of the print; `OutOfMemory` if there is no text because memory was refused.
pub fn status_without_run(rt: &(impl Print + Eprint), fault: Error) -> io::Result<u8>
    ensures memory { kind_of fault ≡ FaultKind.OutOfMemory → IsErr result }
    ensures help { kind_of fault ≡ FaultKind.DisplayHelp → IfOk result (λ status. status ≡ 0) }
    ensures mistake { kind_of fault ≢ FaultKind.DisplayHelp → kind_of fault ≢ FaultKind.DisplayVersion
        → IfOk result (λ status. status ≡ 2) }
{
    if fault.kind() == FaultKind::OutOfMemory {
        return Err(ErrorKind::OutOfMemory.into());
    }
    fault.print(rt)?;
    Ok(fault.exit_code() as u8)
}

/// Prints what there is to say of a run, after the name of the program, or the text that there is instead of a run.
/// Returns the status.
///
/// # Errors
///
/// That of the print; `OutOfMemory` if memory was refused before the run.
pub fn status_of_run<F: Display + Drop>(
    rt: &(impl Print + Eprint),
    name: &str,
    answered: Result<Ending<F>, Error>,
) -> io::Result<u8>
    ensures run { IfOk answered (λ ending. IfOk result (λ status. status ≡ ending.status)) }
    ensures memory { IfErr answered (λ fault. kind_of fault ≡ FaultKind.OutOfMemory → IsErr result) }
    ensures help { IfErr answered (λ fault. kind_of fault ≡ FaultKind.DisplayHelp
        → IfOk result (λ status. status ≡ 0)) }
    ensures mistake { IfErr answered (λ fault. kind_of fault ≢ FaultKind.DisplayHelp
        → kind_of fault ≢ FaultKind.DisplayVersion → IfOk result (λ status. status ≡ 2)) }
{
    match answered {
        Ok(ending) => {
            if let Some(fault) = &ending.fault {
                eprintln!(rt; "{name}: {fault}")?;
            }
            Ok(ending.status)
        }
        Err(fault) => status_without_run(rt, fault),
    }
}

// The status of a run that could not print, had no memory, or was given words that are no text.
fn status_of_error(error: &io::Error) -> u8
    ensures text { error_kind error.now ≡ ErrorKind.InvalidData → result ≡ 2 }
    ensures other { error_kind error.now ≢ ErrorKind.InvalidData → result ≡ 3 }
{
    if error.kind() == ErrorKind::InvalidData {
        2
    } else {
        3
    }
}

/// Returns the exit code of a program that ended so. Prints the error, if there is one, after the name of the program.
pub fn exit_code(rt: &impl Eprint, name: &str, ended: io::Result<u8>) -> ExitCode
    ensures ended { IfOk ended (λ status. exit_status result ≡ status) }
    ensures text { IfErr ended (λ error. error_kind error ≡ ErrorKind.InvalidData → exit_status result ≡ 2) }
    ensures error { IfErr ended (λ error. error_kind error ≢ ErrorKind.InvalidData → exit_status result ≡ 3) }
{
    match ended {
        Ok(status) => ExitCode::from(status),
        Err(error) => {
            let _ = eprintln!(rt; "{name}: {error}");
            ExitCode::from(status_of_error(&error))
        }
    }
}
