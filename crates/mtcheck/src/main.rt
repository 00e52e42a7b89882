//! Audits a log and its receipts: lines on standard input, the verdict on standard output.
#![tactic(auto)]

ghost use Rattle.std.specs.Prelude.{◌≡◌, map, string_bytes, IfOk};
ghost use Rattle.clap.specs.Words.{app_of};
ghost use Rattle.mt_streams.specs.Sinks.{sink_writer};
ghost use Rattle.mt_script.specs.Source.{source_rest, source_unread};
ghost use Rattle.mtcheck.specs.CommandLine.{mtcheck_app, IsSaid, status_of, Answered};

use clap::{Command, Error};
use mt_audit::audit::audit;
use mt_command_line::ending::{Ending, exit_code, status_of_run, words};
use mt_command_line::opening::{columns_option, small_columns};
use mt_script::fault::ScriptFault;
use mt_script::source::Source;
use mt_streams::sink::Sink;
use std::alloc::{AllocError, Global};
use std::io;
use std::io::{Read, Write};
use std::process::ExitCode;

const ABOUT: &str = "Audits the log of an index and the receipts of its calls";

const LINES: &str = "\
Standard input has a line for each commit, from the first on, and after them a line for each receipt:
  delta N KEY BEFORE AFTER         commit N changed the row of KEY: as `feed` of mtdrive prints it. A row is
                                   VERSION:VALUES, VALUES joined by commas, or `none`
  receipt FROM TO REQUEST => ANSWER   a call that began at FROM commits and ended at TO was answered so
A REQUEST is `get KEY COLS`, `put KEY SETS`, `putif KEY VERSION SETS`, `remove KEY` or `range START LIMIT COLS`; an
ANSWER is what mtdrive prints after `done FROM TO`. A page of a view is `view SPEC FLOOR START LIMIT` with
`view AT COUNT SUMS K ROWS`. A refused call has no receipt.
Keys and columns are hex, `-` is empty; COLS is `all` or numbers joined by commas, SETS is `-` or COL=BYTES
joined by commas; a SPEC is `range LO HI TEST`, in which HI is a key or `none`, or `prefix KEY TEST`; a TEST is
`any`, `equals COL BYTES` or `atleast COL NUMBER`.

One line is printed:
  ok D R               each of the R receipts is right by the D commits, and the log fits itself
  fault INDEX RULE     the first fault, of the delta (rules 1, 2) or receipt of this place, counted from 1:
                       1 a commit's number, 2 its rows, 3 FROM or TO, 4 a get, 5 a put or remove, 6 a commit that
                       an earlier receipt claimed, 7 a range, 8 a page
  bad line N           the first line that doesn't read, or breaks a limit

The status is 0 for ok; 1 for a fault; 2 for a bad line or a bad command line; 3 if reading or writing failed, or memory
was refused.";

fn command<'a>(alloc: Global) -> Result<Command<'a>, AllocError>
    ensures { IfOk result (λ command. app_of command ≡ mtcheck_app) }
{
    Command::new(alloc, "mtcheck")
        .about(ABOUT)
        .after_help(LINES)
        .arg(columns_option(alloc))
}

// What the command line says, or the text to print instead of a run.
fn columns_given(alloc: Global, words: &[String]) -> Result<u8, Error>
    ensures { IfOk result (λ columns. IsSaid (map string_bytes words.now) columns) }
{
    let matches = command(alloc)?.try_get_matches_from(words)?;
    Ok(small_columns(&matches))
}

// How the program ends.
fn status_of(audited: &Result<u8, ScriptFault>) -> u8
    ensures { result ≡ status_of audited.now }
{
    match audited {
        Ok(status) => *status,
        Err(_) => 3,
    }
}

// Audits the lines of the source as the words of the command line ask.
fn answer<R: Read, W: Write>(
    alloc: Global,
    words: &[String],
    reader: &mut Source<R>,
    writer: &mut Sink<W>,
) -> Result<Ending<ScriptFault>, Error>
    ensures { IfOk result (λ ending. Answered (map string_bytes words.now) ending (source_rest R.remaining reader.old)
        (source_unread R.remaining reader.new) (W.contents (sink_writer writer.old)) (W.contents (sink_writer writer.new))) }
{
    let columns = columns_given(alloc, words)?;
    let audited = audit(alloc, columns, reader, writer);
    Ok(Ending {
        status: status_of(&audited),
        fault: audited.err(),
    })
}

fn run(rt: &HostRuntime) -> io::Result<u8> {
    let words = words(rt)?;
    let mut reader = Source::new(rt.alloc(), rt.reader())?;
    let mut writer = Sink::new(io::writer(rt));
    let answered = answer(rt.alloc(), words.as_slice(), &mut reader, &mut writer);
    status_of_run(rt, "mtcheck", answered)
}

fn main(rt: HostRuntime) -> ExitCode {
    exit_code(&rt, "mtcheck", run(&rt))
}
