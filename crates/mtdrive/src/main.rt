//! Answers a script of the index: lines of events on standard input, a line of text for each on standard output.
#![tactic(auto)]

ghost use Rattle.std.specs.Prelude.{◌≡◌, map, string_bytes, IfOk};
ghost use Rattle.clap.specs.Words.{app_of};
ghost use Rattle.mt_streams.specs.Sinks.{sink_writer};
ghost use Rattle.mt_script.specs.Source.{source_rest, source_unread};
ghost use Rattle.mtdrive.specs.CommandLine.{mtdrive_app, AreFound, AreSaid, status_of, Answered};

use clap::{ArgMatches, Command, Error};
use mt_command_line::ending::{Ending, exit_code, status_of_run, words};
use mt_command_line::opening::{columns, index_options, log_capacity, log_retention};
use mt_index::options::Options;
use mt_script::fault::ScriptFault;
use mt_script::script::script;
use mt_script::source::Source;
use mt_streams::sink::Sink;
use std::alloc::{AllocError, Global};
use std::io;
use std::io::{Read, Write};
use std::process::ExitCode;

const ABOUT: &str = "Answers a script of events on an empty index, line by line";

const LINES: &str = "\
Each line of standard input is one of
  begin PASS REQUEST   begins a call: prints `call N` or a refusal
  step CALL            one step of it: `moved`, `again`, `commit N`, `done FROM TO ANSWER` or a refusal
  finish CALL          steps until one is neither moved nor a commit, at most 1,000,000; prints the last
  alone REQUEST        a call from its begin to its end: `done ..` or a refusal; `busy` if others are open
  apply VIEW           advances a view by one commit: `applied N`, `current` or a refusal
  view VIEW FLOOR START LIMIT   reads a view that is at FLOOR or later: `view AT COUNT SUMS K ROWS` or a refusal
  drop VIEW            ends a view: `dropped` or a refusal
  advance, collect     the next epoch: `epoch N`; frees retired nodes: `freed N`
  len                  how many rows there are: `len N`, also while calls are open
  feed FROM LIMIT      the commits after FROM, at most LIMIT: a line `delta N KEY BEFORE AFTER` for each, or a refusal
  gets KEYS COLS, back END LIMIT COLS, count START END MOST   the rows of keys joined by commas: `found N ROWS`; the last rows
                       before END: `rows N ROWS`; how many rows are from START on and before END, up to MOST: `count N`; a
                       refusal, or `busy` if a call is open
A REQUEST is `get KEY COLS`, `put KEY SETS`, `putif KEY VERSION SETS`, `remove KEY`, `range START LIMIT COLS`,
`tidy KEY` or `build SPEC`. A `putif` puts only if the row has this version, or, for VERSION 0, if there is none;
otherwise it is refused, by `refused 16 N` if the row has version N. Keys and columns are hex, `-` is empty; COLS is
`all` or numbers joined by commas, SETS is `-` or COL=BYTES joined by commas. A SPEC is `range LO HI TEST`, in which
HI, as an END, is a key or `none`, or `prefix KEY TEST`; a TEST is `any`, `equals COL BYTES` or `atleast COL NUMBER`. Other lines
print `bad line`.

The status is 0; 1 if a line was bad; 2 for a bad command line; 3 if reading or writing failed, or memory was refused.";

fn command<'a>(alloc: Global) -> Result<Command<'a>, AllocError>
    ensures { IfOk result (λ command. app_of command ≡ mtdrive_app) }
{
    let named = Command::new(alloc, "mtdrive")
        .about(ABOUT)
        .after_help(LINES);
    index_options(named, alloc)
}

fn options_of(matches: &ArgMatches<'_>) -> Options
    ensures { AreFound matches.now result }
{
    Options {
        columns: columns(matches),
        log_capacity: log_capacity(matches),
        log_retention: log_retention(matches),
        tidies: true,
    }
}

// How the program ends.
fn status_of(played: &Result<u64, ScriptFault>) -> u8
    ensures { result ≡ status_of played.now }
{
    match played {
        Ok(0) => 0,
        Ok(_) => 1,
        Err(ScriptFault::Start(_)) => 2,
        Err(_) => 3,
    }
}

// What the command line says, or the text to print instead of a run.
fn options_given(alloc: Global, words: &[String]) -> Result<Options, Error>
    ensures { IfOk result (λ options. AreSaid (map string_bytes words.now) options) }
{
    let matches = command(alloc)?.try_get_matches_from(words)?;
    Ok(options_of(&matches))
}

// Answers the script of the source as the words of the command line ask.
fn answer<R: Read, W: Write>(
    alloc: Global,
    words: &[String],
    reader: &mut Source<R>,
    writer: &mut Sink<W>,
) -> Result<Ending<ScriptFault>, Error>
    ensures { IfOk result (λ ending. Answered (map string_bytes words.now) ending (source_rest R.remaining reader.old)
        (source_unread R.remaining reader.new) (W.contents (sink_writer writer.old)) (W.contents (sink_writer writer.new))) }
{
    let options = options_given(alloc, words)?;
    let played = script(alloc, options, reader, writer);
    Ok(Ending {
        status: status_of(&played),
        fault: played.err(),
    })
}

fn run(rt: &HostRuntime) -> io::Result<u8> {
    let words = words(rt)?;
    let mut reader = Source::new(rt.alloc(), rt.reader())?;
    let mut writer = Sink::new(io::writer(rt));
    let answered = answer(rt.alloc(), words.as_slice(), &mut reader, &mut writer);
    status_of_run(rt, "mtdrive", answered)
}

fn main(rt: HostRuntime) -> ExitCode {
    exit_code(&rt, "mtdrive", run(&rt))
}
