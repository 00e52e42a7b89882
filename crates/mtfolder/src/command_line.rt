//! What the command line says.

ghost use Rattle.std.specs.Prelude.{◌≡◌, ◌^◌, ◌-◌, false, map, string_bytes, codes, IfOk, IfSome};
ghost use Rattle.clap.specs.Words.{app_of, found_of, one_text, rule_of};
ghost use Rattle.mt_command_line.specs.Numbers.{number_rule};
ghost use Rattle.mtfolder.specs.CommandLine.{mtfolder_app, word_rule, IsCommit, IsFound, IsSaid, IsTask};

use clap::{Arg, ArgMatches, Command, Error};
use mt_command_line::numbers::number_option;
use std::alloc::{AllocError, Global};

const ABOUT: &str =
    "Reads the folder of a server's rows, and changes nothing in it, or cuts off what can't be read";

const MORE: &str = "\
The folder is one of `mtserve --data FOLDER`. No server may have it: both files are locked while they are read. What is said
is what a server finds that starts over a copy of the folder.

  show     a line for the header of each log, and one for what it has: how many commits, the numbers of the last one and of
           the last one that the log says is durable, how many bytes, and whether it is sealed and closed. Then which logs
           a start reads, and how many rows and commits it finds
  verify   `ok`, and how many rows and commits there are; or a line for each fault, with the file and the byte. If a cut
           helps, the last line is `cut --at COMMIT leaves`, and how many rows and commits a server finds after it
  rows     how many rows and commits there are, and then a line for each row, KEY:VERSION:VALUES, in the order of the keys.
           Keys and values are hex, `-` is empty, and commas are between values
  cut      makes a folder that isn't opened, because a log is damaged or durable commits are missing, one that a server opens.
           It sets to zero what follows the last frame that can be read, and all of a log whose commits come after that gap.
           The rows after the first COMMIT commits are left, and COMMIT must be the number that verify prints. Later commits
           are lost: copy the folder first. A line for each file that was cut has the byte from which on it is zero, and how
           many bytes that weren't zero are gone; the last line has how many rows and commits are left. Nothing is changed
           if COMMIT is another number, a server opens the folder, or no cut helps

The status is 0; 1 if a server would not open the folder (of verify and rows), or if no cut helps or is needed (of cut); 2 for
a bad command line; 3 if the folder can't be read or written, a server has it, printing failed, or memory was refused; 4 if
COMMIT is another number than that of the last commit that a cut leaves.";

/// What is to be done.
#[derive(Clone, Copy, Debug, PartialEq, Eq)]
pub enum Task {
    /// Say what the logs have.
    Show,
    /// Say whether a server opens the folder.
    Verify,
    /// Print the rows.
    Rows,
    /// Cut the logs, so that the first `at` commits are left.
    Cut { at: u64 },
}

impl Task {
    // The task that has this name, and this number if it takes one.
    fn named(name: &str, at: Option<u64>) -> Option<Task>
        ensures { IfSome result (IsTask name.now at) }
    {
        match (name, at) {
            ("show", None) => Some(Task::Show),
            ("verify", None) => Some(Task::Verify),
            ("rows", None) => Some(Task::Rows),
            ("cut", Some(at)) => Some(Task::Cut { at }),
            _ => None,
        }
    }
}

/// What the command line asks for.
#[derive(Clone, Copy, Debug)]
pub struct Asked<'a> {
    pub task: Task,
    pub folder: &'a str,
}

// A word that has to be there.
fn word<'a>(alloc: Global, name: &'a str, value: &'a str, help: &'a str) -> Arg<'a>
    ensures rule { rule_of result ≡ word_rule name.entry.now }
    ensures local { result.global ≡ false }
{
    Arg::new(alloc, name)
        .required(true)
        .value_name(value)
        .help(help)
}

// The number of the last commit that a cut is to leave.
fn commit_option<'a>(alloc: Global) -> Arg<'a>
    ensures rule { rule_of result ≡ number_rule (codes "at") 0 (2 ^ 64 - 1) }
    ensures local { result.global ≡ false }
{
    let help = "For cut: the number of the last commit that is to be left, as verify says it";
    number_option(alloc, "at", 0, u64::MAX, help).value_name("COMMIT")
}

fn command<'a>(alloc: Global) -> Result<Command<'a>, AllocError>
    ensures { IfOk result (λ command. app_of command ≡ mtfolder_app) }
{
    Command::new(alloc, "mtfolder")
        .about(ABOUT)
        .after_help(MORE)
        .arg(word(alloc, "task", "TASK", "show, verify, rows or cut"))?
        .arg(word(alloc, "folder", "FOLDER", "The folder"))?
        .arg(commit_option(alloc))
}

// The number that `--at` was given, if it was.
fn commit_found(matches: &ArgMatches<'_>) -> Option<u64>
    ensures { IsCommit (one_text (found_of matches.now) (codes "at")) result }
{
    matches.get_one::<u64>("at")
}

// What was found on the command line.
fn asked_of<'a>(matches: &ArgMatches<'a>) -> Option<Asked<'a>>
    ensures { IfSome result (IsFound matches.now) }
{
    let name = matches.get_str("task")?;
    let folder = matches.get_str("folder")?;
    let task = Task::named(name, commit_found(matches))?;
    Some(Asked { task, folder })
}

/// Returns what the words of the command line ask for, `None` if they name no task, or as an error the text to print instead
/// of a run.
pub fn read_words<'a>(alloc: Global, words: &'a [String]) -> Result<Option<Asked<'a>>, Error>
    ensures { IfOk result (λ asked. IfSome asked (IsSaid (map string_bytes words.now))) }
{
    let matches = command(alloc)?.try_get_matches_from(words)?;
    Ok(asked_of(&matches))
}
