//! What the command line says.

ghost use Rattle.std.specs.Prelude.{◌≡◌, false, map, string_bytes, codes, IfOk};
ghost use Rattle.clap.specs.Words.{app_of, new_app, rule_of};
ghost use Rattle.mtserve.specs.CommandLine.{flag_rule, text_rule, with_socket_rules, with_access_rules, with_data_rules, with_limit_rules, with_operating_rules, with_flag_rules, mtserve_app, AreFound, AreSaid};

use clap::{Arg, ArgAction, ArgMatches, Command, Error};
use mt_command_line::numbers::{number, number_option};
use mt_command_line::opening::{columns, index_options, log_capacity, log_retention};
use mt_index::options::Options;
use std::alloc::{AllocError, Global};

const ABOUT: &str = "Serves an index over TCP: an empty one, or the rows of a folder";

const MORE: &str = "\
Each connection is a session: frames of queries come in, and each is answered by a frame (docs/WIRE.md). Each worker is
a thread that serves many connections. Standard error says where it listens, as `listening PORT` or `listening unix:PATH`, and why a session was
broken off, as `session fault N: REASON`. When all sessions have ended, standard output says `events E commits C`.

The status is 0; 2 for a bad command line; 3 if listening, a thread, a wait or the first line failed, if memory was
refused at the start, if the rows of the folder can't be read or the last commits not be written, or if the counts at the
end don't add up.";

/// The number of sessions that means no end. `--sessions` takes less.
pub const WITHOUT_END: u64 = 65_536;

/// What is to be served, and how.
#[derive(Clone, Copy, Debug)]
pub struct Settings<'a> {
    pub options: Options,
    /// The port to listen at; 0 is any.
    pub port: u64,
    /// How many threads serve connections; 0 is not given.
    pub workers: u64,
    /// How many connections are served for each of them, or `WITHOUT_END`.
    pub sessions: u64,
    /// Whether they are served without end, whatever `sessions` is.
    pub forever: bool,
    /// The most connections that are open at once.
    pub connections: u64,
    /// The addresses to listen at, if they aren't a port of 127.0.0.1.
    pub listen: Option<&'a str>,
    /// The file of secrets, if there are to be some.
    pub token_file: Option<&'a str>,
    /// The folder in which rows survive, if they are to.
    pub folder: Option<&'a str>,
    /// When its log is synced, if that is said.
    pub sync: Option<&'a str>,
    /// How many bytes more a log has before its rows are copied into the next one; 0: none is made.
    pub checkpoint: u64,
    /// How the lines on standard error are, if that is said.
    pub log: Option<&'a str>,
    /// The most bytes that are kept for all connections together; 0 is no limit.
    pub buffers: u64,
    /// The most bytes of the process that may be resident while rows and views are added; 0 is no limit.
    pub memory: u64,
    /// The most seconds until a client has said hello, on a server with secrets; 0 is no limit.
    pub hello: u64,
    /// Whether all may do all wherever the server listens.
    pub is_open: bool,
    /// The most seconds between two frames of a connection; 0 is no limit.
    pub idle: u64,
    /// The most seconds for which a frame may have begun and not ended; 0 is no limit.
    pub frame: u64,
    /// The most seconds for which a peer may take no byte of its answers; 0 is no limit.
    pub write: u64,
    /// Whether the end of standard input stops the server.
    pub watches_input: bool,
}

// An option without a value.
fn flag<'a>(alloc: Global, name: &'a str, help: &'a str) -> Arg<'a>
    ensures rule { rule_of result ≡ flag_rule name.entry.now }
    ensures local { result.global ≡ false }
{
    Arg::new(alloc, name)
        .long(name)
        .action(ArgAction::SetTrue)
        .help(help)
}

// An option with a text.
fn text_option<'a>(alloc: Global, name: &'a str, value: &'a str, help: &'a str) -> Arg<'a>
    ensures rule { rule_of result ≡ text_rule name.entry.now }
    ensures local { result.global ≡ false }
{
    Arg::new(alloc, name)
        .long(name)
        .value_name(value)
        .help(help)
}

// The options that say which clients reach the server, and what they may ask.
fn access_options<'a>(command: Command<'a>, alloc: Global) -> Result<Command<'a>, AllocError>
    ensures { IfOk result (λ r. app_of r ≡ with_access_rules (app_of command.entry)) }
{
    let listen =
        "Where to listen: addresses as 127.0.0.1:7070, and unix:PATH, with commas between [default: --port of 127.0.0.1]";
    let tokens =
        "A file of secrets, in lines of a role (read, write or all) and a secret [default: all may do all]";
    let hello =
        "The most seconds until a client has said hello, if there are secrets, up to 86400; 0 is no limit [default: 10]";
    let open = "Lets all do all, also where --listen is no address of this machine alone";
    command
        .arg(text_option(alloc, "listen", "ADDRESSES", listen))?
        .arg(text_option(alloc, "token-file", "FILE", tokens))?
        .arg(number_option(alloc, "hello-timeout", 0, 86400, hello))?
        .arg(flag(alloc, "open", open))
}

// The options of the server: its port, its workers, and how many connections it serves.
fn socket_options<'a>(command: Command<'a>, alloc: Global) -> Result<Command<'a>, AllocError>
    ensures { IfOk result (λ r. app_of r ≡ with_socket_rules (app_of command.entry)) }
{
    let port = "Where to listen, up to 65535; 0 is any free port [default: 0]";
    let workers =
        "How many threads serve connections, 1 to 16 [default: as many as processors, up to 8; 1 with --sessions]";
    let sessions =
        "How many connections are served for each of --workers, up to 65535 [default: no end]";
    let connections =
        "How many connections may be open at once, 1 to 1000000; one more is closed [default: 10000]";
    command
        .arg(number_option(alloc, "port", 0, 65535, port))?
        .arg(number_option(alloc, "workers", 1, 16, workers))?
        .arg(number_option(alloc, "sessions", 0, 65535, sessions))?
        .arg(number_option(alloc, "connections", 1, 1000000, connections))
}

// The options of rows that survive.
fn data_options<'a>(command: Command<'a>, alloc: Global) -> Result<Command<'a>, AllocError>
    ensures { IfOk result (λ r. app_of r ≡ with_data_rules (app_of command.entry)) }
{
    let data =
        "A folder that keeps the rows: they are there again after the next start [default: rows are in memory alone]";
    let sync = "\
When commits are made durable, with --data: always (a change is answered after that), a number of milliseconds (at least so
often), or never (at the end alone) [default: always]";
    let checkpoint = "\
How many bytes of commits the log of --data has before it is shortened: the rows are then copied into a new one, while they
change; 0 is never [default: 67108864]";
    command
        .arg(text_option(alloc, "data", "FOLDER", data))?
        .arg(text_option(alloc, "sync", "WHEN", sync))?
        .arg(number_option(alloc, "checkpoint", 0, 1_099_511_627_776, checkpoint))
}

// The limits of time, in seconds.
fn limit_options<'a>(command: Command<'a>, alloc: Global) -> Result<Command<'a>, AllocError>
    ensures { IfOk result (λ r. app_of r ≡ with_limit_rules (app_of command.entry)) }
{
    let idle = "The most seconds between two frames, up to 86400; 0 is no limit [default: 0]";
    let frame =
        "The most seconds from a frame's first byte to its last, up to 86400; 0 is no limit [default: 30]";
    let write =
        "The most seconds for which a client takes no byte, up to 86400; 0 is no limit [default: 30]";
    command
        .arg(number_option(alloc, "idle-timeout", 0, 86400, idle))?
        .arg(number_option(alloc, "frame-timeout", 0, 86400, frame))?
        .arg(number_option(alloc, "write-timeout", 0, 86400, write))
}

// The options of what an operator reads and limits.
fn operating_options<'a>(command: Command<'a>, alloc: Global) -> Result<Command<'a>, AllocError>
    ensures { IfOk result (λ r. app_of r ≡ with_operating_rules (app_of command.entry)) }
{
    let log = "\
How the lines on standard error are, after the first: plain, or pairs (with a time, a level and the connection) [default:
plain]";
    let buffers =
        "The most bytes of input and output that are kept for all connections; 0 is no limit [default: 1073741824]";
    let memory = "\
The most bytes of the process that may be in memory: while there are more, puts and builds of views are refused; 0 is no
limit [default: 0]";
    command
        .arg(text_option(alloc, "log", "FORM", log))?
        .arg(number_option(alloc, "buffers", 0, 1099511627776, buffers))?
        .arg(number_option(alloc, "memory", 0, 1099511627776, memory))
}

// The options without a value.
fn flag_options<'a>(command: Command<'a>, alloc: Global) -> Result<Command<'a>, AllocError>
    ensures { IfOk result (λ r. app_of r ≡ with_flag_rules (app_of command.entry)) }
{
    let forever = "Serves until the process is ended, whatever --sessions says";
    let stop = "Stops when standard input, a pipe, ends: frames that came are answered first";
    let no_tidies = "Makes no tidies after removes, so that emptied nodes stay";
    command
        .arg(flag(alloc, "forever", forever))?
        .arg(flag(alloc, "stop-at-end-of-input", stop))?
        .arg(flag(alloc, "no-tidies", no_tidies))
}

// The command, without an option.
fn named<'a>(alloc: Global) -> Command<'a>
    ensures { app_of result ≡ new_app (codes "mtserve") }
{
    Command::new(alloc, "mtserve").about(ABOUT).after_help(MORE)
}

fn command<'a>(alloc: Global) -> Result<Command<'a>, AllocError>
    ensures { IfOk result (λ command. app_of command ≡ mtserve_app) }
{
    let of_sockets = socket_options(named(alloc), alloc)?;
    let of_access = access_options(of_sockets, alloc)?;
    let of_data = data_options(of_access, alloc)?;
    let limited = limit_options(of_data, alloc)?;
    let operated = operating_options(limited, alloc)?;
    let flagged = flag_options(operated, alloc)?;
    index_options(flagged, alloc)
}

fn settings_of<'a>(matches: &ArgMatches<'a>) -> Settings<'a>
    ensures { AreFound matches.now result }
{
    Settings {
        options: Options {
            columns: columns(matches),
            log_capacity: log_capacity(matches),
            log_retention: log_retention(matches),
            tidies: !matches.get_flag("no-tidies"),
        },
        port: number(matches, "port", 0),
        workers: number(matches, "workers", 0),
        sessions: number(matches, "sessions", WITHOUT_END),
        forever: matches.get_flag("forever"),
        connections: number(matches, "connections", 10_000),
        listen: matches.get_str("listen"),
        token_file: matches.get_str("token-file"),
        folder: matches.get_str("data"),
        sync: matches.get_str("sync"),
        checkpoint: number(matches, "checkpoint", 67_108_864),
        log: matches.get_str("log"),
        buffers: number(matches, "buffers", 1_073_741_824),
        memory: number(matches, "memory", 0),
        hello: number(matches, "hello-timeout", 10),
        is_open: matches.get_flag("open"),
        idle: number(matches, "idle-timeout", 0),
        frame: number(matches, "frame-timeout", 30),
        write: number(matches, "write-timeout", 30),
        watches_input: matches.get_flag("stop-at-end-of-input"),
    }
}

/// Returns what the words of the command line say, or as an error the text to print instead of a run.
pub fn settings_given<'a>(alloc: Global, words: &'a [String]) -> Result<Settings<'a>, Error>
    ensures { IfOk result (λ settings. AreSaid (map string_bytes words.now) settings) }
{
    let matches = command(alloc)?.try_get_matches_from(words)?;
    Ok(settings_of(&matches))
}
