//! Serves an index over TCP: sessions of frames, by one thread or several.
#![tactic(auto)]

mod command_line;
mod serving;
mod syncing;
mod tokens;

use crate::command_line::{Settings, settings_given};
use crate::serving::{Manner, ServeError, serve_all};
use crate::syncing::read_syncing;
use mt_command_line::ending::{exit_code, status_without_run, words};
use mt_host::durability::Syncing;
use mt_host::report::Report;
use mt_host::reporting::{LineForm, Reporter};
use mt_shared::settling::Totals;
use std::io;
use std::net::Net;
use std::process::ExitCode;
use std::random::RandomSource;
use std::rt::Files;
use std::sync::Wait;
use std::thread::Threads;
use std::time::Clock;

// What the command line asks for, or the status if a text was printed instead of a run. A command line without any
// option is a bad one: it says neither how many sessions there are to be nor that they are without end.
fn read_settings<'a>(
    rt: &HostRuntime,
    words: &'a [String],
) -> io::Result<Result<Settings<'a>, u8>> {
    if words.len() < 2 {
        eprintln!(rt; "mtserve: no option is given; --help lists the options")?;
        return Ok(Err(2));
    }
    match settings_given(rt.alloc(), words) {
        Ok(settings) => Ok(Ok(settings)),
        Err(fault) => Ok(Err(status_without_run(rt, fault)?)),
    }
}

// When the log is synced, or why that can't be.
fn syncing_of(settings: Settings<'_>) -> Result<Syncing, &'static str> {
    let Some(text) = settings.sync else {
        return Ok(Syncing::Always);
    };
    if settings.folder.is_none() {
        return Err("--sync is for a server with --data");
    }
    read_syncing(text).ok_or(
        "--sync takes always, never or a number of milliseconds from 1 to 86400000",
    )
}

// How the lines on standard error are, or why that can't be.
fn form_of(settings: Settings<'_>) -> Result<LineForm, &'static str> {
    match settings.log {
        None | Some("plain") => Ok(LineForm::Plain),
        Some("pairs") => Ok(LineForm::Pairs),
        Some(_) => Err("--log takes plain or pairs"),
    }
}

// What is read of texts of the command line, or why they can't be read.
fn read_texts(settings: Settings<'_>) -> Result<(Syncing, LineForm), &'static str> {
    Ok((syncing_of(settings)?, form_of(settings)?))
}

// Serves what the command line asks for, and returns the status.
fn run<R>(host: &HostRuntime, rt: &R, settings: Settings<'_>) -> io::Result<u8>
where
    R: Net + Threads + Wait + Clock + Files + RandomSource + AllocGlobal + Sync + Eprint,
{
    match read_texts(settings) {
        Ok((syncing, form)) => {
            let reporter = Reporter::new(form);
            let manner = Manner {
                syncing,
                reporter: &reporter,
            };
            let served = serve_all(host, rt, settings, manner);
            tell(host, rt, &reporter, form, served)
        }
        Err(fault) => {
            eprintln!(host; "mtserve: {fault}")?;
            Ok(2)
        }
    }
}

// Says why it failed, in a line of this form.
fn tell_failure<R: Wait + Clock + Eprint>(
    host: &HostRuntime,
    rt: &R,
    reporter: &Reporter,
    form: LineForm,
    error: &ServeError,
) -> io::Result<()> {
    match form {
        LineForm::Plain => eprintln!(host; "mtserve: {error}"),
        LineForm::Pairs => {
            let reason = format!(in host.alloc(); "{error}")?;
            reporter.say(rt, &Report::Failed(reason.as_str()));
            Ok(())
        }
    }
}

// Says how the serving ended, and returns the status.
fn tell<R: Wait + Clock + Eprint>(
    host: &HostRuntime,
    rt: &R,
    reporter: &Reporter,
    form: LineForm,
    served: Result<Totals, ServeError>,
) -> io::Result<u8> {
    match served {
        Ok(Totals { events, commits }) => {
            reporter.say(rt, &Report::Stopped { events, commits });
            println!(host; "events {events} commits {commits}")?;
            Ok(0)
        }
        Err(error) => {
            tell_failure(host, rt, reporter, form, &error)?;
            Ok(3)
        }
    }
}

fn main(rt: HostRuntime) -> ExitCode {
    let ended = match words(&rt) {
        Ok(words) => match read_settings(&rt, words.as_slice()) {
            Ok(Ok(settings)) => run(&rt, &rt, settings),
            Ok(Err(status)) => Ok(status),
            Err(error) => Err(error),
        },
        Err(error) => Err(error),
    };
    exit_code(&rt, "mtserve", ended)
}
