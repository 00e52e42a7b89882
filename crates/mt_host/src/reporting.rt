//! The lines that a server writes on standard error, plain ones or dated ones. Of each kind only some a second are written.

use crate::report::{KINDS, Kind, Report};
use crate::utc::Utc;
use std::io;
use std::sync::atomic::{AtomicBool, Ordering};
use std::sync::{Mutex, Wait};
use std::time::Clock;

// How many lines of one kind are written in a second at most.
const MOST: u64 = 10;

/// How the lines are.
#[derive(Clone, Copy, Debug, PartialEq, Eq)]
pub enum LineForm {
    /// Faults and errors alone, without a time.
    Plain,
    /// A time, a level, a word and pairs of a name and a value.
    Pairs,
}

// How many lines of a kind were written in a second, and how many were left out since a line has said so.
#[derive(Clone, Copy)]
struct Count {
    second: u64,
    written: u64,
    left_out: u64,
}

// Nothing was written.
const NOTHING: Count = Count {
    second: 0,
    written: 0,
    left_out: 0,
};

impl Count {
    // Counts a line that is to be written in this second. Returns whether it may be; else it is left out.
    fn allows(&mut self, second: u64) -> bool {
        if self.second != second {
            self.second = second;
            self.written = 0;
        }
        let is_allowed = self.written < MOST;
        if is_allowed {
            self.written = self.written.saturating_add(1);
        } else {
            self.left_out = self.left_out.saturating_add(1);
        }
        is_allowed
    }

    // If lines were left out, and not in this second, counts the line that says so.
    fn take_left_out(&mut self, second: u64, is_last: bool) -> Option<u64> {
        if self.left_out == 0 || self.second == second && !is_last {
            return None;
        }
        let left_out = self.left_out;
        *self = Count {
            second,
            written: 1,
            left_out: 0,
        };
        Some(left_out)
    }
}

/// What writes the lines of all threads of a server. A line that can't be written is lost.
#[derive(Drop)]
pub struct Reporter {
    form: LineForm,
    counts: Mutex<[Count; KINDS.len()]>,
    has_left_out: AtomicBool,
}

impl Reporter {
    /// Returns what writes lines of this form.
    pub fn new(form: LineForm) -> Reporter {
        Reporter {
            form,
            counts: Mutex::new([NOTHING; KINDS.len()]),
            has_left_out: AtomicBool::new(false),
        }
    }

    /// Writes a line, if reports of this kind are written in its form, and not too many were in this second.
    pub fn say<R: Wait + Clock + Eprint>(&self, rt: &R, report: &Report<'_>) {
        let kind = report.kind();
        if self.form == LineForm::Plain && !is_plain(kind) {
            return;
        }
        let now = Utc::now(rt);
        let mut counts = self.counts.lock(rt);
        let Some(count) = counts.get_mut(kind as usize) else {
            return;
        };
        if let Some(left_out) = count.take_left_out(now.seconds, false) {
            self.say_left_out(rt, now, kind, left_out);
        }
        if count.allows(now.seconds) {
            self.write(rt, now, report);
        } else {
            self.has_left_out.store(true, Ordering::SeqCst);
        }
    }

    // Writes a line in its form.
    fn write<R: Eprint>(&self, rt: &R, now: Utc, report: &Report<'_>) {
        let _ = match self.form {
            LineForm::Plain => say_plainly(rt, report),
            LineForm::Pairs => {
                let level = report.kind().level();
                eprintln!(rt; "{now} {level} {report}")
            }
        };
    }

    // Writes how many lines of a kind were left out.
    fn say_left_out<R: Eprint>(&self, rt: &R, now: Utc, kind: Kind, left_out: u64) {
        let _ = match self.form {
            LineForm::Plain => eprintln!(rt; "left out: {left_out} lines of {kind}"),
            LineForm::Pairs => {
                let level = kind.level();
                eprintln!(rt; "{now} {level} {kind} left_out={left_out}")
            }
        };
    }

    /// Returns whether lines were left out, and no line has said so yet.
    pub fn has_left_out(&self) -> bool {
        self.has_left_out.load(Ordering::SeqCst)
    }

    /// Says how many lines were left out in earlier seconds.
    pub fn catch_up<R: Wait + Clock + Eprint>(&self, rt: &R) {
        if self.has_left_out() {
            self.say_all_left_out(rt, false);
        }
    }

    /// Says how many lines were left out, also in this second.
    pub fn finish<R: Wait + Clock + Eprint>(&self, rt: &R) {
        self.say_all_left_out(rt, true);
    }

    fn say_all_left_out<R: Wait + Clock + Eprint>(&self, rt: &R, is_last: bool) {
        let now = Utc::now(rt);
        let mut has_more = false;
        let mut counts = self.counts.lock(rt);
        for (kind, count) in KINDS.iter().zip(counts.iter_mut()) {
            if let Some(left_out) = count.take_left_out(now.seconds, is_last) {
                self.say_left_out(rt, now, *kind, left_out);
            }
            has_more = has_more || count.left_out > 0;
        }
        self.has_left_out.store(has_more, Ordering::SeqCst);
    }
}

// Whether reports of this kind have a plain line.
fn is_plain(kind: Kind) -> bool {
    match kind {
        Kind::Ended
        | Kind::FewDescriptors
        | Kind::NotAccepted
        | Kind::DiskFull
        | Kind::MemoryFull
        | Kind::NotShortened
        | Kind::LogFailed
        | Kind::Unwritten => true,
        Kind::Listening
        | Kind::WrongSecret
        | Kind::TurnedAway
        | Kind::DiskUsable
        | Kind::MemoryUsable
        | Kind::Shortened
        | Kind::Stopping
        | Kind::Stopped
        | Kind::Failed => false,
    }
}

// Writes the plain line of a report, if it has one.
fn say_plainly<R: Eprint>(rt: &R, report: &Report<'_>) -> io::Result<()> {
    match report {
        Report::Ended { fault, .. } => {
            eprintln!(rt; "session fault {}: {fault}", fault.number())
        }
        Report::FewDescriptors {
            connections,
            descriptors,
        } => eprintln!(rt;
            "connections: at most {connections}, since the system allows {descriptors} descriptors"
        ),
        Report::NotAccepted(error) => eprintln!(rt; "accept failed: {error}"),
        Report::DiskFull => eprintln!(rt; "log: the disk is full, and rows can't be changed"),
        Report::MemoryFull { resident, most } => eprintln!(rt;
            "memory: {resident} bytes are resident, more than {most}: no rows and no views are added"
        ),
        Report::NotShortened(cause) => eprintln!(rt; "checkpoint: {cause}"),
        Report::LogFailed(cause) => eprintln!(rt; "log: {cause}"),
        Report::Unwritten => eprintln!(rt; "log: the last commits could not be written"),
        Report::Listening(_)
        | Report::WrongSecret { .. }
        | Report::TurnedAway { .. }
        | Report::DiskUsable
        | Report::MemoryUsable { .. }
        | Report::Shortened { .. }
        | Report::Stopping(_)
        | Report::Stopped { .. }
        | Report::Failed(_) => Ok(()),
    }
}
