//! The verdict of an audit.

ghost use Rattle.std.specs.Prelude.{◌≡◌, IfOk, string_bytes};
ghost use Rattle.mt_script.specs.Lines.{line_text};
ghost use Rattle.mt_audit.specs.Audit.{verdict_text, verdict_status};

use mt_check::fault::Fault;
use std::alloc::{AllocError, Global};

/// What an audit finds.
#[derive(Clone, Copy, Debug, PartialEq, Eq)]
pub enum Verdict {
    /// All is right, with this many deltas and receipts.
    Sound { deltas: u64, receipts: u64 },
    /// The first fault.
    Faulty(Fault),
    /// The number of the first line that doesn't read, from 1 on.
    Bad(u64),
}

impl Verdict {
    /// Returns the status of a program that reports the verdict: 0 if all is right, 1 at a fault, 2 at a bad line.
    pub fn status(&self) -> u8
        ensures { result ≡ verdict_status self.now }
    {
        match self {
            Verdict::Sound { .. } => 0,
            Verdict::Faulty(_) => 1,
            Verdict::Bad(_) => 2,
        }
    }
}

// The line of a verdict, with its line feed.
pub(crate) fn verdict_line(alloc: Global, verdict: &Verdict) -> Result<String, AllocError>
    ensures { IfOk result (λ text. string_bytes text ≡ line_text (verdict_text verdict.now)) }
{
    let mut text = String::new(alloc);
    match verdict {
        Verdict::Sound { deltas, receipts } => {
            let (deltas, receipts) = (*deltas, *receipts);
            write!(text, "ok {deltas} {receipts}")?;
        }
        Verdict::Faulty(fault) => {
            let (index, rule) = (fault.index, fault.rule.number());
            write!(text, "fault {index} {rule}")?;
        }
        Verdict::Bad(number) => {
            let number = *number;
            write!(text, "bad line {number}")?;
        }
    }
    text.push_str("\n")?;
    Ok(text)
}
