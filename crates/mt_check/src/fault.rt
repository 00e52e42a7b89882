//! The rules of an audit, and the first fault that it finds.

ghost use Rattle.std.specs.Prelude.{◌≡◌};
ghost use Rattle.mt_check.specs.Faults.{rule_number, IsWantOfMemory};

use mt_types::refusal::NoMemory;
use std::fmt;
use std::fmt::{Display, Formatter, Write};

/// The rules that a log and its receipts have to keep, in the order in which those of one line are reported.
#[derive(Clone, Copy, Debug, PartialEq, Eq)]
pub enum Rule {
    /// There is memory for the audit: no rule of a line.
    Memory,
    /// The number of a delta is its place, from 1 on.
    DeltaNumber,
    /// The row before is the key's row then, the row after has the delta's number, and one of the two is a row.
    DeltaRows,
    /// A receipt's first number is not after its last, and its last is at most the number of deltas.
    Span,
    /// The answer of a get is right at some number of the span.
    GetAnswer,
    /// The number of a put or a remove is within the span, and its delta is that of the change; that of a conditional
    /// put is over a row of the version asked. Or a remove found nothing, and its key had no row at some number of the
    /// span.
    WriteAnswer,
    /// No number is claimed by two receipts.
    ClaimedOnce,
    /// The answer of a range is right over the span.
    RangeAnswer,
    /// A page is at a number from its floor to the end of the span, and is what its view shows there.
    ViewPage,
}

impl Rule {
    /// The number of the rule, as an audit reports it; 0 means out of memory.
    pub fn number(&self) -> u8
        ensures { result ≡ rule_number self.now }
    {
        match self {
            Rule::Memory => 0,
            Rule::DeltaNumber => 1,
            Rule::DeltaRows => 2,
            Rule::Span => 3,
            Rule::GetAnswer => 4,
            Rule::WriteAnswer => 5,
            Rule::ClaimedOnce => 6,
            Rule::RangeAnswer => 7,
            Rule::ViewPage => 8,
        }
    }
}

impl Display for Rule {
    /// The number.
    fn fmt<W: Write>(&self, f: &mut Formatter<W>) -> Result<(), fmt::Error> {
        let number = self.number();
        write!(f, "{number}")
    }
}

/// The first fault of an audit.
#[derive(Clone, Copy, Debug, PartialEq, Eq)]
pub struct Fault {
    /// The place of the delta or of the receipt, from 1 on; 0 means out of memory.
    pub index: u64,
    /// The smallest rule that it breaks.
    pub rule: Rule,
}

impl From<NoMemory> for Fault {
    ghost from_gives = { λ _ fault. IsWantOfMemory fault };

    fn from(_: NoMemory) -> Fault {
        Fault {
            index: 0,
            rule: Rule::Memory,
        }
    }
}
