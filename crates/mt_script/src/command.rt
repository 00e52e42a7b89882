//! What a line of a script asks for, and what it is answered.

use mt_reads::quiet::{QuietAnswer, QuietRead};
use mt_types::event::{Event, Outcome, Request};
use mt_types::items::Items;
use mt_types::numbers::CallNo;
use mt_types::refusal::Refusal;
use mt_types::row::Delta;

/// What a line of a script asks for.
#[derive(Debug, PartialEq, Eq, Drop)]
pub enum Command {
    /// One event.
    Once(Event),
    /// Steps of a call, until one is neither moved nor a commit.
    Finish(CallNo),
    /// A call from its begin to its end, if no other call is open. It is of pass 0.
    Alone(Request),
    /// The deltas of the commits after the first `from`, at most `limit`. No event happens.
    Feed { from: u64, limit: u16 },
    /// A read of one moment, if no call is open. No event happens.
    Read(QuietRead),
    /// How many rows there are. No event happens.
    Len,
}

/// What a line of a script is answered.
#[derive(Debug, PartialEq, Eq, Drop)]
pub enum Reply {
    /// The line says nothing, or what the index doesn't serve yet.
    Bad,
    /// A call was to run alone, or a read to be of one moment, while calls are open. No event happened.
    Busy,
    /// What came of its last event.
    Came(Outcome),
    /// The deltas that a feed gave.
    Fed(Items<Delta>),
    /// Why a feed gave none.
    NotFed(Refusal),
    /// The answer to a read of one moment.
    Read(QuietAnswer),
    /// Why such a read has none.
    NotRead(Refusal),
    /// How many rows there are.
    Len(u64),
}
