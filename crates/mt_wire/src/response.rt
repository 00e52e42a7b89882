//! What a server answers.

ghost use Rattle.std.specs.Prelude.{◌≡◌};
ghost use Rattle.mt_wire.specs.Answered.{end_of};

use crate::server::ServerResponse;
use mt_types::event::{Answer, Reply, TidyRule};
use mt_types::items::Items;
use mt_types::numbers::ViewNo;
use mt_types::refusal::Refusal;
use mt_types::row::{Pairs, Row};
use mt_types::view::Page;

/// One answer of a frame: the answer to the query at the same place.
#[derive(Debug, PartialEq, Eq, Drop)]
pub enum Response {
    /// The query was refused.
    Refused(Refusal),
    /// A call has ended.
    Done {
        /// The number of commits when the call began.
        from: u64,
        /// The number of commits when it ended.
        to: u64,
        end: End,
    },
    /// What a view shows.
    View(Page),
    /// The view has ended.
    Dropped,
    /// What many keys have at one moment.
    FoundAll {
        /// The number of commits at that moment.
        at: u64,
        /// The row of each key, in the order of the query, or `None` for a key that has no row.
        rows: Items<Option<Row>>,
    },
    /// What the server itself answers.
    Server(ServerResponse),
}

/// How a call ended. A put and a remove end alike, since the client knows what it asked for.
#[derive(Debug, PartialEq, Eq, Drop)]
pub enum End {
    /// The key has no row. The answer of a get, or of a remove that had nothing to remove.
    Absent,
    /// The row of a get.
    Found(Row),
    /// The number of the commit of a put or a remove.
    Committed(u64),
    /// The rows of a range, with their keys, in the order of the range.
    Rows(Pairs),
    /// What a tidy did.
    Tidied(TidyRule),
    /// The view of a build.
    Built(ViewNo),
    /// How many rows a range has.
    Counted(u32),
}

fn end_of(answer: Answer) -> End
    ensures { result ≡ end_of answer }
{
    match answer {
        Answer::Absent => End::Absent,
        Answer::Found(row) => End::Found(row),
        Answer::Stored(number) | Answer::Removed(number) => End::Committed(number),
        Answer::Rows(pairs) => End::Rows(pairs),
        Answer::Tidied(rule) => End::Tidied(rule),
        Answer::Built(view) => End::Built(view),
    }
}

impl From<Reply> for Response {
    ghost use Rattle.mt_wire.specs.Answered.{response_of};

    ghost from_gives = { λ reply response. response ≡ response_of reply };

    /// What the wire reports of the end of a call.
    fn from(reply: Reply) -> Response {
        let Reply {
            from,
            to,
            answer,
            ..
        } = reply;
        let end = end_of(answer);
        Response::Done { from, to, end }
    }
}
