//! What a frame asks for: only gets and ranges or more, and how much.

ghost use Rattle.std.specs.Option.{option_copied};
ghost use Rattle.std.specs.Prelude.{◌≡◌, ◌≤◌, not};
ghost use Rattle.std.specs.List.{list_any};
ghost use Rattle.mt_talk.specs.Serving.{alone};
ghost use Rattle.mt_host.specs.Weights.{is_other};

use mt_types::event::Request;
use mt_wire::frame::Frame;
use mt_wire::query::Query;
use mt_wire::read::ReadQuery;
use mt_wire::server::ServerQuery;

/// The rows and queries after which a connection takes no further frame in a round.
pub const TURN: usize = 1024;

/// The weight from which a frame is long: another worker answers it.
pub const LONG: usize = 8192;

// The rows that a query may return or count, or 1. A build is long.
fn weight_of_query(query: &Query) -> usize {
    match query {
        Query::Call(Request::Range { limit, .. }) => usize::from(*limit),
        Query::ViewRead { limit, .. } => usize::from(*limit),
        Query::Read(ReadQuery::Gets { keys, .. }) => keys.len(),
        Query::Read(ReadQuery::RangeBack { limit, .. }) => usize::from(*limit),
        Query::Read(ReadQuery::Count { most, .. }) => (*most as usize).min(LONG),
        Query::Call(Request::Build { .. }) => LONG,
        _ => 1,
    }
}

/// Returns what a frame weighs: at least 1.
pub fn weight_of(frame: &Frame<Query>) -> usize
    ensures { 1 ≤ result }
{
    let mut weight = 1usize;
    for query in frame.messages.as_slice() {
        weight = weight.saturating_add(weight_of_query(query));
    }
    weight
}

// Whether a query is no get and no range.
fn asks_more(query: &Query) -> bool
    ensures { result ≡ is_other query.now }
{
    !matches!(
        query,
        Query::Call(Request::Get { .. } | Request::Range { .. })
    )
}

/// Returns the query of the server that is alone in a frame.
pub fn server_query(frame: &Frame<Query>) -> Option<&ServerQuery>
    ensures { option_copied result ≡ alone frame.now.messages }
{
    match frame.messages.as_slice() {
        [Query::Server(query)] => Some(query),
        _ => None,
    }
}

/// Returns whether a frame has nothing but gets and ranges.
pub fn only_reads(frame: &Frame<Query>) -> bool
    ensures { result ≡ not (list_any is_other frame.now.messages) }
{
    for query in frame.messages.as_slice() {
        if asks_more(query) {
            return false;
        }
    }
    true
}
