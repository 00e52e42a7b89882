//! What is done for one query.

ghost use Rattle.std.specs.Prelude.{◌≡◌};
ghost use Rattle.mt_wire.specs.Limited.{ResponseIsLimited};
ghost use Rattle.mt_wire.specs.declared.query.Query.TheVariants.{Call, Read};
ghost use Rattle.mt_serve.specs.Asking.{Answers, call_response, counts_too_far, drop_response, found_response, not_alone, page_response, quiet_of, quiet_response};

use mt_reads::quiet::{QuietAnswer, QuietRead};
use mt_shared::answers::At;
use mt_shared::asking::read_at_once;
use mt_shared::changing::drive_and_keep;
use mt_shared::driving::Shared;
use mt_shared::pass::Pass;
use mt_shared::quiet::read_quiet;
use mt_shared::views::{view_drop, view_read};
use mt_types::event::{Reply, Request};
use mt_types::refusal::Refusal;
use mt_types::view::Page;
use mt_wire::query::Query;
use mt_wire::read::ReadQuery;
use mt_wire::response::{End, Response};
use mt_wire::server::{ServerRefusal, ServerResponse};
use std::alloc::Global;

// The most turns by which views are kept up after a query.
const TURNS: u64 = 64;

/// The most rows that a query counts, since changes wait meanwhile. A count of more is refused as `BadLimit`.
pub const MAX_COUNT: u32 = 1_000_000;

fn call_response(ended: Result<Reply, Refusal>) -> Response
    ensures { result ≡ call_response ended }
{
    match ended {
        Ok(reply) => Response::from(reply),
        Err(refusal) => Response::Refused(refusal),
    }
}

fn page_response(read: Result<Page, Refusal>) -> Response
    ensures { result ≡ page_response read }
{
    match read {
        Ok(page) => Response::View(page),
        Err(refusal) => Response::Refused(refusal),
    }
}

fn drop_response(dropped: Result<(), Refusal>) -> Response
    ensures { result ≡ drop_response dropped }
{
    match dropped {
        Ok(()) => Response::Dropped,
        Err(refusal) => Response::Refused(refusal),
    }
}

// The answer to a query of the server.
fn not_alone() -> Response
    ensures { result ≡ not_alone }
{
    Response::Server(ServerResponse::Refused(ServerRefusal::TooMuchAtOnce))
}

// Does what a call asks, and returns its answer. If it is driven, and changed rows or built a view, views are then
// advanced, and tidies follow a remove.
fn answer_call<S: Shared>(
    alloc: Global,
    shared: &mut S,
    pass: &mut Pass,
    request: Request,
) -> Response
    ensures answers { Answers S.does S.shows S.pages S.glances S.looks shared.old pass.old (Call request) result shared.new pass.new }
    ensures limited { ResponseIsLimited result }
{
    match read_at_once(alloc, shared, pass, &request) {
        Some(ended) => call_response(ended),
        None => call_response(drive_and_keep(alloc, shared, pass, request, TURNS)),
    }
}

// A read of one moment, as the index is asked.
fn quiet_of(query: ReadQuery) -> QuietRead
    ensures { result ≡ quiet_of query }
{
    match query {
        ReadQuery::Gets { keys, columns } => QuietRead::Gets { keys, columns },
        ReadQuery::RangeBack {
            before,
            limit,
            columns,
        } => QuietRead::RangeBack {
            before,
            limit,
            columns,
        },
        ReadQuery::Count { from, to, most } => QuietRead::Count { from, to, most },
    }
}

// Whether a query counts further than it may.
fn counts_too_far(query: &ReadQuery) -> bool
    ensures { result ≡ counts_too_far query.now }
{
    match query {
        ReadQuery::Count { most, .. } => MAX_COUNT < *most,
        _ => false,
    }
}

fn found_response(from: u64, to: u64, answer: QuietAnswer) -> Response
    ensures { result ≡ found_response from to answer }
{
    match answer {
        QuietAnswer::Rows(rows) => Response::FoundAll { at: to, rows },
        QuietAnswer::Pairs(pairs) => Response::Done {
            from,
            to,
            end: End::Rows(pairs),
        },
        QuietAnswer::Count(count) => Response::Done {
            from,
            to,
            end: End::Counted(count),
        },
    }
}

fn quiet_response(ended: Option<Result<At<QuietAnswer>, Refusal>>) -> Response
    ensures { result ≡ quiet_response ended }
{
    match ended {
        Some(Ok(at)) => found_response(at.from, at.to, at.value),
        Some(Err(refusal)) => Response::Refused(refusal),
        None => not_alone(),
    }
}

// Reads of one moment, and returns the answer.
fn answer_read<S: Shared>(alloc: Global, shared: &S, pass: &mut Pass, query: ReadQuery) -> Response
    ensures answers { Answers S.does S.shows S.pages S.glances S.looks shared.now pass.old (Read query) result shared.now pass.new }
    ensures limited { ResponseIsLimited result }
{
    if counts_too_far(&query) {
        return Response::Refused(Refusal::BadLimit);
    }
    quiet_response(read_quiet(alloc, shared, pass, &quiet_of(query)))
}

/// Does what a query asks, and returns its answer. A get or a range is read at once if it may be (`read_at_once`), and
/// any other call is driven from its begin to its end (`drive_and_keep`). A page is read at once if it may be
/// (`view_read`), and a view is dropped by one event. A read of one moment is made by `read_quiet`, and refused as too much
/// at once if that returns `None`. A query of the server is refused.
/// If the query changed rows or built a view, views are then advanced, in at most 64 turns, and tidies follow a remove.
///
/// Over a `Door` each event or read holds the lock once, so events of other threads can come between them. Over a
/// `Door` the lock is held once for a change and the turns of its views, if the change ends in its first run.
pub fn answer<S: Shared>(alloc: Global, shared: &mut S, pass: &mut Pass, query: Query) -> Response
    ensures answers { Answers S.does S.shows S.pages S.glances S.looks shared.old pass.old query result shared.new pass.new }
    ensures limited { ResponseIsLimited result }
{
    match query {
        Query::Call(request) => answer_call(alloc, shared, pass, request),
        Query::ViewRead {
            view,
            floor,
            start,
            limit,
        } => page_response(view_read(alloc, shared, pass, view, floor, start, limit)),
        Query::ViewDrop(view) => drop_response(view_drop(alloc, shared, pass, view)),
        Query::Read(query) => answer_read(alloc, shared, pass, query),
        Query::Server(_) => not_alone(),
    }
}
