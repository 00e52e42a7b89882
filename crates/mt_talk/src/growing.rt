//! The queries by which an index grows. They are refused while the memory is full.

ghost use Rattle.std.specs.Prelude.{◌≡◌, ◌≤◌, ◌<◌, length, IfOk, IfSome};
ghost use Rattle.std.specs.Option.{option_map};
ghost use Rattle.mt_types.specs.declared.limits.TheConstants.{MAX_QUERIES};
ghost use Rattle.mt_wire.specs.Limited.{ResponseIsLimited};
ghost use Rattle.mt_wire.specs.Frames.{Holds};
ghost use Rattle.mt_talk.specs.Growing.{grows, any_grows, memory_refusals, within_memory};

use mt_types::event::Request;
use mt_types::refusal::Refusal;
use mt_wire::query::Query;
use mt_wire::response::Response;
use std::alloc::{AllocError, Global};

// Puts, and builds of views.
fn grows(query: &Query) -> bool
    ensures { result ≡ grows query.now }
{
    matches!(
        query,
        Query::Call(Request::Put { .. } | Request::PutIf { .. } | Request::Build { .. })
    )
}

// Whether one of these queries grows.
fn any_grows(queries: &[Query]) -> bool
    ensures { result ≡ any_grows queries.now }
{
    for query in queries {
        if grows(query) {
            return true;
        }
    }
    false
}

// Each of these queries is refused as out of memory.
fn refuse_for_memory(alloc: Global, queries: &[Query]) -> Result<Vec<Response>, AllocError>
    requires some { 0 < length queries.now }
    requires few { length queries.now ≤ MAX_QUERIES }
    ensures value { IfOk result (λ responses. responses.items ≡ memory_refusals queries.now) }
    ensures holds { IfOk result (λ responses. Holds ResponseIsLimited responses.items) }
{
    let mut responses = Vec::new(alloc);
    for _query in queries {
        responses.push(Response::Refused(Refusal::NoMemory))?;
    }
    Ok(responses)
}

/// Returns the refusals of these queries if one of them grows and the memory is full. Returns `None` for queries that are
/// left to what is inside. O(n) in the queries.
///
/// # Errors
///
/// If out of memory.
pub fn refuse_growth(
    alloc: Global,
    is_memory_full: bool,
    queries: &[Query],
) -> Result<Option<Vec<Response>>, AllocError>
    requires some { 0 < length queries.now }
    requires few { length queries.now ≤ MAX_QUERIES }
    ensures value { IfOk result (λ answered. option_map (λ responses. responses.items) answered ≡ within_memory is_memory_full queries.now) }
    ensures holds { IfOk result (λ answered. IfSome answered (λ responses. Holds ResponseIsLimited responses.items)) }
{
    if is_memory_full && any_grows(queries) {
        Ok(Some(refuse_for_memory(alloc, queries)?))
    } else {
        Ok(None)
    }
}
