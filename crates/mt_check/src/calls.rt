//! Whether the answer of a call is right over a span of numbers.

ghost use Rattle.std.specs.Prelude.{◌≡◌, ◌↔◌, ◌≤◌, None, IsTrue, length, IfOk};
ghost use Rattle.std.specs.BTreeMap.{IsOrdered};
ghost use Rattle.mt_types.specs.Keys.{key_cmp};
ghost use Rattle.mt_types.specs.Limits.{request_fault};
ghost use Rattle.mt_types.specs.Ranges.{IsRangeAnswer};
ghost use Rattle.mt_types.specs.declared.limits.TheConstants.{MAX_KEY_BYTES};
ghost use Rattle.mt_check.specs.Receipts.{Sometime, Throughout, Shows, Lacks, Stands, IsRightAnswer};
ghost use Rattle.mt_check.specs.Judging.{IsRead};

use crate::ranges::{Asked, Span, walk};
use crate::versions::{Versions, lacks_between, shows_between};
use crate::writes::{ConditionalPut, is_conditional_put_at, is_drop_at, is_put_at};
use bytes::Bytes;
use mt_types::copying::TryCopy;
use mt_types::event::{Answer, Request};
use mt_types::key::Key;
use mt_types::refusal::NoMemory;
use mt_types::row::{Delta, Row};
use std::alloc::Global;

/// A log that is read.
#[derive(Drop)]
pub(crate) struct Log<'a> {
    pub(crate) columns: u8,
    pub(crate) deltas: &'a [Delta],
    pub(crate) versions: Versions,
}

/// The key of bytes that are not too many. Shares them.
pub(crate) fn key_of(alloc: Global, bytes: &Bytes) -> Result<Key, NoMemory>
    requires { length bytes.now ≤ MAX_KEY_BYTES }
    ensures { IfOk result (λ key. key ≡ bytes.now) }
{
    match Key::new(bytes.copy(alloc)?) {
        Ok(key) => Ok(key),
        Err(_) => unreachable!(),
    }
}

fn lacks(alloc: Global, log: &Log<'_>, span: Span, key: &Bytes) -> Result<bool, NoMemory>
    requires read { IsRead log.now.deltas.now log.now.versions }
    requires rises { span.from ≤ span.to }
    requires fits { length key.now ≤ MAX_KEY_BYTES }
    ensures { IfOk result (λ yes. IsTrue yes ↔ Sometime span.from span.to (Lacks log.now.deltas.now key.now)) }
{
    let key = key_of(alloc, key)?;
    Ok(lacks_between(log.versions.of_key(&key), span.from, span.to))
}

fn shows(
    alloc: Global,
    log: &Log<'_>,
    span: Span,
    key: &Bytes,
    asked: &[u8],
    answer: &Row,
) -> Result<bool, NoMemory>
    requires read { IsRead log.now.deltas.now log.now.versions }
    requires rises { span.from ≤ span.to }
    requires fits { length key.now ≤ MAX_KEY_BYTES }
    ensures { IfOk result (λ yes. IsTrue yes
        ↔ Sometime span.from span.to (Shows log.now.deltas.now key.now asked.now answer.now)) }
{
    let key = key_of(alloc, key)?;
    Ok(shows_between(log.versions.of_key(&key), span.from, span.to, asked, answer))
}

fn gives(
    alloc: Global,
    log: &Log<'_>,
    span: Span,
    start: &Bytes,
    limit: u16,
    columns: &[u8],
    pairs: &[(Key, Row)],
) -> Result<bool, NoMemory>
    requires read { IsRead log.now.deltas.now log.now.versions }
    requires rises { span.from ≤ span.to }
    requires fits { length start.now ≤ MAX_KEY_BYTES }
    ensures { IfOk result (λ yes. IsTrue yes
        ↔ IsRangeAnswer (λ key answer. Sometime span.from span.to (Shows log.now.deltas.now key columns.now answer))
        (λ key. Throughout span.from span.to (Stands log.now.deltas.now key)) start.now limit pairs.now) }
{
    let start = key_of(alloc, start)?;
    let asked = Asked {
        start: &start,
        limit,
        columns,
    };
    if pairs.len() > limit as usize {
        return Ok(false);
    }
    Ok(walk(&log.versions, &asked, span, pairs))
}

/// Whether an answer is right for a call over a span. A get costs O(log n + m) in the keys and its key's versions in
/// the span; a put or remove O(1) and the row that it makes; a range O(log n + m) in the keys and those that it covers,
/// with their versions in the span.
pub(crate) fn is_right_answer(
    alloc: Global,
    log: &Log<'_>,
    span: Span,
    request: &Request,
    answer: &Answer,
) -> Result<bool, NoMemory>
    requires read { IsRead log.now.deltas.now log.now.versions }
    requires rises { span.from ≤ span.to }
    requires fits { request_fault log.now.columns request.now ≡ None }
    ensures { IfOk result (λ yes. IsTrue yes
        ↔ IsRightAnswer log.now.columns log.now.deltas.now span.from span.to request.now answer.now) }
{
    match request {
        Request::Get { key, columns } => match answer {
            Answer::Absent => lacks(alloc, log, span, key),
            Answer::Found(row) => shows(alloc, log, span, key, columns.as_slice(), row),
            _ => Ok(false),
        },
        Request::Put { key, sets } => match answer {
            Answer::Stored(number) => {
                is_put_at(alloc, log.columns, log.deltas, span, *number, key, sets)
            }
            _ => Ok(false),
        },
        Request::PutIf { key, sets, version } => match answer {
            Answer::Stored(number) => {
                let put = ConditionalPut {
                    key,
                    sets,
                    version: *version,
                };
                is_conditional_put_at(alloc, log.columns, log.deltas, span, *number, &put)
            }
            _ => Ok(false),
        },
        Request::Remove { key } => match answer {
            Answer::Removed(number) => {
                Ok(is_drop_at(log.columns, log.deltas, span, *number, key))
            }
            Answer::Absent => lacks(alloc, log, span, key),
            _ => Ok(false),
        },
        Request::Range {
            start,
            limit,
            columns,
        } => match answer {
            Answer::Rows(pairs) => gives(
                alloc,
                log,
                span,
                start,
                *limit,
                columns.as_slice(),
                pairs.as_slice(),
            ),
            _ => Ok(false),
        },
        Request::Tidy { .. } | Request::Build { .. } => Ok(false),
    }
}
