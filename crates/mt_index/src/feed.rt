//! The feed: the deltas of the commits after a number, for a reader of the log.

ghost use Rattle.std.specs.Prelude.{◌≡◌, IfOk, IfErr, MatchOption, Err};
ghost use Rattle.mt_index.specs.Feed.{feed_fault, deltas_after};

use mt_commit::log::Log;
use mt_types::copying::TryCopy;
use mt_types::limits::limit_fault;
use mt_types::refusal::Refusal;
use mt_types::row::Delta;
use std::alloc::Global;

// Why a feed is refused, if it is refused for something else than lack of memory.
fn feed_fault(log: &Log, from: u64, limit: u16) -> Option<Refusal>
    ensures { result ≡ feed_fault log.now from limit }
{
    if let Some(refusal) = limit_fault(limit) {
        return Some(refusal);
    }
    let held_after = log.held_after();
    (from < held_after).then_some(Refusal::Behind(held_after))
}

/// Returns the deltas of the commits after the first `from`, at most `limit`, in their order. O(n) in these deltas,
/// with an allocation or two for each; their list grows by doubling.
///
/// # Errors
///
/// `BadLimit` unless `limit` is from 1 to `MAX_RANGE`; `Behind` if the log lacks the delta after `from` or a later one,
/// with the number after which it has them; `NoMemory` if an allocation is refused.
pub(crate) fn deltas_after(
    alloc: Global,
    log: &Log,
    from: u64,
    limit: u16,
) -> Result<Vec<Delta>, Refusal>
    ensures fault { MatchOption (feed_fault log.now from limit) (IfErr result (λ refusal. refusal ≡ Refusal.NoMemory))
        (λ refusal. result ≡ Err refusal) }
    ensures deltas { IfOk result (λ deltas. deltas.items ≡ deltas_after log.now from limit) }
{
    if let Some(refusal) = feed_fault(log, from, limit) {
        return Err(refusal);
    }
    let count = log.number().saturating_sub(from).min(limit as u64);
    let mut deltas = Vec::new(alloc);
    for done in 0..count {
        deltas.push(log.delta(from + done + 1).copy(alloc)?)?;
    }
    Ok(deltas)
}
