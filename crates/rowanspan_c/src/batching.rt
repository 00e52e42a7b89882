//! Batches that C passes: each change is of one shape, whether it is a put or a remove.

ghost use Rattle.std.specs.Prelude.{◌≡◌, IfOk, IfErr, map};
ghost use Rattle.rowanspan_c.specs.Batches.{BatchEnds, HandsOutNumbers, TellsBatch, change_of};

use crate::handing::tell_refusal;
use crate::status::{BAD_BATCH, DONE, UNMET};
use mt_asked::borrowed::Set;
use mt_batch::batch::{BatchError, Batched, Change, Condition, MAX_BATCH};
use mt_map::map::Map;
use mt_types::refusal::Refusal;
use std::alloc::Global;

/// One of the changes of a batch that a call is passed: a put of `sets`, or a remove, which has none.
#[repr(C)]
#[derive(Clone, Copy)]
pub struct BorrowedChange<'a> {
    pub key: &'a [u8],
    pub sets: &'a [Set<'a>],
    pub removes: bool,
}

// The change as a batch has it.
fn change_of<'a>(change: &BorrowedChange<'a>) -> Change<'a>
    ensures { result ≡ change_of change.now }
{
    let BorrowedChange { key, sets, removes } = *change;
    if removes {
        Change::Remove { key }
    } else {
        Change::Put { key, sets }
    }
}

// The changes as a batch has them.
fn changes_of<'a>(alloc: Global, changes: &[BorrowedChange<'a>]) -> Result<Vec<Change<'a>>, Refusal>
    ensures changes { IfOk result (λ made. made.items ≡ map change_of changes.now) }
    ensures fault { IfErr result (λ refusal. refusal ≡ Refusal.NoMemory) }
{
    let mut made = Vec::new(alloc);
    for change in changes {
        made.push(change_of(change))?;
    }
    Ok(made)
}

/// Makes a batch of a map.
#[tactic(auto, using(crate::proofs::BatchLemmas::ends_too_long, crate::proofs::BatchLemmas::ends_unmade, crate::proofs::BatchLemmas::ends_as_map))]
pub(crate) fn make(
    alloc: Global,
    index: &mut Map,
    conditions: &[Condition<'_>],
    changes: &[BorrowedChange<'_>],
) -> Result<Batched, BatchError>
    ensures { BatchEnds index.old conditions.now (map change_of changes.now) result index.new }
{
    if changes.len() > MAX_BATCH {
        return Err(BatchError::BadBatch);
    }
    match changes_of(alloc, changes) {
        Ok(changes) => index.batch(conditions, &changes),
        Err(refusal) => Err(BatchError::Refused(refusal)),
    }
}

// Copies the numbers of commits into the buffer, as far as it has room for them.
fn hand_out(numbers: &[u64], into: &mut [u64])
    ensures { HandsOutNumbers numbers.now into.old into.new }
{
    let room = numbers.len().min(into.len());
    let (front, _rest) = into.split_at_mut(room);
    let (numbers, _more) = numbers.split_at(room);
    front.copy_from_slice(numbers);
}

/// Reports what a batch came to.
pub(crate) fn tell_batch(
    came: Result<Batched, BatchError>,
    numbers: &mut [u64],
    told: &mut u64,
    found: &mut u64,
) -> u16
    ensures { TellsBatch came numbers.old numbers.new result told.new found.new }
{
    *found = 0;
    match came {
        Ok(Batched::Made(made)) => {
            hand_out(&made.numbers, numbers);
            *told = made.to;
            DONE
        }
        Ok(
            Batched::Unmet {
                place,
                found: version,
            },
        ) => {
            *told = place as u64;
            *found = version;
            UNMET
        }
        Err(BatchError::BadBatch) => {
            *told = 0;
            BAD_BATCH
        }
        Err(BatchError::Refused(refusal)) => tell_refusal(refusal, told),
    }
}
