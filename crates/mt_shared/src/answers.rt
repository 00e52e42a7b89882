//! What a client's method returns of the reply to its call.

ghost use Rattle.std.specs.Prelude.{◌≡◌};
ghost use Rattle.std.specs.Range.Bound.{bound_map};
ghost use Rattle.mt_shared.specs.Clients.{built_of, first_key, first_of, removed_of, row_of, rows_of, rows_within, stored_of, there_of, tidied_of, valued};

use mt_asked::bounds::{Bounds, pairs_within};
use mt_types::event::{Answer, TidyRule};
use mt_types::key::Key;
use mt_types::numbers::ViewNo;
use mt_types::refusal::Refusal;
use mt_types::row::{Pairs, Row};

/// An answer, and the numbers of commits between which it was true: it is that of the rows after some number of commits
/// from `from` to `to`. A change is the last of the commits up to `to` that this client has made.
#[derive(Debug, Drop)]
pub struct At<T> {
    /// The answer.
    pub value: T,
    /// The number of commits when the call began.
    pub from: u64,
    /// The number of commits when the call ended.
    pub to: u64,
}

// Returns a value with its numbers of commits. Without a value the answer was of another kind.
pub(crate) fn answer_at<T>(from: u64, to: u64, value: Option<T>) -> Result<At<T>, Refusal>
    ensures { result ≡ valued value from to }
{
    match value {
        Some(value) => Ok(At { value, from, to }),
        None => Err(Refusal::WrongPass),
    }
}

pub(crate) fn row_of(answer: Answer) -> Option<Option<Row>>
    ensures { result ≡ row_of answer }
{
    match answer {
        Answer::Absent => Some(None),
        Answer::Found(row) => Some(Some(row)),
        _ => None,
    }
}

pub(crate) fn there_of(answer: Answer) -> Option<bool>
    ensures { result ≡ there_of answer }
{
    match answer {
        Answer::Absent => Some(false),
        Answer::Found(_) => Some(true),
        _ => None,
    }
}

pub(crate) fn stored_of(answer: Answer) -> Option<u64>
    ensures { result ≡ stored_of answer }
{
    match answer {
        Answer::Stored(commit) => Some(commit),
        _ => None,
    }
}

pub(crate) fn removed_of(answer: Answer) -> Option<Option<u64>>
    ensures { result ≡ removed_of answer }
{
    match answer {
        Answer::Absent => Some(None),
        Answer::Removed(commit) => Some(Some(commit)),
        _ => None,
    }
}

pub(crate) fn rows_of(answer: Answer) -> Option<Pairs>
    ensures { result ≡ rows_of answer }
{
    match answer {
        Answer::Rows(pairs) => Some(pairs),
        _ => None,
    }
}

// Returns the key of the first pair.
pub(crate) fn first_key(pairs: Pairs) -> Option<Key>
    ensures { result ≡ first_key pairs }
{
    let mut pairs = pairs.into_vec();
    if pairs.is_empty() {
        return None;
    }
    let (key, _row) = pairs.swap_remove(0);
    Some(key)
}

// Returns the key of the first pair of a range.
pub(crate) fn first_of(answer: Answer) -> Option<Option<Key>>
    ensures { result ≡ first_of answer }
{
    match answer {
        Answer::Rows(pairs) => Some(first_key(pairs)),
        _ => None,
    }
}

pub(crate) fn tidied_of(answer: Answer) -> Option<TidyRule>
    ensures { result ≡ tidied_of answer }
{
    match answer {
        Answer::Tidied(rule) => Some(rule),
        _ => None,
    }
}

pub(crate) fn built_of(answer: Answer) -> Option<ViewNo>
    ensures { result ≡ built_of answer }
{
    match answer {
        Answer::Built(view) => Some(view),
        _ => None,
    }
}

// Returns those of the pairs of an answer whose keys are within bounds.
pub(crate) fn rows_within(bounds: Bounds<'_>, answer: Answer) -> Option<Pairs>
    ensures { result ≡ rows_within (bound_map (λ key. key.now) bounds.entry.0)
        (bound_map (λ key. key.now) bounds.entry.1) answer }
{
    match rows_of(answer) {
        Some(pairs) => Some(pairs_within(bounds, pairs)),
        None => None,
    }
}
