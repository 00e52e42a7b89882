//! What a call returns to its caller: a status, a number, and the bytes in its buffer.

ghost use Rattle.mt_types.specs.Limited.{RowIsLimited};
ghost use Rattle.mt_types.specs.Rows.{shown};
ghost use Rattle.rowanspan_c.specs.Spelling.{row_spelling};
ghost use Rattle.rowanspan_c.specs.Told.{Tells, TellsRefusal, TellsAnswer, TellsCount, TellsEnd, TellsOutcome, HandsOut, TellsRead};

use crate::placing;
use crate::status::{ABSENT, CURRENT, DONE, NO_ROOM};
use mt_types::event::{Answer, Outcome};
use mt_types::items::Items;
use mt_types::refusal::Refusal;
use mt_types::row::Row;

/// Reports a refusal.
pub(crate) fn tell_refusal(refusal: Refusal, told: &mut u64) -> u16
    ensures { TellsRefusal refusal result told.new }
{
    *told = refusal.detail().unwrap_or(0);
    u16::from(refusal.number())
}

fn tell_answer(answer: &Answer, told: &mut u64) -> u16
    ensures { TellsAnswer answer.now result told.new }
{
    match answer {
        Answer::Absent => {
            *told = 0;
            ABSENT
        }
        Answer::Stored(number) => {
            *told = *number;
            DONE
        }
        Answer::Removed(number) => {
            *told = *number;
            DONE
        }
        Answer::Tidied(rule) => {
            *told = u64::from(rule.number());
            DONE
        }
        Answer::Built(view) => {
            *told = view.0;
            DONE
        }
        Answer::Found(_) => {
            *told = 0;
            DONE
        }
        Answer::Rows(_) => {
            *told = 0;
            DONE
        }
    }
}

/// Reports how a call ended.
pub(crate) fn tell_end(ended: Result<Answer, Refusal>, told: &mut u64) -> u16
    ensures { TellsEnd ended result told.new }
{
    match ended {
        Ok(answer) => tell_answer(&answer, told),
        Err(refusal) => tell_refusal(refusal, told),
    }
}

/// Reports how many times something was done, or why not.
pub(crate) fn tell_count(count: Result<u64, Refusal>, told: &mut u64) -> u16
    ensures { TellsCount count result told.new }
{
    match count {
        Ok(count) => {
            *told = count;
            DONE
        }
        Err(refusal) => tell_refusal(refusal, told),
    }
}

/// Reports the outcome of an event.
pub(crate) fn tell_outcome(outcome: Outcome, told: &mut u64) -> u16
    ensures { TellsOutcome outcome result told.new }
{
    match outcome {
        Outcome::Applied(number) => {
            *told = number;
            DONE
        }
        Outcome::Current => {
            *told = 0;
            CURRENT
        }
        Outcome::Epoch(number) => {
            *told = number;
            DONE
        }
        Outcome::Freed(count) => {
            *told = u64::from(count);
            DONE
        }
        Outcome::Refused(refusal) => tell_refusal(refusal, told),
        Outcome::Call(_)
        | Outcome::Moved
        | Outcome::Again
        | Outcome::Commit(_)
        | Outcome::Done(_)
        | Outcome::View(_)
        | Outcome::Dropped => {
            *told = 0;
            DONE
        }
    }
}

// Copies bytes into the buffer if it has room for them.
fn hand_out(bytes: &[u8], into: &mut [u8], told: &mut u64) -> u16
    ensures { HandsOut bytes.now into.old into.new result told.new }
{
    *told = bytes.len() as u64;
    if bytes.len() > into.len() {
        return NO_ROOM;
    }
    let (front, _rest) = into.split_at_mut(bytes.len());
    front.copy_from_slice(bytes);
    DONE
}

/// Reports that a key has no row.
pub(crate) fn tell_absent(told: &mut u64) -> u16
    ensures { Tells ABSENT 0 result told.new }
{
    *told = 0;
    ABSENT
}

/// Reports a row, with the columns that are asked for: copies it into the buffer if it has room for it.
pub(crate) fn tell_row(row: &Row, asked: &[u8], into: &mut [u8], told: &mut u64) -> u16
    requires { RowIsLimited (shown asked.now row.now) }
    ensures { HandsOut (row_spelling (shown asked.now row.now)) into.old into.new result told.new }
{
    let length = placing::row_length(row, asked);
    *told = length as u64;
    if length > into.len() {
        return NO_ROOM;
    }
    let _end = placing::row(into, row, asked);
    DONE
}

/// Reports the answer to a question.
pub(crate) fn tell_read(
    read: Result<Option<Items<u8>>, Refusal>,
    into: &mut [u8],
    told: &mut u64,
) -> u16
    ensures { TellsRead read into.old into.new result told.new }
{
    match read {
        Ok(Some(bytes)) => hand_out(bytes.as_slice(), into, told),
        Ok(None) => tell_absent(told),
        Err(refusal) => tell_refusal(refusal, told),
    }
}
