//! What is done with the index that a handle holds: it is taken out of the handle, used, and put back.

ghost use Rattle.std.specs.Prelude.{◌≡◌};
ghost use Rattle.mt_asked.specs.Borrowed.{request_of};
ghost use Rattle.mt_map.specs.Views.{IsOutside};
ghost use Rattle.rowanspan_c.specs.Questions.{IsAnswer};
ghost use Rattle.rowanspan_c.specs.Calls.{Changes, KeepsViews, Meets, Reads};

use crate::handing::{tell_count, tell_end, tell_outcome, tell_read};
use crate::handle::Handle;
use crate::reading::{Question, read};
use crate::status::CLOSED;
use mt_asked::asked::Asked;
use mt_types::event::Event;
use std::alloc::Global;

/// The most turns in which views are advanced: more than views can be behind.
pub(crate) const MOST_TURNS: u64 = 18_446_744_073_709_551_615;

/// Makes a change, and reports how it ended.
pub(crate) fn change(handle: &mut Handle, alloc: Global, asked: &Asked<'_>, told: &mut u64) -> u16
    ensures { Changes handle.old.held (request_of asked.now) handle.new.held result told.new }
{
    let Some(mut index) = handle.take(alloc) else {
        *told = 0;
        return CLOSED;
    };
    let ended = index.ask(asked);
    handle.fill(index);
    tell_end(ended, told)
}

/// Answers a question into a buffer. The handle then holds what it held before.
pub(crate) fn answer(
    handle: &mut Handle,
    alloc: Global,
    question: &Question<'_>,
    into: &mut [u8],
    told: &mut u64,
) -> u16
    ensures read { Reads handle.old.held (λ index. IsAnswer index.machine question.now) into.old into.new result told.new }
    ensures kept { handle.new.held ≡ handle.old.held }
{
    let Some(index) = handle.take(alloc) else {
        *told = 0;
        return CLOSED;
    };
    let read = read(alloc, &index, question, into.len());
    handle.fill(index);
    tell_read(read, into, told)
}

/// Makes an event that is no part of a call, and reports its outcome.
pub(crate) fn meet(handle: &mut Handle, alloc: Global, event: &Event, told: &mut u64) -> u16
    requires { IsOutside event.now }
    ensures { Meets handle.old.held event.now handle.new.held result told.new }
{
    let Some(mut index) = handle.take(alloc) else {
        *told = 0;
        return CLOSED;
    };
    let outcome = index.event(event);
    handle.fill(index);
    tell_outcome(outcome, told)
}

/// Advances views until each is at the newest commit, and reports how many times one was advanced.
pub(crate) fn keep_views(handle: &mut Handle, alloc: Global, told: &mut u64) -> u16
    ensures { KeepsViews handle.old.held handle.new.held result told.new }
{
    let Some(mut index) = handle.take(alloc) else {
        *told = 0;
        return CLOSED;
    };
    let kept = index.keep_views(MOST_TURNS);
    handle.fill(index);
    tell_count(kept, told)
}
