//! Calls as a caller makes them: a get or a range is read at once if it may be, and every other call is driven.

ghost use Rattle.std.specs.Prelude.{◌≡◌, ◌≤◌, IfOk, IfSome, MatchOption};
ghost use Rattle.mt_types.specs.Limited.{AnswerIsLimited};
ghost use Rattle.mt_shared.specs.Drives.{IsReplyTo};
ghost use Rattle.mt_shared.specs.Reads.{IsCall, IsReadAnswer, IsReadNow, IsToldNow, MustDrive};

use crate::driving::{NoGate, Shared, drive};
use crate::pass::Pass;
use crate::reads::is_read;
use mt_types::event::{Answer, Reply, Request};
use mt_types::numbers::CallNo;
use mt_types::refusal::Refusal;
use std::alloc::Global;

// Returns the reply that a pass gets of a read at once.
fn reply_now(pass: &mut Pass, read: Result<(u64, Answer), Refusal>) -> Result<Reply, Refusal>
    ensures told { IsToldNow pass.old read result pass.new }
{
    let (at, answer) = read?;
    if at < pass.seen() {
        return Err(Refusal::WrongPass);
    }
    pass.see(at);
    Ok(Reply {
        pass: pass.number(),
        call: CallNo(0),
        from: at,
        to: at,
        answer,
    })
}

/// Reads a get or a range at once, and returns the reply of the pass. Returns `None` if the request is another one, or
/// may not be read at once: if a put, remove or tidy is open, or the index keeps a trace. Makes no event. The reply is of
/// call 0, and begins and ends at the number of commits at that moment.
///
/// Over a door it holds the lock once, together with other reads.
///
/// Costs what `Machine::get` or `Machine::range` costs.
///
/// # Errors
///
/// The limits that the request breaks, `NoMemory`, and `WrongPass` if there are fewer commits than the pass had seen:
/// then the pass is of another index.
pub fn read_at_once<S: Shared>(
    alloc: Global,
    shared: &S,
    pass: &mut Pass,
    request: &Request,
) -> Option<Result<Reply, Refusal>>
    ensures reads { MatchOption result
        (MustDrive S.shows shared.now pass.old.number request.now × (pass.new ≡ pass.old))
        (λ ended. IsReadNow S.shows shared.now pass.old request.now ended shared.now pass.new) }
    ensures answer { IfSome result (λ ended. IfOk ended (λ reply. IsReadAnswer reply.answer)) }
    ensures limited { IfSome result (λ ended. IfOk ended (λ reply. AnswerIsLimited reply.answer)) }
{
    if !is_read(request) {
        return None;
    }
    match shared.read(alloc, pass.number(), request) {
        Some(read) => Some(reply_now(pass, read)),
        None => None,
    }
}

/// Makes one call of a pass, and returns its reply. A get or a range is read at once if it may be, as [`read_at_once`]
/// does. Otherwise it is driven from its begin to its end, as [`drive`] does, and so is every other call.
///
/// # Errors
///
/// Those of [`read_at_once`] and [`drive`].
pub fn ask<S: Shared>(
    alloc: Global,
    shared: &mut S,
    pass: &mut Pass,
    request: Request,
) -> Result<Reply, Refusal>
    ensures call { IsCall S.does S.shows shared.old pass.old request result shared.new pass.new }
    ensures reply { IfOk result (λ reply. IsReplyTo pass.old reply pass.new) }
    ensures number { pass.new.number ≡ pass.old.number }
    ensures seen { pass.old.seen ≤ pass.new.seen }
    ensures limited { IfOk result (λ reply. AnswerIsLimited reply.answer) }
{
    match read_at_once(alloc, shared, pass, &request) {
        Some(ended) => ended,
        None => drive(alloc, shared, pass, &mut NoGate, request),
    }
}
