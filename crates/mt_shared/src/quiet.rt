//! Reads of one moment, which are answered while no put, remove or tidy is open.

ghost use Rattle.std.specs.Prelude.{IfOk, IfSome};
ghost use Rattle.mt_reads.specs.Quiet.{QuietAnswerIsLimited};
ghost use Rattle.mt_shared.specs.Inner.{IsInner};
ghost use Rattle.mt_shared.specs.Quiet.{IsQuietRead, IsToldQuiet, QuietReadsNow};

use crate::answers::At;
use crate::driving::Shared;
use crate::inner::Inner;
use crate::pass::Pass;
use mt_reads::quiet::{QuietAnswer, QuietRead, read_quiet as read_machine};
use mt_types::refusal::Refusal;
use std::alloc::Global;
use std::thread;

// How often a read is tried while a put, remove or tidy of another thread is open, before it is tried for the last time.
const TRIES: u32 = 10_000;

impl Inner {
    /// Reads of this moment (`mt_reads::read_quiet`), and returns the number of commits and the answer. Returns `None` if
    /// a put, remove or tidy is open. Makes no event, and changes nothing.
    ///
    /// # Errors
    ///
    /// Those of `mt_reads::read_quiet`.
    pub(crate) fn read_quiet(
        &self,
        alloc: Global,
        read: &QuietRead,
    ) -> Option<Result<(u64, QuietAnswer), Refusal>>
        ensures reads { QuietReadsNow self.now read.now result }
        ensures limited { IfSome result (λ found. IfOk found (λ now. QuietAnswerIsLimited now.1)) }
        ensures kept { IsInner self.now }
    {
        let at = self.machine.commits();
        if !self.machine.is_quiet() {
            return None;
        }
        match read_machine(alloc, &self.machine, read) {
            Ok(answer) => Some(Ok((at, answer))),
            Err(refusal) => Some(Err(refusal)),
        }
    }
}

// Reads, and tries again while a change of another thread is open.
fn read_soon<S: Shared>(
    alloc: Global,
    shared: &S,
    read: &QuietRead,
) -> Option<Result<(u64, QuietAnswer), Refusal>>
    ensures reads { S.glances shared.now read.now result }
    ensures limited { IfSome result (λ found. IfOk found (λ now. QuietAnswerIsLimited now.1)) }
{
    for _ in 0..TRIES {
        let found = shared.read_quiet(alloc, read);
        if found.is_some() {
            return found;
        }
        thread::yield_now();
    }
    shared.read_quiet(alloc, read)
}

// Returns what a pass gets of a read.
fn answer_now(
    pass: &mut Pass,
    found: Result<(u64, QuietAnswer), Refusal>,
) -> Result<At<QuietAnswer>, Refusal>
    ensures told { IsToldQuiet pass.old found result pass.new }
    ensures limited { IfOk found (λ now. QuietAnswerIsLimited now.1) → IfOk result (λ at. QuietAnswerIsLimited at.value) }
{
    let (at, value) = found?;
    if at < pass.seen() {
        return Err(Refusal::WrongPass);
    }
    pass.see(at);
    Ok(At {
        value,
        from: at,
        to: at,
    })
}

/// Reads of one moment for a pass, and returns the answer with the number of commits. A read that meets a put, remove or
/// tidy of another thread is tried again, after other threads ran: ten thousand times. Returns `None` if such a change is
/// open even then. Makes no event.
///
/// Over a door it holds the lock once for each try, together with other reads.
///
/// # Errors
///
/// Those of `mt_reads::read_quiet`, and `WrongPass` if there are fewer commits than the pass had seen: then the pass is of
/// another index.
pub fn read_quiet<S: Shared>(
    alloc: Global,
    shared: &S,
    pass: &mut Pass,
    read: &QuietRead,
) -> Option<Result<At<QuietAnswer>, Refusal>>
    ensures reads { IsQuietRead S.glances shared.now pass.old read.now result pass.new }
    ensures limited { IfSome result (λ ended. IfOk ended (λ at. QuietAnswerIsLimited at.value)) }
{
    match read_soon(alloc, shared, read) {
        Some(found) => Some(answer_now(pass, found)),
        None => None,
    }
}
