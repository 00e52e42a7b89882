//! Calls after which views are kept up: a call and the turns of its views, in one holding of the lock if it is short.

ghost use Rattle.std.specs.Prelude.{◌≡◌, ◌≤◌, ◌<◌, ◌⊎◌, IfOk, IsFalse, IsTrue, false, true};
ghost use Rattle.mt_types.specs.Limited.{AnswerIsLimited};
ghost use Rattle.mt_shared.specs.Changes.{ChangeIsLimited, ChangesFully, IsChanged, IsDriveKept, KeepsViews, has_changed, is_change};
ghost use Rattle.mt_shared.specs.Inner.{Does, IsInner};
ghost use Rattle.mt_shared.specs.Tidies.{IsDriveTidied};

use crate::driving::{NoGate, Shared, Started, finish};
use crate::inner::Inner;
use crate::pass::Pass;
use crate::tidying::tidy_after;
use crate::views::keep_views;
use mt_types::event::{Answer, Outcome, Reply, Request};
use mt_types::refusal::Refusal;
use mt_walk::place::place_of;
use std::alloc::Global;

/// How a call was started after which views are to be kept up.
#[derive(Debug, Drop)]
pub enum Changed {
    /// It was started, and no more.
    Started(Started),
    /// It was started, its run ended it by a change with this reply, and views were then kept up.
    Ended(Reply),
}

// Returns whether a row was changed or a view was built, so that views may be behind.
fn is_change(answer: &Answer) -> bool
    ensures { result ≡ is_change answer.now }
{
    matches!(
        answer,
        Answer::Stored(_) | Answer::Removed(_) | Answer::Built(_)
    )
}

// Returns whether a reply is of a change, and begins no earlier than after this many commits.
fn is_change_since(reply: &Reply, seen: u64) -> bool
    ensures since { IsTrue result → (seen ≤ reply.now.from) × (is_change reply.now.answer ≡ true) }
    ensures before { IsFalse result → (reply.now.from < seen) ⊎ (is_change reply.now.answer ≡ false) }
{
    seen <= reply.from && is_change(&reply.answer)
}

fn has_changed(ended: &Result<Reply, Refusal>) -> bool
    ensures { result ≡ has_changed ended.now }
{
    match ended {
        Ok(reply) => is_change(&reply.answer),
        Err(_) => false,
    }
}

impl Inner {
    // Advances the view that is furthest behind, in at most `turns` turns.
    fn keep(&mut self, alloc: Global, pass: &mut Pass, turns: u64)
        ensures keeps { KeepsViews Does self.old pass.old turns self.new pass.new }
        ensures kept { IsInner self.old × IsInner self.new }
    {
        let _kept = self.columns();
        for _ in 0..turns {
            match self.turn(alloc, pass) {
                Outcome::Applied(_) => {}
                _ => return,
            }
        }
    }

    /// Begins a call of a pass, as [`Inner::begin`] does. If the run ends it by a change, views are then kept up, in at
    /// most `turns` turns. A turn that is refused changes nothing.
    pub(crate) fn change(
        &mut self,
        alloc: Global,
        pass: &mut Pass,
        request: Request,
        most: u64,
        turns: u64,
    ) -> Changed
        ensures changes { IsChanged Does self.old pass.old request turns result self.new pass.new }
        ensures fully { ChangesFully self.old pass.old most result self.new pass.new }
        ensures limited { ChangeIsLimited result }
        ensures kept { IsInner self.old × IsInner self.new }
    {
        let seen = pass.seen();
        match self.begin(alloc, pass, request, most) {
            Started::Ran(call, Outcome::Done(reply)) => {
                if !is_change_since(&reply, seen) {
                    return Changed::Started(Started::Ran(call, Outcome::Done(reply)));
                }
                self.keep(alloc, pass, turns);
                Changed::Ended(reply)
            }
            started => Changed::Started(started),
        }
    }
}

// Makes one call of a pass, and keeps up views.
fn drive_and_turn<S: Shared>(
    alloc: Global,
    shared: &mut S,
    pass: &mut Pass,
    request: Request,
    turns: u64,
) -> Result<Reply, Refusal>
    ensures kept { IsDriveKept S.does shared.old pass.old request turns result shared.new pass.new }
    ensures limited { IfOk result (λ reply. AnswerIsLimited reply.answer) }
{
    let seen = pass.seen();
    let started = match shared.change(alloc, pass, request, turns) {
        Changed::Started(started) => started,
        Changed::Ended(reply) => return Ok(reply),
    };
    let ended = finish(alloc, shared, pass, &mut NoGate, started, seen);
    if has_changed(&ended) {
        let _kept = keep_views(alloc, shared, pass, turns);
    }
    ended
}

/// Makes one call of a pass, as [`crate::driving::drive`] does without a gate. If it has changed a row or built a view,
/// views are then kept up, as [`keep_views`] does, in at most `turns` turns. A turn that is refused changes nothing:
/// views are kept up again after a later change.
///
/// If it has removed a row, tidies follow removes here (`Options`), and the border of the key is then empty, tidies at
/// its place follow, at most `MAX_TIDIES`, until one takes nothing out or the border isn't empty any more. The nodes are
/// then freed that no open call can still visit. So memory comes back as rows are removed. What the tidies come to
/// changes nothing of the reply.
///
/// Over a `Door` the lock is held once for the call and the turns, if the call ends in its first run. After a
/// remove it is held once more, together with other reads, for a look at the border.
///
/// # Errors
///
/// Those of [`crate::driving::drive`]. Also `NoMemory` if memory for a copy of the key of a remove is refused: then
/// nothing has happened.
pub fn drive_and_keep<S: Shared>(
    alloc: Global,
    shared: &mut S,
    pass: &mut Pass,
    request: Request,
    turns: u64,
) -> Result<Reply, Refusal>
    ensures kept { IsDriveTidied S.does S.looks shared.old pass.old request turns result shared.new pass.new }
    ensures limited { IfOk result (λ reply. AnswerIsLimited reply.answer) }
{
    let place = place_of(&request)?;
    let ended = drive_and_turn(alloc, shared, pass, request, turns);
    if has_changed(&ended) {
        if let Some(place) = place {
            tidy_after(alloc, shared, pass, &place);
        }
    }
    ended
}
