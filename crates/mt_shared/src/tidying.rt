//! The tidies that follow a remove: they take out what it has left empty, and what they take out is freed.

ghost use Rattle.std.specs.Prelude.{◌≡◌};
ghost use Rattle.mt_index.specs.Alone.{IsQuiet};
ghost use Rattle.mt_shared.specs.Inner.{IsInner};
ghost use Rattle.mt_shared.specs.Tidies.{Frees, Looks, PurgesIfEmptied, TidiesAll, TidiesOnce, has_taken_out, takes_out};

use crate::driving::{NoGate, Shared, drive};
use crate::inner::Inner;
use crate::pass::Pass;
use mt_types::copying::TryCopy;
use mt_types::event::{Answer, Event, Reply, Request, TidyRule};
use mt_types::key::Key;
use mt_types::refusal::Refusal;
use mt_walk::is_emptied;
use mt_walk::place::MAX_TIDIES;
use std::alloc::Global;

impl Inner {
    /// Returns whether tidies are to follow a remove of `key`: if they follow removes here, and the border of the key is
    /// empty. While a put, remove or tidy is open, the border isn't looked at, and counts as empty. Makes no event.
    ///
    /// Costs the visit of each node on the way to the key. Allocates nothing.
    pub(crate) fn is_emptied(&self, key: &Key) -> bool
        ensures looks { Looks self.now key.now result }
        ensures kept { IsInner self.now }
    {
        let _kept = self.columns();
        if !self.tidies {
            return false;
        }
        let _stands = self.machine.is_idle();
        if !self.machine.is_quiet() {
            return true;
        }
        is_emptied(self.machine.tree(), key)
    }
}

fn takes_out(answer: &Answer) -> bool
    ensures { result ≡ takes_out answer.now }
{
    match answer {
        Answer::Tidied(TidyRule::Nothing) => false,
        Answer::Tidied(_) => true,
        _ => false,
    }
}

fn has_taken_out(ended: &Result<Reply, Refusal>) -> bool
    ensures { result ≡ has_taken_out ended.now }
{
    match ended {
        Ok(reply) => takes_out(&reply.answer),
        Err(_) => false,
    }
}

// Drives a tidy at the place of a key. Returns whether it has taken something out.
fn tidy_once<S: Shared>(alloc: Global, shared: &mut S, pass: &mut Pass, key: &Key) -> bool
    ensures { TidiesOnce S.does shared.old pass.old key.now result shared.new pass.new }
{
    let Ok(copied) = key.copy(alloc) else {
        return false;
    };
    let key = copied.into_bytes();
    let ended = drive(alloc, shared, pass, &mut NoGate, Request::Tidy { key });
    has_taken_out(&ended)
}

// Drives tidies at the place of a key, one after the other, until one takes nothing out, or a look says that the border
// there isn't empty any more.
fn tidy_all<S: Shared>(alloc: Global, shared: &mut S, pass: &mut Pass, key: &Key)
    ensures { TidiesAll S.does S.looks shared.old pass.old key.now shared.new pass.new }
{
    for _ in 0..MAX_TIDIES {
        if !tidy_once(alloc, shared, pass, key) {
            return;
        }
        if !shared.is_emptied(key) {
            return;
        }
    }
}

// Advances the epoch, and frees the nodes that no open call can still visit, by two events. A call that begins later
// doesn't keep the nodes that tidies have just taken out.
fn free<S: Shared>(alloc: Global, shared: &mut S, pass: &mut Pass)
    ensures { Frees S.does shared.old pass.old shared.new pass.new }
{
    let _next = shared.event(alloc, pass, &Event::Advance);
    let _freed = shared.event(alloc, pass, &Event::Collect);
}

/// If a look says that the border of `key` is empty, drives tidies at its place, at most `MAX_TIDIES`, until one takes
/// nothing out or the border isn't empty any more, and then frees the nodes that no open call can still visit. No row
/// changes.
pub(crate) fn tidy_after<S: Shared>(alloc: Global, shared: &mut S, pass: &mut Pass, key: &Key)
    ensures { PurgesIfEmptied S.does S.looks shared.old pass.old key.now shared.new pass.new }
{
    if !shared.is_emptied(key) {
        return;
    }
    tidy_all(alloc, shared, pass, key);
    free(alloc, shared, pass);
}
