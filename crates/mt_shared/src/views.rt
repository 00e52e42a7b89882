//! What a pass does with views: it reads a page of one, drops one, or advances them all.

ghost use Rattle.std.specs.Prelude.{◌≡◌, ◌+◌, ◌≤◌, IfOk, IfErr};
ghost use Rattle.mt_types.specs.declared.event.Event.TheVariants.{Apply, ViewDrop};
ghost use Rattle.mt_types.specs.Limited.{PageIsLimited};
ghost use Rattle.mt_shared.specs.Passes.{IsTold};
ghost use Rattle.mt_shared.specs.Pages.{PageIsRead};
ghost use Rattle.mt_shared.specs.Turns.{apply_outcome, drop_outcome, furthest, KeepsUp, IsStopped};

use crate::driving::Shared;
use crate::pass::Pass;
use bytes::Bytes;
use mt_types::event::{Event, Outcome};
use mt_types::numbers::ViewNo;
use mt_types::refusal::Refusal;
use mt_types::view::Page;
use std::alloc::Global;

/// Reads a page of a view: its count, its sums, and its first rows whose keys are at or after `start`, at most `limit`.
/// The page is read at once, together with other reads; it makes one event if a trace is kept. The page is at `floor` commits or more. A caller that wants a page no older than what its pass has
/// seen passes `pass.seen()`. What a page shows isn't counted as seen.
///
/// Costs O(log n + k) for a page of k rows, which share the bytes of the view's.
///
/// # Errors
///
/// `KeyTooLong`; `BadLimit` unless `limit` is from 1 to `MAX_RANGE`; `NoSuchView` if no view has this number; `Behind`
/// if the view is at fewer than `floor` commits; `NoMemory` if an allocation is refused. `WrongPass` and `Spent` as for
/// any event of a pass.
pub fn view_read<S: Shared>(
    alloc: Global,
    shared: &mut S,
    pass: &mut Pass,
    view: ViewNo,
    floor: u64,
    start: Bytes,
    limit: u16,
) -> Result<Page, Refusal>
    ensures read { PageIsRead S.does S.pages shared.old pass.old view floor start limit result shared.new pass.new }
    ensures number { pass.new.number ≡ pass.old.number }
    ensures seen { pass.old.seen ≤ pass.new.seen }
    ensures floor { IfOk result (λ page. floor ≤ page.at) }
    ensures limited { IfOk result PageIsLimited }
{
    if let Some(read) = shared.page(alloc, pass.number(), view, floor, &start, limit) {
        return read;
    }
    let read = Event::ViewRead {
        view,
        floor,
        start,
        limit,
    };
    match shared.event(alloc, pass, &read) {
        Outcome::View(page) => Ok(page),
        Outcome::Refused(refusal) => Err(refusal),
        _ => unreachable!(),
    }
}

/// Drops a view. Makes one event. O(n) in the rows of the view.
///
/// # Errors
///
/// `NoSuchView` if no view has this number. `WrongPass` and `Spent` as for any event of a pass.
pub fn view_drop<S: Shared>(
    alloc: Global,
    shared: &mut S,
    pass: &mut Pass,
    view: ViewNo,
) -> Result<(), Refusal>
    ensures event { S.does shared.old pass.old (ViewDrop view) (drop_outcome result) shared.new pass.new }
    ensures told { IsTold pass.old (ViewDrop view) (drop_outcome result) pass.new }
{
    match shared.event(alloc, pass, &Event::ViewDrop(view)) {
        Outcome::Dropped => Ok(()),
        Outcome::Refused(refusal) => Err(refusal),
        _ => unreachable!(),
    }
}

/// Advances a view by one commit; for `ViewNo(0)` the view that is furthest behind. Makes one event. Returns the number of
/// commits at which the view then is, or `None` if it was at the newest commit, or if `view` is 0 and no view is behind.
/// O(log n) in the rows of the view.
///
/// # Errors
///
/// `NoSuchView` if no view has this number; `NoMemory` if an allocation is refused. `WrongPass` and `Spent` as for any
/// event of a pass. Nothing has changed then.
pub(crate) fn view_apply<S: Shared>(
    alloc: Global,
    shared: &mut S,
    pass: &mut Pass,
    view: ViewNo,
) -> Result<Option<u64>, Refusal>
    ensures event { S.does shared.old pass.old (Apply view) (apply_outcome result) shared.new pass.new }
    ensures told { IsTold pass.old (Apply view) (apply_outcome result) pass.new }
{
    match shared.event(alloc, pass, &Event::Apply(view)) {
        Outcome::Applied(number) => Ok(Some(number)),
        Outcome::Current => Ok(None),
        Outcome::Refused(refusal) => Err(refusal),
        _ => unreachable!(),
    }
}

/// Advances views: each turn advances the view at the fewest commits by one commit, until all views are at the newest
/// commit or `turns` turns were made. Each turn is one event, and costs O(log n) in the rows of its view. Returns how
/// many turns have advanced a view. If they are fewer than `turns`, all views were at the newest commit at the last
/// turn.
///
/// Over a `Door` each turn holds the lock once, so events of other threads can come between them.
///
/// # Errors
///
/// The refusal of a turn: `NoMemory` if an allocation is refused; `WrongPass` and `Spent` as for any event of a pass.
/// The turns before it have advanced their views.
pub fn keep_views<S: Shared>(
    alloc: Global,
    shared: &mut S,
    pass: &mut Pass,
    turns: u64,
) -> Result<u64, Refusal>
    ensures kept { IfOk result (λ applied. KeepsUp S.does shared.old pass.old turns applied shared.new pass.new) }
    ensures refused { IfErr result (λ refusal. IsStopped S.does shared.old pass.old turns refusal shared.new pass.new) }
    ensures few { pass.new.events ≤ pass.old.events + turns }
    ensures number { pass.new.number ≡ pass.old.number }
    ensures seen { pass.new.seen ≡ pass.old.seen }
{
    let mut applied = 0;
    for _ in 0..turns {
        match take_turn(alloc, shared, pass) {
            Outcome::Applied(_) => applied += 1,
            Outcome::Current => return Ok(applied),
            Outcome::Refused(refusal) => return Err(refusal),
            _ => unreachable!(),
        }
    }
    Ok(applied)
}

// Advances the view at the fewest commits by one commit.
fn take_turn<S: Shared>(alloc: Global, shared: &mut S, pass: &mut Pass) -> Outcome
    ensures does { S.does shared.old pass.old furthest result shared.new pass.new }
    ensures told { IsTold pass.old furthest result pass.new }
{
    shared.event(alloc, pass, &Event::Apply(ViewNo(0)))
}
