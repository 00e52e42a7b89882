//! Views in the machine: how a view is opened, advanced and read, while it holds the log from the number of commits at
//! which it is.

ghost use Rattle.std.specs.Prelude.{ℕ, ◌≡◌, ◌+◌, ◌<◌, ◌≤◌, ◌⊎◌, ◌↔◌, length, IfOk, IfErr, IfSome, IsSome, IsTrue, OnOk, OnErr, MatchOption, Some, Err, true};
ghost use Rattle.std.specs.Map.Iter.{ShowsInOrder, deref_pair};
ghost use Rattle.std.specs.Option.{option_copied};
ghost use Rattle.mt_promise.specs.History.{History, moment};
ghost use Rattle.mt_commit.specs.Laws.{times_held};
ghost use Rattle.mt_types.specs.Numbers.{greatest_number};
ghost use Rattle.mt_types.specs.declared.row.Delta.{Delta as DeltaValue};
ghost use Rattle.mt_commit.specs.Log.{newest, delta_of};
ghost use Rattle.mt_commit.specs.Holders.{with_holder, without_holder};
ghost use Rattle.mt_commit.specs.declared.log.TheConstants.{MAX_HOLDERS};
ghost use Rattle.mt_view.specs.State.{StateView, applied, page_of_state};
ghost use Rattle.mt_view.specs.Views.{state_at, with_state};
ghost use Rattle.mt_commit.specs.Log.{IsLog};
ghost use Rattle.mt_index.specs.Stands.{Stands, Applies, ReadsView, Drops, HasBounds, meant_number, with_view, vacated};
ghost use Rattle.mt_index.specs.Viewing.{TakesView, CopiesView, ListsViews, page_outcome};

use crate::machine::Machine;
use bytes::Bytes;
use mt_commit::log::Log;
use mt_types::copying::TryCopy;
use mt_types::event::Outcome;
use mt_types::key::Key;
use mt_types::limits::page_fault;
use mt_types::numbers::ViewNo;
use mt_types::refusal::{NoMemory, Refusal};
use mt_types::view::Page;
use mt_view::state::ViewState;
use mt_view::views::Views;
use std::alloc::Global;
use std::collections::btree_map::Iter;

// Opens a view in the place of a build. It holds the log from the number of commits at which it is. On an error nothing
// changes.
fn open_view(log: &mut Log, views: &mut Views, state: ViewState) -> Result<u64, Refusal>
    requires place { 0 < views.old.building }
    requires here { log.old.held_after ≤ state.at }
    requires done { state.at ≤ newest log.old }
    requires few { length log.old.holders < MAX_HOLDERS }
    ensures number { IfOk result (λ number. number ≡ views.old.built + 1) }
    ensures unspent { OnOk result (views.old.built < greatest_number) }
    ensures log { OnOk result (log.new ≡ record log.old { holders = with_holder state.at log.old.holders }) }
    ensures views { OnOk result (views.new ≡ with_view state views.old) }
    ensures err { OnErr result ((log.new ≡ log.old) × (views.new ≡ views.old)) }
    ensures why { IfErr result (λ refusal. (refusal ≡ Refusal.NoMemory)
        ⊎ ((refusal ≡ Refusal.Spent) × (greatest_number ≤ views.old.built))) }
{
    if views.is_spent() {
        return Err(Refusal::Spent);
    }
    let at = state.at();
    log.pin(at)?;
    match views.open(state) {
        Ok(number) => Ok(number),
        Err(refusal) => {
            log.unpin(at);
            Err(refusal)
        }
    }
}

/// Ends a build that has taken all, and opens its view with this state. `from` is the number of commits at which the
/// build began: it holds the log from there no longer, also on an error. Returns the number of the view.
///
/// # Errors
///
/// `Spent` if no number is left for the view; `NoMemory` if an allocation is refused. The place of the build is then
/// released.
pub(crate) fn close_build(
    log: &mut Log,
    views: &mut Views,
    from: u64,
    state: ViewState,
) -> Result<u64, Refusal>
    requires place { 0 < views.old.building }
    requires here { log.old.held_after ≤ state.at }
    requires done { state.at ≤ newest log.old }
    requires few { length log.old.holders < MAX_HOLDERS }
    requires held { 0 < times_held from log.old.holders }
    ensures number { IfOk result (λ number. number ≡ views.old.built + 1) }
    ensures unspent { OnOk result (views.old.built < greatest_number) }
    ensures log { OnOk result (log.new
        ≡ record log.old { holders = without_holder from (with_holder state.at log.old.holders) }) }
    ensures views { OnOk result (views.new ≡ with_view state views.old) }
    ensures err_log { OnErr result (log.new ≡ record log.old { holders = without_holder from log.old.holders }) }
    ensures err_views { OnErr result (views.new ≡ vacated true views.old) }
    ensures why { IfErr result (λ refusal. (refusal ≡ Refusal.NoMemory)
        ⊎ ((refusal ≡ Refusal.Spent) × (greatest_number ≤ views.old.built))) }
    ensures sound { IsLog log.new }
{
    match open_view(log, views, state) {
        Ok(number) => {
            log.unpin(from);
            Ok(number)
        }
        Err(refusal) => {
            log.unpin(from);
            views.release();
            Err(refusal)
        }
    }
}

/// Advances the view of this number by the delta of the next commit. `at` is the number of commits at which it is. It
/// then holds the log from the next one. O(log n) in the rows of the view. On an error nothing changes.
///
/// # Errors
///
/// `NoMemory` if an allocation is refused.
pub(crate) fn apply_next(
    log: &mut Log,
    views: &mut Views,
    number: u64,
    at: u64,
) -> Result<(), NoMemory>
    requires there { IsSome (state_at number views.old.views) }
    requires here { log.old.held_after ≤ at }
    requires behind { at < newest log.old }
    requires few { length log.old.holders < MAX_HOLDERS }
    requires held { 0 < times_held at log.old.holders }
    ensures log { OnOk result (log.new
        ≡ record log.old { holders = without_holder at (with_holder (at + 1) log.old.holders) }) }
    ensures sound { IsLog log.new }
    ensures views { OnOk result ((state : StateView) → state_at number views.old.views ≡ Some state
        → TakesView number at log.old views.old state views.new) }
    ensures err { OnErr result ((log.new ≡ log.old) × (views.new ≡ views.old)) }
{
    prove!(at < log.number());
    let next = at + 1;
    log.pin(next)?;
    match views.apply(number, log.delta(next)) {
        Ok(()) => {
            log.unpin(at);
            Ok(())
        }
        Err(_) => {
            log.unpin(next);
            Err(NoMemory)
        }
    }
}

/// Returns a page of the view of this number, which exists: its count, its sums, and its first rows whose keys are at
/// or after `start`, at most `limit`. Shares keys and rows. O(log n + k) for k rows.
///
/// # Errors
///
/// `NoMemory` if an allocation is refused.
pub(crate) fn page(
    alloc: Global,
    views: &Views,
    number: u64,
    start: &Bytes,
    limit: u16,
) -> Result<Page, NoMemory>
    requires { IsSome (state_at number views.now.views) }
    ensures { IfOk result (λ page. (state : StateView) → state_at number views.now.views ≡ Some state
        → page ≡ page_of_state state start.now limit) }
{
    let Ok(start) = Key::new(start.copy(alloc)?) else {
        return Err(NoMemory);
    };
    views.read(number, &start, limit)
}

impl Machine {
    /// Returns whether there is a view. O(log n) in the views.
    pub fn has_views(&self) -> bool
        ensures { IsTrue result ↔ IsSome (meant_number self.now 0) }
    {
        self.views.meant(0).is_some()
    }

    /// Returns the state of a view: the number of commits at which it is, its rows, their count and their sums, of which
    /// nothing is copied. Returns `None` if no view has this number. No event happens. O(log n) in the views.
    pub fn view(&self, view: ViewNo) -> Option<&ViewState>
        ensures view { option_copied result ≡ state_at view.0 self.now.views.views }
        ensures exact { IfSome (option_copied result)
            (λ state. (h : History) → Stands self.now h → CopiesView self.now.columns (moment h) view.0 state) }
    {
        self.views.get(view.0)
    }

    /// Iterates over the views, each with its number, in the order of the numbers. Copies nothing. No event happens.
    pub fn views(&self) -> Iter<'_, u64, ViewState>
        ensures listed { result ≡ self.now.views.views }
        ensures exact { (h : History) → Stands self.now h → ListsViews self.now.columns (moment h) result }
        ensures runs { ShowsInOrder (deref_pair {K = ℕ} {X = StateView}) }
    {
        self.views.iter()
    }

    /// Returns the number of commits at which a view is, and a copy of its state. From there on a caller can advance
    /// the copy by deltas. No event happens. Shares keys and rows. O(n log n) in the rows of the view.
    ///
    /// # Errors
    ///
    /// `NoSuchView` if no view has this number; `NoMemory` if an allocation is refused.
    pub fn view_copy(&self, alloc: Global, view: ViewNo) -> Result<(u64, ViewState), Refusal>
        ensures copies { IfOk result
            (λ copy. (state_at view.0 self.now.views.views ≡ Some copy.1) × (copy.0 ≡ copy.1.at)) }
        ensures exact { IfOk result (λ copy. (h : History) → Stands self.now h
            → CopiesView self.now.columns (moment h) view.0 copy.1) }
        ensures fault { MatchOption (state_at view.0 self.now.views.views) (result ≡ Err Refusal.NoSuchView)
            (λ state. IfErr result (λ refusal. refusal ≡ Refusal.NoMemory)) }
    {
        let Some(at) = self.views.at(view.0) else {
            return Err(Refusal::NoSuchView);
        };
        let state = self.views.copy_of(alloc, view.0)?;
        Ok((at, state))
    }

    // Advances a view by the delta of the next commit, if there is one.
    pub(crate) fn apply(&mut self, view: u64) -> Outcome
        ensures applies { Applies self.old view result self.new }
        ensures bounds { HasBounds self.old.log.capacity self.old.log.retention self.new.log }
    {
        let Some(number) = self.views.meant(view) else {
            if view == 0 {
                return Outcome::Current;
            }
            return Outcome::Refused(Refusal::NoSuchView);
        };
        let Some(at) = self.views.at(number) else {
            unreachable!()
        };
        if self.log.number() <= at {
            return Outcome::Current;
        }
        let Ok(()) = apply_next(&mut self.log, &mut self.views, number, at) else {
            return Outcome::Refused(Refusal::NoMemory);
        };
        self.log.trim();
        Outcome::Applied(at + 1)
    }

    /// Reads a page of a view: its count, its sums, and its first rows whose keys are at or after `start`, at most
    /// `limit`. The page is at `floor` commits or more. No event happens.
    ///
    /// Shares keys and rows. Costs O(log n + k) for a page of k rows.
    ///
    /// # Errors
    ///
    /// `KeyTooLong`; `BadLimit` unless `limit` is from 1 to `MAX_RANGE`; `NoSuchView` if no view has this number;
    /// `Behind`, with the number of commits at which the view is, if they are fewer than `floor`; `NoMemory` if an
    /// allocation is refused. The first of these that applies.
    pub fn page(
        &self,
        alloc: Global,
        view: ViewNo,
        floor: u64,
        start: &Bytes,
        limit: u16,
    ) -> Result<Page, Refusal>
        ensures { ReadsView self.now view.0 floor start.now limit (page_outcome result) }
    {
        if let Some(refusal) = page_fault(start.as_slice(), limit) {
            return Err(refusal);
        }
        let Some(at) = self.views.at(view.0) else {
            return Err(Refusal::NoSuchView);
        };
        if at < floor {
            return Err(Refusal::Behind(at));
        }
        match page(alloc, &self.views, view.0, start, limit) {
            Ok(page) => Ok(page),
            Err(_) => Err(Refusal::NoMemory),
        }
    }

    // Returns the outcome of the event that reads a page of a view.
    pub(crate) fn view_read(
        &self,
        alloc: Global,
        view: ViewNo,
        floor: u64,
        start: &Bytes,
        limit: u16,
    ) -> Outcome
        ensures { ReadsView self.now view.0 floor start.now limit result }
    {
        match self.page(alloc, view, floor, start, limit) {
            Ok(page) => Outcome::View(page),
            Err(refusal) => Outcome::Refused(refusal),
        }
    }

    // Ends a view, which then holds the log no longer.
    pub(crate) fn view_drop(&mut self, view: u64) -> Outcome
        ensures drops { Drops self.old view result self.new }
        ensures bounds { HasBounds self.old.log.capacity self.old.log.retention self.new.log }
    {
        let Some(at) = self.views.at(view) else {
            return Outcome::Refused(Refusal::NoSuchView);
        };
        self.views.end(view);
        self.log.unpin(at);
        self.log.trim();
        Outcome::Dropped
    }
}
