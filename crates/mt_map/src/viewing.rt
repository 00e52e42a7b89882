//! How the views of a map are read, advanced and dropped, and how its memory is freed: each by one event.

ghost use Rattle.std.specs.Prelude.{ℕ, ◌≡◌, ◌≤◌, IfOk, IfErr, IfSome, None, []};
ghost use Rattle.std.specs.Map.Iter.{ShowsInOrder, deref_pair};
ghost use Rattle.std.specs.Option.{option_copied};
ghost use Rattle.mt_types.specs.Limits.{page_fault};
ghost use Rattle.mt_types.specs.declared.event.Event.TheVariants.{Apply, Collect, ViewDrop};
ghost use Rattle.mt_types.specs.declared.event.Outcome.TheVariants.{Dropped, Freed, Refused};
ghost use Rattle.mt_promise.specs.History.{History, moment};
ghost use Rattle.mt_index.specs.Alone.{IsIdle};
ghost use Rattle.mt_index.specs.Events.{Makes};
ghost use Rattle.mt_index.specs.Stands.{ReadsView, Stands};
ghost use Rattle.mt_index.specs.Viewing.{CopiesView, ListsViews, page_outcome};
ghost use Rattle.mt_view.specs.State.{StateView};
ghost use Rattle.mt_view.specs.Views.{state_at};
ghost use Rattle.mt_map.specs.Views.{IsOutside, IsStopped, KeepsUp, ShowsView, applied_outcome, outcome_of};
ghost use Rattle.mt_map.specs.Tidies.{MapMakes};

use crate::map::Map;
use bytes::Bytes;
use mt_index::machine::Machine;
use mt_types::event::{Event, Outcome};
use mt_types::limits::page_fault;
use mt_types::numbers::ViewNo;
use mt_types::refusal::Refusal;
use mt_types::view::Page;
use mt_view::laws::states_show_pages;
use mt_view::state::ViewState;
use std::alloc::Global;
use std::collections::btree_map::Iter;

// Makes an event that is no part of a call.
fn meet(alloc: Global, machine: &mut Machine, event: &Event) -> Outcome
    requires outside { IsOutside event.now }
    requires idle { IsIdle machine.old }
    ensures makes { Makes machine.old event.now result machine.new }
    ensures idle { IsIdle machine.new }
{
    machine.event(alloc, event)
}

// Frees the nodes that tidies have taken out, and returns how many.
pub(crate) fn free(alloc: Global, machine: &mut Machine) -> u32
    requires { IsIdle machine.old }
    ensures frees { Makes machine.old Collect (Freed result) machine.new }
    ensures idle { IsIdle machine.new }
{
    match meet(alloc, machine, &Event::Collect) {
        Outcome::Freed(count) => count,
        _ => unreachable!(),
    }
}

// Why a page that breaks no limit is refused, if memory for a copy of its start was refused. A cause that its view has
// comes first: it is found by reading a page with an empty start, of which nothing is copied.
fn page_cause(alloc: Global, machine: &Machine, view: ViewNo, floor: u64) -> Refusal
    ensures { ReadsView machine.now view.0 floor [] 1 (Refused result) }
{
    match machine.page(alloc, view, floor, &Bytes::new(), 1) {
        Ok(_) => Refusal::NoMemory,
        Err(refusal) => refusal,
    }
}

// Reads a page of a view. Tests limits, and then copies the start.
fn page_from(
    alloc: Global,
    machine: &Machine,
    view: ViewNo,
    floor: u64,
    start: &[u8],
    limit: u16,
) -> Result<Page, Refusal>
    ensures { ReadsView machine.now view.0 floor start.now limit (page_outcome result) }
{
    if let Some(refusal) = page_fault(start, limit) {
        return Err(refusal);
    }
    match Bytes::copy_from_slice(alloc, start) {
        Ok(start) => machine.page(alloc, view, floor, &start, limit),
        Err(_) => Err(page_cause(alloc, machine, view, floor)),
    }
}

impl Map {
    /// Makes an event that is no part of a call, for callers that choose it while they run.
    ///
    ///     let outcome = map.event(&Event::Advance);
    ///
    /// Costs what the event costs. A refused event changes nothing.
    pub fn event(&mut self, event: &Event) -> Outcome
        requires { IsOutside event.now }
        ensures { MapMakes self.old event.now result self.new }
    {
        meet(self.alloc, &mut self.machine, event)
    }

    /// Returns the state of a view, borrowed: the number of commits at which it is, its rows, their count and their sums.
    /// Returns `None` if no view has this number. O(log n) in the views.
    ///
    ///     if let Some(state) = map.view(view) {
    ///         println!(rt; "{} rows at commit {}", state.count(), state.at())?;
    ///     }
    pub fn view(&self, view: ViewNo) -> Option<&ViewState>
        ensures view { option_copied result ≡ state_at view.0 self.now.machine.views.views }
        ensures exact { IfSome (option_copied result) (λ state. (h : History) → Stands self.now.machine h
            → CopiesView self.now.machine.columns (moment h) view.0 state) }
    {
        self.machine.view(view)
    }

    /// Iterates over the views, each with its number, in the order of the numbers. Copies nothing.
    ///
    ///     for (number, state) in map.views() {
    ///         println!(rt; "view {number}: {} rows at commit {}", state.count(), state.at())?;
    ///     }
    pub fn views(&self) -> Iter<'_, u64, ViewState>
        ensures listed { result ≡ self.now.machine.views.views }
        ensures exact { (h : History) → Stands self.now.machine h
            → ListsViews self.now.machine.columns (moment h) result }
        ensures runs { ShowsInOrder (deref_pair {K = ℕ} {X = StateView}) }
    {
        self.machine.views()
    }

    /// Reads a page of a view: its count, its sums, and its first rows whose keys are at or after `start`, at most
    /// `limit`. The page is at `floor` commits or more. Nothing happens to the map.
    ///
    ///     let page = map.page(view, map.commits(), b"", 10)?;
    ///     println!(rt; "{} rows in all", page.count)?;
    ///
    /// Costs O(log n + k) for a page of k rows, which share the bytes of the view's. Copies the start.
    ///
    /// # Errors
    ///
    /// `KeyTooLong`; `BadLimit` unless `limit` is from 1 to `MAX_RANGE`; `NoSuchView` if no view has this number;
    /// `Behind`, with the number of commits at which the view is, if they are fewer than `floor`; `NoMemory`. The first
    /// of these that applies.
    pub fn page(&self, view: ViewNo, floor: u64, start: &[u8], limit: u16) -> Result<Page, Refusal>
        ensures page { ReadsView self.now.machine view.0 floor start.now limit (page_outcome result) }
        ensures exact { IfOk result (λ page. (h : History) → Stands self.now.machine h
            → ShowsView self.now.machine.columns (moment h) view.0 start.now limit page) }
        ensures floor { IfOk result (λ page. floor ≤ page.at) }
    {
        states_show_pages();
        page_from(self.alloc, &self.machine, view, floor, start, limit)
    }

    /// Ends a view. Its number isn't used again. O(n) in the rows of the view.
    ///
    ///     map.drop_view(view)?;
    ///
    /// # Errors
    ///
    /// `NoSuchView` if no view has this number.
    pub fn drop_view(&mut self, view: ViewNo) -> Result<(), Refusal>
        ensures { MapMakes self.old (ViewDrop view) (outcome_of (λ _. Dropped) result) self.new }
    {
        match meet(self.alloc, &mut self.machine, &Event::ViewDrop(view)) {
            Outcome::Dropped => Ok(()),
            Outcome::Refused(refusal) => Err(refusal),
            _ => unreachable!(),
        }
    }

    /// Advances a view by one commit; for `ViewNo(0)` the view that is furthest behind. Returns the number of commits at
    /// which it then is, or `None` if it was at the newest commit, or if `view` is 0 and no view is behind. O(log n) in
    /// the rows of the view.
    ///
    ///     if let Some(at) = map.apply(view)? {
    ///         println!(rt; "at commit {at}")?;
    ///     }
    ///
    /// # Errors
    ///
    /// `NoSuchView` if no view has this number; `NoMemory`. Nothing has changed then.
    pub fn apply(&mut self, view: ViewNo) -> Result<Option<u64>, Refusal>
        ensures { MapMakes self.old (Apply view) (outcome_of applied_outcome result) self.new }
    {
        match meet(self.alloc, &mut self.machine, &Event::Apply(view)) {
            Outcome::Applied(number) => Ok(Some(number)),
            Outcome::Current => Ok(None),
            Outcome::Refused(refusal) => Err(refusal),
            _ => unreachable!(),
        }
    }

    /// Advances views, in at most `turns` turns: each advances the view that is furthest behind by one commit. Returns
    /// how many turns have advanced a view. If they are fewer than `turns`, all views are at the newest commit.
    ///
    ///     let _ = map.keep_views(100)?;
    ///
    /// # Errors
    ///
    /// `NoMemory`. The turns before have advanced their views.
    pub fn keep_views(&mut self, turns: u64) -> Result<u64, Refusal>
        ensures kept { IfOk result (λ applied. KeepsUp self.old.machine turns applied self.new.machine) }
        ensures refused { IfErr result (λ refusal. IsStopped self.old.machine turns refusal self.new.machine) }
        ensures tidies { self.new.tidies ≡ self.old.tidies }
    {
        for applied in 0..turns {
            if self.apply(ViewNo(0))?.is_none() {
                return Ok(applied);
            }
        }
        Ok(turns)
    }

    /// Frees the nodes that tidies have taken out, and returns how many. O(n) in these nodes.
    ///
    ///     let freed = map.collect();
    pub fn collect(&mut self) -> u32
        ensures { MapMakes self.old Collect (Freed result) self.new }
    {
        free(self.alloc, &mut self.machine)
    }
}
