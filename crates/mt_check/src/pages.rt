//! What views show at the numbers of a log, by states that are advanced.

ghost use Rattle.std.specs.Prelude.{◌≡◌, ◌<◌, ◌≤◌, [], length, vec_len, OnOk, IfOk, IfSome};
ghost use Rattle.std.specs.List.{HoldsAt};
ghost use Rattle.mt_check.specs.Receipts.{IsSoundLog, rows_at, page_of_rows};
ghost use Rattle.mt_check.specs.Judging.{IsStanding, AllStand};

use crate::calls::Log;
use mt_promise::exact::Exact;
use mt_types::copying::TryCopy;
use mt_types::key::Key;
use mt_types::refusal::NoMemory;
use mt_types::row::Delta;
use mt_types::view::{Page, ViewSpec};
use mt_view::state::ViewState;
use std::alloc::Global;

/// The most states that are kept. An index has at most the same number of views.
const MAX_STATES: usize = 64;

/// The state of a view, with its specification.
#[derive(Drop)]
pub(crate) struct Standing {
    pub(crate) spec: ViewSpec,
    pub(crate) state: ViewState,
}

/// States of views, each at some number of the log.
#[derive(Drop)]
pub(crate) struct Pages {
    pub(crate) states: Vec<Standing>,
}

// Advances a state to a number.
fn walk_on(state: &mut ViewState, deltas: &[Delta], at: u64) -> Result<(), NoMemory>
    requires sound { IsSoundLog deltas.now }
    requires standing { IsStanding state.old.columns deltas.now state.old.spec state.old }
    requires from { state.old.at ≤ at }
    requires to { at ≤ length deltas.now }
    ensures at { OnOk result (state.new.at ≡ at) }
    ensures standing { OnOk result (IsStanding state.old.columns deltas.now state.old.spec state.new) }
{
    let from = state.at() as usize;
    for delta in &deltas[from..at as usize] {
        state.apply(delta)?;
    }
    Ok(())
}

impl Pages {
    /// No states. Takes no memory.
    pub(crate) fn new(alloc: Global) -> Pages
        ensures { result.states.items ≡ [] }
    {
        Pages {
            states: Vec::new(alloc),
        }
    }

    // The place of a state of this view at a number or before it.
    fn place_of(&self, spec: &ViewSpec, at: u64) -> Option<usize>
        ensures { IfSome result (λ place. (place < vec_len self.now.states)
            × HoldsAt (λ standing. (standing.spec ≡ spec.now) × (standing.state.at ≤ at)) self.now.states.items place) }
    {
        for (place, standing) in self.states.iter().enumerate() {
            if standing.state.at() <= at && standing.spec.is_same(spec) {
                return Some(place);
            }
        }
        None
    }

    // A state of this view at a number or before it: one that is kept, or a new one of no rows.
    fn take(
        &mut self,
        alloc: Global,
        columns: u8,
        deltas: &[Delta],
        spec: &ViewSpec,
        at: u64,
    ) -> Result<ViewState, NoMemory>
        requires { AllStand columns deltas.now self.old.states.items }
        ensures kept { AllStand columns deltas.now self.new.states.items }
        ensures standing { IfOk result (λ state. IsStanding columns deltas.now spec.now state) }
        ensures before { IfOk result (λ state. state.at ≤ at) }
    {
        match self.place_of(spec, at) {
            Some(place) => {
                let Standing { spec: _, state } = self.states.swap_remove(place);
                Ok(state)
            }
            None => ViewState::open(alloc, columns, spec.copy(alloc)?),
        }
    }

    // Keeps a state. If there are too many, those before are dropped.
    fn keep(
        &mut self,
        columns: u8,
        deltas: &[Delta],
        spec: ViewSpec,
        state: ViewState,
    ) -> Result<(), NoMemory>
        requires all { AllStand columns deltas.now self.old.states.items }
        requires standing { IsStanding columns deltas.now spec state }
        ensures { OnOk result (AllStand columns deltas.now self.new.states.items) }
    {
        if self.states.len() >= MAX_STATES {
            self.states.clear();
        }
        self.states.push(Standing { spec, state })?;
        Ok(())
    }

    /// Returns what a view shows of the rows at a number. Costs the deltas since a state of the same view that is kept,
    /// of a number that is not after this one, or all deltas up to this number if there is none; and O(log n + m) in the
    /// rows of the view and the columns that are shown.
    pub(crate) fn page(
        &mut self,
        alloc: Global,
        log: &Log<'_>,
        spec: &ViewSpec,
        at: u64,
        start: &Key,
        limit: u16,
    ) -> Result<Page, NoMemory>
        requires sound { IsSoundLog log.now.deltas.now }
        requires standing { AllStand log.now.columns log.now.deltas.now self.old.states.items }
        requires to { at ≤ length log.now.deltas.now }
        ensures page { IfOk result (λ page.
            page ≡ page_of_rows log.now.columns (rows_at log.now.deltas.now at) at spec.now start.now limit) }
        ensures standing { OnOk result (AllStand log.now.columns log.now.deltas.now self.new.states.items) }
    {
        let mut state = self.take(alloc, log.columns, log.deltas, spec, at)?;
        walk_on(&mut state, log.deltas, at)?;
        let page = state.read(start, limit)?;
        self.keep(log.columns, log.deltas, spec.copy(alloc)?, state)?;
        Ok(page)
    }
}
