//! The views of an index, by their numbers, and the places that open builds keep among them.

ghost use Rattle.std.specs.Prelude.{Some, ℕ, ◌≡◌, ◌+◌, ◌-◌, ◌<◌, ◌≤◌, ◌⊎◌, ◌↔◌, ◌++◌, [], ◌∷◌, IfOk, IfErr, IsErrOf, IsSome, IsTrue, OnOk, OnErr};
ghost use Rattle.std.specs.Map.Iter.{ShowsInOrder, deref_pair};
ghost use Rattle.std.specs.Option.{option_copied, option_map};
ghost use Rattle.mt_types.specs.Numbers.{greatest_number};
ghost use Rattle.mt_types.specs.declared.limits.TheConstants.{MAX_VIEWS};
ghost use Rattle.mt_promise.specs.History.{StandingView, furthest, meant_view};
ghost use Rattle.mt_view.specs.State.{StateView, applied, page_of_state};
ghost use Rattle.mt_view.specs.Views.{all_standing, places, state_at, with_state, without};

use crate::state::ViewState;
use mt_types::copying::TryCopy;
use mt_types::key::Key;
use mt_types::refusal::{NoMemory, Refusal};
use mt_types::row::Delta;
use mt_types::view::Page;
use std::alloc::Global;
use std::collections::btree_map::Iter;
use std::collections::{BTreeMap, BTreeSet};
use std::marker::Model;

/// The views of an index, in a B-tree by their numbers, and the number of places that are kept for builds: together at
/// most 64. It also has the queue, a B-tree with a turn for each view: the number of commits at which the view is, and
/// the view's own number. So the first turn is that of the view that is furthest behind.
#[derive(Drop)]
pub struct Views {
    built: u64,
    building: usize,
    views: BTreeMap<u64, ViewState>,
    queue: BTreeSet<(u64, u64)>,
}

impl Model for Views {
    ghost use Rattle.std.specs.Coded.{codes};
    ghost use Rattle.mt_view.specs.Views.{ViewsView};
    ghost use Rattle.mt_view.specs.ViewsFields.{views_of, AreViews};
    ghost use Rattle.mt_view.specs.StateCode.{state_code};

    ghost Value = { ViewsView };

    ghost coded = { Prim.hlevel (codes, state_code) };

    ghost view = { views_of };

    ghost invariant = { AreViews };
}

impl Views {
    /// Returns the views of a new index: there are none, and none was ever opened. Takes no memory.
    pub fn new(alloc: Global) -> Views
        ensures { result ≡ record { built = 0; building = 0; views = [] } }
    {
        Views {
            built: 0,
            building: 0,
            views: BTreeMap::new(alloc),
            queue: BTreeSet::new(alloc),
        }
    }

    /// Returns how many places are taken, by views and by builds.
    pub fn places(&self) -> usize
        ensures value { result ≡ places self.now }
        ensures few { result ≤ MAX_VIEWS }
    {
        self.views.len() + self.building
    }

    /// Returns whether the greatest number was given to a view: then no other view can be opened.
    pub fn is_spent(&self) -> bool
        ensures { IsTrue result ↔ (greatest_number ≤ self.now.built) }
    {
        self.built == u64::MAX
    }

    /// Keeps a place for a build.
    pub fn reserve(&mut self)
        requires { places self.old < MAX_VIEWS }
        ensures { self.new ≡ record self.old { building = self.old.building + 1 } }
    {
        self.building += 1;
    }

    /// Gives back the place of a build that has ended without a view.
    pub fn release(&mut self)
        requires { 0 < self.old.building }
        ensures { self.new ≡ record self.old { building = self.old.building - 1 } }
    {
        self.building -= 1;
    }

    /// Opens a view in the place of a build, under the next number: numbers are never used again. On an error nothing
    /// changes. O(log n) in the views.
    ///
    /// # Errors
    ///
    /// `Spent` if the greatest number was given to a view; else `NoMemory` if an allocation is refused.
    pub fn open(&mut self, state: ViewState) -> Result<u64, Refusal>
        requires { 0 < self.old.building }
        ensures number { IfOk result (λ number. number ≡ self.old.built + 1) }
        ensures ok { OnOk result (self.new ≡ record {
          built = self.old.built + 1;
          building = self.old.building - 1;
          views = self.old.views ++ (self.old.built + 1, state) ∷ [];
        }) }
        ensures err { OnErr result (self.new ≡ self.old) }
        ensures spent { IsErrOf result Refusal.Spent ↔ (greatest_number ≤ self.old.built) }
        ensures only { IfErr result (λ refusal. (refusal ≡ Refusal.Spent) ⊎ (refusal ≡ Refusal.NoMemory)) }
    {
        if self.is_spent() {
            return Err(Refusal::Spent);
        }
        let number = self.built + 1;
        let turn = (state.at(), number);
        self.queue.insert(turn)?;
        if let Err(refused) = self.views.insert(number, state) {
            self.queue.remove(&turn);
            return Err(Refusal::from(refused));
        }
        self.built = number;
        self.building -= 1;
        Ok(number)
    }

    /// Returns the number of the view that an apply means: 0 means the one that is furthest behind, or the first of
    /// them if there are several. O(log n) in the views.
    pub fn meant(&self, asked: u64) -> Option<u64>
        ensures { result ≡ option_map (λ (v : StandingView). v.number) (meant_view asked (all_standing self.now.views)) }
    {
        if asked == 0 {
            return self.furthest();
        }
        match self.views.get(&asked) {
            Some(_) => Some(asked),
            None => None,
        }
    }

    // The number of the view that is furthest behind: the one whose turn is the first of the queue. O(log n).
    fn furthest(&self) -> Option<u64>
        ensures { result ≡ option_map (λ (v : StandingView). v.number) (furthest None (all_standing self.now.views)) }
    {
        match self.queue.first() {
            Some((_, number)) => Some(*number),
            None => None,
        }
    }

    /// Returns the number of commits at which a view is. O(log n) in the views.
    pub fn at(&self, number: u64) -> Option<u64>
        ensures { result ≡ option_map (λ (s : StateView). s.at) (state_at number self.now.views) }
    {
        match self.views.get(&number) {
            Some(state) => Some(state.at()),
            None => None,
        }
    }

    /// Returns the state of the view of this number, if there is one. O(log n) in the views.
    pub fn get(&self, number: u64) -> Option<&ViewState>
        ensures { option_copied result ≡ state_at number self.now.views }
    {
        self.views.get(&number)
    }

    /// Iterates over the views, each with its number, in the order of the numbers. Copies nothing.
    pub fn iter(&self) -> Iter<'_, u64, ViewState>
        ensures rest { result ≡ self.now.views }
        ensures runs { ShowsInOrder (deref_pair {K = ℕ} {X = StateView}) }
    {
        self.views.iter()
    }

    /// Advances a view by the delta of the next commit. O(log n) in the views and in the rows of this one. On an error
    /// nothing changes.
    ///
    /// # Errors
    ///
    /// `NoMemory` if an allocation is refused.
    pub fn apply(&mut self, number: u64, delta: &Delta) -> Result<(), NoMemory>
        requires { IsSome (state_at number self.old.views) }
        ensures ok { OnOk result ((state : StateView) → state_at number self.old.views ≡ Some state
            → self.new ≡ record self.old { views = with_state number (applied delta.now state) self.old.views }) }
        ensures err { OnErr result (self.new ≡ self.old) }
    {
        let Some(state) = self.views.get_mut(&number) else {
            unreachable!()
        };
        let at = state.at();
        if at == delta.number {
            // It is there already, so its turn stays.
            return state.apply(delta);
        }
        // What needs memory comes first: to take a turn out of the queue needs none.
        let turn = (delta.number, number);
        self.queue.insert(turn)?;
        if let Err(refused) = state.apply(delta) {
            self.queue.remove(&turn);
            return Err(refused);
        }
        self.queue.remove(&(at, number));
        Ok(())
    }

    /// Returns a page of a view: what it shows from a key on, up to the limit. Shares keys and rows. O(log n + m) in
    /// its rows and those of the page.
    ///
    /// # Errors
    ///
    /// `NoMemory` if an allocation is refused.
    pub fn read(&self, number: u64, start: &Key, limit: u16) -> Result<Page, NoMemory>
        requires { IsSome (state_at number self.now.views) }
        ensures { IfOk result (λ page. (state : StateView) → state_at number self.now.views ≡ Some state
            → page ≡ page_of_state state start.now limit) }
    {
        match self.views.get(&number) {
            Some(state) => state.read(start, limit),
            None => unreachable!(),
        }
    }

    /// Returns a copy of a view's state. Shares keys and rows. O(n log n) in its rows.
    ///
    /// # Errors
    ///
    /// `NoMemory` if an allocation is refused.
    pub fn copy_of(&self, alloc: Global, number: u64) -> Result<ViewState, NoMemory>
        requires { IsSome (state_at number self.now.views) }
        ensures { IfOk result (λ state. state_at number self.now.views ≡ Some state) }
    {
        match self.views.get(&number) {
            Some(state) => state.copy(alloc),
            None => unreachable!(),
        }
    }

    /// Ends a view. O(log n) in the views.
    pub fn end(&mut self, number: u64)
        ensures { self.new ≡ record self.old { views = without number self.old.views } }
    {
        if let Some(state) = self.views.remove(&number) {
            self.queue.remove(&(state.at(), number));
        }
    }
}
