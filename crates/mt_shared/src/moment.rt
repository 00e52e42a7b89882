//! A moment of an index: what one thread sees of it while it holds the lock for reading.

ghost use Rattle.std.specs.Prelude.{ℕ, ◌≡◌, ◌↔◌, IsSome, IfSome};
ghost use Rattle.std.specs.Option.{option_copied};
ghost use Rattle.std.specs.Map.Iter.{ShowsInOrder, deref_pair};
ghost use Rattle.std.specs.FinMap.{len};
ghost use Rattle.mt_promise.specs.History.{History, moment, rows};
ghost use Rattle.mt_commit.specs.Log.{newest};
ghost use Rattle.mt_view.specs.State.{StateView};
ghost use Rattle.mt_view.specs.Views.{state_at};
ghost use Rattle.mt_index.specs.Viewing.{CopiesView, ListsViews};
ghost use Rattle.mt_index.specs.Alone.{IsQuiet};
ghost use Rattle.mt_index.specs.Stands.{Stands};
ghost use Rattle.mt_shared.specs.Feeds.{CountsNodes, CountsRows};
ghost use Rattle.mt_shared.specs.Inner.{IsInner};
ghost use Rattle.mt_shared.specs.Moments.{machine_of};

use crate::answers::At;
use crate::inner::Inner;
use mt_index::machine::Machine;
use mt_types::numbers::ViewNo;
use mt_view::state::ViewState;
use std::collections::btree_map::Iter;
use std::sync::RwLockReadGuard;

/// An index at one moment: all that is read of it is of the same number of commits. While it lives, its thread holds the
/// lock for reading. Other threads can read, and those that change rows wait.
///
/// Before it is dropped, its thread must not wait for another thread, or use a door of the same index.
#[derive(Drop)]
pub struct Moment<'a> {
    pub(crate) kept: RwLockReadGuard<'a, Inner>,
}

impl<'a> Moment<'a> {
    /// Returns the machine, whose rows can be borrowed: by `Machine::row`, and by a walk (`mt_reads::Rows::of`).
    /// Returns `None` if a put, remove or tidy is open. A call of another thread's
    /// `Door` may be if it waits for another call, or has used up the events of its run.
    pub fn machine(&self) -> Option<&Machine>
        ensures machine { IfSome result (λ machine. machine.now ≡ machine_of self.now) }
        ensures quiet { IsSome result ↔ IsQuiet (machine_of self.now) }
        ensures stands { (h : History) × Stands (machine_of self.now) h }
    {
        self.kept.quiet_machine()
    }

    /// Returns how many commits there are.
    pub fn commits(&self) -> u64
        ensures number { result ≡ newest (machine_of self.now).log }
    {
        self.kept.commits()
    }

    /// Returns how many rows there are, after those commits.
    pub fn len(&self) -> usize
        ensures { (h : History) → Stands (machine_of self.now) h
            → result ≡ len (rows (machine_of self.now).columns (moment h)) }
    {
        self.kept.len()
    }

    /// Iterates over the views, each with its number, in the order of the numbers. Copies nothing.
    pub fn views(&self) -> Iter<'_, u64, ViewState>
        ensures listed { result ≡ (machine_of self.now).views.views }
        ensures exact { (h : History) → Stands (machine_of self.now) h
            → ListsViews (machine_of self.now).columns (moment h) result }
        ensures runs { ShowsInOrder (deref_pair {K = ℕ} {X = StateView}) }
    {
        self.kept.views()
    }

    /// Returns the state of a view, of which nothing is copied. Returns `None` if no view has this number. O(log n) in the
    /// views.
    pub fn view(&self, view: ViewNo) -> Option<&ViewState>
        ensures view { option_copied result ≡ state_at view.0 (machine_of self.now).views.views }
        ensures exact { IfSome (option_copied result) (λ state. (h : History) → Stands (machine_of self.now) h
            → CopiesView (machine_of self.now).columns (moment h) view.0 state) }
    {
        self.kept.view(view)
    }
}

impl Inner {
    // The machine, if no put, remove or tidy is open.
    fn quiet_machine(&self) -> Option<&Machine>
        ensures machine { IfSome result (λ machine. machine.now ≡ self.now.machine) }
        ensures quiet { IsSome result ↔ IsQuiet self.now.machine }
        ensures stands { (h : History) × Stands self.now.machine h }
    {
        let _stands = self.machine.is_idle();
        if self.machine.is_quiet() {
            Some(&self.machine)
        } else {
            None
        }
    }

    fn commits(&self) -> u64
        ensures number { result ≡ newest self.now.machine.log }
    {
        self.machine.commits()
    }

    fn len(&self) -> usize
        ensures { (h : History) → Stands self.now.machine h
            → result ≡ len (rows self.now.machine.columns (moment h)) }
    {
        self.machine.len()
    }

    // How many rows there are, and after how many commits.
    pub(crate) fn count_rows(&self) -> At<usize>
        ensures counts { CountsRows self.now.machine result }
        ensures kept { IsInner self.now }
    {
        let commits = self.machine.commits();
        At {
            value: self.machine.len(),
            from: commits,
            to: commits,
        }
    }

    // How many node numbers are occupied, and after how many commits.
    pub(crate) fn count_nodes(&self) -> At<usize>
        ensures counts { CountsNodes self.now.machine result }
        ensures kept { IsInner self.now }
    {
        let commits = self.machine.commits();
        At {
            value: self.machine.nodes(),
            from: commits,
            to: commits,
        }
    }

    fn views(&self) -> Iter<'_, u64, ViewState>
        ensures listed { result ≡ self.now.machine.views.views }
        ensures exact { (h : History) → Stands self.now.machine h → ListsViews self.now.machine.columns (moment h) result }
        ensures runs { ShowsInOrder (deref_pair {K = ℕ} {X = StateView}) }
    {
        self.machine.views()
    }

    fn view(&self, view: ViewNo) -> Option<&ViewState>
        ensures view { option_copied result ≡ state_at view.0 self.now.machine.views.views }
        ensures exact { IfSome (option_copied result) (λ state. (h : History) → Stands self.now.machine h
            → CopiesView self.now.machine.columns (moment h) view.0 state) }
    {
        self.machine.view(view)
    }
}
