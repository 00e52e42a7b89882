//! Marks: a machine on which no call is open keeps what it commits from a mark on, so that it can go back to it. And rows
//! that are removed together, in a way that can't fail in the middle.

ghost use Rattle.std.specs.Prelude.{◌≡◌, ◌≤◌, ◌+◌, [], IfErr, OnOk, OnErr, List, length};
ghost use Rattle.std.specs.List.{AllByRecursion};
ghost use Rattle.mt_types.specs.Numbers.{greatest_number};
ghost use Rattle.mt_types.specs.declared.limits.TheConstants.{MAX_KEY_BYTES};
ghost use Rattle.mt_types.specs.declared.row.Change.{Change as ChangeView};
ghost use Rattle.mt_promise.specs.History.{History, moment, rows};
ghost use Rattle.mt_undo.specs.Undoing.{IsPut};
ghost use Rattle.mt_undo.specs.Removing.{AreApart, AreThere, Taken, drops};
ghost use Rattle.mt_index.specs.Alone.{IsIdle};
ghost use Rattle.mt_index.specs.Marks.{AreRefused, GoesOnBy, GoesOnByCalls, IsAhead, KeepsAll};
ghost use Rattle.mt_index.specs.Stands.{HasBounds, MachineView, Stands};

use crate::machine::Machine;
use mt_commit::log::Keeping;
use mt_types::key::Key;
use mt_types::refusal::Refusal;
use mt_types::row::Row;
use mt_undo::removing::remove_all;
use mt_undo::reserving::reserve_all;
use mt_undo::undoing::undo;

/// A moment of a machine, to which it can go back.
#[derive(Clone, Copy, Debug, PartialEq, Eq)]
pub struct Mark {
    commits: u64,
    rows: u64,
    begun: u64,
    keeping: Keeping,
}

impl Machine {
    /// Marks the moment. From here on the log keeps each delta, until [`Machine::settle`] or [`Machine::go_back`]. No call
    /// may be open. O(1).
    pub fn mark(&mut self) -> Mark
        requires idle { IsIdle self.old }
        ensures ahead { IsAhead self.old result [] self.new }
        ensures idle { IsIdle self.new }
    {
        let _stands = self.is_idle();
        Mark {
            commits: self.log.number(),
            rows: self.log.rows(),
            begun: self.calls.begun(),
            keeping: self.log.keep_all(),
        }
    }

    /// Lets the changes since a mark be: the log keeps deltas as it did before, and of the calls since then those count by which
    /// a change was made. No call may be open. O(n) in the deltas that it drops.
    pub fn settle(&mut self, mark: Mark)
        requires idle { IsIdle self.old }
        requires ahead { (s : MachineView) × (made : List ChangeView) × IsAhead s mark made self.old
            × ((h : History) → Stands s h → (moment h).begun + length made ≤ greatest_number
            → (other : History) × GoesOnByCalls self.old.columns h made other) }
        ensures stands { (s : MachineView) (made : List ChangeView) → IsAhead s mark made self.old
            → (h other : History) → Stands s h → GoesOnByCalls self.old.columns h made other → Stands self.new other }
        ensures few { (s : MachineView) (made : List ChangeView) → IsAhead s mark made self.old
            → (h : History) → Stands s h → (moment h).begun + length made ≤ greatest_number }
        ensures idle { IsIdle self.new }
        ensures columns { self.new.columns ≡ self.old.columns }
        ensures bounds { (s : MachineView) (made : List ChangeView) → IsAhead s mark made self.old
            → HasBounds s.log.capacity s.log.retention self.new.log }
    {
        let _few = self.calls.begun();
        let made = self.log.number() - mark.commits;
        self.log.keep_as(mark.keeping);
        self.calls.begin_after(mark.begun + made);
    }

    /// Goes back to a mark: the puts since then are undone, with their commits and their calls. The machine is then at
    /// each history that it was at. No call may be open.
    ///
    /// Costs the visit of each node on the way to the key, for each put. Allocates nothing, so it can't fail.
    pub fn go_back(&mut self, mark: Mark)
        requires idle { IsIdle self.old }
        requires ahead { (s : MachineView) × (made : List ChangeView) × IsAhead s mark made self.old
            × AllByRecursion IsPut made }
        ensures stands { (s : MachineView) (made : List ChangeView) → IsAhead s mark made self.old
            → AllByRecursion IsPut made → (h : History) → Stands s h → Stands self.new h }
        ensures idle { IsIdle self.new }
        ensures columns { self.new.columns ≡ self.old.columns }
        ensures bounds { (s : MachineView) (made : List ChangeView) → IsAhead s mark made self.old
            → HasBounds s.log.capacity s.log.retention self.new.log }
    {
        let _stands = self.is_idle();
        let _sound = self.log.number();
        undo(&mut self.tree, &mut self.log, mark.commits, mark.rows);
        self.log.keep_as(mark.keeping);
        self.calls.begin_after(mark.begun);
    }

    /// Removes the rows of these keys, one after the other, each by a call alone; or none, on an error. Each key has this
    /// row, and no key is there twice. The log must keep all ([`Machine::mark`]), and no call may be open.
    ///
    /// Costs the visit of each node on the way to the key, for each key.
    ///
    /// # Errors
    ///
    /// `Spent` if too few numbers of calls or commits are left; `FeedFull`, with the number of commits of the view that is
    /// furthest behind, if the log hasn't the room; `NoMemory`.
    pub fn remove_rows(&mut self, taken: Vec<(Key, Row)>) -> Result<(), Refusal>
        requires idle { IsIdle self.old }
        requires keeps { self.old.log.base ≡ self.old.log.held_after }
        requires retention { self.old.log.retention ≡ greatest_number }
        requires there { (h : History) → Stands self.old h → AreThere (rows self.old.columns (moment h)) taken.items }
        requires apart { AreApart taken.items }
        requires fit { AllByRecursion (λ (t : Taken). length t.0 ≤ MAX_KEY_BYTES) taken.items }
        ensures ok { OnOk result ((h : History) → Stands self.old h
            → (ahead : History) × Stands self.new ahead × GoesOnBy h (drops taken.items) ahead) }
        ensures err { OnErr result (self.new ≡ self.old) }
        ensures refused { IfErr result (AreRefused self.old (length taken.items)) }
        ensures idle { IsIdle self.new }
        ensures keeps { KeepsAll self.old self.new }
        ensures columns { self.new.columns ≡ self.old.columns }
    {
        let _stands = self.is_idle();
        let count = taken.len();
        let begun = self.calls.begun();
        if u64::MAX - begun < count as u64 {
            return Err(Refusal::Spent);
        }
        reserve_all(&mut self.log, count)?;
        remove_all(&mut self.tree, &mut self.log, taken);
        let _sound = self.log.number();
        self.calls.begin_after(begun + count as u64);
        Ok(())
    }
}
