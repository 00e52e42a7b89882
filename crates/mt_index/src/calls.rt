//! The open calls, by their numbers.

ghost use Rattle.std.specs.Prelude.{◌≡◌, ◌↔◌, IsTrue, ◌+◌, ◌-◌, ◌^◌, ◌<◌, ◌++◌, [], ◌∷◌, length, IfOk, OnOk, OnErr, None, Some};
ghost use Rattle.std.specs.Option.{option_copied};
ghost use Rattle.mt_types.specs.declared.limits.TheConstants.{MAX_OPEN_CALLS};
ghost use Rattle.mt_index.specs.Calls.{changes, changing, is_of, call_at, pass_at, without, MayStepOf, FindsCall, Finds, IsBuiltCall, oldest_epoch};
ghost use Rattle.mt_works.specs.Works.{IsBuiltWork};

use mt_commit::log::Log;
use mt_steps::progress::Progress;
use mt_tree::Tree;
use mt_types::numbers::PassNo;
use mt_types::refusal::NoMemory;
use mt_works::work::Work;
use std::alloc::Global;
use std::collections::BTreeMap;
use std::marker::Model;

/// An open call.
#[derive(Drop)]
pub(crate) struct Call {
    pub(crate) pass: PassNo,
    /// The number of commits when it began.
    pub(crate) from: u64,
    /// The epoch in which it began.
    pub(crate) epoch: u64,
    pub(crate) work: Work,
}

/// A call that has made a step.
#[derive(Drop)]
pub(crate) struct Stepped {
    pub(crate) pass: PassNo,
    pub(crate) from: u64,
    /// Whether it holds the log from the number of commits at its begin.
    pub(crate) reads: bool,
    /// Whether it is a build, which occupies a place among the views.
    pub(crate) builds: bool,
    pub(crate) progress: Progress,
}

/// What was found under the number of a call that is to make a step.
#[derive(Drop)]
pub(crate) enum Found {
    /// No open call has this number.
    Missing,
    /// It is a build that has taken all that it has to take, and its view is to be opened. Nothing has changed.
    Built,
    /// It has made a step.
    Stepped(Stepped),
}

/// The open calls, and how many calls have begun. A call that begins while no other is open is kept in `first`, before
/// all others. A call that begins while others are open is kept in a B-tree, by its number.
#[derive(Drop)]
pub(crate) struct Calls {
    begun: u64,
    // How many of the open calls change the tree.
    writers: usize,
    first: Box<Option<(u64, Call)>>,
    others: BTreeMap<u64, Call>,
}

impl Model for Calls {
    ghost use Rattle.std.specs.Ordering.{nat_cmp};
    ghost use Rattle.std.specs.BTreeMap.{IsOrdered};
    ghost use Rattle.std.specs.Prelude.{length, ◌≡◌, ◌≤◌};
    ghost use Rattle.mt_types.specs.declared.limits.TheConstants.{MAX_OPEN_CALLS};
    ghost use Rattle.mt_index.specs.Calls.{CallsView, AreBegun, changing, with_first};
    ghost use Rattle.std.specs.Coded.{codes};
    ghost use Rattle.mt_scan.specs.CursorCode.{place_code};

    ghost Value = { CallsView };

    ghost use Rattle.mt_view.specs.StateCode.{state_code};

    ghost coded = { Prim.hlevel (codes, place_code, state_code) };

    ghost view = { λ c. record { begun = c.begun; calls = with_first c.first.value c.others.entries } };

    ghost invariant = { λ c. AreBegun c.begun (with_first c.first.value c.others.entries)
        × (length (with_first c.first.value c.others.entries) ≤ MAX_OPEN_CALLS)
        × (c.writers ≡ changing (with_first c.first.value c.others.entries)) };
}

// How much a call counts among those that change the tree.
fn changes(call: &Call) -> usize
    ensures { result ≡ changes call.now }
{
    if call.work.reads_log() { 0 } else { 1 }
}

// Whether this is the call of this number.
fn is_of(call: &Option<(u64, Call)>, number: u64) -> bool
    ensures { result ≡ is_of number call.now }
{
    match call {
        Some((own, _)) => *own == number,
        None => false,
    }
}

impl Call {
    // Makes a step of the call, unless it is a build that has taken all. `epoch` is the present epoch.
    fn step(
        &mut self,
        alloc: Global,
        columns: u8,
        epoch: u64,
        tree: &mut Tree,
        log: &mut Log,
    ) -> Found
        requires { (IsBuiltWork self.old.work → ⊥) → MayStepOf epoch columns tree.old log.old (Some self.old) }
        ensures { FindsCall epoch columns self.old self.new tree.old tree.new log.old log.new result }
    {
        if self.work.is_built() {
            return Found::Built;
        }
        let progress = self.work.step(alloc, columns, epoch, tree, log);
        Found::Stepped(Stepped {
            pass: self.pass,
            from: self.from,
            reads: self.work.reads_log(),
            builds: self.work.is_build(),
            progress,
        })
    }
}

impl Calls {
    /// Returns the calls of a machine on which none has begun. Allocates the room of one call, which is used for each
    /// call that begins while no other is open.
    pub(crate) fn new(alloc: Global) -> Result<Calls, NoMemory>
        ensures { IfOk result (λ calls. calls ≡ record { begun = 0; calls = [] }) }
    {
        let Ok(first) = Box::new(alloc, None) else {
            return Err(NoMemory);
        };
        Ok(Calls {
            begun: 0,
            writers: 0,
            first,
            others: BTreeMap::new(alloc),
        })
    }

    /// Returns how many calls have begun.
    pub(crate) fn begun(&self) -> u64
        ensures { result ≡ self.now.begun }
    {
        self.begun
    }

    /// Returns how many calls are open.
    pub(crate) fn len(&self) -> usize
        ensures { result ≡ length self.now.calls }
    {
        match &*self.first {
            Some(_) => self.others.len() + 1,
            None => self.others.len(),
        }
    }

    /// Returns whether no open call changes the tree. O(1).
    pub(crate) fn is_quiet(&self) -> bool
        ensures { IsTrue result ↔ (changing self.now.calls ≡ 0) }
    {
        self.writers == 0
    }

    /// Returns the epoch in which the oldest open call began, if a call is open.
    pub(crate) fn oldest(&self) -> Option<u64>
        ensures { result ≡ oldest_epoch self.now.calls }
    {
        if let Some((_, call)) = &*self.first {
            return Some(call.epoch);
        }
        let (_, call) = self.others.first_key_value()?;
        Some(call.epoch)
    }

    // Returns the call of this number, if it is open. O(log n) in the open calls; O(1) for `first`.
    fn call(&self, number: u64) -> Option<&Call>
        ensures { option_copied result ≡ call_at number self.now.calls }
    {
        if is_of(&self.first, number) {
            let (_, call) = (*self.first).as_ref()?;
            return Some(call);
        }
        self.others.get(&number)
    }

    /// Returns the pass of the call of this number, if it is open. O(log n) in the open calls; O(1) for `first`.
    pub(crate) fn pass_of(&self, number: u64) -> Option<PassNo>
        ensures { result ≡ pass_at number self.now.calls }
    {
        Some(self.call(number)?.pass)
    }

    /// Begins a call while no other is open, and returns its number. O(1).
    pub(crate) fn begin_first(&mut self, call: Call) -> u64
        requires unspent { self.old.begun < 2 ^ 64 - 1 }
        requires none { length self.old.calls ≡ 0 }
        ensures number { result ≡ self.old.begun + 1 }
        ensures begins { self.new
            ≡ record { begun = self.old.begun + 1; calls = self.old.calls ++ (self.old.begun + 1, call) ∷ [] } }
    {
        let number = self.begun + 1;
        let more = changes(&call);
        let None = self.first.replace((number, call)) else {
            unreachable!()
        };
        self.begun = number;
        self.writers = more;
        number
    }

    /// Counts a call that has begun and ended while no other was open, and returns its number. O(1).
    pub(crate) fn count_one(&mut self) -> u64
        requires unspent { self.old.begun < 2 ^ 64 - 1 }
        requires none { length self.old.calls ≡ 0 }
        ensures number { result ≡ self.old.begun + 1 }
        ensures counts { self.new ≡ record self.old { begun = self.old.begun + 1 } }
    {
        self.begun += 1;
        self.begun
    }

    /// Lets this many calls have begun, while none is open. O(1).
    pub(crate) fn begin_after(&mut self, begun: u64)
        requires { self.old.calls ≡ [] }
        ensures { self.new ≡ record self.old { begun = begun } }
    {
        self.begun = begun;
    }

    /// Begins a call, and returns its number. O(log n) in the open calls. Allocates only if others are open. On an
    /// error nothing changes.
    ///
    /// # Errors
    ///
    /// `NoMemory` if an allocation is refused.
    pub(crate) fn begin(&mut self, call: Call) -> Result<u64, NoMemory>
        requires unspent { self.old.begun < 2 ^ 64 - 1 }
        requires few { length self.old.calls < MAX_OPEN_CALLS }
        ensures number { IfOk result (λ number. number ≡ self.old.begun + 1) }
        ensures ok { OnOk result (self.new
            ≡ record { begun = self.old.begun + 1; calls = self.old.calls ++ (self.old.begun + 1, call) ∷ [] }) }
        ensures err { OnErr result (self.new ≡ self.old) }
    {
        if self.len() == 0 {
            return Ok(self.begin_first(call));
        }
        let number = self.begun + 1;
        let more = changes(&call);
        self.others.insert(number, call)?;
        self.begun = number;
        self.writers += more;
        Ok(number)
    }

    /// Makes a step of the call of this number, if it is open. Returns `Built` instead if it is a build that has taken
    /// all. `epoch` is the present epoch. Finds the call once: O(log n) in the open calls, or O(1) for `first`.
    pub(crate) fn step(
        &mut self,
        alloc: Global,
        columns: u8,
        epoch: u64,
        number: u64,
        tree: &mut Tree,
        log: &mut Log,
    ) -> Found
        requires { (IsBuiltCall (call_at number self.old.calls) → ⊥)
            → MayStepOf epoch columns tree.old log.old (call_at number self.old.calls) }
        ensures { Finds epoch columns number self.old self.new tree.old tree.new log.old log.new result }
    {
        if is_of(&self.first, number) {
            let Some((_, call)) = &mut *self.first else {
                return Found::Missing;
            };
            return call.step(alloc, columns, epoch, tree, log);
        }
        let Some(call) = self.others.get_mut(&number) else {
            return Found::Missing;
        };
        call.step(alloc, columns, epoch, tree, log)
    }

    /// Ends the call of this number, and returns it if it was open. O(log n) in the open calls; O(1) for `first`.
    #[inline(never)]
    pub(crate) fn remove(&mut self, number: u64) -> Option<Call>
        ensures value { result ≡ call_at number self.old.calls }
        ensures left { self.new ≡ record self.old { calls = without number self.old.calls } }
    {
        if is_of(&self.first, number) {
            let (_, call) = self.first.take()?;
            self.writers -= changes(&call);
            return Some(call);
        }
        let call = self.others.remove(&number)?;
        self.writers -= changes(&call);
        Some(call)
    }

    /// Ends the call of this number, if it is open. O(log n) in the open calls; O(1) for `first`.
    pub(crate) fn end(&mut self, number: u64)
        ensures { self.new ≡ record self.old { calls = without number self.old.calls } }
    {
        let _ = self.remove(number);
    }
}
