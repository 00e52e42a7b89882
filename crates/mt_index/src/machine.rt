//! The machine over the whole tree: events in, outcomes out. A step of a call is one event.

ghost use Rattle.std.specs.Prelude.{ℕ, ◌≡◌, ◌↔◌, [], ◌∷◌, take, drop, IsTrue, length, IfOk, IfErr, MatchOption, Err};
ghost use Rattle.std.specs.Option.{option_map};
ghost use Rattle.mt_types.specs.Limits.{open_fault};
ghost use Rattle.mt_types.specs.Limited.{OutcomeIsLimited};
ghost use Rattle.std.specs.FinMap.{len};
ghost use Rattle.mt_promise.specs.History.{History, happening, moment, call_of, rows};
ghost use Rattle.mt_arena.specs.Node.{occupied};
ghost use Rattle.mt_index.specs.Alone.{IsIdle, IsQuiet};
ghost use Rattle.mt_index.specs.Causes.{IsCaused};
ghost use Rattle.mt_index.specs.OneStep.{IsOneStep};
ghost use Rattle.mt_index.specs.OneField.{IsOneField};
ghost use Rattle.mt_commit.specs.Logged.{deltas_of};
ghost use Rattle.mt_index.specs.Feed.{feed_fault};
ghost use Rattle.mt_commit.specs.Log.{newest};
ghost use Rattle.mt_index.specs.Calls.{pass_at};
ghost use Rattle.mt_index.specs.Stands.{Stands, HasBounds};
ghost use Rattle.mt_index.specs.Events.{EventDoes, IsRun};

use crate::calls::Calls;
use crate::feed::deltas_after;
use crate::options::Options;
use mt_commit::log::Log;
use mt_tree::Tree;
use mt_types::event::{Event, Outcome};
use mt_types::limits::{MAX_NODES, open_fault};
use mt_types::numbers::{CallNo, PassNo};
use mt_types::refusal::Refusal;
use mt_types::row::Delta;
use mt_view::views::Views;
use std::alloc::Global;
use std::marker::Model;

/// An index over the whole tree, which is driven by events.
pub struct Machine {
    pub(crate) columns: u8,
    pub(crate) epoch: u64,
    pub(crate) tree: Tree,
    pub(crate) log: Log,
    pub(crate) calls: Calls,
    pub(crate) views: Views,
}

impl Model for Machine {
    ghost use Rattle.mt_promise.specs.History.{History};
    ghost use Rattle.mt_index.specs.Stands.{MachineView, Stands};
    ghost use Rattle.std.specs.Coded.{codes};
    ghost use Rattle.mt_scan.specs.CursorCode.{place_code};

    ghost Value = { MachineView };

    ghost use Rattle.mt_view.specs.StateCode.{state_code};

    ghost coded = { Prim.hlevel (codes, place_code, state_code) };

    ghost view = { λ m. record {
      columns = m.columns;
      epoch = m.epoch;
      tree = m.tree;
      log = m.log;
      calls = m.calls;
      views = m.views;
    } };

    ghost invariant = { λ m. (h : History)
        × Stands (record {
          columns = m.columns;
          epoch = m.epoch;
          tree = m.tree;
          log = m.log;
          calls = m.calls;
          views = m.views;
        }) h };
}

// Written out so that its proof is made here only, and not again in each crate that drops a machine.
impl Drop for Machine {
    fn drop(self) {
        let Machine {
            columns: _,
            epoch: _,
            tree: _,
            log: _,
            calls: _,
            views: _,
        } = self;
    }
}

impl Machine {
    /// Opens an empty index: the tree is a head and a border without entries. A few allocations.
    ///
    /// # Errors
    ///
    /// `BadColumn` unless `columns` is from 1 to `MAX_COLUMNS`; `BadLimit` unless `log_capacity` is from 1 to
    /// `MAX_LOG_CAPACITY` and `log_retention` is at most `MAX_LOG_RETENTION`; `NoMemory` if an allocation is refused. The
    /// first of these that applies.
    pub fn open(alloc: Global, options: Options) -> Result<Machine, Refusal>
        ensures opened { IfOk result
            (λ machine. (machine.columns ≡ options.columns) × HasBounds options.log_capacity options.log_retention machine.log
            × Stands machine []) }
        ensures base { IfOk result (λ machine. machine.log.base ≡ 0) }
        ensures fault { MatchOption (open_fault options.columns options.log_capacity options.log_retention)
            (IfErr result (λ refusal. refusal ≡ Refusal.NoMemory)) (λ refusal. result ≡ Err refusal) }
        ensures idle { IfOk result IsIdle }
    {
        if let Some(refusal) = open_fault(
            options.columns,
            options.log_capacity,
            options.log_retention,
        ) {
            return Err(refusal);
        }
        Ok(Machine {
            columns: options.columns as u8,
            epoch: 0,
            tree: Tree::open(alloc)?,
            log: Log::open(alloc, options.log_capacity, options.log_retention),
            calls: Calls::new(alloc)?,
            views: Views::new(alloc),
        })
    }

    /// Returns how many calls are open.
    pub fn open_calls(&self) -> usize
        ensures idle { result ≡ 0 → IsIdle self.now }
        ensures told { (h : History) → Stands self.now h → result ≡ length (moment h).calls }
    {
        self.calls.len()
    }

    /// Returns how many columns a row has.
    pub fn columns(&self) -> u8
        ensures { result ≡ self.now.columns }
    {
        self.columns
    }

    /// Returns how many commits have been made.
    pub fn commits(&self) -> u64
        ensures number { result ≡ newest self.now.log }
        ensures told { (h : History) → Stands self.now h → result ≡ length (moment h).commits }
    {
        self.log.number()
    }

    /// Returns how many rows there are: those after the commits that have been made, also while calls are open.
    pub fn len(&self) -> usize
        ensures { (h : History) → Stands self.now h → result ≡ len (rows self.now.columns (moment h)) }
    {
        self.log.rows() as usize
    }

    /// Returns the pass of the call of this number, if it is open. O(log n) in the open calls.
    pub fn pass_of(&self, call: CallNo) -> Option<PassNo>
        ensures pass { result ≡ pass_at call.0 self.now.calls.calls }
        ensures told { (h : History) → Stands self.now h
            → option_map (λ pass. pass.0) result ≡ option_map (λ kept. kept.pass) (call_of call.0 (moment h).calls) }
    {
        self.calls.pass_of(call.0)
    }

    /// Returns how many node numbers are occupied: by the nodes of the tree, by retired nodes, and by the spares of
    /// open calls.
    pub fn nodes(&self) -> usize
        ensures { result ≡ occupied self.now.tree.nodes }
    {
        MAX_NODES as usize - self.tree.free_numbers()
    }

    /// Returns the tree, borrowed. Walks read it (`mt_walk`) while no put, remove or tidy is open.
    pub fn tree(&self) -> &Tree
        ensures { result.now ≡ self.now.tree }
    {
        &self.tree
    }

    /// Returns the deltas of the commits after the first `from`, at most `limit`, in their order. Each has its number,
    /// its key, and the rows that the key had before and after it. The list is empty if there are no such commits.
    ///
    /// O(n) in these deltas, with an allocation or two for each. Their list grows by doubling.
    ///
    /// # Errors
    ///
    /// `BadLimit` unless `limit` is from 1 to `MAX_RANGE`. `Behind` if some of these deltas were trimmed, with the
    /// number after which the log has them: the log keeps what views and open gets, ranges and builds hold, and the
    /// last `keep` of its options. `NoMemory` if an allocation is refused.
    pub fn feed(&self, alloc: Global, from: u64, limit: u16) -> Result<Vec<Delta>, Refusal>
        ensures tells { IfOk result (λ deltas. (h : History) → Stands self.now h
            → deltas.items ≡ take limit (drop from (deltas_of self.now.columns (moment h).commits))) }
        ensures fault { MatchOption (feed_fault self.now.log from limit)
            (IfErr result (λ refusal. refusal ≡ Refusal.NoMemory)) (λ refusal. result ≡ Err refusal) }
    {
        deltas_after(alloc, &self.log, from, limit)
    }

    /// Returns whether no call is open.
    pub fn is_idle(&self) -> bool
        ensures idle { IsTrue result ↔ IsIdle self.now }
        ensures stands { (h : History) × Stands self.now h }
    {
        self.calls.len() == 0
    }

    /// Returns whether no put, remove or tidy is open. Gets, ranges and builds may be. O(1).
    pub fn is_quiet(&self) -> bool
        ensures { IsTrue result ↔ IsQuiet self.now }
    {
        self.calls.is_quiet()
    }

    /// Makes one event, and returns its outcome. Whichever history the machine is at, it is then at that history with
    /// this event and this outcome, and that history is legal (`stands`). Four clauses state what a history doesn't
    /// show:
    ///
    /// - `does`: what an event of each kind changes, and that it changes nothing else;
    /// - `caused`: why a call waits, fails or is refused, and which nodes a collection frees;
    /// - `one_step`: that a step of a call is one step of its kind, by the tree before it. It visits one node, of which
    ///   it reads one field if it is a border on the way of the call; or it takes one delta of the log.
    /// - `one_field`: that a step of a call changes at most one node that other calls may read, and of a border at most
    ///   one field, as they read it. The step of a commit may show a row: it changes the order, and writes the commit's
    ///   number into the row.
    ///
    /// What the event answers keeps the limits of an index (`limited`).
    ///
    /// A begin copies its request and shares the bytes of it, with a few allocations. A step costs the visit of one
    /// node, or of one field of a border, and at most a few allocations for each entry of the border. It finds its call
    /// once, and the last step of a call once more: O(log n) in the open calls, or O(1) for a call that began while no
    /// other was open. A delta costs a build or view O(log n) in the rows of the view. A page of k rows costs O(log n +
    /// k). A collection is O(n) in the nodes that it frees.
    pub fn event(&mut self, alloc: Global, event: &Event) -> Outcome
        ensures stands { (h : History) → Stands self.old h → (opens : ℕ)
            × Stands self.new (happening event.now result opens ∷ h) }
        ensures does { EventDoes self.old event.now result self.new }
        ensures caused { IsCaused self.old event.now result self.new }
        ensures one_step { IsOneStep self.old event.now result self.new }
        ensures one_field { IsOneField self.old event.now result self.new }
        ensures limited { OutcomeIsLimited result }
        ensures columns { self.new.columns ≡ self.old.columns }
        ensures bounds { HasBounds self.old.log.capacity self.old.log.retention self.new.log }
    {
        let _stands = self.is_idle();
        match event {
            Event::Begin(pass, request) => self.begin(alloc, *pass, request),
            Event::Step(call) => self.step(alloc, call.0),
            Event::Apply(view) => self.apply(view.0),
            Event::ViewRead {
                view,
                floor,
                start,
                limit,
            } => self.view_read(alloc, *view, *floor, start, *limit),
            Event::ViewDrop(view) => self.view_drop(view.0),
            Event::Advance => self.advance(),
            Event::Collect => self.collect(),
        }
    }

    /// Opens an empty index and makes these events on it, one after the other. Returns the machine, and the outcomes in
    /// the order of the events, one for each.
    ///
    /// Costs what the events cost. The list of outcomes grows by doubling.
    ///
    /// # Errors
    ///
    /// Those of `Machine::open`; `NoMemory` if the list of outcomes can't grow. A refused event is an outcome, and no
    /// error.
    pub fn run(
        alloc: Global,
        options: Options,
        events: &[Event],
    ) -> Result<(Machine, Vec<Outcome>), Refusal>
        ensures legal { IfOk result (λ run. (h : History) × IsRun options events.now run.1.items run.0 h) }
        ensures length { IfOk result (λ run. length run.1.items ≡ length events.now) }
        ensures bounds { IfOk result (λ run. HasBounds options.log_capacity options.log_retention run.0.log) }
        ensures fault { MatchOption (open_fault options.columns options.log_capacity options.log_retention)
            (IfErr result (λ refusal. refusal ≡ Refusal.NoMemory)) (λ refusal. result ≡ Err refusal) }
    {
        let mut machine = Machine::open(alloc, options)?;
        let mut outcomes = Vec::new(alloc);
        for event in events {
            let outcome = machine.event(alloc, event);
            let Ok(()) = outcomes.push(outcome) else {
                return Err(Refusal::NoMemory);
            };
        }
        Ok((machine, outcomes))
    }
}
