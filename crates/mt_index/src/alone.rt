//! Calls alone: from begin to end while no other call is open, with the answers of a plain map.

ghost use Rattle.std.specs.Prelude.{◌≡◌, ◌≤◌, IfOk, IfErr, MatchOption, Err, None, length};
ghost use Rattle.std.specs.Option.{option_copied, option_map, option_or};
ghost use Rattle.std.specs.FinMap.{get};
ghost use Rattle.mt_types.specs.declared.limits.TheConstants.{MAX_KEY_BYTES};
ghost use Rattle.mt_types.specs.Rows.{shown};
ghost use Rattle.mt_types.specs.Limits.{columns_fault, limit_fault};
ghost use Rattle.mt_promise.specs.History.{History, moment, rows};
ghost use Rattle.mt_promise.specs.Alone.{IsRangeOfMap};
ghost use Rattle.mt_index.specs.Alone.{IsIdle, IsQuiet, AnswersPlainly, RefusesPlainly, pass_0};
ghost use Rattle.mt_index.specs.Runs.{BeginsOrNot};
ghost use Rattle.mt_index.specs.Stands.{Stands, HasBounds, fault_of};
ghost use Rattle.mt_index.specs.Events.{HappensAlone, last_outcome};

use crate::calling::{CallRun, is_write};
use crate::machine::Machine;
use crate::running::{Run, commits_in};
use mt_steps::alone::row_of;
use mt_types::columns::shown;
use mt_types::event::{Outcome, Reply, Request};
use mt_types::key::Key;
use mt_types::limits::{columns_fault, limit_fault};
use mt_types::numbers::PassNo;
use mt_types::refusal::Refusal;
use mt_types::row::{ColumnNumbers, Pairs, Row};
use mt_walk::range_of;
use std::alloc::Global;

impl Machine {
    /// Returns the row of `key`, borrowed, or `None` if it has none. No put, remove or tidy may be open; gets, ranges and
    /// builds may be. The result is that of a plain map. Begins no call, and changes nothing.
    ///
    /// Costs the visit of each node on the way to the key. Allocates nothing, and copies nothing.
    pub fn row(&self, key: &[u8]) -> Option<&Row>
        requires quiet { IsQuiet self.now }
        requires fits { length key.now ≤ MAX_KEY_BYTES }
        ensures { (h : History) → Stands self.now h
            → option_copied result ≡ get (rows self.now.columns (moment h)) key.now }
    {
        row_of(&self.tree, key)
    }

    /// Returns the row of `key`, with the columns that are asked for, or with all if none is asked for. `None` if the
    /// key has no row. No put, remove or tidy may be open; gets, ranges and builds may be. The result is that of a plain
    /// map. Begins no call, and changes nothing.
    ///
    /// Costs the visit of each node on the way to the key. Allocates for the row only, and shares the bytes of its
    /// columns.
    ///
    /// # Errors
    ///
    /// `BadColumn` if a column does not exist or is named twice; `NoMemory` if an allocation is refused.
    pub fn get(
        &self,
        alloc: Global,
        key: Key,
        columns: ColumnNumbers,
    ) -> Result<Option<Row>, Refusal>
        requires { IsQuiet self.now }
        ensures row { IfOk result (λ row. (h : History) → Stands self.now h
            → row ≡ option_map (shown columns) (get (rows self.now.columns (moment h)) key)) }
        ensures fault { MatchOption (columns_fault self.now.columns columns)
            (IfErr result (λ refusal. refusal ≡ Refusal.NoMemory)) (λ refusal. result ≡ Err refusal) }
    {
        if let Some(refusal) = columns_fault(self.columns, columns.as_slice()) {
            return Err(refusal);
        }
        let Some(row) = self.row(key.as_slice()) else {
            return Ok(None);
        };
        Ok(Some(shown(alloc, &columns, row)?))
    }

    /// Returns the first rows whose keys are at or after `start`, at most `limit`, in the order of keys, each with the
    /// columns that are asked for, or with all if none is asked for. No put, remove or tidy may be open; gets, ranges
    /// and builds may be. The result is that of a plain map. Begins no call, and changes nothing.
    ///
    /// Costs the visit of the nodes on the way to `start`, and of each border from there on. From the end of a layer it
    /// continues in the border above. Allocates for the key and the row of each pair, and shares the bytes of the
    /// columns.
    ///
    /// # Errors
    ///
    /// `BadColumn` if a column does not exist or is named twice; `BadLimit` if `limit` is 0 or more than `MAX_RANGE`;
    /// `NoMemory` if an allocation is refused.
    pub fn range(
        &self,
        alloc: Global,
        start: Key,
        limit: u16,
        columns: ColumnNumbers,
    ) -> Result<Pairs, Refusal>
        requires { IsQuiet self.now }
        ensures pairs { IfOk result (λ pairs. (h : History) → Stands self.now h
            → IsRangeOfMap (rows self.now.columns (moment h)) columns start limit pairs) }
        ensures fault { MatchOption (option_or (columns_fault self.now.columns columns) (limit_fault limit))
            (IfErr result (λ refusal. refusal ≡ Refusal.NoMemory)) (λ refusal. result ≡ Err refusal) }
    {
        if let Some(refusal) = columns_fault(self.columns, columns.as_slice()) {
            return Err(refusal);
        }
        if let Some(refusal) = limit_fault(limit) {
            return Err(refusal);
        }
        Ok(range_of(alloc, &self.tree, &start, limit, &columns)?)
    }

    /// Does what is asked for, as a call of pass 0 from its begin to its end. No other call may be open. The answer is
    /// that of a plain map, and a put or remove has made its one commit. The call ends, because each of its steps
    /// brings it nearer to its end. What happens is its begin and its steps, each with its cause (`happens`).
    ///
    /// A get, put, remove or tidy costs the visit of each node on its way, and a put makes the steps of its splits too. A
    /// range or build also visits each border that it reads. A get, range or build reads one field of a border in each of
    /// its steps: a get makes at most 64 steps for each node that there is (`nodes`). A put or remove searches a border
    /// once, and its steps are those that read it field by field. A call allocates for its answer and for what it stores.
    /// A range or build also allocates for what it reads, and a get, range or build to hold the log. The request is moved
    /// into the call, not copied. A put or remove is never stored among the open calls.
    ///
    /// # Errors
    ///
    /// If something refuses the begin, exactly that: a limit that the request breaks, `Spent`, or `TooManyViews`.
    /// Otherwise what a call may be refused for. A refused call has changed no rows, commits or views.
    pub fn do_alone(&mut self, alloc: Global, request: Request) -> Result<Reply, Refusal>
        requires { IsIdle self.old }
        ensures answered { IfOk result (λ reply. AnswersPlainly self.old request reply self.new) }
        ensures refused { IfErr result (λ refusal. RefusesPlainly self.old request refusal self.new) }
        ensures happens { HappensAlone self.old request (last_outcome result) self.new }
        ensures fault { MatchOption (fault_of self.old request) (Unit {0}) (λ refusal. result ≡ Err refusal) }
        ensures idle { IsIdle self.new }
        ensures options { self.new.columns ≡ self.old.columns }
        ensures bounds { HasBounds self.old.log.capacity self.old.log.retention self.new.log }
        ensures base { self.new.log.base ≡ self.old.log.base }
    {
        let _stands = self.is_idle();
        if let Some(refusal) = self.fault_of(&request) {
            return Err(refusal);
        }
        let (call, run) = match self.start_alone(alloc, request) {
            CallRun::Ran(call, run) => (call, run),
            CallRun::Refused(refusal) => return Err(refusal),
        };
        let mut last = run.last;
        loop {
            match last {
                Outcome::Moved | Outcome::Commit(_) => {}
                Outcome::Done(reply) => return Ok(reply),
                Outcome::Refused(refusal) => return Err(refusal),
                _ => unreachable!(),
            }
            last = self.step(alloc, call.0);
        }
    }

    // Begins a call alone that nothing refuses: a put or remove makes as many steps as it can, another call makes one.
    fn start_alone(&mut self, alloc: Global, request: Request) -> CallRun
        requires idle { IsIdle self.old }
        requires none { fault_of self.old request ≡ None }
        ensures begins { BeginsOrNot self.old pass_0 request result self.new }
    {
        if is_write(&request) {
            return self.run_write(alloc, PassNo(0), request, u64::MAX);
        }
        let Ok(call) = self.admit(alloc, PassNo(0), request) else {
            return CallRun::Refused(Refusal::NoMemory);
        };
        let last = self.step(alloc, call.0);
        let run = Run {
            steps: 1,
            commits: commits_in(&last),
            last,
        };
        CallRun::Ran(call, run)
    }
}
