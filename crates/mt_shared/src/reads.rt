//! Reads at once: gets and ranges that are answered from the rows of one moment, while no put, remove or tidy is open.

ghost use Rattle.std.specs.Prelude.{◌≡◌, ◌↔◌, IsTrue, IfOk, IfSome, None};
ghost use Rattle.mt_types.specs.declared.event.Request.TheVariants.{Get, Range};
ghost use Rattle.mt_types.specs.Limits.{request_fault};
ghost use Rattle.mt_types.specs.Limited.{AnswerIsLimited};
ghost use Rattle.mt_index.specs.Alone.{IsQuiet};
ghost use Rattle.mt_shared.specs.Inner.{IsInner, IsRefusedBy};
ghost use Rattle.mt_shared.specs.Reads.{IsPlainNow, IsRead, IsReadAnswer, MayRead, ReadsNow};

use crate::inner::Inner;
use crate::trace::Trace;
use bytes::Bytes;
use mt_index::machine::Machine;
use mt_types::columns::shown;
use mt_types::copying::TryCopy;
use mt_types::event::{Answer, Request};
use mt_types::key::Key;
use mt_types::limits::request_fault;
use mt_types::numbers::PassNo;
use mt_types::refusal::{NoMemory, Refusal};
use mt_types::row::ColumnNumbers;
use std::alloc::Global;

// Returns the answer of a get that breaks no limit.
fn get(
    machine: &Machine,
    alloc: Global,
    key: &Bytes,
    columns: &ColumnNumbers,
) -> Result<Answer, NoMemory>
    requires quiet { IsQuiet machine.now }
    requires within { request_fault machine.now.columns (Get key.now columns.now) ≡ None }
    ensures plain { IfOk result (IsPlainNow machine.now (Get key.now columns.now)) }
    ensures read { IfOk result IsReadAnswer }
{
    match machine.row(key.as_slice()) {
        Some(row) => Ok(Answer::Found(shown(alloc, columns, row)?)),
        None => Ok(Answer::Absent),
    }
}

// Returns the answer of a range that breaks no limit.
fn range(
    machine: &Machine,
    alloc: Global,
    start: &Bytes,
    limit: u16,
    columns: &ColumnNumbers,
) -> Result<Answer, NoMemory>
    requires quiet { IsQuiet machine.now }
    requires within { request_fault machine.now.columns (Range start.now limit columns.now) ≡ None }
    ensures plain { IfOk result (IsPlainNow machine.now (Range start.now limit columns.now)) }
    ensures read { IfOk result IsReadAnswer }
{
    let Ok(start) = Key::new(start.copy(alloc)?) else {
        unreachable!()
    };
    let columns = columns.copy(alloc)?;
    match machine.range(alloc, start, limit, columns) {
        Ok(pairs) => Ok(Answer::Rows(pairs)),
        Err(_) => Err(NoMemory),
    }
}

// Returns the answer of a get or a range.
fn answer(machine: &Machine, alloc: Global, request: &Request) -> Result<Answer, Refusal>
    requires quiet { IsQuiet machine.now }
    requires read { IsRead request.now }
    ensures answer { IfOk result (IsPlainNow machine.now request.now) }
    ensures read { IfOk result IsReadAnswer }
    ensures fault { IsRefusedBy (request_fault machine.now.columns request.now) result }
{
    if let Some(refusal) = request_fault(machine.columns(), request) {
        return Err(refusal);
    }
    match request {
        Request::Get { key, columns } => Ok(get(machine, alloc, key, columns)?),
        Request::Range {
            start,
            limit,
            columns,
        } => Ok(range(machine, alloc, start, *limit, columns)?),
        _ => unreachable!(),
    }
}

/// Returns whether a request is a get or a range, which may be read at once.
pub(crate) fn is_read(request: &Request) -> bool
    ensures { IsTrue result ↔ IsRead request.now }
{
    matches!(request, Request::Get { .. } | Request::Range { .. })
}

impl Inner {
    /// Answers a get or a range of a pass at once: from the rows as they are now, if the pass has counters, no put, remove or
    /// tidy is open, and no trace is kept. Returns the number of commits and the answer. Returns `None` if the request is
    /// another one, or may not be answered at once. Makes no event, and changes nothing.
    ///
    /// Costs what `Machine::get` and `Machine::range` cost.
    ///
    /// # Errors
    ///
    /// The limit that the request breaks, as `KeyTooLong`, `BadColumn` or `BadLimit`; `NoMemory` if an allocation is
    /// refused.
    pub(crate) fn read(
        &self,
        alloc: Global,
        pass: PassNo,
        request: &Request,
    ) -> Option<Result<(u64, Answer), Refusal>>
        ensures reads { ReadsNow self.now pass request.now result }
        ensures answer { IfSome result (λ read. IfOk read (λ now. IsReadAnswer now.1)) }
        ensures limited { IfSome result (λ read. IfOk read (λ now. AnswerIsLimited now.1)) }
        ensures kept { IsInner self.now }
    {
        let at = self.machine.commits();
        if !is_read(request) || !self.may_read(pass) {
            return None;
        }
        match answer(&self.machine, alloc, request) {
            Ok(answer) => Some(Ok((at, answer))),
            Err(refusal) => Some(Err(refusal)),
        }
    }

    // Returns whether reads of this pass may be answered at once.
    fn may_read(&self, pass: PassNo) -> bool
        ensures { IsTrue result ↔ MayRead self.now pass }
    {
        self.has_counters(pass) && self.machine.is_quiet() && matches!(self.trace, Trace::Off)
    }
}
