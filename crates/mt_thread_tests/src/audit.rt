//! A caller that keeps the receipts of its calls, the log of an index, and what the checker says of both.

use mt_check::check::{are_asked, check};
use mt_check::receipt::Receipt;
use mt_index::options::Options;
use mt_shared::asking::ask;
use mt_shared::door::Door;
use mt_shared::driving::Shared;
use mt_shared::pass::Pass;
use mt_types::copying::TryCopy;
use mt_types::event::Request;
use mt_types::refusal::Refusal;
use mt_types::row::Delta;
use std::alloc::Global;
use std::sync::Wait;

/// An index whose log keeps all commits of a test.
pub(crate) const OPTIONS: Options = Options {
    columns: 1,
    log_capacity: 65_536,
    log_retention: 65_536,
    tidies: true,
};

/// A pass with the receipts of its calls but tidies, and the number of those that were read at once.
#[derive(Drop)]
pub(crate) struct Caller {
    pub(crate) pass: Pass,
    pub(crate) receipts: Vec<Receipt>,
    pub(crate) at_once: u64,
}

impl Caller {
    /// Makes a call, and keeps its receipt. A conditional put may find another version, and then has none.
    pub(crate) fn call<S: Shared>(
        &mut self,
        alloc: Global,
        shared: &mut S,
        request: Request,
    ) -> Result<(), Refusal> {
        let asked = request.copy(alloc)?;
        let reply = match ask(alloc, shared, &mut self.pass, request) {
            Ok(reply) => reply,
            Err(Refusal::OtherVersion(_)) => return Ok(()),
            Err(refusal) => return Err(refusal),
        };
        if reply.call.0 == 0 {
            self.at_once = self.at_once.saturating_add(1);
        }
        if !matches!(asked, Request::Tidy { .. }) {
            self.receipts.push(Receipt::Call {
                request: asked,
                answer: reply.answer,
                from: reply.from,
                to: reply.to,
            })?;
        }
        Ok(())
    }
}

/// All deltas of an index that has made up to 65,536 commits.
pub(crate) fn log_of<R: Wait>(alloc: Global, door: &Door<'_, R>) -> Result<Vec<Delta>, Refusal> {
    let mut log = Vec::new(alloc);
    for _ in 0..66 {
        let next = door.feed(alloc, log.len() as u64, 1000)?;
        log.extend(next)?;
    }
    Ok(log)
}

/// The index and the number of the rule of the first fault; twice 0 if there is none.
pub(crate) fn first_fault(alloc: Global, log: &[Delta], receipts: &[Receipt]) -> (u64, u8) {
    if !are_asked(OPTIONS.columns as u8, receipts) {
        return (u64::MAX, 0);
    }
    match check(alloc, OPTIONS.columns as u8, log, receipts) {
        Ok(()) => (0, 0),
        Err(fault) => (fault.index, fault.rule.number()),
    }
}
