//! The audit of a log and its receipts.

ghost use Rattle.std.specs.Prelude.{◌⊎◌, ◌↔◌, ◌++◌, ◌∷◌, [], List, All, length, replicate, false, ◌≡◌, IsTrue, OnOk, IfOk, IfErr};
ghost use Rattle.mt_check.specs.declared.receipt.Receipt.{Receipt};
ghost use Rattle.mt_check.specs.Receipts.{IsAsked, IsSoundLog, IsSound, NoneClaimsAgain};
ghost use Rattle.mt_check.specs.Faults.{DeltaBreaks, ReceiptBreaks, IsFirstFault, IsFirstReceiptFault, IsWantOfMemory};
ghost use Rattle.mt_check.specs.Judging.{IsRead, ClaimsWithin, AreClaims, AreRight};

use crate::calls::Log;
use crate::fault::Fault;
use crate::judge::{claim, receipt_fault};
use crate::log::read_log;
use crate::pages::Pages;
use crate::receipt::Receipt;
use mt_types::event::Request;
use mt_types::limits::{page_fault, request_fault, spec_fault};
use mt_types::refusal::NoMemory;
use mt_types::row::Delta;
use std::alloc::Global;

/// Whether a receipt is one that `check` takes, of an index of `columns` columns: of a get, put, remove or range, or of
/// a page, whose request, or specification, start and limit, would not be refused for a limit.
pub fn is_asked(columns: u8, receipt: &Receipt) -> bool
    ensures { IsTrue result ↔ IsAsked columns receipt.now }
{
    match receipt {
        Receipt::Call { request, .. } => {
            !matches!(request, Request::Tidy { .. } | Request::Build { .. })
                && request_fault(columns, request).is_none()
        }
        Receipt::Page {
            spec,
            start,
            limit,
            ..
        } => spec_fault(columns, spec).is_none() && page_fault(start, *limit).is_none(),
    }
}

/// Whether each receipt is one that `check` takes.
pub fn are_asked(columns: u8, receipts: &[Receipt]) -> bool
    ensures { IsTrue result ↔ All (IsAsked columns) receipts.now }
{
    for receipt in receipts {
        if !is_asked(columns, receipt) {
            return false;
        }
    }
    true
}

// Marks for `count` numbers, of which none is marked.
fn new_marks(alloc: Global, count: usize) -> Result<Vec<bool>, NoMemory>
    ensures { IfOk result (λ marks. marks.items ≡ replicate count false) }
{
    Ok(vec![in alloc; false; count]?)
}

// Marks the number that a receipt claims.
fn mark(marks: &mut Vec<bool>, receipt: &Receipt)
    requires { ClaimsWithin (length marks.old.items) receipt.now }
    ensures claims { (earlier : List Receipt) → AreClaims earlier marks.old.items
        → AreClaims (earlier ++ receipt.now ∷ []) marks.new.items }
    ensures size { length marks.new.items ≡ length marks.old.items }
{
    if let Some(number) = claim(receipt) {
        marks[(number - 1) as usize] = true;
    }
}

// Judges the receipts one after the other.
fn judge(alloc: Global, log: &Log<'_>, receipts: &[Receipt]) -> Result<(), Fault>
    requires read { IsRead log.now.deltas.now log.now.versions }
    requires asked { All (IsAsked log.now.columns) receipts.now }
    ensures right { OnOk result (AreRight log.now.columns log.now.deltas.now receipts.now (length receipts.now)) }
    ensures fault { IfErr result (λ fault. IsWantOfMemory fault
        ⊎ IsFirstFault (ReceiptBreaks log.now.columns log.now.deltas.now) receipts.now fault) }
{
    let mut pages = Pages::new(alloc);
    let mut marks = new_marks(alloc, log.deltas.len())?;
    for (i, receipt) in receipts.iter().enumerate() {
        if let Some(rule) = receipt_fault(alloc, log, &mut pages, &marks, receipt)? {
            return Err(Fault {
                index: i as u64 + 1,
                rule,
            });
        }
        mark(&mut marks, receipt);
    }
    Ok(())
}

/// Checks that each receipt is sound against a log, from its first commit on, of an index of `columns` columns.
///
/// Reading the log costs O(n log n) in the deltas. Then a get costs O(log n + m) in the keys and its key's commits
/// within its span, a put or remove O(1) and the row that it makes, a range O(log n + m) in the keys and those that it
/// covers with their commits within its span, and a page the deltas since an earlier state of the same view, of at most
/// 64 states that are kept, or all deltas up to its number if no state of that view is kept at or before it.
///
/// # Errors
///
/// The first fault in the order of the deltas and then of the receipts, with the smallest rule that this delta or
/// receipt breaks; or `Rule::Memory` if out of memory.
pub fn check(
    alloc: Global,
    columns: u8,
    deltas: &[Delta],
    receipts: &[Receipt],
) -> Result<(), Fault>
    requires { All (IsAsked columns) receipts.now }
    ensures log { OnOk result (IsSoundLog deltas.now) }
    ensures sound { OnOk result (All (IsSound columns deltas.now) receipts.now) }
    ensures once { OnOk result (NoneClaimsAgain receipts.now) }
    ensures fault { IfErr result (λ fault. IsWantOfMemory fault
        ⊎ IsFirstFault DeltaBreaks deltas.now fault
        ⊎ IsFirstReceiptFault columns deltas.now receipts.now fault) }
{
    let versions = read_log(alloc, deltas)?;
    let log = Log {
        columns,
        deltas,
        versions,
    };
    judge(alloc, &log, receipts)
}
