//! The first rule that a receipt breaks.

ghost use Rattle.std.specs.Prelude.{◌≡◌, ◌↔◌, ◌≤◌, List, None, length, IsTrue, OnOk, IfOk, IfSome};
ghost use Rattle.mt_types.specs.Limits.{page_fault};
ghost use Rattle.mt_check.specs.declared.receipt.Receipt.{Receipt};
ghost use Rattle.mt_check.specs.Receipts.{IsAsked, IsWithin, IsRight, IsRightPage, IsSound, claim, ClaimsAgain};
ghost use Rattle.mt_check.specs.Faults.{rule_of, ReceiptBreaks, IsSmallest};
ghost use Rattle.mt_check.specs.Judging.{IsRead, AllStand, ClaimsWithin, AreClaims};

use crate::calls::{Log, is_right_answer, key_of};
use crate::fault::Rule;
use crate::pages::Pages;
use crate::ranges::Span;
use crate::receipt::Receipt;
use bytes::Bytes;
use mt_promise::exact::Exact;
use mt_types::event::{Answer, Request};
use mt_types::refusal::NoMemory;
use mt_types::view::{Page, ViewSpec};
use std::alloc::Global;

fn is_within(receipt: &Receipt, commits: u64) -> bool
    ensures { IsTrue result ↔ IsWithin commits receipt.now }
{
    match receipt {
        Receipt::Call { from, to, .. } | Receipt::Page { from, to, .. } => {
            *from <= *to && *to <= commits
        }
    }
}

/// The rule by which what a receipt was given is judged.
fn rule_of(receipt: &Receipt) -> Rule
    ensures { result ≡ rule_of receipt.now }
{
    match receipt {
        Receipt::Call { request, .. } => match request {
            Request::Get { .. } => Rule::GetAnswer,
            Request::Put { .. } | Request::PutIf { .. } | Request::Remove { .. } => {
                Rule::WriteAnswer
            }
            Request::Range { .. } => Rule::RangeAnswer,
            Request::Tidy { .. } | Request::Build { .. } => Rule::Memory,
        },
        Receipt::Page { .. } => Rule::ViewPage,
    }
}

/// The number of the commit that a receipt claims to have made.
pub(crate) fn claim(receipt: &Receipt) -> Option<u64>
    ensures { result ≡ claim receipt.now }
{
    match receipt {
        Receipt::Call {
            request,
            answer,
            ..
        } => match request {
            Request::Put { .. } | Request::PutIf { .. } => match answer {
                Answer::Stored(number) => Some(*number),
                _ => None,
            },
            Request::Remove { .. } => match answer {
                Answer::Removed(number) => Some(*number),
                _ => None,
            },
            _ => None,
        },
        Receipt::Page { .. } => None,
    }
}

fn is_claimed(marks: &[bool], receipt: &Receipt) -> bool
    requires { ClaimsWithin (length marks.now) receipt.now }
    ensures { (earlier : List Receipt) → AreClaims earlier marks.now
        → IsTrue result ↔ ClaimsAgain earlier receipt.now }
{
    match claim(receipt) {
        Some(number) => marks[(number - 1) as usize],
        None => false,
    }
}

// A page that was shown, and what was asked for it.
#[derive(Drop)]
struct Shown<'a> {
    spec: &'a ViewSpec,
    floor: u64,
    start: &'a Bytes,
    limit: u16,
    page: &'a Page,
}

fn is_right_page(
    alloc: Global,
    log: &Log<'_>,
    pages: &mut Pages,
    to: u64,
    shown: &Shown<'_>,
) -> Result<bool, NoMemory>
    requires read { IsRead log.now.deltas.now log.now.versions }
    requires standing { AllStand log.now.columns log.now.deltas.now pages.old.states.items }
    requires within { to ≤ length log.now.deltas.now }
    requires asked { page_fault shown.now.start.now shown.now.limit ≡ None }
    ensures right { IfOk result (λ yes. IsTrue yes
        ↔ IsRightPage log.now.columns log.now.deltas.now to shown.now.spec.now shown.now.floor shown.now.start.now
        shown.now.limit shown.now.page.now) }
    ensures standing { OnOk result (AllStand log.now.columns log.now.deltas.now pages.new.states.items) }
{
    let page = shown.page;
    if page.at < shown.floor || page.at > to {
        return Ok(false);
    }
    let start = key_of(alloc, shown.start)?;
    let right = pages.page(alloc, log, shown.spec, page.at, &start, shown.limit)?;
    Ok(page.is_same(&right))
}

fn is_right(
    alloc: Global,
    log: &Log<'_>,
    pages: &mut Pages,
    receipt: &Receipt,
) -> Result<bool, NoMemory>
    requires read { IsRead log.now.deltas.now log.now.versions }
    requires standing { AllStand log.now.columns log.now.deltas.now pages.old.states.items }
    requires within { IsWithin (length log.now.deltas.now) receipt.now }
    requires asked { IsAsked log.now.columns receipt.now }
    ensures right { IfOk result (λ yes. IsTrue yes ↔ IsRight log.now.columns log.now.deltas.now receipt.now) }
    ensures standing { OnOk result (AllStand log.now.columns log.now.deltas.now pages.new.states.items) }
{
    match receipt {
        Receipt::Call {
            request,
            answer,
            from,
            to,
        } => {
            let span = Span {
                from: *from,
                to: *to,
            };
            is_right_answer(alloc, log, span, request, answer)
        }
        Receipt::Page {
            spec,
            floor,
            start,
            limit,
            page,
            to,
            ..
        } => {
            let shown = Shown {
                spec,
                floor: *floor,
                start,
                limit: *limit,
                page,
            };
            is_right_page(alloc, log, pages, *to, &shown)
        }
    }
}

/// The smallest rule that a receipt breaks after those whose claims are marked. Costs what its answer costs to judge.
pub(crate) fn receipt_fault(
    alloc: Global,
    log: &Log<'_>,
    pages: &mut Pages,
    marks: &[bool],
    receipt: &Receipt,
) -> Result<Option<Rule>, NoMemory>
    requires read { IsRead log.now.deltas.now log.now.versions }
    requires standing { AllStand log.now.columns log.now.deltas.now pages.old.states.items }
    requires marked { length marks.now ≡ length log.now.deltas.now }
    requires asked { IsAsked log.now.columns receipt.now }
    ensures fine { IfOk result (λ found. found ≡ None → IsSound log.now.columns log.now.deltas.now receipt.now) }
    ensures unclaimed { IfOk result (λ found. found ≡ None → (earlier : List Receipt) → AreClaims earlier marks.now
        → ¬ ClaimsAgain earlier receipt.now) }
    ensures fault { IfOk result (λ found. IfSome found (λ rule. (earlier : List Receipt) → AreClaims earlier marks.now
        → IsSmallest (ReceiptBreaks log.now.columns log.now.deltas.now earlier receipt.now) rule)) }
    ensures standing { OnOk result (AllStand log.now.columns log.now.deltas.now pages.new.states.items) }
{
    if !is_within(receipt, log.deltas.len() as u64) {
        return Ok(Some(Rule::Span));
    }
    if !is_right(alloc, log, pages, receipt)? {
        return Ok(Some(rule_of(receipt)));
    }
    if is_claimed(marks, receipt) {
        return Ok(Some(Rule::ClaimedOnce));
    }
    Ok(None)
}
