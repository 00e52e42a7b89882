//! What a receipt says.

ghost use Rattle.std.specs.Prelude.{◌≡◌, true, IfOk};
ghost use Rattle.mt_script.specs.Words.{Gives};
ghost use Rattle.mt_check.specs.Receipts.{IsAsked};
ghost use Rattle.mt_audit.specs.Lines.{around_arrow, call_of, page_receipt_of, asked_of, said_of, is_asked, receipt_of};

use crate::answers::{read_answer, read_shown};
use mt_check::check::is_asked;
use mt_check::receipt::Receipt;
use mt_script::fault::LineError;
use mt_script::reading::{read_request, read_spec};
use mt_script::words::{bytes_from, cut, cut_last, number};
use std::alloc::Global;

// What is before and after ` => `.
#[tactic(auto, unfolding(crate::specs::Lines::around_arrow))]
fn around_arrow(text: &[u8]) -> Result<(&[u8], &[u8]), LineError>
    ensures { Gives (λ x. (x.0.now, x.1.now)) result (around_arrow text.now) }
{
    let (front, back) = cut(text, b'>')?;
    let (asked, shaft) = cut_last(front, b' ')?;
    let (gap, given) = cut(back, b' ')?;
    if shaft == b"=".as_slice() && gap.is_empty() {
        Ok((asked, given))
    } else {
        Err(LineError::Bad)
    }
}

#[tactic(auto, unfolding(crate::specs::Lines::call_of))]
fn call(alloc: Global, from: u64, to: u64, asked: &[u8], given: &[u8]) -> Result<Receipt, LineError>
    ensures { Gives (λ r. r) result (call_of from to asked.now given.now) }
{
    let request = read_request(alloc, asked)?;
    let answer = read_answer(alloc, given)?;
    Ok(Receipt::Call {
        request,
        answer,
        from,
        to,
    })
}

#[tactic(auto, unfolding(crate::specs::Lines::page_receipt_of))]
fn page(alloc: Global, from: u64, to: u64, asked: &[u8], given: &[u8]) -> Result<Receipt, LineError>
    ensures { Gives (λ r. r) result (page_receipt_of from to asked.now given.now) }
{
    let (rest, word) = cut_last(asked, b' ')?;
    let limit = number(word, 65535)? as u16;
    let (rest, word) = cut_last(rest, b' ')?;
    let start = bytes_from(alloc, word)?;
    let (rest, word) = cut_last(rest, b' ')?;
    let floor = number(word, u64::MAX)?;
    let spec = read_spec(alloc, rest)?;
    let page = read_shown(alloc, given)?;
    Ok(Receipt::Page {
        spec,
        floor,
        start,
        limit,
        page,
        from,
        to,
    })
}

#[tactic(auto, unfolding(crate::specs::Lines::asked_of))]
fn asked(
    alloc: Global,
    from: u64,
    to: u64,
    asked: &[u8],
    given: &[u8],
) -> Result<Receipt, LineError>
    ensures { Gives (λ r. r) result (asked_of from to asked.now given.now) }
{
    let (word, rest) = cut(asked, b' ')?;
    if word == b"view".as_slice() {
        page(alloc, from, to, rest, given)
    } else {
        call(alloc, from, to, asked, given)
    }
}

#[tactic(auto, unfolding(crate::specs::Lines::said_of))]
fn said(alloc: Global, text: &[u8]) -> Result<Receipt, LineError>
    ensures { Gives (λ r. r) result (said_of text.now) }
{
    let (word, rest) = cut(text, b' ')?;
    let from = number(word, u64::MAX)?;
    let (word, rest) = cut(rest, b' ')?;
    let to = number(word, u64::MAX)?;
    let (question, given) = around_arrow(rest)?;
    asked(alloc, from, to, question, given)
}

// Whether `check` takes a receipt.
fn is_taken(columns: u8, receipt: &Receipt) -> bool
    ensures value { result ≡ is_asked columns receipt.now }
    ensures asked { result ≡ true → IsAsked columns receipt.now }
{
    is_asked(columns, receipt)
}

/// Returns the receipt that a text says, of an index of `columns` columns: `FROM TO REQUEST => ANSWER`, of a get, put,
/// conditional put, remove or range, or of `view SPEC FLOOR START LIMIT` and a page. A request that breaks a limit
/// isn't read.
#[tactic(auto, unfolding(crate::specs::Lines::receipt_of))]
pub(crate) fn read_receipt(alloc: Global, columns: u8, text: &[u8]) -> Result<Receipt, LineError>
    ensures value { Gives (λ r. r) result (receipt_of columns text.now) }
    ensures asked { IfOk result (IsAsked columns) }
{
    let receipt = said(alloc, text)?;
    if is_taken(columns, &receipt) {
        Ok(receipt)
    } else {
        Err(LineError::Bad)
    }
}
