//! Outcomes and deltas as text.

ghost use Rattle.std.specs.Prelude.{◌≡◌, ◌++◌, OnOk, string_bytes};
ghost use Rattle.mt_script.specs.Showing.{comma_before, bytes_text, values_text, row_text, rows_text, sums_text, answer_text, refusal_text, rule_text, outcome_text, row_or_none, delta_text};
ghost use Rattle.mt_types.specs.declared.event.Outcome.TheVariants.{View, Done};

use bytes::Bytes;
use mt_types::event::{Answer, Outcome, Reply, TidyRule};
use mt_types::key::Key;
use mt_types::refusal::Refusal;
use mt_types::row::{Columns, Delta, Row};
use mt_types::view::Page;
use std::alloc::{AllocError, Global};

pub(crate) fn push_bytes(alloc: Global, out: &mut String, bytes: &[u8]) -> Result<(), AllocError>
    ensures { OnOk result (string_bytes out.new ≡ string_bytes out.old ++ bytes_text bytes.now) }
{
    if bytes.is_empty() {
        return out.push_str("-");
    }
    let text = hex::encode(alloc, bytes)?;
    out.push_str(text.as_str())
}

// A comma, but before the first.
pub(crate) fn push_comma(out: &mut String, place: usize) -> Result<(), AllocError>
    ensures { OnOk result (string_bytes out.new ≡ string_bytes out.old ++ comma_before place) }
{
    if place == 0 {
        Ok(())
    } else {
        out.push_str(",")
    }
}

fn push_values(alloc: Global, out: &mut String, columns: &Columns) -> Result<(), AllocError>
    ensures { OnOk result (string_bytes out.new ≡ string_bytes out.old ++ values_text columns.now) }
{
    for i in 0..columns.len() {
        push_comma(out, i)?;
        push_bytes(alloc, out, columns.get_or_empty(i))?;
    }
    Ok(())
}

#[tactic(auto, unfolding(crate::specs::Showing::row_text))]
fn push_row(alloc: Global, out: &mut String, pair: &(Key, Row)) -> Result<(), AllocError>
    ensures { OnOk result (string_bytes out.new ≡ string_bytes out.old ++ row_text pair.now) }
{
    out.push_str(" ")?;
    push_bytes(alloc, out, pair.0.as_slice())?;
    let version = pair.1.version;
    write!(out, ":{version}:")?;
    push_values(alloc, out, &pair.1.columns)
}

pub(crate) fn push_rows(
    alloc: Global,
    out: &mut String,
    pairs: &[(Key, Row)],
) -> Result<(), AllocError>
    ensures { OnOk result (string_bytes out.new ≡ string_bytes out.old ++ rows_text pairs.now) }
{
    let count = pairs.len();
    write!(out, "{count}")?;
    for pair in pairs {
        push_row(alloc, out, pair)?;
    }
    Ok(())
}

fn push_sums(out: &mut String, sums: &[u128]) -> Result<(), AllocError>
    ensures { OnOk result (string_bytes out.new ≡ string_bytes out.old ++ sums_text sums.now) }
{
    for (i, sum) in sums.iter().enumerate() {
        push_comma(out, i)?;
        let sum = *sum;
        write!(out, "{sum}")?;
    }
    Ok(())
}

/// Writes the text of an answer at the end of `out`. On an error a part of it may be there. O(n) in the text.
pub fn push_answer(alloc: Global, out: &mut String, answer: &Answer) -> Result<(), AllocError>
    ensures { OnOk result (string_bytes out.new ≡ string_bytes out.old ++ answer_text answer.now) }
{
    match answer {
        Answer::Absent => out.push_str("absent"),
        Answer::Found(row) => {
            let version = row.version;
            write!(out, "row {version} ")?;
            push_values(alloc, out, &row.columns)
        }
        Answer::Stored(number) => write!(out, "put {number}"),
        Answer::Removed(number) => write!(out, "removed {number}"),
        Answer::Rows(pairs) => {
            out.push_str("rows ")?;
            push_rows(alloc, out, pairs.as_slice())
        }
        Answer::Tidied(rule) => {
            out.push_str("tidied ")?;
            push_rule(out, *rule)
        }
        Answer::Built(view) => {
            let number = view.0;
            write!(out, "built {number}")
        }
    }
}

fn push_rule(out: &mut String, rule: TidyRule) -> Result<(), AllocError>
    ensures { OnOk result (string_bytes out.new ≡ string_bytes out.old ++ rule_text rule) }
{
    match rule {
        TidyRule::Nothing => out.push_str("none"),
        TidyRule::EmptyBorder => out.push_str("a"),
        TidyRule::LoneChild => out.push_str("b"),
        TidyRule::LoneRootChild => out.push_str("c"),
        TidyRule::EmptyLayer => out.push_str("d"),
    }
}

pub(crate) fn push_refusal(out: &mut String, refusal: Refusal) -> Result<(), AllocError>
    ensures { OnOk result (string_bytes out.new ≡ string_bytes out.old ++ refusal_text refusal) }
{
    let number = refusal.number();
    write!(out, "refused {number}")?;
    match refusal.detail() {
        Some(at) => write!(out, " {at}"),
        None => Ok(()),
    }
}

fn push_page(alloc: Global, out: &mut String, page: &Page) -> Result<(), AllocError>
    ensures { OnOk result (string_bytes out.new ≡ string_bytes out.old ++ outcome_text (View page.now)) }
{
    let at = page.at;
    let count = page.count;
    write!(out, "view {at} {count} ")?;
    push_sums(out, page.sums.as_slice())?;
    out.push_str(" ")?;
    push_rows(alloc, out, page.rows.as_slice())
}

fn push_reply(alloc: Global, out: &mut String, reply: &Reply) -> Result<(), AllocError>
    ensures { OnOk result (string_bytes out.new ≡ string_bytes out.old ++ outcome_text (Done reply.now)) }
{
    let from = reply.from;
    let to = reply.to;
    write!(out, "done {from} {to} ")?;
    push_answer(alloc, out, &reply.answer)
}

/// Writes the text of an outcome at the end of `out`, without a line feed. On an error a part of it may be there. O(n)
/// in the text.
pub fn push_outcome(alloc: Global, out: &mut String, outcome: &Outcome) -> Result<(), AllocError>
    ensures { OnOk result (string_bytes out.new ≡ string_bytes out.old ++ outcome_text outcome.now) }
{
    match outcome {
        Outcome::Call(call) => {
            let number = call.0;
            write!(out, "call {number}")
        }
        Outcome::Moved => out.push_str("moved"),
        Outcome::Again => out.push_str("again"),
        Outcome::Commit(number) => write!(out, "commit {number}"),
        Outcome::Done(reply) => push_reply(alloc, out, reply),
        Outcome::Applied(number) => write!(out, "applied {number}"),
        Outcome::Current => out.push_str("current"),
        Outcome::View(page) => push_page(alloc, out, page),
        Outcome::Dropped => out.push_str("dropped"),
        Outcome::Epoch(number) => write!(out, "epoch {number}"),
        Outcome::Freed(count) => write!(out, "freed {count}"),
        Outcome::Refused(refusal) => push_refusal(out, *refusal),
    }
}

#[tactic(auto, unfolding(crate::specs::Showing::row_or_none))]
pub(crate) fn push_row_or_none(
    alloc: Global,
    out: &mut String,
    row: &Option<Row>,
) -> Result<(), AllocError>
    ensures { OnOk result (string_bytes out.new ≡ string_bytes out.old ++ row_or_none row.now) }
{
    match row {
        Some(row) => {
            let version = row.version;
            write!(out, "{version}:")?;
            push_values(alloc, out, &row.columns)
        }
        None => out.push_str("none"),
    }
}

// Writes the text of a delta at the end, without a line feed: `delta N KEY BEFORE AFTER`, with a row as VERSION:VALUES,
// or `none`.
pub(crate) fn push_delta(alloc: Global, out: &mut String, delta: &Delta) -> Result<(), AllocError>
    ensures { OnOk result (string_bytes out.new ≡ string_bytes out.old ++ delta_text delta.now) }
{
    let number = delta.number;
    write!(out, "delta {number} ")?;
    push_bytes(alloc, out, delta.key.as_slice())?;
    out.push_str(" ")?;
    push_row_or_none(alloc, out, &delta.before)?;
    out.push_str(" ")?;
    push_row_or_none(alloc, out, &delta.after)
}
