//! What an answer says.

ghost use Rattle.std.specs.Prelude.{◌≡◌};
ghost use Rattle.mt_script.specs.Words.{Gives};
ghost use Rattle.mt_audit.specs.Answers.{found_of, stored_of, removed_of, listed_of, rule_of, tidied_of, built_of, upkeep_answer_of, long_answer_of, answer_of, page_of, shown_of};

use mt_script::fault::LineError;
use mt_script::values::{row_from, rows_from};
use mt_script::words::{cut, number, read_parts};
use mt_types::event::{Answer, TidyRule};
use mt_types::numbers::ViewNo;
use mt_types::view::{Page, Sums};
use std::alloc::Global;

#[tactic(auto, unfolding(crate::specs::Answers::found_of))]
fn found(alloc: Global, text: &[u8]) -> Result<Answer, LineError>
    ensures { Gives (λ a. a) result (found_of text.now) }
{
    let row = row_from(alloc, text, b' ')?;
    Ok(Answer::Found(row))
}

#[tactic(auto, unfolding(crate::specs::Answers::stored_of))]
fn stored(text: &[u8]) -> Result<Answer, LineError>
    ensures { Gives (λ a. a) result (stored_of text.now) }
{
    let number = number(text, u64::MAX)?;
    Ok(Answer::Stored(number))
}

#[tactic(auto, unfolding(crate::specs::Answers::removed_of))]
fn removed(text: &[u8]) -> Result<Answer, LineError>
    ensures { Gives (λ a. a) result (removed_of text.now) }
{
    let number = number(text, u64::MAX)?;
    Ok(Answer::Removed(number))
}

#[tactic(auto, unfolding(crate::specs::Answers::listed_of))]
fn listed(alloc: Global, text: &[u8]) -> Result<Answer, LineError>
    ensures { Gives (λ a. a) result (listed_of text.now) }
{
    let pairs = rows_from(alloc, text)?;
    Ok(Answer::Rows(pairs))
}

#[tactic(auto, unfolding(crate::specs::Answers::rule_of))]
fn rule(word: &[u8]) -> Result<TidyRule, LineError>
    ensures { Gives (λ r. r) result (rule_of word.now) }
{
    if word == b"none".as_slice() {
        Ok(TidyRule::Nothing)
    } else if word == b"a".as_slice() {
        Ok(TidyRule::EmptyBorder)
    } else if word == b"b".as_slice() {
        Ok(TidyRule::LoneChild)
    } else if word == b"c".as_slice() {
        Ok(TidyRule::LoneRootChild)
    } else if word == b"d".as_slice() {
        Ok(TidyRule::EmptyLayer)
    } else {
        Err(LineError::Bad)
    }
}

#[tactic(auto, unfolding(crate::specs::Answers::tidied_of))]
fn tidied(text: &[u8]) -> Result<Answer, LineError>
    ensures { Gives (λ a. a) result (tidied_of text.now) }
{
    let rule = rule(text)?;
    Ok(Answer::Tidied(rule))
}

#[tactic(auto, unfolding(crate::specs::Answers::built_of))]
fn built(text: &[u8]) -> Result<Answer, LineError>
    ensures { Gives (λ a. a) result (built_of text.now) }
{
    let view = ViewNo(number(text, u64::MAX)?);
    Ok(Answer::Built(view))
}

#[tactic(auto, unfolding(crate::specs::Answers::upkeep_answer_of))]
fn upkeep_answer(word: &[u8], text: &[u8]) -> Result<Answer, LineError>
    ensures { Gives (λ a. a) result (upkeep_answer_of word.now text.now) }
{
    if word == b"tidied".as_slice() {
        tidied(text)
    } else if word == b"built".as_slice() {
        built(text)
    } else {
        Err(LineError::Bad)
    }
}

#[tactic(auto, unfolding(crate::specs::Answers::long_answer_of))]
fn long_answer(alloc: Global, text: &[u8]) -> Result<Answer, LineError>
    ensures { Gives (λ a. a) result (long_answer_of text.now) }
{
    let (word, rest) = cut(text, b' ')?;
    if word == b"row".as_slice() {
        found(alloc, rest)
    } else if word == b"put".as_slice() {
        stored(rest)
    } else if word == b"removed".as_slice() {
        removed(rest)
    } else if word == b"rows".as_slice() {
        listed(alloc, rest)
    } else {
        upkeep_answer(word, rest)
    }
}

/// Returns the answer that a text says: `absent`, `row VERSION VALUES`, `put N`, `removed N`, `rows K` and K pairs,
/// `tidied RULE` or `built VIEW`.
#[tactic(auto, unfolding(crate::specs::Answers::answer_of))]
pub(crate) fn read_answer(alloc: Global, text: &[u8]) -> Result<Answer, LineError>
    ensures { Gives (λ a. a) result (answer_of text.now) }
{
    if text == b"absent".as_slice() {
        return Ok(Answer::Absent);
    }
    long_answer(alloc, text)
}

#[tactic(auto, unfolding(crate::specs::Answers::page_of))]
fn page(alloc: Global, text: &[u8]) -> Result<Page, LineError>
    ensures { Gives (λ p. p) result (page_of text.now) }
{
    let (word, rest) = cut(text, b' ')?;
    let at = number(word, u64::MAX)?;
    let (word, rest) = cut(rest, b' ')?;
    let count = number(word, u64::MAX)?;
    let (word, rest) = cut(rest, b' ')?;
    let sums: Vec<u128> = read_parts(alloc, word, b',')?;
    let rows = rows_from(alloc, rest)?;
    Ok(Page {
        at,
        count,
        sums: Sums::from_vec(sums),
        rows,
    })
}

/// Returns the page that a text says: `view AT COUNT SUMS K` and K pairs.
#[tactic(auto, unfolding(crate::specs::Answers::shown_of))]
pub(crate) fn read_shown(alloc: Global, text: &[u8]) -> Result<Page, LineError>
    ensures { Gives (λ p. p) result (shown_of text.now) }
{
    let (word, rest) = cut(text, b' ')?;
    if word == b"view".as_slice() {
        page(alloc, rest)
    } else {
        Err(LineError::Bad)
    }
}
