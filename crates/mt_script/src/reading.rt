//! What the words of a request and of a view's specification say.

ghost use Rattle.std.specs.Prelude.{◌≡◌};
ghost use Rattle.mt_script.specs.Words.{Gives};
ghost use Rattle.mt_script.specs.Reading.{columns_of, sets_of, get_of, put_of, put_if_of, remove_of, range_of, tidy_of, equals_of, at_least_of, column_test_of, test_of, end_of, keys_of, prefix_of, spec_of, build_of, upkeep_of, request_of};

use crate::fault::LineError;
use crate::words::{Part, bytes_from, cut, number, read_parts};
use bytes::Bytes;
use mt_types::event::Request;
use mt_types::items::Items;
use mt_types::row::{Column, ColumnNumbers, Sets};
use mt_types::view::{RowTest, ViewSpec};
use std::alloc::Global;

impl Part for (u8, Column) {
    ghost use Rattle.mt_script.specs.Reading.{set_of};

    ghost part_of = { set_of };

    #[tactic(auto, unfolding(crate::specs::Reading::set_of))]
    fn read(alloc: Global, text: &[u8]) -> Result<(u8, Column), LineError> {
        let (word, rest) = cut(text, b'=')?;
        let column = number(word, 255)? as u8;
        let bytes = bytes_from(alloc, rest)?;
        Ok((column, bytes))
    }
}

#[tactic(auto, unfolding(crate::specs::Reading::columns_of))]
pub(crate) fn columns(alloc: Global, text: &[u8]) -> Result<ColumnNumbers, LineError>
    ensures { Gives (λ c. c) result (columns_of text.now) }
{
    if text == b"all".as_slice() {
        return Ok(Items::new(alloc));
    }
    let numbers: Vec<u8> = read_parts(alloc, text, b',')?;
    Ok(Items::from_vec(numbers))
}

#[tactic(auto, unfolding(crate::specs::Reading::sets_of))]
fn sets(alloc: Global, text: &[u8]) -> Result<Sets, LineError>
    ensures { Gives (λ s. s) result (sets_of text.now) }
{
    if text == b"-".as_slice() {
        return Ok(Items::new(alloc));
    }
    let sets: Vec<(u8, Column)> = read_parts(alloc, text, b',')?;
    Ok(Items::from_vec(sets))
}

#[tactic(auto, unfolding(crate::specs::Reading::get_of))]
fn get(alloc: Global, text: &[u8]) -> Result<Request, LineError>
    ensures { Gives (λ r. r) result (get_of text.now) }
{
    let (word, rest) = cut(text, b' ')?;
    let key = bytes_from(alloc, word)?;
    let columns = columns(alloc, rest)?;
    Ok(Request::Get { key, columns })
}

#[tactic(auto, unfolding(crate::specs::Reading::put_of))]
fn put(alloc: Global, text: &[u8]) -> Result<Request, LineError>
    ensures { Gives (λ r. r) result (put_of text.now) }
{
    let (word, rest) = cut(text, b' ')?;
    let key = bytes_from(alloc, word)?;
    let sets = sets(alloc, rest)?;
    Ok(Request::Put { key, sets })
}

#[tactic(auto, unfolding(crate::specs::Reading::put_if_of))]
fn put_if(alloc: Global, text: &[u8]) -> Result<Request, LineError>
    ensures { Gives (λ r. r) result (put_if_of text.now) }
{
    let (word, rest) = cut(text, b' ')?;
    let key = bytes_from(alloc, word)?;
    let (word, rest) = cut(rest, b' ')?;
    let version = number(word, u64::MAX)?;
    let sets = sets(alloc, rest)?;
    Ok(Request::PutIf { key, sets, version })
}

#[tactic(auto, unfolding(crate::specs::Reading::remove_of))]
fn remove(alloc: Global, text: &[u8]) -> Result<Request, LineError>
    ensures { Gives (λ r. r) result (remove_of text.now) }
{
    let key = bytes_from(alloc, text)?;
    Ok(Request::Remove { key })
}

#[tactic(auto, unfolding(crate::specs::Reading::range_of))]
fn range(alloc: Global, text: &[u8]) -> Result<Request, LineError>
    ensures { Gives (λ r. r) result (range_of text.now) }
{
    let (word, rest) = cut(text, b' ')?;
    let start = bytes_from(alloc, word)?;
    let (word, rest) = cut(rest, b' ')?;
    let limit = number(word, 65535)? as u16;
    let columns = columns(alloc, rest)?;
    Ok(Request::Range {
        start,
        limit,
        columns,
    })
}

#[tactic(auto, unfolding(crate::specs::Reading::tidy_of))]
fn tidy(alloc: Global, text: &[u8]) -> Result<Request, LineError>
    ensures { Gives (λ r. r) result (tidy_of text.now) }
{
    let key = bytes_from(alloc, text)?;
    Ok(Request::Tidy { key })
}

#[tactic(auto, unfolding(crate::specs::Reading::equals_of))]
fn equals(alloc: Global, text: &[u8]) -> Result<RowTest, LineError>
    ensures { Gives (λ t. t) result (equals_of text.now) }
{
    let (word, rest) = cut(text, b' ')?;
    let column = number(word, 255)? as u8;
    let bytes = bytes_from(alloc, rest)?;
    Ok(RowTest::Equals(column, bytes))
}

#[tactic(auto, unfolding(crate::specs::Reading::at_least_of))]
fn at_least(text: &[u8]) -> Result<RowTest, LineError>
    ensures { Gives (λ t. t) result (at_least_of text.now) }
{
    let (word, rest) = cut(text, b' ')?;
    let column = number(word, 255)? as u8;
    let least = number(rest, u64::MAX)?;
    Ok(RowTest::AtLeast(column, least))
}

#[tactic(auto, unfolding(crate::specs::Reading::column_test_of))]
fn column_test(alloc: Global, text: &[u8]) -> Result<RowTest, LineError>
    ensures { Gives (λ t. t) result (column_test_of text.now) }
{
    let (word, rest) = cut(text, b' ')?;
    if word == b"equals".as_slice() {
        equals(alloc, rest)
    } else if word == b"atleast".as_slice() {
        at_least(rest)
    } else {
        Err(LineError::Bad)
    }
}

#[tactic(auto, unfolding(crate::specs::Reading::test_of))]
fn test(alloc: Global, text: &[u8]) -> Result<RowTest, LineError>
    ensures { Gives (λ t. t) result (test_of text.now) }
{
    if text == b"any".as_slice() {
        return Ok(RowTest::Any);
    }
    column_test(alloc, text)
}

#[tactic(auto, unfolding(crate::specs::Reading::end_of))]
pub(crate) fn end(alloc: Global, word: &[u8]) -> Result<Option<Bytes>, LineError>
    ensures { Gives (λ e. e) result (end_of word.now) }
{
    if word == b"none".as_slice() {
        return Ok(None);
    }
    let bytes = bytes_from(alloc, word)?;
    Ok(Some(bytes))
}

#[tactic(auto, unfolding(crate::specs::Reading::keys_of))]
fn keys(alloc: Global, text: &[u8]) -> Result<ViewSpec, LineError>
    ensures { Gives (λ s. s) result (keys_of text.now) }
{
    let (word, rest) = cut(text, b' ')?;
    let lo = bytes_from(alloc, word)?;
    let (word, rest) = cut(rest, b' ')?;
    let hi = end(alloc, word)?;
    let test = test(alloc, rest)?;
    Ok(ViewSpec::Range { lo, hi, test })
}

#[tactic(auto, unfolding(crate::specs::Reading::prefix_of))]
fn prefix(alloc: Global, text: &[u8]) -> Result<ViewSpec, LineError>
    ensures { Gives (λ s. s) result (prefix_of text.now) }
{
    let (word, rest) = cut(text, b' ')?;
    let key = bytes_from(alloc, word)?;
    let test = test(alloc, rest)?;
    Ok(ViewSpec::Prefix { key, test })
}

/// Returns the specification of a view that a text says: `range LO HI TEST`, in which HI is a key or `none`, or
/// `prefix KEY TEST`. A TEST is `any`, `equals COL BYTES` or `atleast COL NUMBER`. O(n) in the bytes of the text, with
/// an allocation or two for each key and the bytes.
#[tactic(auto, unfolding(crate::specs::Reading::spec_of))]
pub fn read_spec(alloc: Global, text: &[u8]) -> Result<ViewSpec, LineError>
    ensures { Gives (λ s. s) result (spec_of text.now) }
{
    let (word, rest) = cut(text, b' ')?;
    if word == b"range".as_slice() {
        keys(alloc, rest)
    } else if word == b"prefix".as_slice() {
        prefix(alloc, rest)
    } else {
        Err(LineError::Bad)
    }
}

#[tactic(auto, unfolding(crate::specs::Reading::build_of))]
fn build(alloc: Global, text: &[u8]) -> Result<Request, LineError>
    ensures { Gives (λ r. r) result (build_of text.now) }
{
    let spec = read_spec(alloc, text)?;
    Ok(Request::Build { spec })
}

#[tactic(auto, unfolding(crate::specs::Reading::upkeep_of))]
fn upkeep(alloc: Global, word: &[u8], text: &[u8]) -> Result<Request, LineError>
    ensures { Gives (λ r. r) result (upkeep_of word.now text.now) }
{
    if word == b"tidy".as_slice() {
        tidy(alloc, text)
    } else if word == b"build".as_slice() {
        build(alloc, text)
    } else {
        Err(LineError::Bad)
    }
}

/// Returns the request that a text says: `get KEY COLS`, `put KEY SETS`, `putif KEY VERSION SETS`, `remove KEY`,
/// `range START LIMIT COLS`, `tidy KEY` or `build SPEC`, its words parted by one space. O(n) in the bytes of the
/// text, with an allocation for each key, each list and each column.
#[tactic(auto, unfolding(crate::specs::Reading::request_of))]
pub fn read_request(alloc: Global, text: &[u8]) -> Result<Request, LineError>
    ensures { Gives (λ r. r) result (request_of text.now) }
{
    let (word, rest) = cut(text, b' ')?;
    if word == b"get".as_slice() {
        get(alloc, rest)
    } else if word == b"put".as_slice() {
        put(alloc, rest)
    } else if word == b"putif".as_slice() {
        put_if(alloc, rest)
    } else if word == b"remove".as_slice() {
        remove(alloc, rest)
    } else if word == b"range".as_slice() {
        range(alloc, rest)
    } else {
        upkeep(alloc, word, rest)
    }
}
