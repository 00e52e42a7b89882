//! Queries, read from the front of the bytes that are left.

ghost use Rattle.std.specs.Prelude.{◌≡◌};
ghost use Rattle.mt_wire.specs.QueryReading.{query_rest};
ghost use Rattle.mt_wire.specs.Reading.{Gives, kind_at, test_rest, end_rest, spec_rest, index_rest, get_at, put_at, put_if_at, remove_at, range_at, tidy_at, build_at, view_read_at, view_drop_at};

use crate::fault::ReadError;
use crate::query::Query;
use crate::read_reading::read_query;
use crate::reading::{Readable, byte, column_numbers, counted, key, number16, number64, short};
use crate::server_reading::server_query;
use bytes::Bytes;
use mt_types::event::Request;
use mt_types::items::Items;
use mt_types::numbers::ViewNo;
use mt_types::row::Column;
use mt_types::view::{RowTest, ViewSpec};
use std::alloc::Global;

impl Readable for (u8, Column) {
    ghost use Rattle.mt_wire.specs.Reading.{set_at};

    ghost reading = { set_at };

    #[tactic(auto, unfolding(crate::specs::Reading::set_at))]
    fn read(_alloc: Global, input: &mut Bytes) -> Result<(u8, Column), ReadError> {
        let column = byte(input)?;
        Ok((column, short(input)?))
    }
}

#[tactic(auto, unfolding(crate::specs::Reading::test_rest))]
fn test_of_kind(input: &mut Bytes, kind: u8) -> Result<RowTest, ReadError>
    ensures { Gives (λ x. (x, input.new)) result (test_rest kind input.old) }
{
    match kind {
        0 => Ok(RowTest::Any),
        1 => {
            let column = byte(input)?;
            Ok(RowTest::Equals(column, short(input)?))
        }
        2 => {
            let column = byte(input)?;
            Ok(RowTest::AtLeast(column, number64(input)?))
        }
        _ => Err(ReadError::Misspelled),
    }
}

#[tactic(auto, unfolding(crate::specs::Reading::kind_at))]
fn test(input: &mut Bytes) -> Result<RowTest, ReadError>
    ensures { Gives (λ x. (x, input.new)) result (kind_at test_rest input.old) }
{
    let kind = byte(input)?;
    test_of_kind(input, kind)
}

#[tactic(auto, unfolding(crate::specs::Reading::end_rest))]
fn end_of_kind(input: &mut Bytes, kind: u8) -> Result<Option<Bytes>, ReadError>
    ensures { Gives (λ x. (x, input.new)) result (end_rest kind input.old) }
{
    match kind {
        0 => Ok(None),
        1 => Ok(Some(key(input)?)),
        _ => Err(ReadError::Misspelled),
    }
}

#[tactic(auto, unfolding(crate::specs::Reading::kind_at))]
pub fn end(input: &mut Bytes) -> Result<Option<Bytes>, ReadError>
    ensures { Gives (λ x. (x, input.new)) result (kind_at end_rest input.old) }
{
    let kind = byte(input)?;
    end_of_kind(input, kind)
}

#[tactic(auto, unfolding(crate::specs::Reading::spec_rest))]
fn spec_of_kind(input: &mut Bytes, kind: u8) -> Result<ViewSpec, ReadError>
    ensures { Gives (λ x. (x, input.new)) result (spec_rest kind input.old) }
{
    match kind {
        0 => {
            let lo = key(input)?;
            let hi = end(input)?;
            let test = test(input)?;
            Ok(ViewSpec::Range { lo, hi, test })
        }
        1 => {
            let key = key(input)?;
            let test = test(input)?;
            Ok(ViewSpec::Prefix { key, test })
        }
        _ => Err(ReadError::Misspelled),
    }
}

#[tactic(auto, unfolding(crate::specs::Reading::kind_at))]
fn spec(input: &mut Bytes) -> Result<ViewSpec, ReadError>
    ensures { Gives (λ x. (x, input.new)) result (kind_at spec_rest input.old) }
{
    let kind = byte(input)?;
    spec_of_kind(input, kind)
}

#[tactic(auto, unfolding(crate::specs::Reading::get_at))]
fn get(alloc: Global, input: &mut Bytes) -> Result<Query, ReadError>
    ensures { Gives (λ x. (x, input.new)) result (get_at input.old) }
{
    let key = key(input)?;
    let columns = column_numbers(alloc, input)?;
    Ok(Query::Call(Request::Get { key, columns }))
}

#[tactic(auto, unfolding(crate::specs::Reading::put_at))]
fn put(alloc: Global, input: &mut Bytes) -> Result<Query, ReadError>
    ensures { Gives (λ x. (x, input.new)) result (put_at input.old) }
{
    let key = key(input)?;
    let sets = Items::from_vec(counted(alloc, input)?);
    Ok(Query::Call(Request::Put { key, sets }))
}

#[tactic(auto, unfolding(crate::specs::Reading::put_if_at))]
fn put_if(alloc: Global, input: &mut Bytes) -> Result<Query, ReadError>
    ensures { Gives (λ x. (x, input.new)) result (put_if_at input.old) }
{
    let key = key(input)?;
    let version = number64(input)?;
    let sets = Items::from_vec(counted(alloc, input)?);
    Ok(Query::Call(Request::PutIf { key, sets, version }))
}

#[tactic(auto, unfolding(crate::specs::Reading::remove_at))]
fn remove(input: &mut Bytes) -> Result<Query, ReadError>
    ensures { Gives (λ x. (x, input.new)) result (remove_at input.old) }
{
    let key = key(input)?;
    Ok(Query::Call(Request::Remove { key }))
}

#[tactic(auto, unfolding(crate::specs::Reading::range_at))]
fn range(alloc: Global, input: &mut Bytes) -> Result<Query, ReadError>
    ensures { Gives (λ x. (x, input.new)) result (range_at input.old) }
{
    let start = key(input)?;
    let limit = number16(input)?;
    let columns = column_numbers(alloc, input)?;
    Ok(Query::Call(Request::Range {
        start,
        limit,
        columns,
    }))
}

#[tactic(auto, unfolding(crate::specs::Reading::tidy_at))]
fn tidy(input: &mut Bytes) -> Result<Query, ReadError>
    ensures { Gives (λ x. (x, input.new)) result (tidy_at input.old) }
{
    let key = key(input)?;
    Ok(Query::Call(Request::Tidy { key }))
}

#[tactic(auto, unfolding(crate::specs::Reading::build_at))]
fn build(input: &mut Bytes) -> Result<Query, ReadError>
    ensures { Gives (λ x. (x, input.new)) result (build_at input.old) }
{
    let spec = spec(input)?;
    Ok(Query::Call(Request::Build { spec }))
}

#[tactic(auto, unfolding(crate::specs::Reading::view_read_at))]
fn view_read(input: &mut Bytes) -> Result<Query, ReadError>
    ensures { Gives (λ x. (x, input.new)) result (view_read_at input.old) }
{
    let view = ViewNo(number64(input)?);
    let floor = number64(input)?;
    let start = key(input)?;
    let limit = number16(input)?;
    Ok(Query::ViewRead {
        view,
        floor,
        start,
        limit,
    })
}

#[tactic(auto, unfolding(crate::specs::Reading::view_drop_at))]
fn view_drop(input: &mut Bytes) -> Result<Query, ReadError>
    ensures { Gives (λ x. (x, input.new)) result (view_drop_at input.old) }
{
    let view = ViewNo(number64(input)?);
    Ok(Query::ViewDrop(view))
}

#[tactic(auto, unfolding(crate::specs::Reading::index_rest))]
fn index_query(alloc: Global, input: &mut Bytes, kind: u8) -> Result<Query, ReadError>
    ensures { Gives (λ x. (x, input.new)) result (index_rest kind input.old) }
{
    match kind {
        1 => get(alloc, input),
        2 => put(alloc, input),
        3 => remove(input),
        4 => range(alloc, input),
        5 => tidy(input),
        6 => build(input),
        7 => view_read(input),
        8 => view_drop(input),
        9 => put_if(alloc, input),
        _ => Err(ReadError::Misspelled),
    }
}

// From kind 13 on queries are reads of one moment, and from 16 on of the server.
#[tactic(auto, unfolding(crate::specs::QueryReading::query_rest))]
fn query_of_kind(alloc: Global, input: &mut Bytes, kind: u8) -> Result<Query, ReadError>
    ensures { Gives (λ x. (x, input.new)) result (query_rest kind input.old) }
{
    if kind < 13 {
        return index_query(alloc, input, kind);
    }
    if kind < 16 {
        return Ok(Query::Read(read_query(alloc, input, kind)?));
    }
    Ok(Query::Server(server_query(input, kind)?))
}

impl Readable for Query {
    ghost use Rattle.mt_wire.specs.Reading.{kind_at};
    ghost use Rattle.mt_wire.specs.QueryReading.{query_rest};

    ghost reading = { kind_at query_rest };

    #[tactic(auto, unfolding(crate::specs::Reading::kind_at))]
    fn read(alloc: Global, input: &mut Bytes) -> Result<Query, ReadError> {
        let kind = byte(input)?;
        query_of_kind(alloc, input, kind)
    }
}
