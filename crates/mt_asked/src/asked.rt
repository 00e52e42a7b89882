//! Calls that a caller asks for in borrowed bytes, and the requests that are made from them.

ghost use Rattle.std.specs.Prelude.{◌≡◌, ◌++◌, Err, IfErr, IfOk, MatchOption, Some as SomeOf};
ghost use Rattle.std.specs.List.{flat_map};
ghost use Rattle.mt_types.specs.Limits.{request_fault};
ghost use Rattle.mt_types.specs.declared.view.ViewSpec.TheVariants.{Range as RangeOf};
ghost use Rattle.mt_asked.specs.Borrowed.{request_of, sets_of, spec_of, test_of};

use crate::borrowed::{Set, Spec, Test};
use bytes::Bytes;
use mt_types::event::Request;
use mt_types::items::Items;
use mt_types::refusal::{NoMemory, Refusal};
use mt_types::row::{ColumnNumbers, Sets};
use mt_types::view::{RowTest, ViewSpec};
use std::alloc::Global;

/// A call that is asked for, as [`Request`] has it.
#[derive(Clone, Copy)]
pub enum Asked<'a> {
    /// A get of the columns of these numbers, or of all columns if there are none.
    Get {
        key: &'a [u8],
        columns: &'a [u8],
    },
    /// A range of at most `limit` rows, with the columns of these numbers, or with all columns if there are none.
    Range {
        start: &'a [u8],
        limit: u16,
        columns: &'a [u8],
    },
    /// A put.
    Put {
        key: &'a [u8],
        sets: &'a [Set<'a>],
    },
    /// A put that is done only if the row has this version, or, for version 0, if there is no row.
    PutIf {
        key: &'a [u8],
        sets: &'a [Set<'a>],
        version: u64,
    },
    /// A remove.
    Remove {
        key: &'a [u8],
    },
    /// A tidy.
    Tidy {
        key: &'a [u8],
    },
    /// The build of a view.
    Build {
        spec: &'a Spec<'a>,
    },
}

/// Returns a copy of the numbers of columns.
pub fn numbers_of(alloc: Global, columns: &[u8]) -> Result<ColumnNumbers, NoMemory>
    ensures { IfOk result (λ made. made ≡ columns.now) }
{
    let mut made = Vec::new(alloc);
    made.extend_from_slice(columns)?;
    Ok(Items::from_vec(made))
}

// How many bytes a key and the columns that are set have.
fn room_of(key: &[u8], sets: &[Set<'_>]) -> usize {
    let mut room = key.len();
    for set in sets {
        room = room.saturating_add(set.bytes.len());
    }
    room
}

// The bytes of a key and of the columns that are set, one after another, in one block.
fn joined(alloc: Global, key: &[u8], sets: &[Set<'_>]) -> Result<Bytes, NoMemory>
    ensures { IfOk result (λ all. all ≡ key.now ++ flat_map (λ set. set.bytes.now) sets.now) }
{
    let mut all = Vec::with_capacity(alloc, room_of(key, sets))?;
    all.extend_from_slice(key)?;
    for set in sets {
        all.extend_from_slice(set.bytes)?;
    }
    Ok(Bytes::from_vec(all)?)
}

// Cuts the bytes of the columns that are set, which these are, one after another.
fn sets_from(alloc: Global, all: Bytes, from: &[Set<'_>]) -> Result<Sets, NoMemory>
    requires { all ≡ flat_map (λ set. set.bytes.now) from.now }
    ensures { IfOk result (λ sets. sets ≡ sets_of from.now) }
{
    let mut rest = all;
    let mut sets = Vec::with_capacity(alloc, from.len())?;
    for set in from {
        sets.push((set.column, rest.split_to(set.bytes.len())?))?;
    }
    Ok(Items::from_vec(sets))
}

// Copies of a key and of the columns that are set. They share one block.
fn put_of(alloc: Global, key: &[u8], sets: &[Set<'_>]) -> Result<(Bytes, Sets), NoMemory>
    ensures key { IfOk result (λ made. made.0 ≡ key.now) }
    ensures sets { IfOk result (λ made. made.1 ≡ sets_of sets.now) }
{
    let mut all = joined(alloc, key, sets)?;
    let key = all.split_to(key.len())?;
    Ok((key, sets_from(alloc, all, sets)?))
}

fn test_of(alloc: Global, test: &Test<'_>) -> Result<RowTest, NoMemory>
    ensures { IfOk result (λ made. made ≡ test_of test.now) }
{
    match test {
        Test::Any => Ok(RowTest::Any),
        Test::Equals(column, bytes) => Ok(RowTest::Equals(
            *column,
            Bytes::copy_from_slice(alloc, bytes)?,
        )),
        Test::AtLeast(column, least) => Ok(RowTest::AtLeast(*column, *least)),
    }
}

fn between(alloc: Global, lo: &[u8], hi: &[u8], test: RowTest) -> Result<ViewSpec, NoMemory>
    ensures { IfOk result (λ spec. spec ≡ RangeOf lo.now (SomeOf hi.now) test) }
{
    let lo = Bytes::copy_from_slice(alloc, lo)?;
    let hi = Some(Bytes::copy_from_slice(alloc, hi)?);
    Ok(ViewSpec::Range { lo, hi, test })
}

fn spec_of(alloc: Global, spec: &Spec<'_>) -> Result<ViewSpec, NoMemory>
    ensures { IfOk result (λ made. made ≡ spec_of spec.now) }
{
    match spec {
        Spec::Prefix { key, test } => Ok(ViewSpec::Prefix {
            key: Bytes::copy_from_slice(alloc, key)?,
            test: test_of(alloc, test)?,
        }),
        Spec::From { lo, test } => Ok(ViewSpec::Range {
            lo: Bytes::copy_from_slice(alloc, lo)?,
            hi: None,
            test: test_of(alloc, test)?,
        }),
        Spec::Between { lo, hi, test } => Ok(between(alloc, lo, hi, test_of(alloc, test)?)?),
    }
}

impl<'a> Asked<'a> {
    /// Returns the request. Tests its limits in an index of `columns` columns, and then copies the bytes.
    ///
    ///     let request = Asked::Remove { key: b"apple" }.checked(alloc, 1)?;
    ///
    /// O(n) in the bytes. The key and the columns of a put share one block.
    ///
    /// # Errors
    ///
    /// The first limit that the call breaks, whatever memory there is; `NoMemory`.
    pub fn checked(&self, alloc: Global, columns: u8) -> Result<Request, Refusal>
        ensures request { IfOk result (λ request. request ≡ request_of self.now) }
        ensures fault { MatchOption (request_fault columns (request_of self.now))
            (IfErr result (λ refusal. refusal ≡ Refusal.NoMemory)) (λ refusal. result ≡ Err refusal) }
    {
        if let Some(refusal) = self.fault(columns) {
            return Err(refusal);
        }
        match self.request(alloc) {
            Ok(request) => Ok(request),
            Err(_) => Err(Refusal::NoMemory),
        }
    }

    // Returns the request. Copies the bytes.
    fn request(&self, alloc: Global) -> Result<Request, NoMemory>
        ensures { IfOk result (λ request. request ≡ request_of self.now) }
    {
        match self {
            Asked::Get { key, columns } => Ok(Request::Get {
                key: Bytes::copy_from_slice(alloc, key)?,
                columns: numbers_of(alloc, columns)?,
            }),
            Asked::Range {
                start,
                limit,
                columns,
            } => Ok(Request::Range {
                start: Bytes::copy_from_slice(alloc, start)?,
                limit: *limit,
                columns: numbers_of(alloc, columns)?,
            }),
            Asked::Put { key, sets } => {
                let (key, sets) = put_of(alloc, key, sets)?;
                Ok(Request::Put { key, sets })
            }
            Asked::PutIf { key, sets, version } => {
                let (key, sets) = put_of(alloc, key, sets)?;
                let version = *version;
                Ok(Request::PutIf { key, sets, version })
            }
            Asked::Remove { key } => Ok(Request::Remove {
                key: Bytes::copy_from_slice(alloc, key)?,
            }),
            Asked::Tidy { key } => Ok(Request::Tidy {
                key: Bytes::copy_from_slice(alloc, key)?,
            }),
            Asked::Build { spec } => Ok(Request::Build {
                spec: spec_of(alloc, spec)?,
            }),
        }
    }
}
