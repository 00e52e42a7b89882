//! Views: which rows they show, and a page of them.

ghost use Rattle.std.specs.Prelude.{◌≡◌, IfOk, IsOk};
ghost use Rattle.mt_types.specs.Copies.{IsBareTest};

use crate::copying::TryCopy;
use crate::items::Items;
use crate::refusal::NoMemory;
use crate::row::{Column, Pairs};
use bytes::Bytes;
use std::alloc::Global;

/// The sums of a view, one for each column of the index, in their order.
pub type Sums = Items<u128>;

/// The test that a row must pass to be shown by a view.
///
/// The amount of a column is its bytes as a big-endian number if there are at most eight, and else 0.
#[derive(Debug, PartialEq, Eq, Drop)]
pub enum RowTest {
    /// Each row passes.
    Any,
    /// A row passes if its column of this number has exactly these bytes.
    Equals(u8, Column),
    /// A row passes if the amount of its column of this number is at least this.
    AtLeast(u8, u64),
}

/// Which rows a view shows: those whose key is in the range and that pass the test.
#[derive(Debug, PartialEq, Eq, Drop)]
pub enum ViewSpec {
    /// The keys at or after `lo` and, if there is a `hi`, before `hi`.
    Range {
        lo: Bytes,
        hi: Option<Bytes>,
        test: RowTest,
    },
    /// The keys that begin with `key`.
    Prefix {
        key: Bytes,
        test: RowTest,
    },
}

/// What a view shows, from a key on.
#[derive(Debug, PartialEq, Eq, Drop)]
pub struct Page {
    /// The number of commits at which the view is.
    pub at: u64,
    /// How many rows the view has in all.
    pub count: u64,
    /// For each column, the sum of its amounts over all rows of the view.
    pub sums: Sums,
    /// The first rows at or after the key that was asked for, at most as many as were asked for.
    pub rows: Pairs,
}

// The same bytes in a block of their own.
fn detached(alloc: Global, bytes: &Bytes) -> Result<Bytes, NoMemory>
    ensures { IfOk result (λ made. made ≡ bytes.now) }
{
    Ok(Bytes::copy_from_slice(alloc, bytes.as_slice())?)
}

impl RowTest {
    /// Returns an equal test whose bytes are its own. Copies them, if there are any.
    ///
    /// # Errors
    ///
    /// `NoMemory` if an allocation is refused.
    pub fn detached(&self, alloc: Global) -> Result<RowTest, NoMemory>
        ensures { IfOk result (λ made. made ≡ self.now) }
    {
        match self {
            RowTest::Any => Ok(RowTest::Any),
            RowTest::Equals(column, bytes) => Ok(RowTest::Equals(*column, detached(alloc, bytes)?)),
            RowTest::AtLeast(column, least) => Ok(RowTest::AtLeast(*column, *least)),
        }
    }
}

impl ViewSpec {
    /// Returns an equal specification whose bytes are its own: a view that keeps it keeps no frame that it was read of.
    /// Copies the bytes.
    ///
    /// # Errors
    ///
    /// `NoMemory` if an allocation is refused.
    pub fn detached(&self, alloc: Global) -> Result<ViewSpec, NoMemory>
        ensures { IfOk result (λ made. made ≡ self.now) }
    {
        match self {
            ViewSpec::Range { lo, hi, test } => {
                let lo = detached(alloc, lo)?;
                let hi = match hi {
                    Some(hi) => Some(detached(alloc, hi)?),
                    None => None,
                };
                let test = test.detached(alloc)?;
                Ok(ViewSpec::Range { lo, hi, test })
            }
            ViewSpec::Prefix { key, test } => Ok(ViewSpec::Prefix {
                key: detached(alloc, key)?,
                test: test.detached(alloc)?,
            }),
        }
    }
}

impl TryCopy for RowTest {
    /// Shares the bytes. A test without bytes allocates nothing, and its copy cannot fail (`free`).
    fn copy(&self, alloc: Global) -> Result<RowTest, NoMemory>
        ensures value { IfOk result (λ made. made ≡ self.now) }
        ensures free { IsBareTest self.now → IsOk result }
    {
        match self {
            RowTest::Any => Ok(RowTest::Any),
            RowTest::Equals(column, bytes) => Ok(RowTest::Equals(*column, bytes.copy(alloc)?)),
            RowTest::AtLeast(column, least) => Ok(RowTest::AtLeast(*column, *least)),
        }
    }
}

impl TryCopy for ViewSpec {
    /// Shares the bytes.
    fn copy(&self, alloc: Global) -> Result<ViewSpec, NoMemory> {
        match self {
            ViewSpec::Range { lo, hi, test } => Ok(ViewSpec::Range {
                lo: lo.copy(alloc)?,
                hi: hi.copy(alloc)?,
                test: test.copy(alloc)?,
            }),
            ViewSpec::Prefix { key, test } => Ok(ViewSpec::Prefix {
                key: key.copy(alloc)?,
                test: test.copy(alloc)?,
            }),
        }
    }
}

impl TryCopy for Page {
    /// Shares keys and rows. O(n) in the rows that it holds, with an allocation for each of its two lists.
    fn copy(&self, alloc: Global) -> Result<Page, NoMemory> {
        Ok(Page {
            at: self.at,
            count: self.count,
            sums: self.sums.copy(alloc)?,
            rows: self.rows.copy(alloc)?,
        })
    }
}
