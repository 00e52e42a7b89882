//! What a client reads at one moment. In version 3.

use bytes::Bytes;
use mt_types::items::Items;
use mt_types::row::ColumnNumbers;

/// A query that reads many rows at one moment.
#[derive(Debug, PartialEq, Eq, Drop)]
pub enum ReadQuery {
    /// The rows of `keys`, with the columns that are asked for, or with all if none is asked for.
    Gets {
        keys: Items<Bytes>,
        columns: ColumnNumbers,
    },
    /// The last rows whose keys are before `before`, or the last of all, at most `limit`, the greatest key first, each
    /// with the columns that are asked for, or with all if none is asked for.
    RangeBack {
        before: Option<Bytes>,
        limit: u16,
        columns: ColumnNumbers,
    },
    /// How many rows have keys from `from` on and before `to`, or to the last, counted up to `most`.
    Count {
        from: Bytes,
        to: Option<Bytes>,
        most: u32,
    },
}
