//! What a caller passes to a map in borrowed bytes: new bytes for columns, and what a view shows.

ghost use Rattle.std.specs.Prelude.{◌≡◌};

/// New bytes for a column.
#[repr(C)]
#[derive(Clone, Copy)]
pub struct Set<'a> {
    pub column: u8,
    pub bytes: &'a [u8],
}

impl<'a> Set<'a> {
    /// Returns these bytes, for the column of this number.
    ///
    ///     map.put(b"apple", &[Set::new(0, b"red"), Set::new(1, b"sweet")])?
    pub fn new(column: u8, bytes: &'a [u8]) -> Set<'a>
        ensures { (result.column ≡ column) × (result.bytes.now ≡ bytes.now) }
    {
        Set { column, bytes }
    }
}

/// The test that a row must pass to be shown by a view, as `RowTest` has it.
///
/// The amount of a column is its bytes as a big-endian number if there are at most eight, and else 0.
#[derive(Clone, Copy)]
pub enum Test<'a> {
    /// Each row passes.
    Any,
    /// A row passes if its column of this number has exactly these bytes.
    Equals(u8, &'a [u8]),
    /// A row passes if the amount of its column of this number is at least this.
    AtLeast(u8, u64),
}

/// Which rows a view shows, as `ViewSpec` has it: those whose key is one of these and that pass the test.
#[derive(Clone, Copy)]
pub enum Spec<'a> {
    /// The keys that begin with `key`.
    Prefix {
        key: &'a [u8],
        test: Test<'a>,
    },
    /// The keys at or after `lo`.
    From {
        lo: &'a [u8],
        test: Test<'a>,
    },
    /// The keys at or after `lo` and before `hi`.
    Between {
        lo: &'a [u8],
        hi: &'a [u8],
        test: Test<'a>,
    },
}
