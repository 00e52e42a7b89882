//! The limits of frames that are not among those of the index, and whether a view that is listed keeps those of the index.

ghost use Rattle.std.specs.Prelude.{◌↔◌, IsTrue};
ghost use Rattle.mt_wire.specs.Limited.{TestIsLimited, UpperIsLimited, SpecIsLimited};

use bytes::Bytes;
use mt_types::limits::{MAX_COLUMN_BYTES, MAX_KEY_BYTES};
use mt_types::view::{RowTest, ViewSpec};

/// The most bytes of the body of a frame of answers.
pub const MAX_REPLY_BODY: u32 = 134_217_727;

// Whether a test of a view names few bytes.
fn test_is_limited(test: &RowTest) -> bool
    ensures { IsTrue result ↔ TestIsLimited test.now }
{
    match test {
        RowTest::Equals(_, bytes) => bytes.len() <= MAX_COLUMN_BYTES,
        RowTest::Any | RowTest::AtLeast(_, _) => true,
    }
}

// Whether the key before which a range ends is short, if it has one.
fn upper_is_limited(upper: &Option<Bytes>) -> bool
    ensures { IsTrue result ↔ UpperIsLimited upper.now }
{
    match upper {
        None => true,
        Some(key) => key.len() <= MAX_KEY_BYTES,
    }
}

/// Returns whether the keys and the bytes of the specification of a view keep the limits of an index.
pub fn spec_is_limited(spec: &ViewSpec) -> bool
    ensures { IsTrue result ↔ SpecIsLimited spec.now }
{
    match spec {
        ViewSpec::Range { lo, hi, test } => {
            lo.len() <= MAX_KEY_BYTES && upper_is_limited(hi) && test_is_limited(test)
        }
        ViewSpec::Prefix { key, test } => key.len() <= MAX_KEY_BYTES && test_is_limited(test),
    }
}
