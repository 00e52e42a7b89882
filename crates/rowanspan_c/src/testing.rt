//! The test of rows that C asks for.

ghost use Rattle.std.specs.Prelude.{◌≡◌};
ghost use Rattle.mt_asked.specs.Borrowed.{test_of};
ghost use Rattle.rowanspan_c.specs.Tests.{row_test_of};

use mt_asked::borrowed::Test;

/// The greatest kind of a test of rows.
pub(crate) const GREATEST_KIND: u8 = 2;

/// The test that a row must pass to be shown by a view. Kind 0: each row passes. Kind 1: a row passes if the column has
/// exactly these bytes. Kind 2: a row passes if the amount of the column is at least `least`.
#[repr(C)]
#[derive(Drop)]
pub struct ViewTest<'a> {
    pub kind: u8,
    pub column: u8,
    pub least: u64,
    pub bytes: &'a [u8],
}

/// Returns the test that C asks for, if its kind is at most 2.
pub(crate) fn test_of<'a>(test: &ViewTest<'a>) -> Test<'a>
    ensures { test_of result ≡ row_test_of test.now }
{
    if test.kind == 0 {
        return Test::Any;
    }
    if test.kind == 1 {
        return Test::Equals(test.column, test.bytes);
    }
    Test::AtLeast(test.column, test.least)
}
