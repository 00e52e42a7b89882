//! Builds by example, over what was read of a border without entries: a scan that ends with its view's keys. What a build
//! reads of entries is said by its contract in full.

use bytes::Bytes;
use mt_border::RightLink;
use mt_scan::ScanMove;
use mt_types::numbers::NodeNo;
use mt_types::refusal::Refusal;
use mt_types::view::{RowTest, ViewSpec};
use mt_works::build::Build;
use std::alloc::Global;
use std::test::Fail;

// An empty border's right neighbour, which begins at the slice of 09.
const RIGHT: RightLink = RightLink {
    low: 0x0900_0000_0000_0000,
    node: NodeNo(2),
};

// The next move of the scan of a view's keys, after an empty border was read with this right link.
fn from_what_was_read(alloc: Global, spec: ViewSpec) -> Result<ScanMove, Refusal> {
    let mut build = Build::new(alloc, 1, spec, 0)?;
    Ok(build.visit(alloc, &[], Some(RIGHT))?)
}

fn prefixed(key: &'static [u8]) -> ViewSpec {
    let key = Bytes::from_static(key);
    let test = RowTest::Any;
    ViewSpec::Prefix { key, test }
}

#[test]
fn scans_end_with_their_keys(rt: HostRuntime) -> Result<(), Fail> {
    let alloc = rt.alloc();
    let first = from_what_was_read(alloc, prefixed(b"\x07\xff"))?;
    assert_eq!(rt; first, ScanMove::Done);
    let second = from_what_was_read(alloc, prefixed(b"\x09"))?;
    assert_eq!(rt; second, ScanMove::To(NodeNo(2)));
    Ok(())
}
