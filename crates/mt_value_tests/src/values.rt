//! Values: the copy of a change, and the message of a refusal.

use bytes::Bytes;
use mt_types::copying::TryCopy;
use mt_types::items::Items;
use mt_types::key::Key;
use mt_types::refusal::Refusal;
use mt_types::row::Change;
use std::test::Fail;

#[test]
fn changes_copy(rt: HostRuntime) -> Result<(), Fail> {
    let sets = vec![in rt.alloc(); (1, Bytes::from_static(b"v"))]?;
    let change = Change::Put(Key::new(Bytes::from_static(b"a"))?, Items::from_vec(sets));
    assert!(rt; change.copy(rt.alloc())? == change);
    Ok(())
}

#[test]
fn refusals_read_well(rt: HostRuntime) -> Result<(), Fail> {
    let text = Refusal::FeedFull(3).to_string(rt.alloc())?;
    assert_eq!(rt;
        text.as_str(),
        "the log is full: views or open calls hold it from commit 3 on"
    );
    Ok(())
}
