//! The arena by example: a number that is freed is taken again.

use mt_arena::{Arena, Node};
use mt_interior::Head;
use mt_types::numbers::NodeNo;
use std::test::Fail;

fn head() -> Node {
    Node::Head(Head::new(NodeNo(0), 0))
}

#[test]
fn spare_after_a_retire(rt: HostRuntime) -> Result<(), Fail> {
    let mut arena = Arena::open(rt.alloc(), head())?;
    let gone = arena.spare(head())?;
    arena.retire(gone, 3);
    arena.free_first_retired();
    assert_eq!(rt; arena.spare(head()), Ok(gone));
    Ok(())
}
