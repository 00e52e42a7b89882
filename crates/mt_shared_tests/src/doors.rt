//! Doors, and the passes that they refuse.

use bytes::Bytes;
use mt_index::options::Options;
use mt_shared::client::Client;
use mt_shared::door::Door;
use mt_shared::driving::Shared;
use mt_shared::map::SharedMap;
use mt_shared::pass::Pass;
use mt_types::event::{Event, Outcome, Request};
use mt_types::numbers::{CallNo, PassNo, ViewNo};
use mt_types::refusal::Refusal;
use std::alloc::Global;
use std::sync::Wait;
use std::test::Fail;

#[test]
fn other_passes(rt: HostRuntime) -> Result<(), Fail> {
    let alloc = rt.alloc();
    let (index, mut passes) = SharedMap::start(alloc, Options::default(), 2)?;
    let mut door = Door::new(&index, &rt, 1);
    let key = Bytes::from_static(b"a");
    let begin = Event::Begin(PassNo(2), Request::Remove { key });
    let wrong = Outcome::Refused(Refusal::WrongPass);
    assert_eq!(rt; door.event(alloc, &mut passes[0], &begin), wrong);
    let begun = door.event(alloc, &mut passes[1], &begin);
    assert_eq!(rt; begun, Outcome::Call(CallNo(1)));
    let stepped = door.event(alloc, &mut passes[0], &Event::Step(CallNo(1)));
    assert_eq!(rt; stepped, wrong);
    assert_eq!(rt; (passes[0].events(), passes[1].events()), (0, 1));
    let _ = passes.pop();
    assert!(rt; matches!(index.close(passes), Err(Refusal::WrongPass)));
    Ok(())
}

// What a get by a pass of another index is refused for, and what a page of a view is.
fn refused<R: Wait>(
    rt: &R,
    alloc: Global,
    index: &SharedMap,
    stranger: Pass,
) -> (Option<Refusal>, Option<Refusal>) {
    let mut client = Client::new(alloc, Door::new(index, rt, 1), stranger);
    let got = client.get(b"a").err();
    (got, client.page(ViewNo(1), 0, b"", 10).err())
}

// Of two passes of another index the first has seen a commit, and the second has no book here.
#[test]
fn passes_of_another_index(rt: HostRuntime) -> Result<(), Fail> {
    let alloc = rt.alloc();
    let (other, mut strangers) = SharedMap::start(alloc, Options::default(), 2)?;
    let second = strangers.pop().ok_or("second")?;
    let first = strangers.pop().ok_or("first")?;
    let mut client = Client::new(alloc, Door::new(&other, &rt, 1), first);
    let _ = client.put(b"a", &[])?;
    let (index, _passes) = SharedMap::start(alloc, Options::default(), 1)?;
    let wrong = Some(Refusal::WrongPass);
    assert_eq!(rt; refused(&rt, alloc, &index, second), (wrong, wrong));
    assert_eq!(rt; refused(&rt, alloc, &index, client.pass).0, wrong);
    Ok(())
}
