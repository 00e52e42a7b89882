//! A door that keeps the lock between calls: every call still ends.

use mt_asked::borrowed::{Spec, Test};
use mt_index::options::Options;
use mt_shared::client::Client;
use mt_shared::driving::{Hold, Shared};
use mt_shared::holding::HoldingDoor;
use mt_shared::map::SharedMap;
use mt_types::refusal::Refusal;
use mt_types::view::Page;
use std::sync::Wait;
use std::test::Fail;

type Holder<'a, W> = Client<HoldingDoor<'a, W>>;

// Puts the row, and gets it. Returns the number of the commit and the version.
fn put_and_get<W: Wait>(client: &mut Holder<'_, W>) -> Result<(u64, u64), Refusal> {
    let commit = client.put(b"apple", &[])?.value;
    let row = client.get(b"apple")?.value;
    Ok((commit, row.map_or(0, |row| row.version)))
}

// Builds a view, keeps views up and reads a page, each after a way to keep the lock.
fn build_and_page<W: Wait>(client: &mut Holder<'_, W>) -> Result<Page, Refusal> {
    client.shared.hold(Hold::Reads);
    let (key, test) = (b"a", Test::Any);
    let view = client.build(&Spec::Prefix { key, test })?.value;
    client.shared.hold(Hold::Changes);
    let _ = client.keep_views(64)?;
    client.shared.hold(Hold::Reads);
    client.page(view, 0, b"", 10)
}

#[test]
fn a_kept_lock_serves_every_call(rt: HostRuntime) -> Result<(), Fail> {
    let alloc = rt.alloc();
    let (index, mut passes) = SharedMap::start(alloc, Options::default(), 1)?;
    let pass = passes.pop().ok_or("pass")?;
    let mut client = Client::new(alloc, HoldingDoor::new(&index, &rt, 64), pass);
    client.shared.hold(Hold::Changes);
    assert_eq!(rt; put_and_get(&mut client), Ok((1, 1)));
    client.shared.hold(Hold::Reads);
    assert_eq!(rt; put_and_get(&mut client), Ok((2, 2)));
    let page = build_and_page(&mut client)?;
    assert_eq!(rt; (page.at, page.count), (2, 1));
    client.shared.hold(Hold::Nothing);
    assert_eq!(rt; put_and_get(&mut client), Ok((3, 3)));
    Ok(())
}
