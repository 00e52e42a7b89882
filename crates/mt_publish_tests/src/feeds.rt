//! Published views of an index: its feed, appended and published, and a publisher that starts from a copy of a view.

use bytes::Bytes;
use mt_asked::borrowed::{Set, Spec, Test};
use mt_index::options::Options;
use mt_publish::follow::follow;
use mt_publish::publisher::{Publisher, ViewReader};
use mt_shared::client::Client;
use mt_shared::door::Door;
use mt_shared::map::SharedMap;
use mt_types::key::Key;
use mt_types::refusal::Refusal;
use mt_types::row::Delta;
use mt_types::view::{RowTest, ViewSpec};
use mt_view::state::ViewState;
use std::alloc::Global;
use std::sync::Wait;
use std::test::Fail;

type Guest<'a, W> = Client<Door<'a, W>>;

const OPTIONS: Options = Options {
    columns: 1,
    log_capacity: 4096,
    log_retention: 2,
    tidies: true,
};

// A view of all rows, of which there are none yet.
fn everything(alloc: Global) -> Result<ViewState, Refusal> {
    let (key, test) = (Bytes::new(), RowTest::Any);
    Ok(ViewState::open(alloc, 1, ViewSpec::Prefix { key, test })?)
}

// Puts two rows, whose column is their key.
fn put_two<W: Wait>(client: &mut Guest<'_, W>) -> Result<(), Refusal> {
    for key in [b"\x01", b"\x02"] {
        let _ = client.put(key, &[Set::new(0, key)])?;
    }
    Ok(())
}

// The deltas of two puts.
fn two_deltas<W: Wait>(rt: &W, alloc: Global) -> Result<Vec<Delta>, Fail> {
    let (map, mut passes) = SharedMap::start(alloc, OPTIONS, 1)?;
    let pass = passes.pop().ok_or("pass")?;
    let mut client = Client::new(alloc, Door::new(&map, rt, 1), pass);
    put_two(&mut client)?;
    Ok(client.feed(0, 10)?)
}

// What a page shows: the number of commits, how many rows there are, their sum, and the version of the first.
fn shown(reader: &mut ViewReader) -> Result<(u64, u64, u128, u64), Refusal> {
    let page = reader.read(&Key::new(Bytes::new())?, 1000)?;
    let sum = page.sums.as_slice().first().copied().unwrap_or(0);
    let first = page.rows.as_slice().first();
    Ok((
        page.at,
        page.count,
        sum,
        first.map_or(0, |(_, row)| row.version),
    ))
}

fn append_all<W: Wait + Drop>(
    publisher: &mut Publisher<W>,
    deltas: &[Delta],
) -> Result<(), Refusal> {
    for delta in deltas {
        publisher.append(delta)?;
    }
    Ok(())
}

#[test]
fn published_view(rt: HostRuntime) -> Result<(), Fail> {
    let alloc = rt.alloc();
    let deltas = two_deltas(&rt, alloc)?;
    let (mut publisher, mut readers) = Publisher::start(alloc, &rt, everything(alloc)?, 1)?;
    let mut reader = readers.pop().ok_or("reader")?;
    append_all(&mut publisher, &deltas)?;
    assert_eq!(rt; shown(&mut reader), Ok((0, 0, 0, 0)));
    publisher.publish()?;
    assert_eq!(rt; shown(&mut reader), Ok((2, 2, 3, 1)));
    drop(publisher);
    assert_eq!(rt; shown(&mut reader), Err(Refusal::NoSuchView));
    Ok(())
}

// Puts two rows, builds a view of all, and copies its state.
fn copy_of_two<W: Wait>(alloc: Global, client: &mut Guest<'_, W>) -> Result<ViewState, Refusal> {
    put_two(client)?;
    let (key, test) = (b"", Test::Any);
    let view = client.build(&Spec::Prefix { key, test })?.value;
    Ok(client.shared.view_copy(alloc, view)?.1)
}

// Puts a third row, and removes the first.
fn change<W: Wait>(client: &mut Guest<'_, W>) -> Result<(), Refusal> {
    let _ = client.put(b"\x03", &[Set::new(0, b"\x05")])?;
    let _ = client.remove(b"\x01")?;
    Ok(())
}

#[test]
fn follows_from_a_copy(rt: HostRuntime) -> Result<(), Fail> {
    let alloc = rt.alloc();
    let (map, mut passes) = SharedMap::start(alloc, OPTIONS, 1)?;
    let pass = passes.pop().ok_or("pass")?;
    let mut client = Client::new(alloc, Door::new(&map, &rt, 1), pass);
    let state = copy_of_two(alloc, &mut client)?;
    let (mut publisher, mut readers) = Publisher::start(alloc, &rt, state, 1)?;
    let mut reader = readers.pop().ok_or("reader")?;
    change(&mut client)?;
    assert_eq!(rt; shown(&mut reader), Ok((2, 2, 3, 1)));
    assert_eq!(rt; follow(alloc, &client.shared, &mut publisher, 1000), Ok(2));
    assert_eq!(rt; shown(&mut reader), Ok((4, 2, 7, 2)));
    assert_eq!(rt; follow(alloc, &client.shared, &mut publisher, 1000), Ok(0));
    Ok(())
}

#[test]
fn a_gap_is_refused(rt: HostRuntime) -> Result<(), Fail> {
    let alloc = rt.alloc();
    let (map, mut passes) = SharedMap::start(alloc, OPTIONS, 1)?;
    let pass = passes.pop().ok_or("pass")?;
    let mut client = Client::new(alloc, Door::new(&map, &rt, 1), pass);
    put_two(&mut client)?;
    put_two(&mut client)?;
    let (mut publisher, _readers) = Publisher::start(alloc, &rt, everything(alloc)?, 1)?;
    let followed = follow(alloc, &client.shared, &mut publisher, 1000);
    assert_eq!(rt; followed, Err(Refusal::Behind(2)));
    Ok(())
}
