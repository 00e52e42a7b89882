//! A client's calls by example, each once.

use bytes::Bytes;
use mt_asked::borrowed::{Set, Spec, Test};
use mt_index::options::Options;
use mt_shared::client::{At, Client};
use mt_shared::door::Door;
use mt_shared::map::SharedMap;
use mt_types::event::TidyRule;
use mt_types::numbers::ViewNo;
use mt_types::refusal::Refusal;
use std::ops::Bound;
use std::sync::Wait;
use std::test::Fail;

type Guest<'a, W> = Client<Door<'a, W>>;

const OPTIONS: Options = Options {
    columns: 1,
    log_capacity: 4096,
    log_retention: 8,
    tidies: true,
};

const RED: [Set<'static>; 1] = [Set {
    column: 0,
    bytes: b"red",
}];

// An answer, and the numbers of commits between which it was true.
fn told<T>(answer: Result<At<T>, Refusal>) -> Result<(T, u64, u64), Refusal> {
    let At { value, from, to } = answer?;
    Ok((value, from, to))
}

#[test]
fn changes_of_a_client(rt: HostRuntime) -> Result<(), Fail> {
    let (map, mut passes) = SharedMap::start(rt.alloc(), OPTIONS, 1)?;
    let pass = passes.pop().ok_or("pass")?;
    let mut client = Client::new(rt.alloc(), Door::new(&map, &rt, 64), pass);
    assert_eq!(rt; told(client.put(b"apple", &RED)), Ok((1, 0, 1)));
    assert_eq!(rt; told(client.put_if(b"apple", &RED, 1)), Ok((2, 1, 2)));
    assert_eq!(rt; told(Ok(client.len())), Ok((1, 2, 2)));
    assert_eq!(rt; told(client.remove(b"apple")), Ok((Some(3), 2, 3)));
    assert_eq!(rt; told(client.tidy(b"apple")), Ok((TidyRule::Nothing, 3, 3)));
    assert_eq!(rt; client.feed(1, 10)?.len(), 2);
    passes.push(client.pass)?;
    assert_eq!(rt; map.close(passes)?.commits, 3);
    Ok(())
}

// Puts four rows, and gets one of them. Returns its version.
fn put_and_get<W: Wait>(client: &mut Guest<'_, W>) -> Result<u64, Refusal> {
    for key in [b"a", b"b", b"c", b"d"] {
        let _ = client.put(key, &RED)?;
    }
    Ok(client.get(b"b")?.value.map_or(0, |row| row.version))
}

// How many rows two ranges have: one of a limit, and one within bounds.
fn ranges<W: Wait>(client: &mut Guest<'_, W>) -> Result<(usize, usize), Refusal> {
    let pairs = client.pairs(b"b", 2, &[0])?.value.len();
    let bounds = (
        Bound::Excluded(b"a".as_slice()),
        Bound::Included(b"d".as_slice()),
    );
    Ok((pairs, client.range(bounds)?.value.len()))
}

// How many rows, or gaps, were found for two keys, and how many rows are before a key.
fn many_and_back<W: Wait>(client: &mut Guest<'_, W>) -> Result<(usize, usize), Refusal> {
    let keys = [Bytes::from_static(b"c"), Bytes::from_static(b"x")];
    let found = match client.get_many(&keys, &[0])? {
        Some(at) => at.value.len(),
        None => 0,
    };
    let back = match client.pairs_back(Some(b"c"), 9, &[0])? {
        Some(at) => at.value.len(),
        None => 0,
    };
    Ok((found, back))
}

#[test]
fn reads_of_a_client(rt: HostRuntime) -> Result<(), Fail> {
    let (map, mut passes) = SharedMap::start(rt.alloc(), OPTIONS, 1)?;
    let pass = passes.pop().ok_or("pass")?;
    let mut client = Client::new(rt.alloc(), Door::new(&map, &rt, 64), pass);
    assert_eq!(rt; put_and_get(&mut client), Ok(2));
    assert_eq!(rt; ranges(&mut client), Ok((2, 3)));
    assert_eq!(rt; many_and_back(&mut client), Ok((2, 2)));
    let count = client.count(b"b", Some(b"d"), 100)?;
    assert_eq!(rt; count.map(|at| (at.value, at.to)), Some((2, 4)));
    Ok(())
}

// Builds a view, and puts a row of it. Returns the number of commits and of rows that a page shows then, and how many
// events the page was.
fn put_and_page<W: Wait>(client: &mut Guest<'_, W>) -> Result<(u64, u64, u64), Refusal> {
    let (key, test) = (b"a", Test::Any);
    let view = client.build(&Spec::Prefix { key, test })?.value;
    let put = client.put(b"apple", &RED)?;
    let before = client.pass.events();
    let page = client.page(view, put.to, b"", 10)?;
    Ok((page.at, page.count, client.pass.events() - before))
}

#[test]
fn views_of_a_client(rt: HostRuntime) -> Result<(), Fail> {
    let (map, mut passes) = SharedMap::start(rt.alloc(), OPTIONS, 1)?;
    let pass = passes.pop().ok_or("pass")?;
    let mut client = Client::new(rt.alloc(), Door::new(&map, &rt, 64), pass);
    assert_eq!(rt; put_and_page(&mut client), Ok((1, 1, 0)));
    client.turns = 0;
    assert_eq!(rt; told(client.put(b"pear", &RED)), Ok((2, 1, 2)));
    let early = client.page(ViewNo(1), 0, b"", 10);
    assert_eq!(rt; early, Err(Refusal::Behind(1)));
    assert_eq!(rt; client.keep_views(10), Ok(1));
    assert_eq!(rt; client.drop_view(ViewNo(1)), Ok(()));
    Ok(())
}

#[test]
fn a_page_of_a_recorded_map_is_an_event(rt: HostRuntime) -> Result<(), Fail> {
    let (map, mut passes) = SharedMap::record(rt.alloc(), OPTIONS, 1)?;
    let pass = passes.pop().ok_or("pass")?;
    let mut client = Client::new(rt.alloc(), Door::new(&map, &rt, 64), pass);
    assert_eq!(rt; put_and_page(&mut client), Ok((1, 1, 1)));
    Ok(())
}
