//! A client as a map: the methods that a `Map` has too, each once.

use mt_asked::borrowed::{Set, Spec, Test};
use mt_index::options::Options;
use mt_shared::client::{At, Client};
use mt_shared::door::Door;
use mt_shared::map::SharedMap;
use mt_shared::walk::Walk;
use mt_types::event::{Event, Outcome, TidyRule};
use mt_types::key::Key;
use mt_types::numbers::ViewNo;
use mt_types::refusal::Refusal;
use std::ops::Bound;
use std::sync::Wait;
use std::test::Fail;

type Guest<'a, W> = Client<Door<'a, W>>;

const KEYS: [&[u8]; 3] = [b"apple", b"fig", b"pear"];

// Puts three rows.
fn fill<W: Wait>(client: &mut Guest<'_, W>) -> Result<(), Refusal> {
    for key in KEYS {
        let _ = client.put(key, &[Set::new(0, b"ripe")])?;
    }
    Ok(())
}

// Whether this is a key, at this number of commits.
fn is_key(at: &At<Option<Key>>, key: &[u8], commits: u64) -> bool {
    let is_found = match &at.value {
        Some(found) => found.as_slice() == key,
        None => false,
    };
    is_found && (at.from, at.to) == (commits, commits)
}

#[test]
fn keys_and_numbers(rt: HostRuntime) -> Result<(), Fail> {
    let (map, mut passes) = SharedMap::start(rt.alloc(), Options::default(), 1)?;
    let pass = passes.pop().ok_or("pass")?;
    let mut client = Client::new(rt.alloc(), Door::new(&map, &rt, 64), pass);
    assert!(rt; client.is_empty().value && client.first()?.value.is_none());
    fill(&mut client)?;
    assert_eq!(rt;
        (client.commits(), client.columns(), client.is_empty().to),
        (3, 1, 3)
    );
    assert!(rt; client.contains_key(b"fig")?.value && !client.contains_key(b"figs")?.value);
    assert!(rt; is_key(&client.first()?, b"apple", 3));
    let last = client.last()?.ok_or("another thread")?;
    assert!(rt; is_key(&last, b"pear", 3));
    assert_eq!(rt; client.nodes().value, 2);
    Ok(())
}

// How many rows each piece of a walk has, from a key on.
fn pieces<W: Wait>(
    client: &mut Guest<'_, W>,
    mut walk: Walk<'_>,
) -> Result<(usize, usize), Refusal> {
    let first = walk.next(client)?.map_or(0, |piece| piece.value.len());
    let _ = client.put(b"quince", &[])?;
    Ok((
        first,
        walk.next(client)?.map_or(0, |piece| piece.value.len()),
    ))
}

#[test]
fn walks(rt: HostRuntime) -> Result<(), Fail> {
    let (map, mut passes) = SharedMap::start(rt.alloc(), Options::default(), 1)?;
    let pass = passes.pop().ok_or("pass")?;
    let mut client = Client::new(rt.alloc(), Door::new(&map, &rt, 64), pass);
    fill(&mut client)?;
    let walk = client.walk(b"b");
    assert_eq!(rt; pieces(&mut client, walk), Ok((2, 1)));
    let bounds = (
        Bound::Excluded(b"apple".as_slice()),
        Bound::Excluded(b"pear".as_slice()),
    );
    assert_eq!(rt; pieces(&mut client, Walk::within(bounds)), Ok((1, 0)));
    Ok(())
}

#[test]
fn calls_and_events(rt: HostRuntime) -> Result<(), Fail> {
    let (map, mut passes) = SharedMap::start(rt.alloc(), Options::default(), 1)?;
    let pass = passes.pop().ok_or("pass")?;
    let mut client = Client::new(rt.alloc(), Door::new(&map, &rt, 64), pass);
    client.turns = 0;
    let (key, test) = (b"a", Test::Any);
    let view = client.build(&Spec::Prefix { key, test })?.value;
    let _ = client.put(b"apple", &[])?;
    assert_eq!(rt;
        (client.apply(view), client.apply(view)),
        (Ok(Some(1)), Ok(None))
    );
    assert_eq!(rt; client.apply(ViewNo(7)), Err(Refusal::NoSuchView));
    assert_eq!(rt; client.event(&Event::Collect), Outcome::Freed(0));
    assert_eq!(rt; client.collect(), Ok(0));
    assert_eq!(rt; client.moment().views().count(), 1);
    Ok(())
}

// Puts two keys in a layer of their own, removes them, and takes the empty nodes out. Returns how many nodes there are.
fn empty_a_layer<W: Wait>(client: &mut Guest<'_, W>) -> Result<usize, Refusal> {
    let keys = [b"strawberry", b"strawberri"];
    for key in keys {
        let _ = client.put(key, &[])?;
    }
    for key in keys {
        let _ = client.remove(key)?;
    }
    for _ in 0..8 {
        if client.tidy(keys[0])?.value == TidyRule::Nothing {
            break;
        }
    }
    Ok(client.nodes().value)
}

#[test]
fn nodes_are_freed(rt: HostRuntime) -> Result<(), Fail> {
    let options = Options {
        tidies: false,
        ..Options::default()
    };
    let (map, mut passes) = SharedMap::start(rt.alloc(), options, 1)?;
    let pass = passes.pop().ok_or("pass")?;
    let mut client = Client::new(rt.alloc(), Door::new(&map, &rt, 64), pass);
    assert_eq!(rt;
        (empty_a_layer(&mut client), client.collect()),
        (Ok(4), Ok(2))
    );
    assert_eq!(rt; client.nodes().value, 2);
    Ok(())
}
