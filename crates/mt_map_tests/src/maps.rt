//! A map by example: the calls that no program makes, and a map without tidies.

use mt_asked::borrowed::{Set, Spec, Test};
use mt_asked::bounds::Bounds;
use mt_index::options::Options;
use mt_map::map::Map;
use mt_types::event::TidyRule;
use mt_types::refusal::{NoMemory, Refusal};
use std::alloc::Global;
use std::ops::Bound;
use std::test::Fail;

// Keys in their order. Three share their first eight bytes, so that they are in a layer of their own.
const KEYS: [&[u8]; 5] = [b"apple", b"apricots", b"apricots/a", b"apricots/b", b"pear"];

// A map with a row for each of the keys, put in an order that isn't theirs.
fn filled(alloc: Global) -> Result<Map, Refusal> {
    let mut map = Map::open(alloc, Options::default())?;
    for key in KEYS.iter().rev() {
        let _ = map.put(*key, &[Set::new(0, b"\x05")])?;
    }
    Ok(map)
}

#[test]
fn changes_of_a_map(rt: HostRuntime) -> Result<(), Fail> {
    let mut map = filled(rt.alloc())?;
    let nodes = map.nodes();
    assert_eq!(rt; map.put_if(KEYS[3], &[], 2), Ok(6));
    assert_eq!(rt; map.remove(KEYS[3]), Ok(Some(7)));
    assert_eq!(rt; map.remove(KEYS[2]), Ok(Some(8)));
    assert_eq!(rt; map.tidy(KEYS[2]), Ok(TidyRule::Nothing));
    assert_eq!(rt;
        (map.contains_key(KEYS[2]), map.len(), map.collect()),
        (Ok(false), 3, 0)
    );
    // The head and the border of the layer went with the last of its rows.
    assert_eq!(rt; Some(map.nodes()), nodes.checked_sub(2));
    Ok(())
}

// How long the first key is, and the last.
fn ends(map: &Map) -> Result<(usize, usize), NoMemory> {
    let first = map.first()?.map_or(0, |key| key.as_slice().len());
    Ok((first, map.last()?.map_or(0, |key| key.as_slice().len())))
}

// How many rows a walk back within bounds has, and the version of the last of them.
fn walked_back(map: &Map, bounds: Bounds<'_>) -> Result<(usize, u64), Refusal> {
    let mut rows = map.range_back(bounds)?;
    let mut version = 0;
    for count in 0..KEYS.len() {
        let Some(row) = rows.next()? else {
            return Ok((count, version));
        };
        version = row.version;
    }
    Ok((KEYS.len(), version))
}

#[test]
fn reads_of_a_map(rt: HostRuntime) -> Result<(), Fail> {
    let map = filled(rt.alloc())?;
    assert_eq!(rt; ends(&map), Ok((5, 4)));
    let bounds = (Bound::Excluded(KEYS[0]), Bound::Included(KEYS[2]));
    assert_eq!(rt; walked_back(&map, bounds), Ok((2, 4)));
    assert_eq!(rt; map.pairs(b"apr", 2, &[0])?.len(), 2);
    assert_eq!(rt; map.pairs_back(Some(b"b"), 9, &[0])?.len(), 4);
    Ok(())
}

#[test]
fn views_of_a_map(rt: HostRuntime) -> Result<(), Fail> {
    let mut map = filled(rt.alloc())?;
    let (key, test) = (KEYS[1], Test::Any);
    let view = map.build(&Spec::Prefix { key, test })?;
    assert_eq!(rt; map.put(b"apricots/c", &[]), Ok(6));
    assert_eq!(rt; map.apply(view), Ok(Some(6)));
    assert_eq!(rt; map.apply(view), Ok(None));
    let shown = map.view(view).map(|state| (state.at(), state.count()));
    assert_eq!(rt; (shown, map.views().count()), (Some((6, 4)), 1));
    assert_eq!(rt; map.drop_view(view), Ok(()));
    assert_eq!(rt; map.drop_view(view), Err(Refusal::NoSuchView));
    Ok(())
}

// Puts rows under 100 keys, and removes them.
fn put_and_remove(map: &mut Map) -> Result<(usize, usize), Refusal> {
    for key in 0..100u8 {
        let _ = map.put(&[key], &[])?;
    }
    let nodes = map.nodes();
    for key in 0..100u8 {
        let _ = map.remove(&[key])?;
    }
    Ok((nodes, map.nodes()))
}

#[test]
fn nodes_stay_without_tidies(rt: HostRuntime) -> Result<(), Fail> {
    let options = Options {
        tidies: false,
        ..Options::default()
    };
    let mut map = Map::open(rt.alloc(), options)?;
    let (before, after) = put_and_remove(&mut map)?;
    assert_eq!(rt; (before > 8, before == after), (true, true));
    Ok(())
}
