//! Batches of a map by example: all changes are made, under numbers in a row, or none.

use mt_asked::borrowed::{Set, Spec, Test};
use mt_batch::batch::{BatchError, Batched, Change, Condition, MAX_BATCH, Made};
use mt_index::options::Options;
use mt_map::map::Map;
use mt_types::numbers::ViewNo;
use mt_types::refusal::Refusal;
use std::alloc::Global;
use std::test::Fail;

// A put of one byte.
fn put<'a>(key: &'a [u8], sets: &'a [Set<'a>]) -> Change<'a> {
    Change::Put { key, sets }
}

// The version of a key's row, or 0.
fn version(map: &Map, key: &[u8]) -> Result<u64, Refusal> {
    Ok(map.get(key)?.map_or(0, |row| row.version))
}

// A map in which the rows of apple and fig were made by one batch, over an absent pear.
fn begun(alloc: Global) -> Result<(Map, Result<Batched, BatchError>), Refusal> {
    let mut map = Map::open(alloc, Options::default())?;
    let conditions = [Condition::new(b"pear", 0)];
    let sets = [Set::new(0, b"red")];
    let changes = [
        put(b"fig", &sets),
        Change::Remove { key: b"plum" },
        put(b"apple", &[]),
    ];
    let came = map.batch(&conditions, &changes);
    Ok((map, came))
}

#[test]
fn batches_are_made(rt: HostRuntime) -> Result<(), Fail> {
    let (mut map, came) = begun(rt.alloc())?;
    let (from, to) = (0, 2);
    let numbers = vec![in rt.alloc(); 1, 0, 2]?;
    assert_eq!(rt; came, Ok(Batched::Made(Made { from, to, numbers })));
    assert_eq!(rt;
        (version(&map, b"fig"), version(&map, b"apple")),
        (Ok(1), Ok(2))
    );
    // The puts are made first.
    let changes = [Change::Remove { key: b"fig" }, put(b"pear", &[])];
    let came = map.batch(&[Condition::new(b"fig", 1)], &changes);
    let (from, to) = (2, 4);
    let numbers = vec![in rt.alloc(); 4, 3]?;
    assert_eq!(rt; came, Ok(Batched::Made(Made { from, to, numbers })));
    assert_eq!(rt;
        (version(&map, b"fig"), version(&map, b"pear")),
        (Ok(0), Ok(3))
    );
    assert_eq!(rt; (map.len(), map.commits()), (2, 4));
    Ok(())
}

#[test]
fn unmet_conditions_change_nothing(rt: HostRuntime) -> Result<(), Fail> {
    let (mut map, _) = begun(rt.alloc())?;
    let conditions = [
        Condition::new(b"apple", 2),
        Condition::new(b"fig", 2),
        Condition::new(b"pear", 7),
    ];
    let came = map.batch(&conditions, &[put(b"pear", &[])]);
    assert_eq!(rt; came, Ok(Batched::Unmet { place: 1, found: 1 }));
    let came = map.batch(&[Condition::new(b"apple", 0)], &[]);
    assert_eq!(rt; came, Ok(Batched::Unmet { place: 0, found: 2 }));
    assert_eq!(rt; (map.len(), map.commits()), (2, 2));
    Ok(())
}

#[test]
fn batches_are_refused(rt: HostRuntime) -> Result<(), Fail> {
    let (mut map, _) = begun(rt.alloc())?;
    let twice = [put(b"pear", &[]), Change::Remove { key: b"pear" }];
    assert_eq!(rt; map.batch(&[], &twice), Err(BatchError::BadBatch));
    let many = [Condition::new(b"pear", 0); MAX_BATCH + 1];
    assert_eq!(rt; map.batch(&many, &[]), Err(BatchError::BadBatch));
    let sets = [Set::new(1, b"")];
    let second = [put(b"pear", &[]), put(b"plum", &sets)];
    let refused = BatchError::Refused(Refusal::BadColumn);
    assert_eq!(rt;
        map.batch(&[Condition::new(b"fig", 9)], &second),
        Err(refused)
    );
    assert_eq!(rt; (map.len(), map.commits()), (2, 2));
    Ok(())
}

// Puts rows under all keys of two bytes below a bound, each in a layer of its own below one long prefix, in one batch; or
// removes them.
fn change_all(alloc: Global, map: &mut Map, keys: &[[u8; 12]], puts: bool) -> Result<u64, Fail> {
    let mut changes = Vec::new(alloc);
    for key in keys {
        changes.push(if puts {
            put(key, &[])
        } else {
            Change::Remove { key }
        })?;
    }
    match map.batch(&[], &changes)? {
        Batched::Made(made) => Ok(made.to),
        Batched::Unmet { .. } => Ok(0),
    }
}

// Keys that make layers and splits: half of them share their first eight bytes.
fn keys(alloc: Global) -> Result<Vec<[u8; 12]>, Fail> {
    let mut keys = Vec::new(alloc);
    for number in 0..200u8 {
        let mut key = *b"01234567....";
        let place = if number % 2 == 0 { 0 } else { 9 };
        if let Some(byte) = key.get_mut(place) {
            *byte = number;
        }
        keys.push(key)?;
    }
    Ok(keys)
}

#[test]
fn batches_split_and_tidy(rt: HostRuntime) -> Result<(), Fail> {
    let keys = keys(rt.alloc())?;
    let mut map = Map::open(rt.alloc(), Options::default())?;
    let first = map.nodes();
    assert_eq!(rt; change_all(rt.alloc(), &mut map, &keys, true)?, 200);
    assert_eq!(rt; (map.len(), map.nodes() > 15), (200, true));
    assert_eq!(rt; change_all(rt.alloc(), &mut map, &keys, false)?, 400);
    assert_eq!(rt;
        (map.len(), map.nodes() <= first.saturating_add(7)),
        (0, true)
    );
    Ok(())
}

// A map with one view, whose log has room for ten commits.
fn short(alloc: Global) -> Result<(Map, ViewNo), Refusal> {
    let options = Options {
        log_capacity: 10,
        ..Options::default()
    };
    let mut map = Map::open(alloc, options)?;
    let (key, test) = (b"", Test::Any);
    let view = map.build(&Spec::Prefix { key, test })?;
    let _ = map.put(b"apple", &[])?;
    Ok((map, view))
}

#[test]
fn full_logs_undo(rt: HostRuntime) -> Result<(), Fail> {
    let (mut map, view) = short(rt.alloc())?;
    let mut keys = [[0u8; 1]; 10];
    for (key, number) in keys.iter_mut().zip(0u8..) {
        *key = [number];
    }
    let mut changes = Vec::new(rt.alloc());
    for key in &keys {
        changes.push(put(key, &[]))?;
    }
    let full = BatchError::Refused(Refusal::FeedFull(0));
    assert_eq!(rt; map.batch(&[], &changes), Err(full));
    assert_eq!(rt;
        (map.len(), map.commits(), map.feed(0, 99)?.len()),
        (1, 1, 1)
    );
    let kept = map.keep_views(99)?;
    let page = map.page(view, 1, b"", 99)?;
    assert_eq!(rt; (kept, page.count), (1, 1));
    let came = map.batch(&[], &changes);
    assert_eq!(rt; came.is_ok(), true);
    assert_eq!(rt;
        (
            map.len(),
            map.keep_views(99)?,
            map.page(view, 11, b"", 1)?.count
        ),
        (11, 10, 11)
    );
    Ok(())
}
