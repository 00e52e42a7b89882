//! An example: a map of one caller, with a view of some of its rows, as README shows it.
#![tactic(auto)]

use anyhow::Result;
use mt_asked::borrowed::{Set, Spec, Test};
use mt_batch::batch::{Batched, Change, Condition};
use mt_index::options::Options;
use mt_map::map::Map;
use std::ops::Bound;

// Prints how long each key from a to p is, in their order, and which version its row has.
fn print_rows<R: Print>(rt: &R, map: &Map) -> Result<()> {
    let mut rows = map.range((Bound::Included(b"a"), Bound::Excluded(b"q")))?;
    while let Some(row) = rows.next()? {
        println!(rt; "{} bytes, version {}", rows.key().len(), row.version)?;
    }
    Ok(())
}

// Puts a row and removes one, as one change, if the row of apple has this version. Prints what came of it.
fn change_two<R: Print>(rt: &R, map: &mut Map, version: u64) -> Result<()> {
    let sets = [Set::new(0, b"blue")];
    let changes = [
        Change::Put {
            key: b"plum",
            sets: &sets,
        },
        Change::Remove { key: b"pear" },
    ];
    match map.batch(&[Condition::new(b"apple", version)], &changes)? {
        Batched::Made(made) => println!(rt; "after {} commits: {}", made.from, made.to)?,
        Batched::Unmet { found, .. } => println!(rt; "apple has version {found}")?,
    }
    Ok(())
}

fn run<R: Print + AllocGlobal>(rt: &R) -> Result<()> {
    let mut map = Map::open(rt.alloc(), Options::default())?;
    let commit = map.put(b"apple", &[Set::new(0, b"red")])?;
    println!(rt; "commit {commit}")?;
    let late = map.put_if(b"apple", &[Set::new(0, b"blue")], 0);
    println!(rt; "put as a new row: {}", late.is_ok())?;
    let view = map.build(&Spec::Prefix {
        key: b"ap",
        test: Test::Any,
    })?;
    let _ = map.put(b"apricot", &[Set::new(0, b"orange")])?;
    let _ = map.put(b"pear", &[Set::new(0, b"green")])?;
    print_rows(rt, &map)?;
    let _ = map.keep_views(100)?;
    let page = map.page(view, map.commits(), b"", 10)?;
    println!(rt; "{} rows begin with ap", page.count)?;
    change_two(rt, &mut map, commit)?;
    change_two(rt, &mut map, 7)?;
    Ok(())
}

fn main(rt: HostRuntime) -> Result<()> {
    run(&rt)
}
