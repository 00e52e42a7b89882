//! An example: two threads share one map. Each puts ten keys of its own and gets them back; then one of their passes
//! walks over all rows. The calls of the threads come in between each other, differently in each run; what is printed
//! is the same.
#![tactic(auto)]

use anyhow::{Context, Result};
use mt_asked::borrowed::Set;
use mt_index::options::Options;
use mt_shared::client::Client;
use mt_shared::door::Door;
use mt_shared::map::SharedMap;
use mt_shared::pass::Pass;
use mt_types::refusal::Refusal;
use std::alloc::Global;
use std::sync::Wait;
use std::thread;
use std::thread::Threads;

// How many keys each thread puts.
const KEYS: u64 = 10;

// How many events of a call are made at most while the map's lock is held once.
const MOST_EVENTS: u32 = 128;

// A client of the map: a pass, with a door of its own.
type Guest<'a, R> = Client<Door<'a, R>>;

// The nth key of a pass, as `2/7`.
fn nth_key(alloc: Global, pass: &Pass, n: u64) -> Result<String, Refusal> {
    Ok(format!(in alloc; "{}/{n}", pass.number().0)?)
}

// Puts the keys of a client, each with its own bytes in column 0 of its row.
fn put_all<R: Wait>(alloc: Global, client: &mut Guest<'_, R>) -> Result<(), Refusal> {
    for n in 0..KEYS {
        let key = nth_key(alloc, &client.pass, n)?;
        let _ = client.put(key.as_bytes(), &[Set::new(0, key.as_bytes())])?;
    }
    Ok(())
}

// Gets the keys of a client: the versions of the rows that are there.
fn get_all<R: Wait>(alloc: Global, client: &mut Guest<'_, R>) -> Result<Vec<u64>, Refusal> {
    let mut versions = Vec::new(alloc);
    for n in 0..KEYS {
        let key = nth_key(alloc, &client.pass, n)?;
        if let Some(row) = client.get(key.as_bytes())?.value {
            versions.push(row.version)?;
        }
    }
    Ok(versions)
}

// How many rows there are, by a walk in pieces, each of a moment of its own.
fn count_all<R: Wait>(client: &mut Guest<'_, R>) -> Result<usize, Refusal> {
    let mut walk = client.walk(b"");
    let mut rows: usize = 0;
    while let Some(piece) = walk.next(client)? {
        rows = rows.saturating_add(piece.value.len());
    }
    Ok(rows)
}

// What a thread does with its pass. It gives the pass back, since `close` asks for all of them.
fn work<R: Wait>(
    rt: &R,
    alloc: Global,
    index: &SharedMap,
    pass: Pass,
) -> Result<(Pass, Vec<u64>), Refusal> {
    let mut client = Client::new(alloc, Door::new(index, rt, MOST_EVENTS), pass);
    put_all(alloc, &mut client)?;
    let versions = get_all(alloc, &mut client)?;
    Ok((client.pass, versions))
}

fn run<R: Threads + Wait + Sync + Print + AllocGlobal>(rt: &R) -> Result<()> {
    let alloc = rt.alloc();
    let (index, passes) = SharedMap::start(alloc, Options::default(), 2)?;
    // a thread for each pass; they have ended when this returns
    let worked = thread::map_vec(rt, passes, &|pass| work(rt, alloc, &index, pass))?;
    let mut passes = Vec::new(alloc);
    for done in worked {
        let (pass, versions) = done?;
        println!(rt;
            "pass {}: {} keys put and got back",
            pass.number().0,
            versions.len()
        )?;
        passes.push(pass)?;
    }
    let one = passes.pop().context("there is no pass")?;
    let mut client = Client::new(alloc, Door::new(&index, rt, MOST_EVENTS), one);
    println!(rt; "walk: {} rows", count_all(&mut client)?)?;
    passes.push(client.pass)?;
    let totals = index.close(passes)?;
    println!(rt; "close: {} commits", totals.commits)?;
    Ok(())
}

fn main(rt: HostRuntime) -> Result<()> {
    run(&rt)
}
