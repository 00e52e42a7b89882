//! Many calls of four threads over a few keys in a layer, while all keep a view up and read it. The receipts of all calls
//! are checked against the log.

use crate::audit::{Caller, OPTIONS, first_fault, log_of};
use bytes::Bytes;
use mt_check::receipt::Receipt;
use mt_shared::asking::ask;
use mt_shared::door::Door;
use mt_shared::driving::Shared;
use mt_shared::map::SharedMap;
use mt_shared::pass::Pass;
use mt_shared::views::{keep_views, view_read};
use mt_types::event::{Event, Request};
use mt_types::items::Items;
use mt_types::numbers::ViewNo;
use mt_types::refusal::{NoMemory, Refusal};
use mt_types::view::{RowTest, ViewSpec};
use std::alloc::Global;
use std::sync::Wait;
use std::test::Fail;
use std::thread;
use std::thread::Threads;

// How many threads there are, each with a pass. Those whose pass has an even number only read.
const THREADS: u64 = 4;

// More events than any call here makes. With this many in a holding of the lock, each change ends in the holding in
// which it began, and none is open when a read takes the lock.
const WHOLE: u32 = 100_000;

// How many kinds of calls only read, and how many there are.
const READS: u64 = 2;

const KINDS: u64 = 6;

// A key of two slices, of which the first is the same for all: so the keys are in a layer. There are forty, more than a
// border holds.
fn nth_key(alloc: Global, n: u64) -> Result<Bytes, NoMemory> {
    let mut key = [0x61; 12];
    key[11] = (n % 40) as u8;
    Ok(Bytes::copy_from_slice(alloc, &key)?)
}

// The request of a round for a key: a get, a range, a put, a remove, a tidy, or a put that finds no row.
fn nth_request(alloc: Global, kind: u64, n: u64) -> Result<Request, NoMemory> {
    let key = nth_key(alloc, n)?;
    let columns = Items::new(alloc);
    let sets = Items::from_vec(vec![in alloc; (0, Bytes::from_static(b"v"))]?);
    Ok(match kind {
        0 => Request::Get { key, columns },
        1 => Request::Range {
            start: key,
            limit: 5,
            columns,
        },
        2 => Request::Put { key, sets },
        3 => Request::Remove { key },
        4 => Request::Tidy { key },
        _ => Request::PutIf {
            key,
            sets,
            version: 0,
        },
    })
}

// Takes the view on, and reads it where it then stands; and frees the nodes that no call can hold any more.
fn keep_and_read<S: Shared>(alloc: Global, shared: &mut S, pass: &mut Pass) -> Result<(), Refusal> {
    let _ = shared.event(alloc, pass, &Event::Advance);
    let _ = shared.event(alloc, pass, &Event::Collect);
    let _ = keep_views(alloc, shared, pass, 100)?;
    let _ = view_read(alloc, shared, pass, ViewNo(1), 0, Bytes::new(), 10)?;
    Ok(())
}

// Makes a call of each of the first kinds, for keys that lie apart.
fn make_round<S: Shared>(
    alloc: Global,
    shared: &mut S,
    caller: &mut Caller,
    kinds: u64,
    n: u64,
) -> Result<(), Refusal> {
    for kind in 0..kinds {
        let request = nth_request(alloc, kind, n.wrapping_add(kind.wrapping_mul(7)))?;
        caller.call(alloc, shared, request)?;
    }
    if n % 20 == 0 {
        keep_and_read(alloc, shared, &mut caller.pass)?;
    }
    Ok(())
}

// Makes a thread's rounds.
fn work<R: Wait>(
    rt: &R,
    alloc: Global,
    index: &SharedMap,
    pass: Pass,
    rounds: u64,
    most: u32,
) -> Result<Caller, Refusal> {
    let own = pass.number().0 as u64;
    let kinds = if own % 2 == 0 { READS } else { KINDS };
    let mut door = Door::new(index, rt, most);
    let mut caller = Caller {
        pass,
        receipts: Vec::new(alloc),
        at_once: 0,
    };
    for round in 0..rounds {
        let n = round.wrapping_add(own.wrapping_mul(10));
        make_round(alloc, &mut door, &mut caller, kinds, n)?;
    }
    Ok(caller)
}

// What all threads did together.
#[derive(Drop)]
struct Done {
    passes: Vec<Pass>,
    receipts: Vec<Receipt>,
    at_once: u64,
}

impl Done {
    fn add(&mut self, caller: Caller) -> Result<(), Refusal> {
        let Caller {
            pass,
            receipts,
            at_once,
        } = caller;
        self.passes.push(pass)?;
        self.receipts.extend(receipts)?;
        self.at_once = self.at_once.saturating_add(at_once);
        Ok(())
    }
}

// Builds the view, and has each pass make its rounds in a thread of its own.
fn run<R: Wait + Threads + Sync>(
    rt: &R,
    alloc: Global,
    index: &SharedMap,
    mut passes: Vec<Pass>,
    rounds: u64,
    most: u32,
) -> Result<Done, Fail> {
    let mut last = passes.pop().ok_or("pass")?;
    let (key, test) = (Bytes::new(), RowTest::Any);
    let build = Request::Build {
        spec: ViewSpec::Prefix { key, test },
    };
    let mut door = Door::new(index, rt, 1);
    let _ = ask(alloc, &mut door, &mut last, build)?;
    passes.push(last)?;
    let worked = thread::map_vec(
        rt,
        passes,
        &|pass| { work(rt, alloc, index, pass, rounds, most) },
    )?;
    let mut done = Done {
        passes: Vec::new(alloc),
        receipts: Vec::new(alloc),
        at_once: 0,
    };
    for caller in worked {
        done.add(caller?)?;
    }
    Ok(done)
}

// The first fault of the receipts, and how many commits the log has.
fn judge<R: Wait>(
    rt: &R,
    alloc: Global,
    index: &SharedMap,
    receipts: &[Receipt],
) -> Result<((u64, u8), u64), Refusal> {
    let log = log_of(alloc, &Door::new(index, rt, 1))?;
    Ok((first_fault(alloc, &log, receipts), log.len() as u64))
}

#[test]
fn four_threads(rt: HostRuntime) -> Result<(), Fail> {
    let alloc = rt.alloc();
    let (index, passes) = SharedMap::record(alloc, OPTIONS, THREADS)?;
    let done = run(&rt, alloc, &index, passes, 100, 1)?;
    let (fault, _) = judge(&rt, alloc, &index, &done.receipts)?;
    assert_eq!(rt; (fault, done.at_once), ((0, 0), 0));
    // Each receipt is of a call, with a begin and steps.
    let calls = done.receipts.len();
    assert!(rt; index.close_record(done.passes)?.len() > calls);
    Ok(())
}

// How many rounds each thread makes, the most events in a holding of the lock, and whether all gets and ranges are read
// at once: not if they may meet an open change.
const PLANS: [(u64, u32, bool); 2] = [(300, WHOLE, true), (100, 3, false)];

#[test]
fn reads_by_threads(rt: HostRuntime) -> Result<(), Fail> {
    let alloc = rt.alloc();
    for (rounds, most, all) in PLANS {
        let (index, passes) = SharedMap::start(alloc, OPTIONS, THREADS)?;
        let done = run(&rt, alloc, &index, passes, rounds, most)?;
        let (fault, commits) = judge(&rt, alloc, &index, &done.receipts)?;
        assert_eq!(rt; fault, (0, 0));
        assert!(rt; !all || done.at_once == rounds.wrapping_mul(READS * THREADS));
        assert_eq!(rt; index.close(done.passes)?.commits, commits);
    }
    Ok(())
}
