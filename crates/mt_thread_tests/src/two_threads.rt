//! Two threads whose calls meet: a get waits half-way for a put of its key, and a get ends while the door of a put is
//! still there.

use bytes::Bytes;
use mt_index::options::Options;
use mt_shared::client::Client;
use mt_shared::door::Door;
use mt_shared::driving::{Gate, drive};
use mt_shared::map::SharedMap;
use mt_shared::pass::Pass;
use mt_types::event::{Answer, Outcome, Request};
use mt_types::items::Items;
use mt_types::refusal::Refusal;
use std::alloc::Global;
use std::rt::Clock;
use std::sync::Wait;
use std::sync::atomic::{AtomicBool, Ordering};
use std::test::Fail;
use std::thread;
use std::thread::{Threads, join};
use std::time::Duration;

const KEY: &[u8] = b"a";

// Whether the flag is set before a thread has looked at it a thousand times, in some five seconds.
fn is_set_soon<C: Clock>(clock: &C, flag: &AtomicBool) -> bool {
    for _ in 0..1000 {
        if flag.load(Ordering::SeqCst) {
            return true;
        }
        thread::sleep(clock, Duration::from_millis(5));
    }
    false
}

// After its call's first step tells that it has begun, and waits until the other thread has put.
#[derive(Drop)]
struct Meets<'a, C> {
    clock: &'a C,
    begun: &'a AtomicBool,
    put: &'a AtomicBool,
    seen: bool,
}

impl<'a, C: Clock> Gate for Meets<'a, C> {
    fn between(&mut self, outcome: &Outcome) {
        if !self.seen && matches!(outcome, Outcome::Moved) {
            self.begun.store(true, Ordering::SeqCst);
            self.seen = is_set_soon(self.clock, self.put);
        }
    }
}

// The numbers of commits at which a get began and ended, and the version that it found.
type Got = (u64, u64, u64);

// Gets, and waits in the middle of the call.
fn get_slowly<R: Wait + Clock>(
    rt: &R,
    alloc: Global,
    index: &SharedMap,
    flags: (&AtomicBool, &AtomicBool),
    mut pass: Pass,
) -> Result<(Pass, Got), Refusal> {
    let mut gate = Meets {
        clock: rt,
        begun: flags.0,
        put: flags.1,
        seen: false,
    };
    let (key, columns) = (Bytes::from_static(KEY), Items::new(alloc));
    let mut door = Door::new(index, rt, 1);
    let get = Request::Get { key, columns };
    let reply = drive(alloc, &mut door, &mut pass, &mut gate, get)?;
    let version = match &reply.answer {
        Answer::Found(row) => row.version,
        _ => 0,
    };
    Ok((pass, (reply.from, reply.to, version)))
}

// Puts after the other thread's get has begun, and tells.
fn put_and_tell<R: Wait + Clock>(
    rt: &R,
    alloc: Global,
    index: &SharedMap,
    flags: (&AtomicBool, &AtomicBool),
    pass: Pass,
) -> Result<Pass, Refusal> {
    let _ = is_set_soon(rt, flags.0);
    let mut client = Client::new(alloc, Door::new(index, rt, 1), pass);
    let put = client.put(KEY, &[]);
    flags.1.store(true, Ordering::SeqCst);
    let _ = put?;
    Ok(client.pass)
}

// Pass 1 gets, and waits in the middle of its call until pass 2 has put. Returns both passes, and what was got.
fn meet<R: Wait + Threads + Clock + Sync>(
    rt: &R,
    alloc: Global,
    index: &SharedMap,
    mut passes: Vec<Pass>,
) -> Result<(Vec<Pass>, Got), Fail> {
    let two = passes.pop().ok_or("two")?;
    let one = passes.pop().ok_or("one")?;
    let (begun, put) = (AtomicBool::new(false), AtomicBool::new(false));
    let (gotten, told) = join(
        rt,
        || get_slowly(rt, alloc, index, (&begun, &put), one),
        || put_and_tell(rt, alloc, index, (&begun, &put), two),
    );
    let (one, got) = gotten?;
    passes.push(one)?;
    passes.push(told?)?;
    Ok((passes, got))
}

#[test]
fn two_threads(rt: HostRuntime) -> Result<(), Fail> {
    let (index, passes) = SharedMap::start(rt.alloc(), Options::default(), 2)?;
    let (passes, got) = meet(&rt, rt.alloc(), &index, passes)?;
    assert_eq!(rt; got, (0, 1, 1));
    assert_eq!(rt; index.close(passes)?.commits, 1);
    Ok(())
}

#[test]
fn two_threads_recorded(rt: HostRuntime) -> Result<(), Fail> {
    let (index, passes) = SharedMap::record(rt.alloc(), Options::default(), 2)?;
    let (passes, got) = meet(&rt, rt.alloc(), &index, passes)?;
    assert_eq!(rt; got, (0, 1, 1));
    // Each call has a begin and steps.
    assert!(rt; index.close_record(passes)?.len() > 4);
    Ok(())
}

// Puts, and keeps the door until the other thread has got, or until it has waited long enough.
fn put_and_stay<R: Wait + Clock>(
    rt: &R,
    alloc: Global,
    index: &SharedMap,
    flags: (&AtomicBool, &AtomicBool),
    pass: Pass,
) -> bool {
    let mut client = Client::new(alloc, Door::new(index, rt, 8), pass);
    let done = client.put(KEY, &[]).is_ok();
    flags.0.store(true, Ordering::SeqCst);
    let seen = is_set_soon(rt, flags.1);
    drop(client);
    seen && done
}

// Gets after the other thread has put. Returns whether it finds the row.
fn get_then_tell<R: Wait + Clock>(
    rt: &R,
    alloc: Global,
    index: &SharedMap,
    flags: (&AtomicBool, &AtomicBool),
    pass: Pass,
) -> bool {
    let _ = is_set_soon(rt, flags.0);
    let mut client = Client::new(alloc, Door::new(index, rt, 1), pass);
    let got = client.get(KEY);
    flags.1.store(true, Ordering::SeqCst);
    matches!(&got, Ok(at) if at.value.is_some())
}

// Whether the putter saw that the getter had got, and whether that found the row.
fn stay_and_get<R: Wait + Threads + Clock + Sync>(
    rt: &R,
    alloc: Global,
    index: &SharedMap,
    one: Pass,
    two: Pass,
) -> (bool, bool) {
    let (put, got) = (AtomicBool::new(false), AtomicBool::new(false));
    join(
        rt,
        || put_and_stay(rt, alloc, index, (&put, &got), one),
        || get_then_tell(rt, alloc, index, (&put, &got), two),
    )
}

#[test]
fn door_lets_go(rt: HostRuntime) -> Result<(), Fail> {
    let alloc = rt.alloc();
    let (index, mut passes) = SharedMap::start(alloc, Options::default(), 2)?;
    let two = passes.pop().ok_or("two")?;
    let one = passes.pop().ok_or("one")?;
    assert_eq!(rt; stay_and_get(&rt, alloc, &index, one, two), (true, true));
    Ok(())
}
