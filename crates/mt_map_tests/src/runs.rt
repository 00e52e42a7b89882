//! A machine by its own calls: a call that begins and runs in one function, a call that is begun first and runs then, a
//! run of events.

use bytes::Bytes;
use mt_index::calling::CallRun;
use mt_index::machine::Machine;
use mt_index::options::Options;
use mt_types::event::{Event, Outcome, Request};
use mt_types::items::Items;
use mt_types::key::Key;
use mt_types::numbers::{CallNo, PassNo};
use mt_types::refusal::{NoMemory, Refusal};
use std::alloc::Global;
use std::test::Fail;

const MOST: u64 = 1000;

fn put(alloc: Global, key: &'static [u8]) -> Result<Request, NoMemory> {
    let sets = Items::from_vec(vec![in alloc; (0, Bytes::from_static(b"v"))]?);
    let key = Bytes::from_static(key);
    Ok(Request::Put { key, sets })
}

// Begins a put and makes its first two steps: it locks a border. Returns how many steps there were, if it is still open.
fn cut(alloc: Global, machine: &mut Machine) -> Result<Option<u64>, NoMemory> {
    let request = put(alloc, b"a")?;
    Ok(match machine.call(alloc, PassNo(1), request, 2) {
        CallRun::Ran(CallNo(1), run) => (run.last == Outcome::Moved).then_some(run.steps),
        _ => None,
    })
}

#[test]
fn a_run_that_is_cut_stays_open(rt: HostRuntime) -> Result<(), Fail> {
    let alloc = rt.alloc();
    let mut machine = Machine::open(alloc, Options::default())?;
    assert_eq!(rt; cut(alloc, &mut machine)?, Some(2));
    let request = put(alloc, b"b")?;
    let begun = machine.begin_call(alloc, PassNo(1), request);
    assert_eq!(rt; begun, Outcome::Call(CallNo(2)));
    let waits = machine.go(alloc, CallNo(2), MOST).last;
    assert_eq!(rt; (waits, machine.open_calls()), (Outcome::Again, 2));
    let steps = machine.go(alloc, CallNo(1), MOST).steps;
    let commits = machine.go(alloc, CallNo(2), MOST).commits;
    assert_eq!(rt; (steps, commits, machine.open_calls()), (7, 1, 0));
    Ok(())
}

// A put of key a, in nine steps: the eighth is its commit.
fn events(alloc: Global) -> Result<Vec<Event>, NoMemory> {
    let mut events = vec![in alloc; Event::Begin(PassNo(1), put(alloc, b"a")?)]?;
    for _ in 0..9 {
        events.push(Event::Step(CallNo(1)))?;
    }
    Ok(events)
}

// The version of the row of key a, or 0.
fn version(alloc: Global, machine: &Machine) -> Result<u64, Refusal> {
    if !machine.is_quiet() {
        return Ok(0);
    }
    let key = Key::new(Bytes::from_static(b"a"))?;
    let row = machine.get(alloc, key, Items::new(alloc))?;
    Ok(row.map_or(0, |row| row.version))
}

#[test]
fn run_and_reads(rt: HostRuntime) -> Result<(), Fail> {
    let alloc = rt.alloc();
    let events = events(alloc)?;
    let (machine, outcomes) = Machine::run(alloc, Options::default(), &events)?;
    assert_eq!(rt; outcomes.get(8), Some(&Outcome::Commit(1)));
    assert_eq!(rt; version(alloc, &machine), Ok(1));
    Ok(())
}
