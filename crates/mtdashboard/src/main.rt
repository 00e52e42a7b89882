//! An example: published views. One thread writes orders into an index, one follows the index and publishes the orders
//! of a day, and two read how many they are and what they come to, without a lock and without a wait. How the threads'
//! work overlaps differs from run to run; what is printed doesn't.
#![tactic(auto)]

mod orders;

ghost use Rattle.std.specs.Prelude.{◌≡◌, IfOk};
ghost use Rattle.mt_publish.specs.Carried.{reader_source, source_of, told_source};

use crate::orders::{OPTIONS, no_orders, sum_of, write};
use anyhow::{Result, bail};
use bytes::Bytes;
use mt_publish::follow::follow;
use mt_publish::publisher::{Publisher, Told, ViewReader};
use mt_shared::door::Door;
use mt_shared::map::SharedMap;
use mt_types::key::Key;
use mt_types::refusal::Refusal;
use std::alloc::Global;
use std::sync::Wait;
use std::sync::atomic::{AtomicBool, Ordering};
use std::thread::{Threads, join, yield_now};

// How often each reader reads while orders are published.
const READS: u64 = 10_000;

// What comes of publishing: the publisher, without which nothing can be read, and its last `Told`.
type Published<W> = Result<(Publisher<W>, Told), Refusal>;

// What comes of reading: the reader, and how often the count or the sum was less than before.
type Watched = Result<(ViewReader, u64), Refusal>;

// Publishes what is new in the index, again and again, until nothing is new after the last order.
fn publish<R: Wait, W: Wait + Drop>(
    rt: &R,
    alloc: Global,
    index: &SharedMap,
    mut publisher: Publisher<W>,
    written: &AtomicBool,
) -> Published<W>
    ensures { IfOk result (λ r. told_source r.1 ≡ source_of publisher) }
{
    let door = Door::new(index, rt, 1);
    for _ in rt.forever() {
        let last = written.load(Ordering::SeqCst);
        let new = follow(alloc, &door, &mut publisher, 1000)?;
        if last && new == 0 {
            break;
        }
        yield_now();
    }
    let told = publisher.tell();
    Ok((publisher, told))
}

// One thread writes orders, and one publishes them.
fn write_and_publish<R: Threads + Wait + Sync, W: Wait + Drop + Send>(
    rt: &R,
    alloc: Global,
    publisher: Publisher<W>,
) -> Published<W>
    ensures { IfOk result (λ r. told_source r.1 ≡ source_of publisher) }
{
    let (index, mut passes) = SharedMap::start(alloc, OPTIONS, 1)?;
    let Some(pass) = passes.pop() else {
        return Err(Refusal::WrongPass);
    };
    let written = AtomicBool::new(false);
    let (index, written) = (&index, &written);
    let (published, wrote) = join(
        rt,
        move || -> Published<W>
            ensures { IfOk result (λ r. told_source r.1 ≡ source_of publisher) }
        { publish(rt, alloc, index, publisher, written) },
        move || {
            let wrote = write(rt, alloc, index, pass);
            written.store(true, Ordering::SeqCst);
            wrote
        },
    );
    wrote?;
    published
}

// Reads how many orders there are and what they come to, again and again.
fn watch(mut reader: ViewReader) -> Watched
    ensures { IfOk result (λ r. reader_source r.0 ≡ reader_source reader) }
{
    let start = Key::new(Bytes::new())?;
    let (mut count, mut sum) = (0, 0);
    let mut falls = 0u64;
    for _ in 0..READS {
        let page = reader.read(&start, 1)?;
        if page.count < count || sum_of(&page) < sum {
            falls = falls.saturating_add(1);
        }
        (count, sum) = (page.count, sum_of(&page));
    }
    Ok((reader, falls))
}

// Shows the day as it was published when `told` was made, or later.
fn show(rt: &impl Print, mut reader: ViewReader, told: Told, falls: u64) -> Result<()>
    requires { told_source told ≡ reader_source reader }
{
    reader.learn(told);
    let page = reader.read(&Key::new(Bytes::new())?, 1)?;
    let (count, sum) = (page.count, sum_of(&page));
    println!(rt; "{count} orders, {sum} in all; fell {falls} times")?;
    Ok(())
}

// Publishes while two threads read. Then shows what each reader reads once it has learnt of the last publish.
fn run_threads<R: Threads + Wait + Sync + Print, W: Wait + Drop + Send>(
    rt: &R,
    alloc: Global,
    publisher: Publisher<W>,
    one: ViewReader,
    two: ViewReader,
) -> Result<()>
    requires one { reader_source one ≡ source_of publisher }
    requires two { reader_source two ≡ source_of publisher }
{
    let (published, (one, two)) = join(
        rt,
        move || -> Published<W>
            ensures { IfOk result (λ r. told_source r.1 ≡ source_of publisher) }
        { write_and_publish(rt, alloc, publisher) },
        move || -> (Watched, Watched)
            ensures one { IfOk result.0 (λ r. reader_source r.0 ≡ reader_source one) }
            ensures two { IfOk result.1 (λ r. reader_source r.0 ≡ reader_source two) }
        { join(rt, move || watch(one), move || watch(two)) },
    );
    let (_publisher, told) = published?;
    let ((one, one_falls), (two, two_falls)) = (one?, two?);
    show(rt, one, told.again(), one_falls)?;
    show(rt, two, told, two_falls)
}

fn run<R: Threads + Wait + Sync + Print + AllocGlobal>(rt: &R) -> Result<()> {
    let alloc = rt.alloc();
    let (publisher, mut readers) = Publisher::start(alloc, rt, no_orders(alloc)?, 2)?;
    let (Some(one), Some(two)) = (readers.pop(), readers.pop()) else {
        bail!("two readers were asked for")
    };
    run_threads(rt, alloc, publisher, one, two)
}

fn main(rt: HostRuntime) -> Result<()> {
    run(&rt)
}
