//! The threads of a server: one that accepts, and the workers.

use crate::accepting::Acceptor;
use crate::desk::Desk;
use crate::gauge::{Gauge, Tally};
use crate::logging::{Log, keep_log};
use crate::moving::{Share, share_of};
use crate::patient::PatientDoor;
use crate::stop::Stop;
use crate::watching::Watch;
use crate::worker::{Worker, work};
use mio::Poll;
use mt_host::address::{Address, Listener, remove_sockets};
use mt_host::buffers::Buffers;
use mt_host::descriptors::most_descriptors;
use mt_host::durability::Durability;
use mt_host::limits::Limits;
use mt_host::memory::Memory;
use mt_host::reporting::Reporter;
use mt_shared::holding::HoldingDoor;
use mt_shared::map::SharedMap;
use mt_shared::pass::Pass;
use mt_talk::tokens::Token;
use sqlite_disk::Disk;
use std::alloc::Global;
use std::net::Net;
use std::random::RandomSource;
use std::rt::Files;
use std::sync::Wait;
use std::thread::Threads;
use std::time::{Clock, Instant};
use std::{io, thread};

// How many events of one call a worker makes at most while it holds the lock.
const EVENTS: u32 = 128;

/// What is to be served, and until when.
#[derive(Clone, Copy, Debug)]
pub struct Plan {
    pub limits: Limits,
    /// How many sessions there are to be, if they are counted.
    pub sessions: Option<u64>,
    /// Whether the end of standard input stops the server.
    pub watches_input: bool,
}

// Serves the connections of a desk. If that fails, all threads are to end.
fn serve_desk<R: Wait + Clock + Eprint>(
    gauge: &Gauge<'_, R>,
    worker: Worker,
    number: usize,
    stop: &Stop,
) -> io::Result<Option<Pass>> {
    let Some(desk) = gauge.desks.get(number) else {
        return Ok(None);
    };
    let worked = if worker.share == Share::Long {
        let mut door = PatientDoor::new(gauge.index, gauge.rt);
        work(gauge, worker, desk, &mut door, stop)
    } else {
        let mut door = HoldingDoor::new(gauge.index, gauge.rt, EVENTS);
        work(gauge, worker, desk, &mut door, stop)
    };
    match worked {
        Ok(pass) => Ok(Some(pass)),
        Err(error) => {
            stop.stop(gauge.desks);
            Err(error)
        }
    }
}

// Says where it listens, and accepts until there is no more to accept.
fn accept<R: Wait + Clock + Eprint>(
    gauge: &Gauge<'_, R>,
    acceptor: &mut Acceptor,
    addresses: &[Address<'_>],
    stop: &Stop,
) -> io::Result<()> {
    acceptor.say(gauge, addresses)?;
    acceptor.run(gauge, stop)
}

// A desk and a worker for each pass.
fn make_workers<R: Net>(
    rt: &R,
    alloc: Global,
    passes: Vec<Pass>,
    limits: Limits,
    tokens: &[Token],
) -> io::Result<(Vec<Desk>, Vec<Worker>)> {
    let mut desks = Vec::new(alloc);
    let mut workers = Vec::new(alloc);
    let count = passes.len();
    for pass in passes {
        let poll = Poll::new(rt)?;
        let number = desks.len();
        let place = (number, share_of(number, count));
        desks.push(Desk::new(alloc, &poll)?)?;
        let tokens = Vec::from_slice(alloc, tokens)?;
        workers.push(Worker::new(alloc, poll, pass, limits, tokens, place)?)?;
    }
    Ok((desks, workers))
}

// What is said if no thread can be started, since memory lacks or a limit is reached: the system's own words are "operation
// would block".
fn without_thread(error: io::Error) -> io::Error {
    io::Error::new(error.kind(), "a thread could not be started")
}

// Runs a thread for each worker, and accepts in this one. Returns the passes when all have ended.
fn run<R: Threads + Wait + Clock + Sync + Eprint>(
    alloc: Global,
    gauge: &Gauge<'_, R>,
    acceptor: &mut Acceptor,
    addresses: &[Address<'_>],
    workers: Vec<Worker>,
    stop: &Stop,
) -> io::Result<Vec<Pass>> {
    let rt = gauge.rt;
    thread::scope(thread::scope_env(), rt, |scope| -> io::Result<Vec<Pass>> {
        let mut ended = Vec::with_capacity(alloc, workers.len())?;
        let mut threads = Vec::with_capacity(alloc, workers.len())?;
        let mut begun = Ok(());
        for worker in workers {
            let number = threads.len();
            match scope.spawn(move || serve_desk(gauge, worker, number, stop)) {
                Ok(thread) => {
                    let _ = threads.push(thread);
                }
                Err(refused) => begun = Err(without_thread(io::Error::from(refused))),
            }
        }
        if begun.is_ok() {
            begun = accept(gauge, acceptor, addresses, stop);
        }
        if begun.is_err() {
            stop.stop(gauge.desks);
        }
        stop.close(gauge.desks);
        for thread in threads {
            if let Some(pass) = thread.join(rt)? {
                ended.push(pass)?;
            }
        }
        begun?;
        Ok(ended)
    })
}

// A random name for this run of the server.
fn run_name<R: RandomSource>(rt: &R) -> io::Result<u128> {
    let mut bytes = [0u8; 16];
    rt.fill_bytes(&mut bytes)?;
    Ok(u128::from_be_bytes(bytes))
}

// What is known of a log before commits go to it.
fn durability_of<D: Disk + Drop>(log: &Option<Log<D>>) -> Option<Durability> {
    match log {
        Some(log) => Some(Durability::new(log.syncing, log.logger.position().newest)),
        None => None,
    }
}

// Listens at these addresses.
fn listen_all<R: Net + Files>(
    rt: &R,
    alloc: Global,
    addresses: &[Address<'_>],
) -> io::Result<Vec<Listener>> {
    let mut listeners = Vec::new(alloc);
    for address in addresses {
        listeners.push(Listener::bind(rt, *address)?)?;
    }
    Ok(listeners)
}

// Runs the threads of a server. Then no more commits are made: its log may end, and so may the readings of its memory.
fn run_to_end<R: Threads + Wait + Clock + Sync + Eprint>(
    alloc: Global,
    gauge: &Gauge<'_, R>,
    acceptor: &mut Acceptor,
    addresses: &[Address<'_>],
    workers: Vec<Worker>,
    stop: &Stop,
) -> io::Result<Vec<Pass>> {
    let passes = run(alloc, gauge, acceptor, addresses, workers, stop);
    if let Some(durability) = gauge.durability {
        durability.end(gauge.rt);
    }
    gauge.memory.end(gauge.rt);
    passes
}

// Runs the threads of a server. Meanwhile this thread reads how much memory is used, and keeps the log if there is one.
fn run_watched<R, D>(
    alloc: Global,
    gauge: &Gauge<'_, R>,
    acceptor: &mut Acceptor,
    addresses: &[Address<'_>],
    workers: Vec<Worker>,
    log: Option<Log<D>>,
) -> io::Result<Ended>
where
    R: Threads + Wait + Clock + Files + Sync + Eprint,
    D: Disk + Drop,
{
    let rt = gauge.rt;
    let stop = Stop::new(acceptor.poll())?;
    let stop = &stop;
    thread::scope(thread::scope_env(), rt, |scope| -> io::Result<Ended> {
        let server = match scope.spawn(move || run_to_end(
            alloc, gauge, acceptor, addresses, workers, stop,
        )) {
            Ok(server) => server,
            Err(refused) => return Err(without_thread(io::Error::from(refused))),
        };
        let mut watch = Watch::new(gauge.start);
        let is_logged = match log {
            Some(log) => keep_log(gauge, log, &mut watch),
            None => true,
        };
        watch.look_to_end(gauge);
        let passes = server.join(rt)?;
        Ok(Ended { passes, is_logged })
    })
}

/// Where a server listens, and for which clients.
#[derive(Clone, Copy)]
pub struct Access<'a> {
    pub addresses: &'a [Address<'a>],
    /// The secrets of its clients. If there are none, all may do all.
    pub tokens: &'a [Token],
}

/// How the serving of an index has ended.
#[derive(Drop)]
pub struct Ended {
    pub passes: Vec<Pass>,
    /// Whether all commits are in the log, if there is one.
    pub is_logged: bool,
}

/// Serves an index by a worker for each pass. If there are several, that of the last one answers long frames alone. When it
/// has begun it prints a line for each address: `listening PORT` or `listening unix:PATH`. If there is a log, commits go to
/// it. Returns when all sessions have ended.
///
/// # Errors
///
/// If listening, a thread, a wait or the print failed, or if out of memory at the start.
pub fn serve<'s, R, D>(
    rt: &'s R,
    alloc: Global,
    index: &'s SharedMap,
    passes: Vec<Pass>,
    access: Access<'s>,
    plan: Plan,
    log: Option<Log<D>>,
    reporter: &'s Reporter,
) -> io::Result<Ended>
where
    R: Net + Files + Threads + Wait + Clock + RandomSource + Sync + Eprint,
    D: Disk + Drop,
{
    let addresses = access.addresses;
    let listeners = listen_all(rt, alloc, addresses)?;
    let most = plan.limits.connections;
    let mut acceptor = Acceptor::new(
        alloc,
        Poll::new(rt)?,
        listeners,
        most,
        most_descriptors(rt),
        plan.sessions,
    )?;
    if plan.watches_input {
        acceptor.watch_input()?;
    }
    let (desks, workers) = make_workers(rt, alloc, passes, plan.limits, access.tokens)?;
    let tally = Tally::new(run_name(rt)?);
    let buffers = Buffers::new(plan.limits.buffers);
    let memory = Memory::start(rt, plan.limits.memory)?;
    let known = durability_of(&log);
    let durability = known.as_ref();
    let gauge = Gauge {
        rt,
        index,
        desks: &desks,
        tally: &tally,
        buffers: &buffers,
        memory: &memory,
        reporter,
        start: Instant::now(rt)?,
        durability,
    };
    let ended = run_watched(alloc, &gauge, &mut acceptor, addresses, workers, log);
    remove_sockets(rt, addresses);
    reporter.finish(rt);
    ended
}
