//! The thread that accepts: it hands each connection to the worker that has the fewest.

use crate::desk::{Arrival, Desk};
use crate::gauge::{Gauge, open};
use crate::stop::Stop;
use mio::unix::SourceFd;
use mio::{Events, Interest, Poll, Token};
use mt_host::address::{Address, Listener};
use mt_host::descriptors::connections_within;
use mt_host::report::{Asker, Origin, Report, unserved};
use mt_host::stream::Stream;
use std::alloc::Global;
use std::io::ErrorKind;
use std::net::SocketAddr;
use std::sync::Wait;
use std::time::{Clock, Duration};
use std::{io, thread};

// The tokens of the listeners and of standard input.
const LISTENERS: Token = Token(0);

const INPUT: Token = Token(1);

// How many milliseconds after an accept that failed the next one is made.
const PAUSE: u64 = 10;

// How many milliseconds a wait lasts at most while no line has said how many were left out.
const LONGEST: u64 = 1000;

/// What accepts connections.
#[derive(Drop)]
pub struct Acceptor {
    poll: Poll,
    events: Events,
    listeners: Vec<Listener>,
    // The most connections that are open at once, and the limit of descriptors, if they are fewer because of it.
    most: u64,
    descriptors: Option<u64>,
    // How many more sessions there are to be, if they are counted.
    left: Option<u64>,
    // Whether an accept of the last round failed, so that the next one is made without an event.
    has_failed: bool,
}

impl Acceptor {
    /// Returns what accepts connections of these listeners: at most `most` at once, or as many as may be of `descriptors`, the
    /// limit of the system if there is one; and `sessions` in all if that is a number.
    pub fn new(
        alloc: Global,
        poll: Poll,
        listeners: Vec<Listener>,
        most: u64,
        descriptors: Option<u64>,
        sessions: Option<u64>,
    ) -> io::Result<Acceptor> {
        let mut listeners = listeners;
        for listener in &mut listeners {
            listener.register(poll.registry(), LISTENERS)?;
        }
        let within = match descriptors {
            Some(descriptors) => connections_within(most, descriptors),
            None => most,
        };
        Ok(Acceptor {
            poll,
            events: Events::with_capacity(alloc, 16)?,
            listeners,
            most: within,
            descriptors: if within < most { descriptors } else { None },
            left: sessions,
            has_failed: false,
        })
    }

    /// Returns by what it waits.
    pub fn poll(&self) -> &Poll {
        &self.poll
    }

    /// Watches standard input, which must be a pipe, a socket or a terminal.
    pub fn watch_input(&self) -> io::Result<()> {
        self.poll
            .registry()
            .register(&mut SourceFd(&0), INPUT, Interest::READABLE)
    }

    /// Prints where each listener listens, in the order of these addresses: `listening PORT` or `listening unix:PATH`.
    /// Then reports it, and how many connections there may be, if descriptors are few.
    pub fn say<R: Wait + Clock + Eprint>(
        &self,
        gauge: &Gauge<'_, R>,
        addresses: &[Address<'_>],
    ) -> io::Result<()> {
        let rt = gauge.rt;
        for (listener, address) in self.listeners.iter().zip(addresses) {
            match listener.place(*address)? {
                Address::Tcp(address) => eprintln!(rt; "listening {}", address.port())?,
                Address::Unix(path) => eprintln!(rt; "listening unix:{path}")?,
            }
        }
        for (listener, address) in self.listeners.iter().zip(addresses) {
            let report = Report::Listening(listener.place(*address)?);
            gauge.reporter.say(rt, &report);
        }
        if let Some(descriptors) = self.descriptors {
            let report = Report::FewDescriptors {
                connections: self.most,
                descriptors,
            };
            gauge.reporter.say(rt, &report);
        }
        Ok(())
    }

    // Whether standard input has ended.
    fn is_at_end(&self) -> bool {
        for event in self.events.iter() {
            if event.token() == INPUT && event.is_read_closed() {
                return true;
            }
        }
        false
    }

    // Counts one session.
    fn count(&mut self) {
        if let Some(left) = self.left {
            self.left = Some(left.saturating_sub(1));
        }
    }

    // Hands a connection to a worker. One that is too many is closed at once, and isn't counted.
    fn hand_over<R: Wait + Clock + Eprint>(
        &mut self,
        gauge: &Gauge<'_, R>,
        stream: Stream,
        peer: Option<SocketAddr>,
    ) {
        let rt = gauge.rt;
        if open(gauge.desks) >= self.most {
            gauge.tally.turn_away();
            gauge
                .reporter
                .say(rt, &Report::TurnedAway { most: self.most });
            return;
        }
        let number = gauge.tally.accept();
        let origin = Origin { number, peer };
        self.count();
        if let Some(desk) = least(gauge.first_desks()) {
            if desk.put(rt, Arrival::New { stream, origin }).is_err() {
                gauge.reporter.say(rt, &unserved(origin));
            }
        }
    }

    // An accept failed, as it does without a free descriptor: says so once, and waits.
    fn pause<R: Wait + Clock + Eprint>(&mut self, gauge: &Gauge<'_, R>, error: &io::Error) {
        if !self.has_failed {
            gauge.reporter.say(gauge.rt, &Report::NotAccepted(error));
        }
        thread::sleep(gauge.rt, Duration::from_millis(PAUSE));
    }

    // Accepts what waits at a listener. Returns whether an accept failed, so that it is to be tried again without an event.
    fn accept_from<R: Wait + Clock + Eprint>(
        &mut self,
        gauge: &Gauge<'_, R>,
        number: usize,
    ) -> bool {
        for _ in gauge.rt.forever() {
            let Some(listener) = self.listeners.get(number) else {
                break;
            };
            if self.left == Some(0) {
                break;
            }
            match listener.accept() {
                Ok((stream, peer)) => self.hand_over(gauge, stream, peer),
                Err(error) if error.kind() == ErrorKind::WouldBlock => break,
                Err(error) if error.kind() == ErrorKind::Interrupted => {}
                // (it was reset before it was accepted: its session has ended)
                Err(error) if error.kind() == ErrorKind::ConnectionAborted => self.count(),
                Err(error) => {
                    self.pause(gauge, &error);
                    return true;
                }
            }
        }
        false
    }

    // Accepts what waits.
    fn accept_all<R: Wait + Clock + Eprint>(&mut self, gauge: &Gauge<'_, R>) {
        let mut has_failed = false;
        for number in 0..self.listeners.len() {
            has_failed = self.accept_from(gauge, number) || has_failed;
        }
        self.has_failed = has_failed;
    }

    // For how long to wait: not at all after an accept that failed.
    fn timeout<R>(&self, gauge: &Gauge<'_, R>) -> Option<Duration> {
        if self.has_failed {
            return Some(Duration::ZERO);
        }
        gauge
            .reporter
            .has_left_out()
            .then_some(Duration::from_millis(LONGEST))
    }

    /// Accepts connections until as many sessions as are to be have begun, or standard input ends, or all are to stop.
    ///
    /// # Errors
    ///
    /// If a wait failed.
    pub fn run<R: Wait + Clock + Eprint>(
        &mut self,
        gauge: &Gauge<'_, R>,
        stop: &Stop,
    ) -> io::Result<()> {
        for _ in gauge.rt.forever() {
            if self.left == Some(0) || stop.is_stopping() {
                break;
            }
            gauge.reporter.catch_up(gauge.rt);
            let timeout = self.timeout(gauge);
            match self.poll.poll(&mut self.events, timeout) {
                Ok(()) => {}
                Err(error) if error.kind() == ErrorKind::Interrupted => {}
                Err(error) => return Err(error),
            }
            if self.is_at_end() {
                let report = Report::Stopping(Asker::EndOfInput);
                gauge.reporter.say(gauge.rt, &report);
                stop.stop(gauge.desks);
                break;
            }
            self.accept_all(gauge);
        }
        Ok(())
    }
}

// The desk of the worker with the fewest connections.
fn least(desks: &[Desk]) -> Option<&Desk> {
    let mut found: Option<&Desk> = None;
    let mut fewest = usize::MAX;
    for desk in desks {
        let load = desk.load();
        if found.is_none() || load < fewest {
            fewest = load;
            found = Some(desk);
        }
    }
    found
}
