//! What the threads of a server say of it, each as the rest of a line after its time and its level.

use crate::address::Address;
use crate::fault::ConnectionFault;
use crate::quoting::Quoted;
use mt_journal::error::JournalError;
use mt_types::refusal::Refusal;
use std::net::SocketAddr;
use std::{fmt, io};

/// A connection, as an operator knows it.
#[derive(Clone, Copy, Debug, PartialEq, Eq)]
pub struct Origin {
    /// Its number, counted from 1 over all that the server has accepted.
    pub number: u64,
    /// The address of its client, if it isn't a Unix socket.
    pub peer: Option<SocketAddr>,
}

/// By what the server is to stop.
#[derive(Clone, Copy, Debug)]
pub enum Asker {
    /// The query of a client.
    Query(Origin),
    /// The end of standard input.
    EndOfInput,
}

/// Why commits or rows are not in the log.
#[derive(Clone, Copy)]
pub enum LogCause<'a> {
    /// The index refused to say which come next.
    Fed(Refusal),
    /// A call of the log failed.
    Journal(&'a JournalError),
}

impl fmt::Display for LogCause<'_> {
    fn fmt<W: fmt::Write>(&self, f: &mut fmt::Formatter<W>) -> fmt::Result {
        match self {
            LogCause::Fed(refusal) => write!(f, "the next commits could not be read: {refusal}"),
            LogCause::Journal(error) => write!(f, "{error}"),
        }
    }
}

/// What is said.
#[derive(Clone, Copy)]
pub enum Report<'a> {
    /// The server listens at an address.
    Listening(Address<'a>),
    /// A session was broken off, after this number of queries was answered.
    Ended {
        origin: Origin,
        fault: ConnectionFault,
        queries: u64,
    },
    /// A hello had a wrong secret. It was the `count`th.
    WrongSecret {
        origin: Origin,
        count: u64,
    },
    /// A connection was closed at once, since as many as may be were open.
    TurnedAway {
        most: u64,
    },
    /// At most this number of connections is served at once, since the system allows no more descriptors.
    FewDescriptors {
        connections: u64,
        descriptors: u64,
    },
    /// A connection was not accepted.
    NotAccepted(&'a io::Error),
    /// The disk of the log has no room.
    DiskFull,
    /// It has room again.
    DiskUsable,
    /// More bytes are resident than may be, so that no rows and no views are added.
    MemoryFull {
        resident: u64,
        most: u64,
    },
    /// No more are resident than may be.
    MemoryUsable {
        resident: u64,
        most: u64,
    },
    /// A checkpoint of this many rows is complete, after this number of commits: the log before it isn't needed any more.
    Shortened {
        rows: u64,
        commits: u64,
    },
    /// A checkpoint failed.
    NotShortened(LogCause<'a>),
    /// The log failed.
    LogFailed(LogCause<'a>),
    /// The last commits are not in the log.
    Unwritten,
    /// The server is to stop.
    Stopping(Asker),
    /// It has stopped.
    Stopped {
        events: u64,
        commits: u64,
    },
    /// It couldn't start, or has not ended as it should.
    Failed(&'a str),
}

/// The kinds of reports.
#[derive(Clone, Copy, Debug, PartialEq, Eq)]
pub enum Kind {
    Listening,
    Ended,
    WrongSecret,
    TurnedAway,
    FewDescriptors,
    NotAccepted,
    DiskFull,
    DiskUsable,
    MemoryFull,
    MemoryUsable,
    Shortened,
    NotShortened,
    LogFailed,
    Unwritten,
    Stopping,
    Stopped,
    Failed,
}

/// The kinds, in their order.
pub const KINDS: [Kind; 17] = [
    Kind::Listening,
    Kind::Ended,
    Kind::WrongSecret,
    Kind::TurnedAway,
    Kind::FewDescriptors,
    Kind::NotAccepted,
    Kind::DiskFull,
    Kind::DiskUsable,
    Kind::MemoryFull,
    Kind::MemoryUsable,
    Kind::Shortened,
    Kind::NotShortened,
    Kind::LogFailed,
    Kind::Unwritten,
    Kind::Stopping,
    Kind::Stopped,
    Kind::Failed,
];

impl Kind {
    /// Returns how urgent reports of this kind are: `info`, `warn` or `error`.
    pub fn level(self) -> &'static str {
        match self {
            Kind::Listening
            | Kind::DiskUsable
            | Kind::MemoryUsable
            | Kind::Shortened
            | Kind::Stopping
            | Kind::Stopped => "info",
            Kind::Ended
            | Kind::WrongSecret
            | Kind::TurnedAway
            | Kind::FewDescriptors
            | Kind::MemoryFull
            | Kind::NotShortened => "warn",
            Kind::NotAccepted | Kind::DiskFull | Kind::LogFailed | Kind::Unwritten | Kind::Failed =>
                "error",
        }
    }
}

impl fmt::Display for Kind {
    fn fmt<W: fmt::Write>(&self, f: &mut fmt::Formatter<W>) -> fmt::Result {
        f.write_str(match self {
            Kind::Listening => "listening",
            Kind::Ended => "ended",
            Kind::WrongSecret => "wrong_secret",
            Kind::TurnedAway => "turned_away",
            Kind::FewDescriptors => "few_descriptors",
            Kind::NotAccepted => "accept_failed",
            Kind::DiskFull => "disk_full",
            Kind::DiskUsable => "disk_usable",
            Kind::MemoryFull => "memory_full",
            Kind::MemoryUsable => "memory_usable",
            Kind::Shortened => "checkpoint",
            Kind::NotShortened => "checkpoint_failed",
            Kind::LogFailed => "log_failed",
            Kind::Unwritten => "commits_unwritten",
            Kind::Stopping => "stopping",
            Kind::Stopped => "stopped",
            Kind::Failed => "failed",
        })
    }
}

impl Report<'_> {
    /// Returns its kind.
    pub fn kind(&self) -> Kind {
        match self {
            Report::Listening(_) => Kind::Listening,
            Report::Ended { .. } => Kind::Ended,
            Report::WrongSecret { .. } => Kind::WrongSecret,
            Report::TurnedAway { .. } => Kind::TurnedAway,
            Report::FewDescriptors { .. } => Kind::FewDescriptors,
            Report::NotAccepted(_) => Kind::NotAccepted,
            Report::DiskFull => Kind::DiskFull,
            Report::DiskUsable => Kind::DiskUsable,
            Report::MemoryFull { .. } => Kind::MemoryFull,
            Report::MemoryUsable { .. } => Kind::MemoryUsable,
            Report::Shortened { .. } => Kind::Shortened,
            Report::NotShortened(_) => Kind::NotShortened,
            Report::LogFailed(_) => Kind::LogFailed,
            Report::Unwritten => Kind::Unwritten,
            Report::Stopping(_) => Kind::Stopping,
            Report::Stopped { .. } => Kind::Stopped,
            Report::Failed(_) => Kind::Failed,
        }
    }
}

/// Returns what is said of a connection that couldn't be served: out of memory.
pub fn unserved(origin: Origin) -> Report<'static> {
    Report::Ended {
        origin,
        fault: ConnectionFault::NoMemory,
        queries: 0,
    }
}

// The pair of the address of a client.
#[derive(Clone, Copy)]
struct Peer(Origin);

impl fmt::Display for Peer {
    fn fmt<W: fmt::Write>(&self, f: &mut fmt::Formatter<W>) -> fmt::Result {
        match self.0.peer {
            Some(address) => write!(f, "peer={address}"),
            None => f.write_str("peer=unix"),
        }
    }
}

// The pair of the number of a connection, and the word of a kind.
#[derive(Clone, Copy)]
struct Named(Origin, Kind);

impl fmt::Display for Named {
    fn fmt<W: fmt::Write>(&self, f: &mut fmt::Formatter<W>) -> fmt::Result {
        let Named(origin, kind) = self;
        let number = origin.number;
        write!(f, "connection={number} {kind}")
    }
}

impl fmt::Display for Report<'_> {
    fn fmt<W: fmt::Write>(&self, f: &mut fmt::Formatter<W>) -> fmt::Result {
        let kind = self.kind();
        match self {
            Report::Listening(address) => write!(f, "{kind} address={}", Quoted(address)),
            Report::Ended {
                origin,
                fault,
                queries,
            } => {
                let (named, peer, number) = (Named(*origin, kind), Peer(*origin), fault.number());
                let reason = Quoted(fault);
                write!(
                    f,
                    "{named} fault={number} reason={reason} queries={queries} {peer}"
                )
            }
            Report::WrongSecret { origin, count } => {
                let (named, peer) = (Named(*origin, kind), Peer(*origin));
                write!(f, "{named} wrong_secrets={count} {peer}")
            }
            Report::TurnedAway { most } => write!(f, "{kind} connections={most}"),
            Report::FewDescriptors {
                connections,
                descriptors,
            } => write!(
                f,
                "{kind} connections={connections} descriptors={descriptors}"
            ),
            Report::MemoryFull { resident, most } | Report::MemoryUsable { resident, most } => {
                write!(f, "{kind} resident_bytes={resident} most={most}")
            }
            Report::NotAccepted(error) => write!(f, "{kind} reason={}", Quoted(*error)),
            Report::Shortened { rows, commits } => write!(
                f,
                "{kind} rows={rows} commits={commits}"
            ),
            Report::LogFailed(cause) | Report::NotShortened(cause) => {
                write!(f, "{kind} reason={}", Quoted(cause))
            }
            Report::Failed(reason) => write!(f, "{kind} reason={}", Quoted(reason)),
            Report::Stopping(Asker::Query(origin)) => {
                let (named, peer) = (Named(*origin, kind), Peer(*origin));
                write!(f, "{named} by=query {peer}")
            }
            Report::Stopping(Asker::EndOfInput) => write!(f, "{kind} by=\"end of input\""),
            Report::Stopped { events, commits } => {
                write!(f, "{kind} events={events} commits={commits}")
            }
            Report::DiskFull | Report::DiskUsable | Report::Unwritten => write!(f, "{kind}"),
        }
    }
}
