//! What a client asks of the server itself, and what it answers. In version 3.

ghost use Rattle.std.specs.Prelude.{◌≡◌};
ghost use Rattle.mt_wire.specs.ServerNumbers.{role_number, server_refusal_detail, server_refusal_number};

use bytes::Bytes;
use mt_types::copying::TryCopy;
use mt_types::items::Items;
use mt_types::numbers::ViewNo;
use mt_types::refusal::NoMemory;
use mt_types::view::ViewSpec;
use std::alloc::Global;

/// A query of the server, and not of its index.
#[derive(Debug, PartialEq, Eq, Drop)]
pub enum ServerQuery {
    /// Says who asks. On a server with secrets it is the first query of a connection.
    Hello {
        /// The greatest version of the wire that the client knows.
        newest: u8,
        secret: Bytes,
        name: Bytes,
    },
    /// Is answered by the same number.
    Ping(u64),
    /// Asks what the server counts.
    Info,
    /// Asks for all views.
    Views,
    /// Is answered when what it waits for has this number, or after this time.
    Wait {
        of: Awaited,
        number: u64,
        milliseconds: u32,
    },
    /// Ends the server.
    Stop {
        /// Whether frames that came aren't answered first.
        is_at_once: bool,
    },
}

/// What a client waits for.
#[derive(Clone, Copy, Debug, PartialEq, Eq)]
pub enum Awaited {
    /// The number of commits.
    Commits,
    /// The number of commits at which a view is.
    View(ViewNo),
    /// The number of commits that no crash undoes.
    Durable,
}

/// What a client may do.
#[derive(Clone, Copy, Debug, PartialEq, Eq)]
pub enum Role {
    /// Gets, ranges, reads of one moment, pages of views, and what the server counts, lists and waits for.
    Read,
    /// Also changes of rows and of views.
    Write,
    /// Also the end of the server.
    All,
}

impl Role {
    /// Returns the byte by which the role is spelled.
    pub fn number(self) -> u8
        ensures { result ≡ role_number self }
    {
        match self {
            Role::Read => 1,
            Role::Write => 2,
            Role::All => 3,
        }
    }
}

/// A number that the server counts, under its name.
#[derive(Debug, PartialEq, Eq, Drop)]
pub struct Count {
    pub name: Bytes,
    pub number: u64,
}

/// A view, as a server lists it.
#[derive(Debug, PartialEq, Eq, Drop)]
pub struct ListedView {
    pub number: ViewNo,
    /// The number of commits at which it is.
    pub at: u64,
    /// How many rows it holds.
    pub rows: u64,
    pub spec: ViewSpec,
}

impl TryCopy for ListedView {
    /// Shares the bytes of the specification.
    fn copy(&self, alloc: Global) -> Result<ListedView, NoMemory> {
        Ok(ListedView {
            number: self.number,
            at: self.at,
            rows: self.rows,
            spec: self.spec.copy(alloc)?,
        })
    }
}

/// Why a server refuses a query.
#[derive(Clone, Copy, Debug, PartialEq, Eq)]
pub enum ServerRefusal {
    /// The disk has failed, so that no row can be changed any more.
    DiskFailed {
        /// The number of the last commit that no crash undoes.
        durable: u64,
    },
    /// The disk is full, so that no row can be changed until it has room.
    DiskFull,
    /// The server has its rows in memory alone, so that no commit is ever durable.
    InMemory,
    /// The client may not ask it.
    NotAllowed,
    /// A query of the server isn't alone in its frame.
    TooMuchAtOnce,
}

impl ServerRefusal {
    /// Returns the number by which the refusal is spelled.
    pub fn number(self) -> u8
        ensures { result ≡ server_refusal_number self }
    {
        match self {
            ServerRefusal::DiskFailed { .. } => 19,
            ServerRefusal::DiskFull => 20,
            ServerRefusal::InMemory => 21,
            ServerRefusal::NotAllowed => 24,
            ServerRefusal::TooMuchAtOnce => 25,
        }
    }

    /// Returns the number that is spelled with the refusal, or 0 if it has none.
    pub fn detail(self) -> u64
        ensures { result ≡ server_refusal_detail self }
    {
        match self {
            ServerRefusal::DiskFailed { durable } => durable,
            _ => 0,
        }
    }
}

/// What a server answers.
#[derive(Debug, PartialEq, Eq, Drop)]
pub enum ServerResponse {
    /// The query was refused, and nothing was done for it.
    Refused(ServerRefusal),
    /// The client may continue, in this role.
    Hello {
        /// The version of the wire up to which both know it.
        version: u8,
        role: Role,
        /// How many columns a row has.
        columns: u8,
        /// The name of this run of the server.
        run: u128,
        commits: u64,
        /// From which number of commits on the log has all.
        logged: u64,
    },
    /// The number of a ping.
    Ping {
        number: u64,
        commits: u64,
    },
    /// What the server counts.
    Info(Items<Count>),
    /// All views, in the order of their numbers.
    Views {
        commits: u64,
        views: Items<ListedView>,
    },
    /// The end of a wait.
    Waited {
        is_reached: bool,
        commits: u64,
        /// The number of commits at which the view is, or that are durable, or 0 if the wait was for commits.
        view: u64,
    },
    /// The server ends.
    Stopped {
        commits: u64,
    },
}
