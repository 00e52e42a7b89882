//! What a server knows of itself.

ghost use Rattle.std.specs.Prelude.{◌≡◌, ◌≤◌, IfOk, map, length};
ghost use Rattle.std.specs.List.{AllByRecursion};
ghost use Rattle.mt_wire.specs.declared.server.Count.{Count};
ghost use Rattle.mt_talk.specs.Serving.{numbers};

use crate::listing::Listing;
use bytes::Bytes;
use mt_wire::server::Count;
use std::alloc::{AllocError, Global};

/// What a server knows of itself and of its index, at one time.
#[derive(Default, Drop)]
pub struct Facts {
    /// The name of this run of the server.
    pub run: u128,
    /// How many columns a row has.
    pub columns: u8,
    pub commits: u64,
    /// From which number of commits on the log has all.
    pub logged: u64,
    /// How many rows there are.
    pub rows: u64,
    /// How many numbers of nodes are in use.
    pub nodes: u64,
    /// How many views there are.
    pub standing: u64,
    /// How many connections are open, and how many were accepted and turned away since the start.
    pub connections: u64,
    pub accepted: u64,
    pub turned_away: u64,
    /// How many frames and queries were answered, how many sessions were broken off, and how many hellos had a wrong
    /// secret.
    pub frames: u64,
    pub queries: u64,
    pub faults: u64,
    pub wrong_secrets: u64,
    /// How many bytes were read of connections and written to them.
    pub input_bytes: u64,
    pub output_bytes: u64,
    /// How many bytes of input and output are kept for all connections.
    pub buffered_bytes: u64,
    /// How many bytes of the server were in the machine's memory when that was last read; 0 if it couldn't be.
    pub resident_bytes: u64,
    /// The time since the start.
    pub milliseconds: u64,
    /// The views, if a client has asked for them.
    pub views: Option<Listing>,
    /// The number of commits at which the view is that a client waits for, if there is such a view.
    pub watched: Option<u64>,
    /// The number of the last commit that no crash undoes, if the server keeps a log on a disk.
    pub durable: Option<u64>,
}

// A number under its name.
fn count(name: &'static [u8], number: u64) -> Count
    requires { length name.now ≤ 64 }
    ensures number { result.number ≡ number }
    ensures name { length result.name ≤ 64 }
{
    Count {
        name: Bytes::from_static(name),
        number,
    }
}

impl Facts {
    /// Returns what is counted, under the names by which a client asks for it.
    pub fn counts(&self, alloc: Global) -> Result<Vec<Count>, AllocError>
        ensures numbers { IfOk result (λ counts. map (λ (count : Count). count.number) counts.items ≡ numbers self.now) }
        ensures few { IfOk result (λ counts. length counts.items ≤ 64) }
        ensures named { IfOk result (λ counts. AllByRecursion (λ count. length count.name ≤ 64) counts.items) }
    {
        Ok(vec![in alloc;
            count(b"commits", self.commits),
            count(b"rows", self.rows),
            count(b"nodes", self.nodes),
            count(b"views", self.standing),
            count(b"feed_from", self.logged),
            count(b"connections", self.connections),
            count(b"connections_all", self.accepted),
            count(b"turned_away", self.turned_away),
            count(b"frames", self.frames),
            count(b"queries", self.queries),
            count(b"faults", self.faults),
            count(b"input_bytes", self.input_bytes),
            count(b"output_bytes", self.output_bytes),
            count(b"durable", self.durable.unwrap_or(0)),
            count(b"wrong_secrets", self.wrong_secrets),
            count(b"buffered_bytes", self.buffered_bytes),
            count(b"resident_bytes", self.resident_bytes),
            count(b"uptime_ms", self.milliseconds),
        ]?)
    }
}
