//! The versions of the wire.

ghost use Rattle.std.specs.Prelude.{◌≡◌, ◌↔◌, IsTrue};
ghost use Rattle.std.specs.List.{AllByRecursion};
ghost use Rattle.mt_wire.specs.Versions.{version_byte, version_of, HasQuery};

use crate::query::Query;
use mt_types::event::Request;

/// A version of the wire. A frame of answers has the version of the queries that it answers.
#[derive(Clone, Copy, Debug, PartialEq, Eq)]
pub enum WireVersion {
    /// It has each query of version 2 except the conditional put.
    One,
    /// It has each query except reads of one moment and queries of the server.
    Two,
    /// It has each query.
    Three,
}

impl WireVersion {
    /// Returns the version that the first byte of a body names, if it names one.
    pub fn of(byte: u8) -> Option<WireVersion>
        ensures { result ≡ version_of byte }
    {
        match byte {
            1 => Some(WireVersion::One),
            2 => Some(WireVersion::Two),
            3 => Some(WireVersion::Three),
            _ => None,
        }
    }

    /// Returns the first byte of a body of this version.
    pub fn byte(self) -> u8
        ensures { result ≡ version_byte self }
    {
        match self {
            WireVersion::One => 1,
            WireVersion::Two => 2,
            WireVersion::Three => 3,
        }
    }

    /// Returns whether this version has such a query.
    pub fn has(self, query: &Query) -> bool
        ensures { IsTrue result ↔ HasQuery self query.now }
    {
        match (self, query) {
            (WireVersion::One, Query::Call(Request::PutIf { .. })) => false,
            (WireVersion::One | WireVersion::Two, Query::Read(_) | Query::Server(_)) => false,
            _ => true,
        }
    }

    /// Whether this version has each of these queries.
    pub fn has_all(self, queries: &[Query]) -> bool
        ensures { IsTrue result ↔ AllByRecursion (HasQuery self) queries.now }
    {
        for query in queries {
            if !self.has(query) {
                return false;
            }
        }
        true
    }
}
