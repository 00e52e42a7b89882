//! What a client asks.

use crate::read::ReadQuery;
use crate::server::ServerQuery;
use bytes::Bytes;
use mt_types::event::Request;
use mt_types::numbers::ViewNo;

/// One query of a frame.
#[derive(Debug, PartialEq, Eq, Drop)]
pub enum Query {
    /// A call, from its begin to its end.
    Call(Request),
    /// A page of a view. The view has to be at `floor` commits or more.
    ViewRead {
        view: ViewNo,
        floor: u64,
        start: Bytes,
        limit: u16,
    },
    /// Ends a view.
    ViewDrop(ViewNo),
    /// Reads of one moment. Versions 1 and 2 have none.
    Read(ReadQuery),
    /// Asks the server itself. Versions 1 and 2 have none.
    Server(ServerQuery),
}
