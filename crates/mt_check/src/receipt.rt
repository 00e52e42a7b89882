//! Receipts: what a caller was answered, and between which numbers of commits.

use bytes::Bytes;
use mt_types::event::{Answer, Request};
use mt_types::view::{Page as PageShown, ViewSpec};

/// What a caller was answered. `from` and `to` are the numbers of commits at the begin of the call and at its end; of a
/// page both are the number at which it is.
#[derive(Debug, PartialEq, Eq, Drop)]
pub enum Receipt {
    /// Of a call that is done.
    Call {
        request: Request,
        answer: Answer,
        from: u64,
        to: u64,
    },
    /// Of a page of a view.
    Page {
        spec: ViewSpec,
        floor: u64,
        start: Bytes,
        limit: u16,
        page: PageShown,
        from: u64,
        to: u64,
    },
}
