//! Pages at once: pages of views that are read while the lock is shared with other reads.

ghost use Rattle.std.specs.Prelude.{◌≤◌, ◌↔◌, IsTrue, IfOk, IfSome};
ghost use Rattle.mt_types.specs.Limited.{PageIsLimited};
ghost use Rattle.mt_shared.specs.Inner.{IsInner};
ghost use Rattle.mt_shared.specs.Pages.{MayPage, PagesNow};

use crate::inner::Inner;
use crate::trace::Trace;
use bytes::Bytes;
use mt_types::numbers::{PassNo, ViewNo};
use mt_types::refusal::Refusal;
use mt_types::view::Page;
use std::alloc::Global;

impl Inner {
    /// Reads a page of a view at once, as `Machine::page` does, if the pass has counters and no trace is kept. Returns
    /// `None` if the page may not be read at once. Makes no event, and changes nothing.
    ///
    /// Costs O(log n + k) for a page of k rows, which share the bytes of the view's.
    ///
    /// # Errors
    ///
    /// Those of `Machine::page`.
    pub(crate) fn page(
        &self,
        alloc: Global,
        pass: PassNo,
        view: ViewNo,
        floor: u64,
        start: &Bytes,
        limit: u16,
    ) -> Option<Result<Page, Refusal>>
        ensures pages { PagesNow self.now pass view floor start.now limit result }
        ensures floor { IfSome result (λ read. IfOk read (λ page. floor ≤ page.at)) }
        ensures limited { IfSome result (λ read. IfOk read PageIsLimited) }
        ensures kept { IsInner self.now }
    {
        let _stands = self.machine.is_idle();
        if !self.may_page(pass) {
            return None;
        }
        Some(self.machine.page(alloc, view, floor, start, limit))
    }

    // Returns whether pages of this pass may be read at once.
    fn may_page(&self, pass: PassNo) -> bool
        ensures { IsTrue result ↔ MayPage self.now pass }
    {
        self.has_counters(pass) && matches!(self.trace, Trace::Off)
    }
}
