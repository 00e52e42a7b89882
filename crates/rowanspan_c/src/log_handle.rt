//! What C holds of a log: a word that points to it, and whether there is one.

ghost use Rattle.std.specs.Prelude.{◌≡◌, true, MatchOption};
ghost use Rattle.std.specs.declared.option.Option.{Option};
ghost use Rattle.std.specs.declared.option.Option.TheVariants.{None, Some};
ghost use Rattle.std.specs.Coded.{coded_option};
ghost use Rattle.rowanspan_c.specs.Kept.{kept, is_held};
ghost use Rattle.rowanspan_c.specs.declared.file_log.FileLog.{FileLog};
ghost use Rattle.rowanspan_c.specs.contracts.file_log.FileLog.{the_row};

use crate::file_log::FileLog;
use std::alloc::Global;
use std::marker::{Model, Send};

/// A log that C keeps, or none.
#[repr(C)]
#[derive(Drop)]
pub struct LogHandle {
    at: *mut u8,
    is_open: bool,
    alloc: Global,
    pub ghost held: { Option FileLog } by { coded_option the_row.coded },
    ghost told: { is_open ≡ is_held held },
}

impl Model for LogHandle {
    ghost also_owns = { λ h. kept the_row h.alloc h.at h.held };
}

// What a handle owns is a log, and it may be moved to another thread: `may_move` proves it.
unsafe impl Send for LogHandle {}

fn is_send<T: Send>(_value: &T) {}

// A handle may be moved to another thread. Never called: its proof is that of `Send`.
fn may_move(handle: &LogHandle) {
    is_send(handle)
}

impl LogHandle {
    // Returns a handle that holds no index.
    fn none(alloc: Global) -> LogHandle
        ensures { result.held ≡ None }
    {
        LogHandle {
            at: std::ptr::null_mut(),
            is_open: false,
            alloc,
        }
    }

    // Returns a handle that holds the log of the box.
    fn holding(log: Box<FileLog>) -> LogHandle
        ensures { result.held ≡ Some log.value }
    {
        let (at, alloc) = Box::into_raw_with_allocator(log);
        LogHandle {
            at: at as *mut u8,
            is_open: true,
            alloc,
        }
    }

    // Returns the handle itself, and whether it holds a log.
    fn tested(self) -> (LogHandle, bool)
        ensures { (result.0 ≡ self) × (result.1 ≡ self.is_open) }
    {
        let is_open = self.is_open;
        (self, is_open)
    }

    // Returns the box of a handle that holds a log.
    fn into_box(self) -> Box<FileLog>
        requires { self.is_open ≡ true }
        ensures { self.held ≡ Some result.value }
    {
        let LogHandle {
            at,
            is_open: _,
            alloc,
        } = self;
        unsafe { Box::from_raw(alloc, at as *mut FileLog) }
    }

    /// Puts a log into the handle.
    pub(crate) fn fill(&mut self, log: Box<FileLog>)
        requires { self.old.held ≡ None }
        ensures { self.new.held ≡ Some log.value }
    {
        let full = LogHandle::holding(log);
        let _none = std::mem::replace(self, full);
    }

    /// Takes the log out of the handle, if it holds one. Afterwards it holds none.
    pub(crate) fn take(&mut self, alloc: Global) -> Option<Box<FileLog>>
        ensures had { MatchOption result (self.old.held ≡ None) (λ log. self.old.held ≡ Some log.value) }
        ensures emptied { self.new.held ≡ None }
    {
        let none = LogHandle::none(alloc);
        let (whole, is_open) = std::mem::replace(self, none).tested();
        if is_open {
            Some(whole.into_box())
        } else {
            let _none = whole;
            None
        }
    }
}
