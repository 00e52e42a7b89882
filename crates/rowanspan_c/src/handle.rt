//! What C holds of an index: a word that points to it, and whether there is one.

ghost use Rattle.std.specs.Prelude.{◌≡◌, true, MatchOption, MatchResult, OnOk};
ghost use Rattle.std.specs.declared.option.Option.{Option};
ghost use Rattle.std.specs.declared.option.Option.TheVariants.{None, Some};
ghost use Rattle.std.specs.Coded.{coded_option};
ghost use Rattle.rowanspan_c.specs.Kept.{kept, is_held};
ghost use Rattle.rowanspan_c.specs.Questions.{IsCausedBy};
ghost use Rattle.mt_types.specs.Limits.{open_fault};
ghost use Rattle.mt_index.specs.Events.{IsOpened};
ghost use Rattle.mt_map.specs.Tidies.{MapView};
ghost use Rattle.mt_map.specs.contracts.map.Map.{the_row};

use mt_index::options::Options;
use mt_map::map::Map;
use mt_types::refusal::Refusal;
use std::alloc::Global;
use std::marker::{Model, Send};

/// An index that C keeps, or none.
#[repr(C)]
#[derive(Drop)]
pub struct Handle {
    at: *mut u8,
    is_open: bool,
    alloc: Global,
    pub ghost held: { Option MapView } by { coded_option the_row.coded },
    ghost told: { is_open ≡ is_held held },
}

impl Model for Handle {
    ghost also_owns = { λ h. kept the_row h.alloc h.at h.held };
}

// What a handle owns is an index, and it may be moved to another thread: `may_move` proves it.
unsafe impl Send for Handle {}

fn is_send<T: Send>(_value: &T) {}

// A handle may be moved to another thread. Never called: its proof is that of `Send`.
fn may_move(handle: &Handle) {
    is_send(handle)
}

// Returns an open map, in a box.
pub(crate) fn opened(alloc: Global, options: Options) -> Result<Box<Map>, Refusal>
    ensures opened { MatchResult result
        (λ index. IsOpened options index.value.machine × (index.value.tidies ≡ options.tidies))
        (λ refusal. IsCausedBy (open_fault options.columns options.log_capacity options.log_retention) refusal) }
    ensures fits { OnOk result (open_fault options.columns options.log_capacity options.log_retention ≡ None) }
{
    let index = Map::open(alloc, options)?;
    Ok(Box::new(alloc, index)?)
}

impl Handle {
    // Returns a handle that holds no index.
    fn none(alloc: Global) -> Handle
        ensures { result.held ≡ None }
    {
        Handle {
            at: std::ptr::null_mut(),
            is_open: false,
            alloc,
        }
    }

    // Returns a handle that holds the index of the box.
    fn holding(index: Box<Map>) -> Handle
        ensures { result.held ≡ Some index.value }
    {
        let (at, alloc) = Box::into_raw_with_allocator(index);
        Handle {
            at: at as *mut u8,
            is_open: true,
            alloc,
        }
    }

    // Returns the handle itself, and whether it holds an index.
    fn tested(self) -> (Handle, bool)
        ensures { (result.0 ≡ self) × (result.1 ≡ self.is_open) }
    {
        let is_open = self.is_open;
        (self, is_open)
    }

    // Returns the box of a handle that holds an index.
    fn into_box(self) -> Box<Map>
        requires { self.is_open ≡ true }
        ensures { self.held ≡ Some result.value }
    {
        let Handle {
            at,
            is_open: _,
            alloc,
        } = self;
        unsafe { Box::from_raw(alloc, at as *mut Map) }
    }

    /// Puts an index into the handle.
    pub(crate) fn fill(&mut self, index: Box<Map>)
        requires { self.old.held ≡ None }
        ensures { self.new.held ≡ Some index.value }
    {
        let full = Handle::holding(index);
        let _none = std::mem::replace(self, full);
    }

    /// Takes the index out of the handle, if it holds one. Afterwards it holds none.
    pub(crate) fn take(&mut self, alloc: Global) -> Option<Box<Map>>
        ensures had { MatchOption result (self.old.held ≡ None) (λ index. self.old.held ≡ Some index.value) }
        ensures emptied { self.new.held ≡ None }
    {
        let none = Handle::none(alloc);
        let (whole, is_open) = std::mem::replace(self, none).tested();
        if is_open {
            Some(whole.into_box())
        } else {
            let _none = whole;
            None
        }
    }
}
