//! The function of batches that C calls. It returns statuses as those of `exports` do.

ghost use Rattle.std.specs.Prelude.{map};
ghost use Rattle.rowanspan_c.specs.Batches.{Batches, change_of};

use crate::batching::{BorrowedChange, make, tell_batch};
use crate::handle::Handle;
use crate::status::CLOSED;
use mt_batch::batch::Condition;
use std::alloc::Global;

/// Makes several changes as one, if conditions hold. It reports the number of commits after the batch, or the place of the
/// first condition that doesn't hold and the version that was found; and the number of each change's commit.
#[unsafe(no_mangle)]
pub extern "C" fn rowanspan_raw_batch<'a>(
    handle: &mut Handle,
    alloc: Global,
    conditions: &[Condition<'a>],
    changes: &[BorrowedChange<'a>],
    numbers: &mut [u64],
    told: &mut u64,
    found: &mut u64,
) -> u16
    ensures { Batches handle.old.held conditions.now (map change_of changes.now) numbers.old handle.new.held numbers.new
        result told.new found.new }
{
    let Some(mut index) = handle.take(alloc) else {
        *told = 0;
        *found = 0;
        return CLOSED;
    };
    let came = make(alloc, &mut index, conditions, changes);
    handle.fill(index);
    tell_batch(came, numbers, told, found)
}
