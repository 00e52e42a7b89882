//! The functions of views that C calls. They return statuses as those of `exports` do.

ghost use Rattle.std.specs.Prelude.{◌≡◌, ◌<◌, ◌≤◌, Some as SomeOf, None as NoneOf};
ghost use Rattle.mt_types.specs.declared.event.Request.TheVariants.{Build};
ghost use Rattle.mt_types.specs.declared.event.Event.TheVariants.{Apply, ViewDrop};
ghost use Rattle.mt_types.specs.declared.view.ViewSpec.TheVariants.{Range as RangeOf, Prefix as PrefixOf};
ghost use Rattle.rowanspan_c.specs.Questions.{ReadsPage, ReadsTotals};
ghost use Rattle.rowanspan_c.specs.Told.{Tells};
ghost use Rattle.rowanspan_c.specs.Tests.{greatest_kind, row_test_of};
ghost use Rattle.rowanspan_c.specs.Calls.{Changes, Reads, Meets, KeepsViews};

use crate::changing::{answer, change, keep_views, meet};
use crate::handle::Handle;
use crate::reading::Question;
use crate::status::{CLOSED, NO_SUCH_TEST};
use crate::testing::{GREATEST_KIND, ViewTest, test_of};
use crate::totals::totals;
use mt_asked::asked::Asked;
use mt_asked::borrowed::Spec;
use mt_types::event::Event;
use mt_types::numbers::ViewNo;
use std::alloc::Global;

/// Builds a view of the keys that begin with a prefix.
#[unsafe(no_mangle)]
pub extern "C" fn rowanspan_raw_build_prefix<'a>(
    handle: &mut Handle,
    alloc: Global,
    prefix: &[u8],
    test: &ViewTest<'a>,
    told: &mut u64,
) -> u16
    ensures built { test.now.kind ≤ greatest_kind
        → Changes handle.old.held (Build (PrefixOf prefix.now (row_test_of test.now))) handle.new.held result told.new }
    ensures no_test { greatest_kind < test.now.kind
        → (handle.new.held ≡ handle.old.held) × Tells NO_SUCH_TEST 0 result told.new }
{
    if test.kind > GREATEST_KIND {
        *told = 0;
        return NO_SUCH_TEST;
    }
    let test = test_of(test);
    let spec = Spec::Prefix { key: prefix, test };
    change(handle, alloc, &Asked::Build { spec: &spec }, told)
}

/// Builds a view of the keys at or after `lo`.
#[unsafe(no_mangle)]
pub extern "C" fn rowanspan_raw_build_from<'a>(
    handle: &mut Handle,
    alloc: Global,
    lo: &[u8],
    test: &ViewTest<'a>,
    told: &mut u64,
) -> u16
    ensures built { test.now.kind ≤ greatest_kind
        → Changes handle.old.held (Build (RangeOf lo.now NoneOf (row_test_of test.now))) handle.new.held result told.new }
    ensures no_test { greatest_kind < test.now.kind
        → (handle.new.held ≡ handle.old.held) × Tells NO_SUCH_TEST 0 result told.new }
{
    if test.kind > GREATEST_KIND {
        *told = 0;
        return NO_SUCH_TEST;
    }
    let test = test_of(test);
    let spec = Spec::From { lo, test };
    change(handle, alloc, &Asked::Build { spec: &spec }, told)
}

/// Builds a view of the keys at or after `lo` and before `hi`.
#[unsafe(no_mangle)]
pub extern "C" fn rowanspan_raw_build_between<'a>(
    handle: &mut Handle,
    alloc: Global,
    lo: &[u8],
    hi: &[u8],
    test: &ViewTest<'a>,
    told: &mut u64,
) -> u16
    ensures built { test.now.kind ≤ greatest_kind
        → Changes handle.old.held (Build (RangeOf lo.now (SomeOf hi.now) (row_test_of test.now))) handle.new.held result
        told.new }
    ensures no_test { greatest_kind < test.now.kind
        → (handle.new.held ≡ handle.old.held) × Tells NO_SUCH_TEST 0 result told.new }
{
    if test.kind > GREATEST_KIND {
        *told = 0;
        return NO_SUCH_TEST;
    }
    let test = test_of(test);
    let spec = Spec::Between { lo, hi, test };
    change(handle, alloc, &Asked::Build { spec: &spec }, told)
}

/// Advances a view by one commit. If `view` is 0, advances the view at the fewest commits.
#[unsafe(no_mangle)]
pub extern "C" fn rowanspan_apply(
    handle: &mut Handle,
    alloc: Global,
    view: u64,
    told: &mut u64,
) -> u16
    ensures { Meets handle.old.held (Apply (record { 0 = view })) handle.new.held result told.new }
{
    meet(handle, alloc, &Event::Apply(ViewNo(view)), told)
}

/// Advances all views to the newest commit.
#[unsafe(no_mangle)]
pub extern "C" fn rowanspan_raw_keep_views(
    handle: &mut Handle,
    alloc: Global,
    told: &mut u64,
) -> u16
    ensures { KeepsViews handle.old.held handle.new.held result told.new }
{
    keep_views(handle, alloc, told)
}

/// Reads a page of a view.
#[unsafe(no_mangle)]
pub extern "C" fn rowanspan_raw_view(
    handle: &mut Handle,
    alloc: Global,
    view: u64,
    floor: u64,
    start: &[u8],
    limit: u16,
    into: &mut [u8],
    told: &mut u64,
) -> u16
    ensures page { Reads handle.old.held (λ index. ReadsPage index.machine view floor start.now limit) into.old into.new result
        told.new }
    ensures kept { handle.new.held ≡ handle.old.held }
{
    answer(
        handle,
        alloc,
        &Question::Page {
            view: ViewNo(view),
            floor,
            start,
            limit,
        },
        into,
        told,
    )
}

/// Reads the totals of a view, and no row. It is refused only for the view, never as out of memory.
#[unsafe(no_mangle)]
pub extern "C" fn rowanspan_raw_totals(
    handle: &mut Handle,
    alloc: Global,
    view: u64,
    floor: u64,
    into: &mut [u8],
    told: &mut u64,
) -> u16
    ensures totals { Reads handle.old.held (λ index. ReadsTotals index.machine view floor) into.old into.new result
        told.new }
    ensures kept { handle.new.held ≡ handle.old.held }
{
    let Some(index) = handle.take(alloc) else {
        *told = 0;
        return CLOSED;
    };
    let status = totals(&index, ViewNo(view), floor, into, told);
    handle.fill(index);
    status
}

/// Ends a view.
#[unsafe(no_mangle)]
pub extern "C" fn rowanspan_drop(
    handle: &mut Handle,
    alloc: Global,
    view: u64,
    told: &mut u64,
) -> u16
    ensures { Meets handle.old.held (ViewDrop (record { 0 = view })) handle.new.held result told.new }
{
    meet(handle, alloc, &Event::ViewDrop(ViewNo(view)), told)
}
