//! The orders: an index of them, those of a day as a view, and the thread that writes them.

use bytes::Bytes;
use mt_asked::borrowed::Set;
use mt_index::options::Options;
use mt_shared::client::Client;
use mt_shared::door::Door;
use mt_shared::map::SharedMap;
use mt_shared::pass::Pass;
use mt_types::refusal::Refusal;
use mt_types::view::{Page, RowTest, ViewSpec};
use mt_view::state::ViewState;
use std::alloc::Global;
use std::sync::Wait;

/// Rows of one column. The log keeps its last 1024 commits for one that follows: more than there are orders.
pub(crate) const OPTIONS: Options = Options {
    columns: 1,
    log_capacity: 4096,
    log_retention: 1024,
    tidies: true,
};

// How many orders are written, each second one on the day that is shown.
const ORDERS: u64 = 1000;

// How many events of a put are made at most while the map's lock is held once.
const MOST_EVENTS: u32 = 128;

const DAY: &[u8] = b"order/2026-11-25/";

/// Returns the state of the view of the day's orders, of which there are none yet. (If an index has some,
/// `Door::view_copy` returns the state.)
pub(crate) fn no_orders(alloc: Global) -> Result<ViewState, Refusal> {
    let key = Bytes::from_static(DAY);
    let test = RowTest::Any;
    Ok(ViewState::open(alloc, 1, ViewSpec::Prefix { key, test })?)
}

/// Returns the sum of column 0 of a page: what its orders come to.
pub(crate) fn sum_of(page: &Page) -> u128 {
    page.sums.as_slice().first().copied().unwrap_or(0)
}

/// Puts the orders: under a key such as `order/2026-11-25/0007` the amount, in column 0.
pub(crate) fn write<R: Wait>(
    rt: &R,
    alloc: Global,
    index: &SharedMap,
    pass: Pass,
) -> Result<(), Refusal> {
    let mut client = Client::new(alloc, Door::new(index, rt, MOST_EVENTS), pass);
    for n in 0..ORDERS {
        let day = 24 + n % 2;
        let key = format!(in alloc; "order/2026-11-{day}/{n:04}")?;
        let _ = client.put(key.as_bytes(), &[Set::new(0, &n.to_be_bytes())])?;
    }
    Ok(())
}
