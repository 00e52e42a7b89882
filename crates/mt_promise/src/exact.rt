//! Equality that says exactly whether two values are the same in every contract.

ghost use Rattle.std.specs.Prelude.{◌≡◌, ◌↔◌, IsTrue, true};
ghost use Rattle.std.proofs.Common.{rules};
ghost use Rattle.mt_promise.specs.ExactLists.{same_items, same_pairs, same_options};
ghost use Rattle.mt_promise.specs.ExactValues.{same_rows, same_changes, same_deltas, same_pages, same_requests, same_events, same_answers, same_replies, same_outcomes};

use bytes::Bytes;
use mt_types::event::{Answer, Event, Outcome, Reply, Request, TidyRule};
use mt_types::items::Items;
use mt_types::key::Key;
use mt_types::numbers::{CallNo, NodeNo, PassNo, ViewNo};
use mt_types::refusal::Refusal;
use mt_types::row::{Change, Delta, Row};
use mt_types::view::{Page, RowTest, ViewSpec};

/// A value of which `==` says exactly whether another is the same, as each contract sees it.
pub trait Exact: Eq {
    /// Whether two values are the same. Costs what `==` does.
    final fn is_same(&self, other: &Self) -> bool
        ensures { IsTrue result ↔ (self.now ≡ other.now) }
    {
        self == other
    }

    ghost equal_is_same: { (x y : Self) → Self.PartialEq.eq x y ≡ true → x ≡ y };
}

impl Exact for u8 {
    ghost equal_is_same = { Prim.search rules };
}

impl Exact for u128 {
    ghost equal_is_same = { Prim.search rules };
}

impl Exact for Bytes {
    ghost equal_is_same = { Prim.search rules };
}

impl Exact for NodeNo {
    ghost equal_is_same = { Prim.search rules };
}

impl Exact for CallNo {
    ghost equal_is_same = { Prim.search rules };
}

impl Exact for ViewNo {
    ghost equal_is_same = { Prim.search rules };
}

impl Exact for PassNo {
    ghost equal_is_same = { Prim.search rules };
}

impl Exact for Refusal {
    ghost equal_is_same = { Prim.search rules };
}

impl Exact for Key {
    ghost equal_is_same = { Prim.search rules };
}

impl<T: Exact> Exact for Items<T> {
    ghost equal_is_same = { same_items T.equal_is_same };
}

impl<A: Exact, B: Exact> Exact for (A, B) {
    ghost equal_is_same = { same_pairs A.equal_is_same B.equal_is_same };
}

impl<T: Exact> Exact for Option<T> {
    ghost equal_is_same = { same_options T.equal_is_same };
}

impl Exact for Row {
    ghost equal_is_same = { same_rows };
}

impl Exact for RowTest {
    ghost equal_is_same = { Prim.search rules };
}

impl Exact for ViewSpec {
    ghost equal_is_same = { Prim.search rules };
}

impl Exact for TidyRule {
    ghost equal_is_same = { Prim.search rules };
}

impl Exact for Change {
    ghost equal_is_same = { same_changes };
}

impl Exact for Delta {
    ghost equal_is_same = { same_deltas };
}

impl Exact for Page {
    ghost equal_is_same = { same_pages };
}

impl Exact for Request {
    ghost equal_is_same = { same_requests };
}

impl Exact for Event {
    ghost equal_is_same = { same_events };
}

impl Exact for Answer {
    ghost equal_is_same = { same_answers };
}

impl Exact for Reply {
    ghost equal_is_same = { same_replies };
}

impl Exact for Outcome {
    ghost equal_is_same = { same_outcomes };
}
