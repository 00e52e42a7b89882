//! The rule of a publisher and its readers: what is shown is the opening state after a list of deltas, and what each
//! thread knows is a beginning of that list.

ghost use Rattle.std.specs.Prelude.{[], None};
ghost use Rattle.mt_publish.specs.Rule.{Keeps, Opened, Stays, Read, first_of};

use crate::shown::Shown;
use atomic_table::{Join, Split};
use crossbeam_utils::rule::{Outcome, Protocol};
use mt_types::row::Delta;

/// What a thread knows. It exists only in contracts: no value of it is made.
pub struct Known {
    /// The state that was shown first.
    pub opening: Option<Shown>,
    /// The deltas after which the thread last saw the state.
    pub list: [Delta; 0],
}

/// The rule of a publisher and its readers.
pub struct Published;

impl Protocol<Shown, Known> for Published {
    ghost holds = { Keeps };

    ghost first = { record { opening = None; list = [] } };
}

/// The first publish, without a delta.
pub(crate) struct Opens;

impl Outcome<Shown, Known> for Opens {
    ghost then = { Opened };
}

/// A later publish: the publisher knows the same as before.
pub(crate) struct Publishes;

impl Outcome<Shown, Known> for Publishes {
    ghost then = { Stays };
}

/// A read.
pub(crate) struct Reads;

impl Outcome<Shown, Known> for Reads {
    ghost then = { Read };
}

/// What is passed to a new reader: the state that was shown first.
pub(crate) struct Tells;

impl Split<Known> for Tells {
    ghost left = { λ v. v };

    ghost right = { λ v. record { opening = v.opening; list = [] } };
}

/// A new reader learns that state.
pub(crate) struct Learns;

impl Join<Known> for Learns {
    ghost both = { λ v w. record { opening = first_of v.opening w.opening; list = v.list } };

    ghost spent = { record { opening = None; list = [] } };
}
