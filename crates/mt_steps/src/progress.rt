//! What a step of a call comes to.

use mt_types::event::Answer;
use mt_types::refusal::Refusal;

/// What a step of a call comes to.
#[derive(Drop)]
pub enum Progress {
    /// The call has advanced.
    Moved,
    /// The call could not use what it visited: a node that is marked deleted, a node that another call has locked, or a
    /// border that is being changed or was changed since its first field was read. Its next step begins its way or this
    /// border again, or tries the same node again.
    Waits,
    /// The call has made the commit of this number.
    Committed(u64),
    /// The call has ended with this answer.
    Answered(Answer),
    /// The call has ended, refused for this cause.
    Refused(Refusal),
}
