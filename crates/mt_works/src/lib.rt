//! The kinds of calls in one type. A view's build is one of them: a scan of the view's keys, then the deltas of the
//! commits since its begin.
#![tactic(auto)]

pub mod build;
pub mod building;
mod end;
pub mod laws;
pub mod work;
