//! The index for C: one owner of a handle makes one call at a time.
//!
//! `include/rowanspan.h` says what each call does, what it costs and what it returns.
#![tactic(auto)]

mod batch_exports;
mod batching;
mod changing;
mod exports;
mod file_log;
mod gathering;
mod handing;
mod handle;
mod log_calls;
mod log_exports;
mod log_handle;
mod log_telling;
mod placing;
mod ranging;
mod reading;
mod spelling;
pub mod status;
mod testing;
mod totals;
mod view_exports;
