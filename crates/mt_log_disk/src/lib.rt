//! The two log files of a data folder as disks, for code that has no handle of the machine.
#![tactic(auto)]

pub mod files;
pub mod host;
mod path;
mod record;
mod system;
