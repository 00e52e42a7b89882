//! The folder in which a server's rows survive: which of its two logs have the rows, and what they are.
#![tactic(auto)]

pub mod error;
pub mod files;
pub mod laws;
pub mod log;
pub mod looking;
pub mod opening;
pub mod reading;
pub mod side;
pub mod source;
