//! Scripts: what a line says, how an outcome is written, and the run of a script on an index.
#![tactic(auto)]

pub mod asking;
pub mod command;
pub mod commands;
pub mod fault;
pub mod reading;
mod reads;
mod replies;
pub mod script;
pub mod showing;
pub mod source;
pub mod values;
pub mod words;
