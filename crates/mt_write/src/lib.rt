//! Puts and removes over the whole tree.
#![tactic(auto)]

mod columns;
mod commit;
mod copying;
mod cut;
mod ending;
mod finishing;
mod forgetting;
mod halving;
mod inserting;
pub mod laws;
mod layering;
mod passing;
mod reading;
mod ready;
pub mod running;
mod splitting;
mod unread;
pub mod writing;
