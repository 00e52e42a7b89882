//! A tidy: one change that makes the tree smaller at the place at which a key would be.
#![tactic(auto)]

mod above;
mod bypassing;
mod closing;
mod dropping;
mod looking;
pub mod noted;
pub mod reading;
pub mod seen;
pub mod sign;
pub mod stage;
pub mod tidy;
mod unlinking;
