//! The values of the index: keys, rows, requests, events and their outcomes, with the model of rows and views.
//!
//! A function takes O(1) time unless its documentation says otherwise.
#![tactic(auto)]

mod block;
pub mod columns;
pub mod copying;
pub mod event;
pub mod items;
pub mod key;
pub mod limits;
pub mod numbers;
mod piece;
pub mod refusal;
pub mod row;
pub mod view;
