//! The index as a machine of atomic steps. Calls begin, and each advances by steps that visit one node or read one
//! field of a border. The steps of any number of calls are interleaved in any order.
#![tactic(auto)]

mod alone;
pub mod calling;
mod calls;
mod epochs;
mod feed;
pub mod laws;
pub mod machine;
pub mod marks;
pub mod options;
mod rebasing;
pub mod running;
mod stepping;
mod viewing;
