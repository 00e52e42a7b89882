//! What a caller of an index asks for in borrowed bytes: its limits are tested first, and then the bytes are copied.
#![tactic(auto)]

pub mod asked;
pub mod borrowed;
pub mod bounds;
pub mod limits;
