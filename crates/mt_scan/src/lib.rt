//! Scans: a range of keys goes through the tree border by border, and takes the pairs that pass its cursor.
#![tactic(auto)]

mod cursor;
mod pair;
mod scan;

pub use scan::{Scan, ScanMove};
