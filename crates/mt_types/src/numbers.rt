//! The numbers by which nodes, calls, views and passes are named.

/// The number of a node of the tree.
#[derive(Clone, Copy, Debug, PartialEq, Eq, PartialOrd, Ord, Hash)]
pub struct NodeNo(pub u32);

/// The number of a call. Calls are numbered from 1, in the order in which they begin.
#[derive(Clone, Copy, Debug, PartialEq, Eq, PartialOrd, Ord, Hash)]
pub struct CallNo(pub u64);

/// The number of a view. Views are numbered from 1, in the order in which they are opened. In an `Apply`, 0 means the
/// view at the fewest commits.
#[derive(Clone, Copy, Debug, PartialEq, Eq, PartialOrd, Ord, Hash)]
pub struct ViewNo(pub u64);

/// The number of a pass. A pass is the token of one caller of a shared index.
#[derive(Clone, Copy, Debug, PartialEq, Eq, PartialOrd, Ord, Hash)]
pub struct PassNo(pub u16);
