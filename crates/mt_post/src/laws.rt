//! The laws of postings that run alone. The function does nothing: its contract is the laws.

ghost use Rattle.mt_post.specs.Alone.{PostingsRunAlone, LonePostingsEnd};

/// States when a posting runs alone, and that it then ends: what is left of it, which the nodes and its own stage
/// determine, bounds its steps.
pub fn lone_postings_end()
    ensures alone { PostingsRunAlone }
    ensures ends { LonePostingsEnd }
{}
