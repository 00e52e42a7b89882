//! The law of the turns of connections. Its body does nothing.

ghost use Rattle.mt_loop.specs.Working.{FramesAreOneChain};

use mt_shared::driving::Shared;

/// If memory doesn't run out, the frames of turns that are made one after the other, of whatever connections, are one chain:
/// the index answers those that the server leaves to it, in order, and the server answers the others.
pub fn frames_of_turns_are_one_chain<S: Shared>()
    ensures { FramesAreOneChain S.does S.shows S.pages S.glances S.looks }
{}
