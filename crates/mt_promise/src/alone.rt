//! What a call alone does, as laws: that of a plain map. Their bodies do nothing.

ghost use Rattle.mt_promise.specs.Alone.{LoneCallsArePlain, LoneRefusalsDoNothing};

/// In each legal history a call that began when no call was open, and since whose begin only its own steps happened,
/// has answered what a plain map of the rows at its begin answers, and has made the commit that this asks for, or none.
/// If it was refused, it has changed nothing.
pub fn calls_alone_are_plain()
    ensures answered { LoneCallsArePlain }
    ensures refused { LoneRefusalsDoNothing }
{}
