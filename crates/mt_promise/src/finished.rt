//! What a legal history says of calls that have finished, as laws. Their bodies do nothing.

ghost use Rattle.mt_promise.specs.Finished.{FinishedCallsCarryTheirOwn, FinishedCallsHaveMade, CallsFinishOnce, ViewsAreBuiltOnce, CommitsAreNamedOnce};

/// In each legal history a finished call began once and ended once: two of one number are one. Its reply carries its
/// pass, its number, and how many commits there were when it began and when it ended. A put, or a remove that found its
/// key, has made its change as the commit that its reply names, after its begin and before its end. Two calls that name
/// one commit are one, and so are two builds that made one view.
pub fn finished_calls_are_their_own()
    ensures carries { FinishedCallsCarryTheirOwn }
    ensures made { FinishedCallsHaveMade }
    ensures once { CallsFinishOnce }
    ensures views { ViewsAreBuiltOnce }
    ensures commits { CommitsAreNamedOnce }
{}
