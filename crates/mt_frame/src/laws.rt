//! Laws of the format, each of them the contract of a function that does nothing.

ghost use Rattle.mt_frame.specs.Laws.{FramesReadOneWay, FramesDoNotEnd, TornFramesEnd, EndsStay};

/// No frame begins another, and no two entries have one frame.
pub fn frames_are_read_one_way()
    ensures { FramesReadOneWay }
{}

/// If a frame is at the front, the log doesn't end there.
pub fn a_frame_does_not_end_a_log()
    ensures { FramesDoNotEnd }
{}

/// Of a frame that was written over zeros, of which a crash left each byte or the zero that was there, all is there, or
/// the log ends there.
pub fn a_torn_frame_ends_a_log()
    ensures { TornFramesEnd }
{}

/// If a log ends here, it still does after zeros were written over some of the bytes from here on.
pub fn an_end_stays()
    ensures { EndsStay }
{}
