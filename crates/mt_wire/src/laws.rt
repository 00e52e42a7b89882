//! Laws of the format, each of them the contract of a function that does nothing.

ghost use Rattle.mt_wire.specs.Laws.{QueriesReadOneWay, ResponsesReadOneWay, RequestFramesReadOneWay, ReplyFramesReadOneWay, FrameStandsAlone, BegunHasNoFault, FaultStays, LimitedRepliesFit};

/// No spelling of a query begins another, and no two queries have one spelling.
pub fn queries_are_read_one_way()
    ensures { QueriesReadOneWay }
{}

/// No spelling of an answer begins another, and no two answers have one spelling.
pub fn responses_are_read_one_way()
    ensures { ResponsesReadOneWay }
{}

/// No frame of requests begins another, and each holds one list of queries.
pub fn request_frames_are_read_one_way()
    ensures { RequestFramesReadOneWay }
{}

/// No frame of replies begins another, and each holds one list of answers.
pub fn reply_frames_are_read_one_way()
    ensures { ReplyFramesReadOneWay }
{}

/// If a frame of requests is at the front, none has only begun there, and no fault is there.
pub fn a_frame_stands_alone()
    ensures { FrameStandsAlone }
{}

/// If a frame has only begun, there is no fault.
pub fn a_begun_frame_has_no_fault()
    ensures { BegunHasNoFault }
{}

/// A fault stays, whatever bytes follow.
pub fn a_fault_stays()
    ensures { FaultStays }
{}

/// One answer to as many as a frame may hold, each within the limits of an index, are never too long for a frame: they
/// come to 132,817,666 bytes at most.
pub fn limited_replies_fit()
    ensures { LimitedRepliesFit }
{}
