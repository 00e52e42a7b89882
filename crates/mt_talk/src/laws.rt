//! Laws of sessions as bytes in and bytes out, and of servers. Their bodies do nothing.

ghost use Rattle.mt_talk.specs.Laws.{TalksAreStreams};
ghost use Rattle.mt_talk.specs.Frames.{ClosedIsBlind, FullGrowNothing, HinderedKeepRows, ReadersRead};
ghost use Rattle.mt_talk.specs.Sessions.{AloneIsAmong, FaultsEndTalks, SameBytesSameFrames, UnfinishedHasNoFront};
ghost use Rattle.mt_talk.specs.Clients.{ClosedClientsAreBlind, ClosedClientsAreOne, ClosedSessionsAreBlind, ReadingClientsRead, ReadingSessionsRead};

use crate::talk::Answers;

/// For any list of calls of a session, from its begin, and for any cuts of its input: the bytes that came are the
/// spelling of the frames that were answered, and then the bytes that are kept. The spelling of their answers, in order,
/// is the bytes that went, and then the bytes that are to go.
pub fn talks_are_streams()
    ensures { TalksAreStreams }
{}

/// Before a hello with a right secret, what is inside a server and what is shared stay as they are, and what is answered is
/// a function of the frame alone: each of its queries is refused.
pub fn closed_servers_are_blind<S, P, A: Answers<S, P>>()
    ensures { ClosedIsBlind A.answers }
{}

/// If a client may read, a frame reaches what is inside only if it has gets, ranges, reads of one moment and pages of
/// views alone.
pub fn readers_read<S, P, A: Answers<S, P>>()
    ensures { ReadersRead A.answers }
{}

/// While rows can't be changed, a frame reaches what is inside only if none of its queries changes a row.
pub fn hindered_servers_keep_rows<S, P, A: Answers<S, P>>()
    ensures { HinderedKeepRows A.answers }
{}

/// While the memory is full, a frame reaches what is inside only if none of its queries is a put or a build of a view.
pub fn full_servers_grow_nothing<S, P, A: Answers<S, P>>()
    ensures { FullGrowNothing A.answers }
{}

/// A session alone is one among others that do nothing.
pub fn sessions_alone_are_among_others<S, P, A: Answers<S, P>>()
    ensures { AloneIsAmong A.answers }
{}

/// If a frame has only begun, or a fault is at the front, no whole frame is there. If the same bytes came to two sessions,
/// and neither has a whole frame left, they have answered the same frames, and have the same bytes left.
pub fn same_bytes_are_the_same_frames()
    ensures unfinished { UnfinishedHasNoFront }
    ensures same { SameBytesSameFrames }
{}

/// A bad frame is followed by nothing: if a fault is at the front, no later call answers a frame, whatever bytes come. What
/// is to go goes, and the fault stays.
pub fn faults_end_talks()
    ensures { FaultsEndTalks }
{}

/// Until a hello with a right secret comes, a session alone leaves what is inside the server, what is shared and the pass as
/// they are. Among other sessions, what is inside answers none of its frames. What it sends is the refusal of each query of
/// the frames that were answered.
pub fn closed_sessions_are_blind<S, P, A: Answers<S, P>>()
    ensures alone { ClosedSessionsAreBlind A.answers }
    ensures among { ClosedClientsAreBlind A.answers }
{}

/// If the same bytes come to two sessions, to each before a hello with a secret that is right there, and all whole frames
/// are answered, the same bytes are sent, whatever is inside their servers and whatever others do.
pub fn closed_sessions_are_one<S, P, A: Answers<S, P>, T, Q, B: Answers<T, Q>>()
    ensures { ClosedClientsAreOne A.answers B.answers }
{}

/// In a whole session in which no hello grants another role than `read`, what is inside the server answers only frames of
/// gets, ranges, reads of one moment and pages of views alone.
pub fn reading_sessions_read<S, P, A: Answers<S, P>>()
    ensures alone { ReadingSessionsRead A.answers }
    ensures among { ReadingClientsRead A.answers }
{}
