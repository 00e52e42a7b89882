//! Sessions on an index of one caller, over readers and writers that move a few bytes a call, and that fail.

use crate::faulty::Faulty;
use mt_index::options::Options;
use mt_serve::fault::SessionFault;
use mt_serve::frames::Frames;
use mt_serve::session::{Summary, session};
use mt_shared::lone::Lone;
use mt_streams::sink::Sink;
use std::alloc::Global;
use std::test::Fail;

pub(crate) const OPTIONS: Options = Options {
    columns: 1,
    log_capacity: 4096,
    log_retention: 0,
    tidies: true,
};

/// How many bytes the first frame of `ASKED_TWICE` has.
pub(crate) const ONE_FRAME: usize = 19;

/// A put of 76 into column 0 of key 61, and a get of that key; and the same frame again.
pub(crate) const ASKED_TWICE: &[u8] =
    b"\0\0\0\x0f\x01\x02\x02\0\x01a\x01\0\x01v\x01\0\x01a\0\0\0\0\x0f\x01\x02\x02\0\x01a\x01\0\x01v\x01\0\x01a\0";

/// What an empty index answers: commit 1, and the row of version 1; then commit 2, and the row of version 2.
pub(crate) const ANSWERED_TWICE: &[u8] =
    b"\0\0\0\x37\x01\x02\x03\0\0\0\0\0\0\0\0\0\0\0\0\0\0\0\x01\0\0\0\0\0\0\0\x01\x02\0\0\0\0\0\0\0\x01\0\0\0\0\0\0\0\x01\0\0\0\0\0\0\0\x01\x01\x01v\
    \0\0\0\x37\x01\x02\x03\0\0\0\0\0\0\0\x01\0\0\0\0\0\0\0\x02\0\0\0\0\0\0\0\x02\x02\0\0\0\0\0\0\0\x02\0\0\0\0\0\0\0\x02\0\0\0\0\0\0\0\x02\x01\x01v";

// How many bytes of `ANSWERED_TWICE` are the answer to the first frame.
const ONE_ANSWER: usize = 59;

// In version 2, a put of 76 into column 0 of key 61 if it has no row, and the same if its row is of version 7.
const ASKED_IF: &[u8] =
    b"\0\0\0\x22\x02\x02\x09\0\x01a\0\0\0\0\0\0\0\0\x01\0\x01v\x09\0\x01a\0\0\0\0\0\0\0\x07\x01\0\x01v";

// What an empty index answers: commit 1, and that the row is of version 1.
const ANSWERED_IF: &[u8] =
    b"\0\0\0\x25\x02\x02\x03\0\0\0\0\0\0\0\0\0\0\0\0\0\0\0\x01\0\0\0\0\0\0\0\x01\0\x10\0\0\0\0\0\0\0\x01";

// A build of a view of all keys, a put of 05 into column 0 of key 61, a page of the view, its end, and a page again.
const VIEWED: &[u8] = b"\0\0\0\x43\x01\x05\x06\0\0\0\0\0\x02\0\x01a\x01\0\x01\x05\
    \x07\0\0\0\0\0\0\0\x01\0\0\0\0\0\0\0\x01\0\0\0\x0a\
    \x08\0\0\0\0\0\0\0\x01\
    \x07\0\0\0\0\0\0\0\x01\0\0\0\0\0\0\0\0\0\0\0\x0a";

// What an empty index answers: view 1, commit 1, the page, that the view is dropped, and that there is none.
const SHOWN: &[u8] = b"\0\0\0\x71\x01\x05\
    \x06\0\0\0\0\0\0\0\0\0\0\0\0\0\0\0\0\0\0\0\0\0\0\0\x01\
    \x03\0\0\0\0\0\0\0\0\0\0\0\0\0\0\0\x01\0\0\0\0\0\0\0\x01\
    \x07\0\0\0\0\0\0\0\x01\0\0\0\0\0\0\0\x01\x01\0\0\0\0\0\0\0\0\0\0\0\0\0\0\0\x05\0\x01\0\x01a\0\0\0\0\0\0\0\x01\x01\x01\x05\
    \x08\
    \0\x0b\0\0\0\0\0\0\0\0";

// In version 3, puts of 76 and 77 into keys 61 and 62; gets of 61 and 63; the last rows of all; counts of all, up to ten
// and to one more than a session counts.
const ASKED_OF_A_MOMENT: &[u8] = b"\0\0\0\x31\x03\x06\x02\0\x01a\x01\0\x01v\x02\0\x01b\x01\0\x01w\
    \x0d\0\x02\0\x01a\0\x01c\0\
    \x0e\0\0\x0a\0\
    \x0f\0\0\0\0\0\0\x0a\
    \x0f\0\0\0\0\x0f\x42\x41";

// What an empty index answers: commits 1 and 2; the row of 61, and none; both rows, 62 first; two; a refusal for the limit.
const ANSWERED_OF_A_MOMENT: &[u8] = b"\0\0\0\x9a\x03\x06\
    \x03\0\0\0\0\0\0\0\0\0\0\0\0\0\0\0\x01\0\0\0\0\0\0\0\x01\
    \x03\0\0\0\0\0\0\0\x01\0\0\0\0\0\0\0\x02\0\0\0\0\0\0\0\x02\
    \x0d\0\0\0\0\0\0\0\x02\0\x02\x01\0\0\0\0\0\0\0\x01\x01\x01v\0\
    \x04\0\0\0\0\0\0\0\x02\0\0\0\0\0\0\0\x02\0\x02\
    \0\x01b\0\0\0\0\0\0\0\x02\x01\x01w\0\x01a\0\0\0\0\0\0\0\x01\x01\x01v\
    \x0e\0\0\0\0\0\0\0\x02\0\0\0\0\0\0\0\x02\0\0\0\x02\
    \0\x05\0\0\0\0\0\0\0\0";

// Input, how many frames and queries it has, and what is written.
const EXCHANGES: [(&[u8], u64, u64, &[u8]); 5] = [
    (b"", 0, 0, b""),
    (ASKED_TWICE, 2, 4, ANSWERED_TWICE),
    (ASKED_IF, 1, 2, ANSWERED_IF),
    (VIEWED, 1, 5, SHOWN),
    (ASKED_OF_A_MOMENT, 1, 6, ANSWERED_OF_A_MOMENT),
];

// What the reader and the writer do: the most bytes of a call, and how many calls there are before one fails.
#[derive(Clone, Copy)]
struct Plan {
    gives: usize,
    reads: Option<u64>,
    takes: usize,
    writes: Option<u64>,
}

const WHOLE: Plan = Plan {
    gives: 16384,
    reads: None,
    takes: 16384,
    writes: None,
};

// Whether a session on an empty index ends so, and has written this.
fn ends_so(
    alloc: Global,
    input: &[u8],
    plan: Plan,
    ended: Result<Summary, SessionFault>,
    written: &[u8],
) -> Result<bool, Fail> {
    let (mut lone, mut pass) = Lone::start(alloc, OPTIONS)?;
    let mut frames = Frames::new(alloc, Faulty::new(input, plan.gives, plan.reads));
    let mut sink = Sink::new(Faulty::new(Vec::new(alloc), plan.takes, plan.writes));
    let end = session(alloc, &mut frames, &mut sink, &mut lone, &mut pass);
    Ok(end == ended && sink.writer().inner().as_slice() == written)
}

#[test]
fn worked_session(rt: HostRuntime) -> Result<(), Fail> {
    for bytes in 1..=ONE_FRAME {
        let plan = Plan {
            gives: bytes,
            takes: bytes,
            ..WHOLE
        };
        let ended = Ok(Summary {
            frames: 2,
            queries: 4,
        });
        let is_so = ends_so(rt.alloc(), ASKED_TWICE, plan, ended, ANSWERED_TWICE)?;
        assert!(rt; is_so, "{bytes} at a time");
    }
    Ok(())
}

#[test]
fn exchanges_of_sessions(rt: HostRuntime) -> Result<(), Fail> {
    for (input, frames, queries, written) in EXCHANGES {
        let ended = Ok(Summary { frames, queries });
        assert!(rt;
            ends_so(rt.alloc(), input, WHOLE, ended, written)?,
            "{input:?}"
        );
    }
    Ok(())
}

// Input, and the fault at which it ends; nothing is answered.
const FAULTS: [(&[u8], SessionFault); 4] = [
    (b"\0\0\0", SessionFault::Cut),
    (b"\0\0\0\x01", SessionFault::BadLength),
    (b"\0\0\0\x02\x04\x01", SessionFault::BadVersion),
    (b"\0\0\0\x02\x01\0", SessionFault::BadBody),
];

#[test]
fn faults_of_frames(rt: HostRuntime) -> Result<(), Fail> {
    for (input, fault) in FAULTS {
        assert!(rt;
            ends_so(rt.alloc(), input, WHOLE, Err(fault), b"")?,
            "{input:?}"
        );
    }
    Ok(())
}

// How many bytes of both frames come, what is done with them, the fault, and how many bytes of the answers are written:
// the input is cut before its last byte, the read after the first frame fails, the write after ten bytes fails.
const BETWEEN_FRAMES: [(usize, Plan, SessionFault, usize); 3] = [
    (2 * ONE_FRAME - 1, WHOLE, SessionFault::Cut, ONE_ANSWER),
    (
        2 * ONE_FRAME,
        Plan {
            gives: ONE_FRAME,
            reads: Some(1),
            takes: 16384,
            writes: None,
        },
        SessionFault::Read,
        ONE_ANSWER,
    ),
    (
        2 * ONE_FRAME,
        Plan {
            gives: 16384,
            reads: None,
            takes: 10,
            writes: Some(1),
        },
        SessionFault::Write,
        10,
    ),
];

#[test]
fn faults_between_frames(rt: HostRuntime) -> Result<(), Fail> {
    for (come, plan, fault, go) in BETWEEN_FRAMES {
        let (input, _) = ASKED_TWICE.split_at(come.min(ASKED_TWICE.len()));
        let (written, _) = ANSWERED_TWICE.split_at(go.min(ANSWERED_TWICE.len()));
        assert!(rt; ends_so(rt.alloc(), input, plan, Err(fault), written)?);
    }
    Ok(())
}
