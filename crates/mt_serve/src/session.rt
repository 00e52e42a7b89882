//! A session: frames of queries are answered, one after the other, until the input ends.

ghost use Rattle.std.specs.Prelude.{◌≡◌, ◌≤◌, IfOk, IfErr, true};
ghost use Rattle.mt_streams.specs.Sinks.{sink_writer, write_failed};
ghost use Rattle.mt_serve.specs.declared.fault.SessionFault.TheVariants.{Read as ReadFault, Write as WriteFault};
ghost use Rattle.mt_serve.specs.declared.frames.TheConstants.{MOST_FRAMES};
ghost use Rattle.mt_serve.specs.Sources.{frames_rest, frames_unread, frames_left, read_failed};
ghost use Rattle.mt_serve.specs.Sessions.{IsServed, IsBroken};

use crate::answerer::{Answerer, Keeping};
use crate::fault::SessionFault;
use crate::frames::Frames;
use mt_shared::driving::Shared;
use mt_shared::pass::Pass;
use mt_streams::sink::Sink;
use std::alloc::Global;
use std::io::{Read, Write};

/// How much a session has answered.
#[derive(Clone, Copy, Debug, PartialEq, Eq)]
pub struct Summary {
    /// The number of frames of queries.
    pub frames: u64,
    /// The number of queries in these frames.
    pub queries: u64,
}

/// Answers the frames of queries in the bytes of a reader, each by one frame of answers in its version, until the input
/// ends. A frame is read whole before any of its queries is done. Then its queries are done in order, each by `answer`,
/// and its answers are written in one piece.
///
/// Over a `HoldingDoor` gets that follow one another in a frame are read in one holding of the lock. Puts, conditional
/// puts and removes that follow one another are made in one, with the gets between and after them. No lock is held while
/// frames are read or written.
///
/// Costs what the calls and events of the queries cost, and O(n) in the bytes of the frames. A frame takes the memory
/// of its bytes, its queries and its answers. The memory of a frame of answers is used again for the next.
///
/// # Errors
///
/// What was done for queries before the fault stays done. `Read` if a read failed, or all reads were made: every whole
/// frame that was read is answered then. `Write` if a write failed or took nothing; `Cut` if the input ends inside a
/// frame; `BadLength`, `BadVersion`, `BadBody` if the next bytes are no frame: nothing of it is done. `NoMemory` if out
/// of memory.
pub fn session<R: Read, W: Write, S: Shared>(
    alloc: Global,
    reader: &mut Frames<R>,
    writer: &mut Sink<W>,
    shared: &mut S,
    pass: &mut Pass,
) -> Result<Summary, SessionFault>
    requires { frames_left reader.old ≤ MOST_FRAMES }
    ensures served { IfOk result (λ summary. IsServed S.does S.shows S.pages S.glances S.looks shared.old pass.old (frames_rest R.remaining reader.old)
        (W.contents (sink_writer writer.old)) summary (W.contents (sink_writer writer.new)) shared.new pass.new) }
    ensures broken { IfErr result (λ fault. IsBroken S.does S.shows S.pages S.glances S.looks shared.old pass.old (frames_rest R.remaining reader.old)
        (W.contents (sink_writer writer.old)) fault (frames_unread R.remaining reader.new)
        (W.contents (sink_writer writer.new)) shared.new pass.new) }
    ensures read { IfErr result (λ fault. fault ≡ ReadFault → read_failed reader.new ≡ true) }
    ensures write { IfErr result (λ fault. fault ≡ WriteFault → write_failed writer.new ≡ true) }
{
    let mut summary = Summary {
        frames: 0,
        queries: 0,
    };
    reader.forget();
    let mut answerer = Answerer::new(alloc, Keeping::Frame);
    while reader.answer_next(&mut answerer, shared, pass)? {
        reader.send(writer)?;
        summary.frames += 1;
        summary.queries += answerer.count;
    }
    Ok(summary)
}
