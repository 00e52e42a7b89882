//! What answers the frames of sessions: a pass, with what it shares.

ghost use Rattle.std.specs.Prelude.{◌≡◌, ◌++◌, List, IfOk, IfErr, OnOk, OnErr};
ghost use Rattle.std.specs.List.{AllByRecursion};
ghost use Rattle.mt_wire.specs.declared.query.Query.{Query};
ghost use Rattle.mt_wire.specs.declared.response.Response.{Response};
ghost use Rattle.mt_wire.specs.Spelling.{framed};
ghost use Rattle.mt_wire.specs.Limited.{ResponseIsLimited};
ghost use Rattle.mt_wire.specs.Frames.{Holds, reply_frame};
ghost use Rattle.mt_serve.specs.Asking.{AnswersAll};

use crate::asking::answer;
use mt_shared::driving::{Hold, Shared};
use mt_shared::pass::Pass;
use mt_talk::replying::append;
use mt_talk::talk::Answers;
use mt_types::event::Request;
use mt_wire::frame::Frame;
use mt_wire::query::Query;
use mt_wire::response::Response;
use std::alloc::{AllocError, Global};

/// What a lock is kept for while the queries of a frame are done.
#[derive(Clone, Copy, Debug, PartialEq, Eq)]
pub enum Keeping {
    /// For gets that follow one another, and for changes that do. After the frame it isn't held.
    Frame,
    /// For gets and ranges, also after the frame: for a list of frames that have nothing else.
    Reads,
    /// As for `Frame`, but it may stay held after the frame: for a list of frames.
    Changes,
}

/// What answers the frames of sessions, each query by `answer`: those of any number of sessions, in the order in which it
/// is asked.
#[derive(Clone, Copy, Debug)]
pub struct Answerer {
    alloc: Global,
    /// What the lock is kept for.
    pub keeping: Keeping,
    /// The number of queries of the last frame.
    pub count: u64,
}

impl Answerer {
    /// Returns an answerer that has answered nothing.
    pub fn new(alloc: Global, keeping: Keeping) -> Answerer
        ensures keeping { result.keeping ≡ keeping }
        ensures count { result.count ≡ 0 }
    {
        Answerer {
            alloc,
            keeping,
            count: 0,
        }
    }
}

// Returns for what a lock may be kept while this query is done. Gets and changes of rows are short; the others aren't.
fn hold_for(keeping: Keeping, query: &Query) -> Hold {
    match query {
        Query::Call(Request::Get { .. }) => Hold::Reads,
        Query::Call(Request::Put { .. } | Request::PutIf { .. } | Request::Remove { .. }) => {
            Hold::Changes
        }
        Query::Call(Request::Range { .. }) if keeping == Keeping::Reads => Hold::Reads,
        _ => Hold::Nothing,
    }
}

// After a frame: releases the lock, unless it is kept for a list of frames.
fn release<S: Shared>(keeping: Keeping, shared: &mut S)
    ensures { shared.new ≡ shared.old }
{
    if keeping == Keeping::Frame {
        shared.hold(Hold::Nothing);
    }
}

// Answers queries, one after the other. If there is no memory for an answer, its query and those before it are done. A
// lock may stay held.
fn answer_each<S: Shared>(
    alloc: Global,
    shared: &mut S,
    pass: &mut Pass,
    keeping: Keeping,
    queries: Vec<Query>,
) -> Result<Vec<Response>, AllocError>
    ensures all { IfOk result (λ responses. AnswersAll S.does S.shows S.pages S.glances S.looks shared.old pass.old queries.items responses.items shared.new
        pass.new) }
    ensures limited { IfOk result (λ responses. AllByRecursion ResponseIsLimited responses.items) }
    ensures part { OnErr result ((done : List Query) × (undone : List Query) × (responses : List Response)
        × (queries.items ≡ done ++ undone)
        × AnswersAll S.does S.shows S.pages S.glances S.looks shared.old pass.old done responses shared.new pass.new) }
{
    let mut responses = Vec::new(alloc);
    for query in queries {
        shared.hold(hold_for(keeping, &query));
        responses.push(answer(alloc, shared, pass, query))?;
    }
    Ok(responses)
}

impl<S: Shared> Answers<S, Pass> for Answerer {
    ghost use Rattle.std.specs.Prelude.{◌≡◌, ◌++◌, List, length};
    ghost use Rattle.mt_wire.specs.declared.query.Query.{Query};
    ghost use Rattle.mt_wire.specs.declared.response.Response.{Response};
    ghost use Rattle.mt_serve.specs.Asking.{AnswersAll, AnswersFrame};

    // each of its queries, one after the other, by one answer
    ghost answers = { λ a s p frame reply b t q. AnswersFrame S.does S.shows S.pages S.glances S.looks s p frame reply t q
        × (b.count ≡ length frame.messages) };

    // a front of its queries was done
    ghost gives_up = { λ _ s p frame t q. (done : List Query) × (undone : List Query) × (responses : List Response)
        × (frame.messages ≡ done ++ undone)
        × AnswersAll S.does S.shows S.pages S.glances S.looks s p done responses t q };

    /// Answers each query of a frame, one after the other. `keeping` says whether a lock stays held.
    fn answer(
        &mut self,
        shared: &mut S,
        pass: &mut Pass,
        frame: Frame<Query>,
        out: &mut Vec<u8>,
    ) -> Result<(), AllocError> {
        let Frame { version, messages } = frame;
        self.count = messages.as_slice().len() as u64;
        let answered = answer_each(self.alloc, shared, pass, self.keeping, messages.into_vec());
        release(self.keeping, shared);
        let Ok(responses) = answered else {
            return Err(AllocError);
        };
        let Ok(()) = append(self.alloc, out, version, &responses) else {
            return Err(AllocError);
        };
        Ok(())
    }
}
