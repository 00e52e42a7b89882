//! What answers the frames of a server: its own answers, around what answers the queries of the index.

ghost use Rattle.std.specs.Prelude.{◌≡◌};

use crate::replying::append;
use crate::server::Keeper;
use crate::talk::Answers;
use mt_wire::frame::Frame;
use mt_wire::query::Query;
use std::alloc::{AllocError, Global};

/// What answers the frames of a server's sessions.
#[derive(Drop)]
pub struct Server<A> {
    /// What answers the queries of the index.
    pub inner: A,
    /// What the server answers without its index.
    pub keeper: Keeper,
    alloc: Global,
}

impl<A> Server<A> {
    /// Returns what answers by `inner` the frames that `keeper` leaves to it.
    pub fn new(alloc: Global, inner: A, keeper: Keeper) -> Server<A>
        ensures inner { result.inner ≡ inner }
        ensures keeper { result.keeper ≡ keeper }
    {
        Server {
            inner,
            keeper,
            alloc,
        }
    }
}

impl<S, P, A: Answers<S, P>> Answers<S, P> for Server<A> {
    ghost use Rattle.mt_talk.specs.Frames.{ServesFrame, StopsFrame};

    ghost answers = { λ a s p frame reply b t q. ServesFrame A.answers a s p frame reply b t q };

    ghost gives_up = { λ a s p frame t q. StopsFrame A.gives_up a s p frame t q };

    /// Answers a frame. A query of the server that is alone in it is answered by the server; so is each query of a frame
    /// that has one which the client may not ask: it is refused. Other frames are left to what is inside.
    fn answer(
        &mut self,
        shared: &mut S,
        pass: &mut P,
        frame: Frame<Query>,
        out: &mut Vec<u8>,
    ) -> Result<(), AllocError> {
        match self.keeper.keep(frame.messages.as_slice())? {
            None => self.inner.answer(shared, pass, frame, out),
            Some(responses) => append(self.alloc, out, frame.version, &responses),
        }
    }
}
