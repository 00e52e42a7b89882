//! The turn of a connection: the frame at the front of its session is answered, in the role of its client.

ghost use Rattle.std.specs.Prelude.{◌≡◌, Option, IsSome};
ghost use Rattle.mt_wire.specs.declared.query.Query.{Query};
ghost use Rattle.mt_wire.specs.declared.frame.Frame.{Frame};
ghost use Rattle.mt_talk.specs.Serving.{alone};
ghost use Rattle.mt_talk.specs.Sessions.{IsRoleFor};
ghost use Rattle.mt_talk.specs.Turns.{HasFront};
ghost use Rattle.mt_loop.specs.Working.{Taken, Turns};

use crate::connection::{Connection, Front};
use mt_host::buffers::Buffers;
use mt_host::fault::ConnectionFault;
use mt_serve::answerer::Answerer;
use mt_shared::driving::Shared;
use mt_shared::pass::Pass;
use mt_talk::serving::Server;
use mt_wire::server::{Role, ServerQuery};

impl Connection {
    // In which role the frame at the front is answered: a hello decides it again.
    fn role_in(&self, server: &Server<Answerer>) -> Option<Role>
        ensures { (frame : Frame Query) → HasFront frame self.now.talk.bytes
            → IsRoleFor server.now.keeper.tokens.items self.now.role (alone frame.messages) result }
    {
        match self.server_query() {
            Some(ServerQuery::Hello { .. }) => server.keeper.first_role(),
            _ => self.role,
        }
    }

    // Answers the frame at the front. At a fault the session is broken off.
    fn take_turn<S: Shared>(
        &mut self,
        server: &mut Server<Answerer>,
        shared: &mut S,
        pass: &mut Pass,
    )
        ensures turns { (taken : Option Taken) × Turns S.does S.shows S.pages S.glances S.looks server.old.keeper.tokens.items
            (IsSome self.new.fault) self.old.talk self.old.role shared.old pass.old taken
            self.new.talk server.new.keeper.role shared.new pass.new }
    {
        server.keeper.role = self.role_in(server);
        match self.talk.turn(server, shared, pass) {
            Ok(_) => {}
            Err(fault) => self.fail(ConnectionFault::from(fault)),
        }
    }

    /// Answers the frame at the front. A client that was not admitted, and says no hello with a right secret, is refused,
    /// and its connection ends. Returns whether it was a hello with a wrong secret.
    pub fn answer<S: Shared>(
        &mut self,
        server: &mut Server<Answerer>,
        shared: &mut S,
        pass: &mut Pass,
        buffers: &Buffers,
    ) -> bool
        ensures turns { (taken : Option Taken) × Turns S.does S.shows S.pages S.glances S.looks server.old.keeper.tokens.items
            (IsSome self.new.fault) self.old.talk self.old.role shared.old pass.old taken
            self.new.talk self.new.role shared.new pass.new }
    {
        let is_hello = matches!(self.server_query(), Some(ServerQuery::Hello { .. }));
        self.has_changed = self.has_changed || self.changes && server.keeper.read_only.is_none();
        self.front = Front::Nothing;
        self.awaited = None;
        self.is_woken = false;
        self.began = None;
        self.budget = self.budget.saturating_sub(self.weight);
        self.take_turn(server, shared, pass);
        self.input = self.input.min(self.last_read);
        self.limit_output(buffers);
        self.role = server.keeper.role;
        if self.role.is_some() || self.fault.is_some() {
            return false;
        }
        self.fail(ConnectionFault::NoHello);
        is_hello
    }
}
