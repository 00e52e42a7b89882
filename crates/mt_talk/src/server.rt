//! What a server answers without its index: its own queries, and refusals of what a client may not ask.

ghost use Rattle.std.specs.Prelude.{◌≡◌, ◌≤◌, ◌<◌, ◌∷◌, [], None, Some, false, length, IfOk, IfSome, OnErr};
ghost use Rattle.std.specs.List.{list_any};
ghost use Rattle.std.specs.Option.{option_map, option_copied};
ghost use Rattle.mt_types.specs.declared.limits.TheConstants.{MAX_QUERIES};
ghost use Rattle.mt_wire.specs.Limited.{ResponseIsLimited};
ghost use Rattle.mt_wire.specs.declared.server.ServerRefusal.TheVariants.{NotAllowed};
ghost use Rattle.mt_wire.specs.Frames.{Holds};
ghost use Rattle.mt_wire.specs.declared.response.Response.TheVariants.{Server as Served};
ghost use Rattle.mt_wire.specs.declared.server.ServerResponse.TheVariants.{Refused as OfServer};
ghost use Rattle.sha2.specs.Sha256.{sha256};
ghost use Rattle.mt_talk.specs.Tokens.{first_role};
ghost use Rattle.mt_talk.specs.Serving.{reads, writes, may, may_all, changes_row, changes_rows, hindered, leaves, refusals, common_version, greeting, waited, alone, IsTold, Greets, Allows, Within, Keeps};

use crate::facts::Facts;
use crate::growing::refuse_growth;
use crate::tokens::{Token, admit};
use mt_types::event::Request;
use mt_types::items::Items;
use mt_types::refusal::Refusal;
use mt_wire::query::Query;
use mt_wire::response::Response;
use mt_wire::server::{Awaited, Role, ServerQuery, ServerRefusal, ServerResponse};
use mt_wire::version::WireVersion;
use std::alloc::{AllocError, Global};

/// What a server keeps for its own answers.
#[derive(Drop)]
pub struct Keeper {
    /// What the client of the session that is served may do, if it was admitted.
    pub role: Option<Role>,
    /// Whether a client has asked that the server ends, and then whether at once.
    pub stop: Option<bool>,
    /// Why rows can't be changed now, if they can't.
    pub read_only: Option<ServerRefusal>,
    /// Whether the memory is full, so that nothing may grow.
    pub is_memory_full: bool,
    /// What is answered of the server.
    pub facts: Facts,
    tokens: Vec<Token>,
    alloc: Global,
}

// Gets, ranges, reads of one moment, pages of views, and what the server counts, lists and waits for.
fn reads(query: &Query) -> bool
    ensures { result ≡ reads query.now }
{
    matches!(
        query,
        Query::Call(Request::Get { .. } | Request::Range { .. })
            | Query::ViewRead { .. }
            | Query::Read(_)
            | Query::Server(
                ServerQuery::Ping(_)
                    | ServerQuery::Info
                    | ServerQuery::Views
                    | ServerQuery::Wait { .. }
            )
    )
}

// All but the end of the server.
fn writes(query: &Query) -> bool
    ensures { result ≡ writes query.now }
{
    !matches!(query, Query::Server(ServerQuery::Stop { .. }))
}

fn may(role: Role, query: &Query) -> bool
    ensures { result ≡ may role query.now }
{
    match role {
        Role::Read => reads(query),
        Role::Write => writes(query),
        Role::All => true,
    }
}

fn may_all(role: Role, queries: &[Query]) -> bool
    ensures { result ≡ may_all role queries.now }
{
    for query in queries {
        if !may(role, query) {
            return false;
        }
    }
    true
}

// The query of the server that is alone in its frame.
fn alone(queries: &[Query]) -> Option<&ServerQuery>
    ensures { option_copied result ≡ alone queries.now }
{
    match queries {
        [Query::Server(query)] => Some(query),
        _ => None,
    }
}

// Puts and removes.
fn changes_row(query: &Query) -> bool
    ensures { result ≡ changes_row query.now }
{
    matches!(
        query,
        Query::Call(Request::Put { .. } | Request::PutIf { .. } | Request::Remove { .. })
    )
}

/// Returns whether one of these queries is a put or a remove.
pub fn changes_rows(queries: &[Query]) -> bool
    ensures { result ≡ changes_rows queries.now }
{
    for query in queries {
        if changes_row(query) {
            return true;
        }
    }
    false
}

// Why these queries are refused while rows can't be changed.
fn hindered(read_only: Option<ServerRefusal>, queries: &[Query]) -> Option<ServerRefusal>
    ensures { result ≡ hindered read_only queries.now }
{
    match read_only {
        Some(refusal) if changes_rows(queries) => Some(refusal),
        _ => None,
    }
}

// Each of these queries is refused so.
fn refuse_all(
    alloc: Global,
    refusal: ServerRefusal,
    queries: &[Query],
) -> Result<Vec<Response>, AllocError>
    requires some { 0 < length queries.now }
    requires few { length queries.now ≤ MAX_QUERIES }
    ensures value { IfOk result (λ responses. responses.items ≡ refusals refusal queries.now) }
    ensures holds { IfOk result (λ responses. Holds ResponseIsLimited responses.items) }
{
    let mut responses = Vec::new(alloc);
    for _query in queries {
        responses.push(refused(refusal))?;
    }
    Ok(responses)
}

// The version up to which both know the wire.
fn common_version(newest: u8) -> u8
    ensures { result ≡ common_version newest }
{
    newest.min(WireVersion::Three.byte())
}

fn greeting(facts: &Facts, newest: u8, role: Role) -> Response
    ensures value { result ≡ greeting facts.now newest role }
    ensures limited { ResponseIsLimited result }
{
    Response::Server(ServerResponse::Hello {
        version: common_version(newest),
        role,
        columns: facts.columns,
        run: facts.run,
        commits: facts.commits,
        logged: facts.logged,
    })
}

fn refused(refusal: ServerRefusal) -> Response
    ensures value { result ≡ Served (OfServer refusal) }
    ensures limited { ResponseIsLimited result }
{
    Response::Server(ServerResponse::Refused(refusal))
}

// The end of a wait.
fn waited(facts: &Facts, of: Awaited, number: u64) -> Response
    ensures value { result ≡ waited facts.now of number }
    ensures limited { ResponseIsLimited result }
{
    let commits = facts.commits;
    let (at, view) = match of {
        Awaited::Commits => (commits, 0),
        Awaited::View(_) => match facts.watched {
            Some(at) => (at, at),
            None => return Response::Refused(Refusal::NoSuchView),
        },
        Awaited::Durable => match facts.durable {
            Some(at) => (at, at),
            None => return refused(ServerRefusal::InMemory),
        },
    };
    Response::Server(ServerResponse::Waited {
        is_reached: number <= at,
        commits,
        view,
    })
}

impl Keeper {
    /// Returns what a server with these secrets keeps, before a client was admitted.
    pub fn new(alloc: Global, tokens: Vec<Token>) -> Keeper
        ensures role { result.role ≡ None }
        ensures stop { result.stop ≡ None }
        ensures read_only { result.read_only ≡ None }
        ensures memory { result.is_memory_full ≡ false }
        ensures tokens { result.tokens ≡ tokens }
    {
        Keeper {
            role: None,
            stop: None,
            read_only: None,
            is_memory_full: false,
            facts: Facts::default(),
            tokens,
            alloc,
        }
    }

    /// Returns the role of a client that has said no hello: each role if the server has no secrets, else none.
    pub fn first_role(&self) -> Option<Role>
        ensures { result ≡ first_role self.now.tokens.items }
    {
        if self.tokens.is_empty() {
            Some(Role::All)
        } else {
            None
        }
    }

    // Refuses each of these queries.
    fn turn_away(&self, queries: &[Query]) -> Result<Option<Vec<Response>>, AllocError>
        requires some { 0 < length queries.now }
        requires few { length queries.now ≤ MAX_QUERIES }
        ensures value { IfOk result (λ answered. option_map (λ responses. responses.items) answered ≡ Some (refusals NotAllowed queries.now)) }
        ensures holds { IfOk result (λ answered. IfSome answered (λ responses. Holds ResponseIsLimited responses.items)) }
    {
        Ok(Some(refuse_all(self.alloc, ServerRefusal::NotAllowed, queries)?))
    }

    // Leaves these queries to what is inside, unless one changes a row and rows can't be changed now, or one grows and the
    // memory is full: then each is refused.
    fn leave(&self, queries: &[Query]) -> Result<Option<Vec<Response>>, AllocError>
        requires some { 0 < length queries.now }
        requires few { length queries.now ≤ MAX_QUERIES }
        ensures value { IfOk result (λ answered. option_map (λ responses. responses.items) answered
            ≡ leaves (hindered self.now.read_only queries.now) self.now.is_memory_full queries.now) }
        ensures holds { IfOk result (λ answered. IfSome answered (λ responses. Holds ResponseIsLimited responses.items)) }
    {
        match hindered(self.read_only, queries) {
            Some(refusal) => Ok(Some(refuse_all(self.alloc, refusal, queries)?)),
            None => refuse_growth(self.alloc, self.is_memory_full, queries),
        }
    }

    // One answer.
    fn tell(&self, response: Response) -> Result<Option<Vec<Response>>, AllocError>
        requires { ResponseIsLimited response }
        ensures value { IfOk result (λ answered. option_map (λ responses. responses.items) answered ≡ Some (response ∷ [])) }
        ensures holds { IfOk result (λ answered. IfSome answered (λ responses. Holds ResponseIsLimited responses.items)) }
    {
        Ok(Some(vec![in self.alloc; response]?))
    }

    // Answers a hello: its secret grants a role, or it is refused.
    fn greet(
        &mut self,
        queries: &[Query],
        newest: u8,
        secret: &[u8],
    ) -> Result<Option<Vec<Response>>, AllocError>
        requires some { 0 < length queries.now }
        requires few { length queries.now ≤ MAX_QUERIES }
        ensures value { IfOk result (λ answered. Greets self.old queries.now newest secret.now
            (option_map (λ responses. responses.items) answered) self.new) }
        ensures holds { IfOk result (λ answered. IfSome answered (λ responses. Holds ResponseIsLimited responses.items)) }
        ensures err { OnErr result (self.new ≡ self.old) }
    {
        let Some(role) = admit(&self.tokens, secret) else {
            return self.turn_away(queries);
        };
        let answered = self.tell(greeting(&self.facts, newest, role))?;
        self.role = Some(role);
        Ok(answered)
    }

    // The views, if they were read.
    fn list(&self) -> Result<Response, AllocError>
        ensures value { IfOk result (λ response. IsTold self.now.facts ServerQuery.Views response) }
        ensures limited { IfOk result ResponseIsLimited }
    {
        let commits = self.facts.commits;
        let Some(listing) = &self.facts.views else {
            return Err(AllocError);
        };
        let Ok(views) = listing.views(self.alloc) else {
            return Err(AllocError);
        };
        Ok(Response::Server(ServerResponse::Views { commits, views }))
    }

    // The answer to a query of the server that is no hello.
    fn response(&self, query: &ServerQuery) -> Result<Response, AllocError>
        ensures value { IfOk result (λ response. IsTold self.now.facts query.now response) }
        ensures limited { IfOk result ResponseIsLimited }
    {
        let commits = self.facts.commits;
        let response = match query {
            ServerQuery::Ping(number) => {
                let number = *number;
                ServerResponse::Ping { number, commits }
            }
            ServerQuery::Info => {
                ServerResponse::Info(Items::from_vec(self.facts.counts(self.alloc)?))
            }
            ServerQuery::Views => return self.list(),
            ServerQuery::Wait { of, number, .. } => return Ok(waited(&self.facts, *of, *number)),
            ServerQuery::Stop { .. } => ServerResponse::Stopped { commits },
            ServerQuery::Hello { .. } => ServerResponse::Refused(ServerRefusal::NotAllowed),
        };
        Ok(Response::Server(response))
    }

    // Answers queries that the client may ask: one of the server. Others are left to what is inside.
    fn allow(
        &mut self,
        queries: &[Query],
        query: Option<&ServerQuery>,
    ) -> Result<Option<Vec<Response>>, AllocError>
        requires some { 0 < length queries.now }
        requires few { length queries.now ≤ MAX_QUERIES }
        ensures value { IfOk result (λ answered. Allows self.old queries.now (option_copied query.entry)
            (option_map (λ responses. responses.items) answered) self.new) }
        ensures holds { IfOk result (λ answered. IfSome answered (λ responses. Holds ResponseIsLimited responses.items)) }
        ensures err { OnErr result (self.new ≡ self.old) }
    {
        let Some(query) = query else {
            return self.leave(queries);
        };
        let answered = self.tell(self.response(query)?)?;
        if let ServerQuery::Stop { is_at_once } = query {
            self.stop = Some(*is_at_once);
        }
        Ok(answered)
    }

    // Answers queries that are no hello, if the client may ask them.
    fn within(
        &mut self,
        queries: &[Query],
        query: Option<&ServerQuery>,
    ) -> Result<Option<Vec<Response>>, AllocError>
        requires some { 0 < length queries.now }
        requires few { length queries.now ≤ MAX_QUERIES }
        ensures value { IfOk result (λ answered. Within self.old queries.now (option_copied query.entry)
            (option_map (λ responses. responses.items) answered) self.new) }
        ensures holds { IfOk result (λ answered. IfSome answered (λ responses. Holds ResponseIsLimited responses.items)) }
        ensures err { OnErr result (self.new ≡ self.old) }
    {
        let Some(role) = self.role else {
            return self.turn_away(queries);
        };
        if may_all(role, queries) {
            self.allow(queries, query)
        } else {
            self.turn_away(queries)
        }
    }

    /// Returns the answers to the queries of a frame that the server answers itself: to its own queries, and refusals of
    /// queries that the client may not ask. Returns `None` for queries that are left to what is inside.
    ///
    /// # Errors
    ///
    /// If out of memory: then nothing changed.
    pub fn keep(&mut self, queries: &[Query]) -> Result<Option<Vec<Response>>, AllocError>
        requires some { 0 < length queries.now }
        requires few { length queries.now ≤ MAX_QUERIES }
        ensures value { IfOk result (λ answered. Keeps self.old queries.now
            (option_map (λ responses. responses.items) answered) self.new) }
        ensures holds { IfOk result (λ answered. IfSome answered (λ responses. Holds ResponseIsLimited responses.items)) }
        ensures err { OnErr result (self.new ≡ self.old) }
    {
        match alone(queries) {
            Some(ServerQuery::Hello { newest, secret, .. }) => self.greet(queries, *newest, secret),
            query => self.within(queries, query),
        }
    }
}
