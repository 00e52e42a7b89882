//! What an index is asked, event by event, and what it answers.

ghost use Rattle.std.specs.Prelude.{◌≡◌, IfOk, IsOk};
ghost use Rattle.mt_types.specs.Copies.{IsBareEvent, IsBareAnswer, IsBareOutcome};
ghost use Rattle.mt_types.specs.TidyNumbers.{tidy_number, tidy_of};

use crate::copying::TryCopy;
use crate::numbers::{CallNo, PassNo, ViewNo};
use crate::refusal::{NoMemory, Refusal};
use crate::row::{ColumnNumbers, Pairs, Row, Sets};
use crate::view::{Page, ViewSpec};
use bytes::Bytes;
use std::alloc::Global;

/// What a call asks for. Here keys and columns are bytes of any length: the begin of the call tests them.
#[derive(Debug, PartialEq, Eq, Drop)]
pub enum Request {
    /// The row of `key`, with the columns that are asked for, or with all if none is asked for.
    Get {
        key: Bytes,
        columns: ColumnNumbers,
    },
    /// New bytes for columns of the row of `key`. A put without sets commits too.
    Put {
        key: Bytes,
        sets: Sets,
    },
    /// A put that commits only if the row of `key` has this version, or, for version 0, if `key` has no row. Otherwise
    /// it is refused as `OtherVersion`.
    PutIf {
        key: Bytes,
        sets: Sets,
        version: u64,
    },
    /// Removes the row of `key`.
    Remove {
        key: Bytes,
    },
    /// The first rows whose keys are at or after `start`, at most `limit`, in the order of keys, each with the columns
    /// that are asked for, or with all if none is asked for.
    Range {
        start: Bytes,
        limit: u16,
        columns: ColumnNumbers,
    },
    /// One change that tidies the tree on the way to `key`.
    Tidy {
        key: Bytes,
    },
    /// A new view, which is kept from then on.
    Build {
        spec: ViewSpec,
    },
}

/// One event. A call advances by steps. A step reads at most one node, and at most one field of a border. After its
/// scan, a build takes one delta of the log in each step.
#[derive(Debug, PartialEq, Eq, Drop)]
pub enum Event {
    /// A pass begins a call.
    Begin(PassNo, Request),
    /// A call makes one step.
    Step(CallNo),
    /// A view is advanced by the next commit, if it is not at the last one. `ViewNo(0)` means the view at the fewest
    /// commits.
    Apply(ViewNo),
    /// Asks for a page of a view: the first rows whose keys are at or after `start`, at most `limit`. It is refused as
    /// `Behind` if the view is at fewer than `floor` commits.
    ViewRead {
        view: ViewNo,
        floor: u64,
        start: Bytes,
        limit: u16,
    },
    /// Ends a view.
    ViewDrop(ViewNo),
    /// Begins the next epoch.
    Advance,
    /// Frees the retired nodes that no open call can still hold.
    Collect,
}

/// What a tidy did (Masstree, EuroSys 2012, section 4.6.5).
#[derive(Clone, Copy, Debug, PartialEq, Eq)]
pub enum TidyRule {
    /// Nothing: there was nothing to do, or the call gave up.
    Nothing,
    /// It removed an empty border.
    EmptyBorder,
    /// It removed an interior below the root that had one child.
    LoneChild,
    /// It removed a root that had one child. The child is then the root.
    LoneRootChild,
    /// It removed an empty layer.
    EmptyLayer,
}

/// The answer of a call.
#[derive(Debug, PartialEq, Eq, Drop)]
pub enum Answer {
    /// The key has no row. The answer of a get, or of a remove that had nothing to remove.
    Absent,
    /// The row that a get found.
    Found(Row),
    /// The number of a put's commit.
    Stored(u64),
    /// The number of a remove's commit.
    Removed(u64),
    /// The rows of a range, with their keys, in the order of keys.
    Rows(Pairs),
    /// What a tidy did.
    Tidied(TidyRule),
    /// The number of the view that a build opened.
    Built(ViewNo),
}

/// How a call ended.
#[derive(Debug, PartialEq, Eq, Drop)]
pub struct Reply {
    /// The pass that began the call.
    pub pass: PassNo,
    /// The number of the call.
    pub call: CallNo,
    /// The number of commits when the call began.
    pub from: u64,
    /// The number of commits when the call ended.
    pub to: u64,
    /// What the call answers.
    pub answer: Answer,
}

/// What an event did.
#[derive(Debug, PartialEq, Eq, Drop)]
pub enum Outcome {
    /// A call has begun. This is its number.
    Call(CallNo),
    /// The call made a step.
    Moved,
    /// The call could not use the node that it visited, and continues with its next step.
    Again,
    /// The call has made the commit of this number.
    Commit(u64),
    /// The call has ended with this reply.
    Done(Reply),
    /// The view was advanced, and is now at this number of commits.
    Applied(u64),
    /// The view is at the last commit, or, for `ViewNo(0)`, each view is: nothing was applied.
    Current,
    /// What the view shows.
    View(Page),
    /// The view has ended.
    Dropped,
    /// The number of the epoch that has begun.
    Epoch(u64),
    /// This many nodes were freed.
    Freed(u32),
    /// The event was refused, or the call has ended refused.
    Refused(Refusal),
}

impl TidyRule {
    /// Returns the number of the rule, as frames and C callers get it.
    pub fn number(&self) -> u8
        ensures { result ≡ tidy_number self.now }
    {
        match self {
            TidyRule::Nothing => 0,
            TidyRule::EmptyBorder => 1,
            TidyRule::LoneChild => 2,
            TidyRule::LoneRootChild => 3,
            TidyRule::EmptyLayer => 4,
        }
    }

    /// Returns the rule of this number, or `None` if no rule has it.
    #[tactic(auto, unfolding(crate::specs::TidyNumbers::tidy_of))]
    pub fn of(number: u8) -> Option<TidyRule>
        ensures { result ≡ tidy_of number }
    {
        match number {
            0 => Some(TidyRule::Nothing),
            1 => Some(TidyRule::EmptyBorder),
            2 => Some(TidyRule::LoneChild),
            3 => Some(TidyRule::LoneRootChild),
            4 => Some(TidyRule::EmptyLayer),
            _ => None,
        }
    }
}

impl TryCopy for Request {
    /// Shares the bytes. O(n) in the columns that it names, with at most one allocation for them.
    fn copy(&self, alloc: Global) -> Result<Request, NoMemory> {
        match self {
            Request::Get { key, columns } => Ok(Request::Get {
                key: key.copy(alloc)?,
                columns: columns.copy(alloc)?,
            }),
            Request::Put { key, sets } => Ok(Request::Put {
                key: key.copy(alloc)?,
                sets: sets.copy(alloc)?,
            }),
            Request::PutIf { key, sets, version } => Ok(Request::PutIf {
                key: key.copy(alloc)?,
                sets: sets.copy(alloc)?,
                version: *version,
            }),
            Request::Remove { key } => Ok(Request::Remove {
                key: key.copy(alloc)?,
            }),
            Request::Range {
                start,
                limit,
                columns,
            } => Ok(Request::Range {
                start: start.copy(alloc)?,
                limit: *limit,
                columns: columns.copy(alloc)?,
            }),
            Request::Tidy { key } => Ok(Request::Tidy {
                key: key.copy(alloc)?,
            }),
            Request::Build { spec } => Ok(Request::Build {
                spec: spec.copy(alloc)?,
            }),
        }
    }
}

impl TryCopy for Event {
    /// Shares the bytes. Costs what a copy of its request costs. An event without bytes allocates nothing, and its copy
    /// cannot fail (`free`).
    fn copy(&self, alloc: Global) -> Result<Event, NoMemory>
        ensures value { IfOk result (λ made. made ≡ self.now) }
        ensures free { IsBareEvent self.now → IsOk result }
    {
        match self {
            Event::Begin(pass, request) => Ok(Event::Begin(*pass, request.copy(alloc)?)),
            Event::Step(call) => Ok(Event::Step(*call)),
            Event::Apply(view) => Ok(Event::Apply(*view)),
            Event::ViewRead {
                view,
                floor,
                start,
                limit,
            } => Ok(Event::ViewRead {
                view: *view,
                floor: *floor,
                start: start.copy(alloc)?,
                limit: *limit,
            }),
            Event::ViewDrop(view) => Ok(Event::ViewDrop(*view)),
            Event::Advance => Ok(Event::Advance),
            Event::Collect => Ok(Event::Collect),
        }
    }
}

impl TryCopy for Answer {
    /// Shares keys and rows. O(n) in the rows that it holds, with one allocation, for a list of rows. An answer without
    /// rows allocates nothing, and its copy cannot fail (`free`).
    fn copy(&self, alloc: Global) -> Result<Answer, NoMemory>
        ensures value { IfOk result (λ made. made ≡ self.now) }
        ensures free { IsBareAnswer self.now → IsOk result }
    {
        match self {
            Answer::Absent => Ok(Answer::Absent),
            Answer::Found(row) => Ok(Answer::Found(row.copy(alloc)?)),
            Answer::Stored(number) => Ok(Answer::Stored(*number)),
            Answer::Removed(number) => Ok(Answer::Removed(*number)),
            Answer::Rows(pairs) => Ok(Answer::Rows(pairs.copy(alloc)?)),
            Answer::Tidied(rule) => Ok(Answer::Tidied(*rule)),
            Answer::Built(view) => Ok(Answer::Built(*view)),
        }
    }
}

impl TryCopy for Reply {
    /// Costs what a copy of its answer costs.
    fn copy(&self, alloc: Global) -> Result<Reply, NoMemory>
        ensures value { IfOk result (λ made. made ≡ self.now) }
        ensures free { IsBareAnswer self.now.answer → IsOk result }
    {
        Ok(Reply {
            pass: self.pass,
            call: self.call,
            from: self.from,
            to: self.to,
            answer: self.answer.copy(alloc)?,
        })
    }
}

impl TryCopy for Outcome {
    /// Costs what a copy of its reply or page costs. An outcome without rows and pages allocates nothing, and its copy
    /// cannot fail (`free`).
    fn copy(&self, alloc: Global) -> Result<Outcome, NoMemory>
        ensures value { IfOk result (λ made. made ≡ self.now) }
        ensures free { IsBareOutcome self.now → IsOk result }
    {
        match self {
            Outcome::Call(call) => Ok(Outcome::Call(*call)),
            Outcome::Moved => Ok(Outcome::Moved),
            Outcome::Again => Ok(Outcome::Again),
            Outcome::Commit(number) => Ok(Outcome::Commit(*number)),
            Outcome::Done(reply) => Ok(Outcome::Done(reply.copy(alloc)?)),
            Outcome::Applied(number) => Ok(Outcome::Applied(*number)),
            Outcome::Current => Ok(Outcome::Current),
            Outcome::View(page) => Ok(Outcome::View(page.copy(alloc)?)),
            Outcome::Dropped => Ok(Outcome::Dropped),
            Outcome::Epoch(number) => Ok(Outcome::Epoch(*number)),
            Outcome::Freed(count) => Ok(Outcome::Freed(*count)),
            Outcome::Refused(refusal) => Ok(Outcome::Refused(*refusal)),
        }
    }
}
