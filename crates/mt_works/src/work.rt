//! The kinds of calls.

ghost use Rattle.std.specs.Prelude.{◌≡◌, ◌↔◌, ◌≤◌, ℕ, length, IfOk, true, IsTrue as IsTrueBool};
ghost use Rattle.mt_types.specs.declared.limits.TheConstants.{MAX_KEY_BYTES};
ghost use Rattle.mt_types.specs.declared.event.Request.TheVariants.{Range as RangeRequest, Build as BuildRequest};
ghost use Rattle.mt_promise.specs.Legal.{reads_log, is_build};
ghost use Rattle.mt_steps.specs.Step.{StepLawIn};
ghost use Rattle.mt_steps.specs.Ranging.{range_request};
ghost use Rattle.mt_works.specs.Building.{building_request};
ghost use Rattle.mt_works.specs.Causes.{WorkWaits, WorkFails};
ghost use Rattle.mt_works.specs.Follows.{WorkFollows, WorkReads, WorkPosts};
ghost use Rattle.mt_works.specs.Works.{request_of, held, is_write, KeyFits, IsTrue, IsKey, IsNew, MayWork, IsBuiltWork, HasNext, WorkBuilds};

use crate::build::Build;
use crate::building::Building;
use bytes::Bytes;
use mt_commit::log::Log;
use mt_remove::tidy::Tidy;
use mt_scan::Scan;
use mt_steps::getting::Get;
use mt_steps::progress::Progress;
use mt_steps::ranging::Range;
use mt_steps::reader::Reader;
use mt_steps::way::{START, rest_of};
use mt_tree::{TOP, Tree};
use mt_types::copying::TryCopy;
use mt_types::event::Request;
use mt_types::key::Key;
use mt_types::refusal::NoMemory;
use mt_types::row::ColumnNumbers;
use mt_types::view::ViewSpec;
use mt_write::writing::{Edit, Stage, Write};
use std::alloc::Global;

/// What a call is at work on.
#[derive(Drop)]
pub enum Work {
    Get(Get),
    Write(Write),
    Range(Range),
    Tidy(Tidy),
    Build(Building),
}

impl Work {
    /// Returns whether it holds the log from the commits of its begin on, as a get, a range and a build do.
    pub fn reads_log(&self) -> bool
        ensures { result ≡ reads_log (request_of self.now) }
    {
        matches!(self, Work::Get(_) | Work::Range(_) | Work::Build(_))
    }

    /// Returns whether it is a build.
    pub fn is_build(&self) -> bool
        ensures { result ≡ is_build (request_of self.now) }
    {
        matches!(self, Work::Build(_))
    }

    /// Returns whether it is a build that has taken all that it was to take. Its view is then to be opened.
    pub fn is_built(&self) -> bool
        ensures { IsTrueBool result ↔ IsBuiltWork self.now }
    {
        match self {
            Work::Build(building) => building.is_built(),
            _ => false,
        }
    }

    /// Makes one step. `epoch` is the present epoch. A call visits one head or interior node, or reads one field of a
    /// border; a put or remove locks the border first. A build that has scanned its keys takes one delta. A tidy, and
    /// a put that splits a border or makes a layer, changes at most one node that others may read.
    pub fn step(
        &mut self,
        alloc: Global,
        columns: u8,
        epoch: u64,
        tree: &mut Tree,
        log: &mut Log,
    ) -> Progress
        requires may { MayWork epoch columns tree.old log.old self.old }
        requires next { HasNext log.old self.old }
        ensures request { request_of self.new ≡ request_of self.old }
        ensures steps { StepLawIn epoch columns tree.old tree.new log.old log.new (request_of self.old) (held self.old)
            result (held self.new) (IsTrue columns self.old) (IsTrue columns self.new) }
        ensures builds { WorkBuilds tree.old log.old self.old result self.new }
        ensures waits { WorkWaits tree.old self.old result }
        ensures fails { WorkFails tree.old log.old self.old result self.new }
        ensures gets_on { WorkFollows tree.old log.old self.old result self.new }
        ensures reads { WorkReads tree.old tree.new self.old }
        ensures posts { WorkPosts tree.old tree.new self.old result self.new }
    {
        match self {
            Work::Get(get) => get.step(alloc, tree),
            Work::Write(write) => {
                let _before = tree.free_numbers();
                let progress = write.step(alloc, columns, tree, log);
                let _after = tree.free_numbers();
                progress
            }
            Work::Range(range) => range.step(alloc, tree),
            Work::Tidy(tidy) => tidy.step(tree, epoch),
            Work::Build(building) => building.step(alloc, tree, log),
        }
    }
}

// Returns the key of these bytes.
fn key_of(bytes: Bytes) -> Key
    requires { length bytes ≤ MAX_KEY_BYTES }
    ensures value { result ≡ bytes }
    ensures key { IsKey result }
{
    let Ok(key) = Key::new(bytes) else {
        unreachable!()
    };
    let _key = rest_of(&key, 0);
    key
}

// A put or remove on its way.
fn new_write(key: Key, edit: Edit) -> Write
    requires { IsKey key }
    ensures key { result.key ≡ key }
    ensures edit { result.edit ≡ edit }
    ensures new { (C number : ℕ) → IsNew C number (Work.Write result) }
{
    Write {
        key,
        edit,
        way: START,
        head: TOP,
        stage: Stage::Seeks,
    }
}

// A range at its first key.
fn new_range(
    alloc: Global,
    start: Key,
    limit: u16,
    columns: ColumnNumbers,
) -> Result<Range, NoMemory>
    ensures request { IfOk result (λ range. range_request range ≡ RangeRequest start limit columns) }
    ensures new { IfOk result (λ range. (C number : ℕ) → IsNew C number (Work.Range range)) }
{
    let _key = rest_of(&start, 0);
    let scan = Scan::new(alloc, &start, limit, columns.copy(alloc)?)?;
    Ok(Range {
        start,
        limit,
        columns,
        scan,
        node: TOP,
        listing: Reader::Begins,
    })
}

// A build at the first key of its view, which opens at this number of commits.
fn new_building(
    alloc: Global,
    columns: u8,
    number: u64,
    spec: ViewSpec,
) -> Result<Building, NoMemory>
    ensures request { IfOk result (λ building. building_request building ≡ BuildRequest spec) }
    ensures new { IfOk result (λ building. IsNew columns number (Work.Build building)) }
{
    let Ok(build) = Build::new(alloc, columns, spec, number) else {
        return Err(NoMemory);
    };
    Ok(Building {
        build,
        node: TOP,
        upto: None,
        listing: Reader::Begins,
    })
}

/// Returns the work of a put or remove with this request, whose key is not too long. The request is moved into the work, and
/// nothing is allocated.
pub fn write_of(request: Request) -> Write
    requires write { is_write request ≡ true }
    requires fits { KeyFits request }
    ensures request { request_of (Work.Write result) ≡ request }
    ensures new { (C number : ℕ) → IsNew C number (Work.Write result) }
{
    match request {
        Request::Put { key, sets } => {
            let edit = Edit::Put { sets, only: None };
            new_write(key_of(key), edit)
        }
        Request::PutIf { key, sets, version } => {
            let edit = Edit::Put {
                sets,
                only: Some(version),
            };
            new_write(key_of(key), edit)
        }
        Request::Remove { key } => new_write(key_of(key), Edit::Remove),
        _ => unreachable!(),
    }
}

/// Returns the work of a call with this request, whose key is not too long, and which begins after `number` commits.
/// The request is moved into the work: for a get, put, remove or tidy nothing is allocated.
///
/// # Errors
///
/// `NoMemory` if an allocation is refused.
pub fn work_of(alloc: Global, columns: u8, number: u64, request: Request) -> Result<Work, NoMemory>
    requires { KeyFits request }
    ensures request { IfOk result (λ work. request_of work ≡ request) }
    ensures new { IfOk result (IsNew columns number) }
{
    match request {
        Request::Get { key, columns } => Ok(Work::Get(Get {
            key: key_of(key),
            columns,
            way: START,
            finding: Reader::Begins,
        })),
        Request::Range {
            start,
            limit,
            columns,
        } => Ok(Work::Range(new_range(alloc, key_of(start), limit, columns)?)),
        Request::Tidy { key } => Ok(Work::Tidy(Tidy::new(key_of(key)))),
        Request::Build { spec } => Ok(Work::Build(new_building(alloc, columns, number, spec)?)),
        write => Ok(Work::Write(write_of(write))),
    }
}
