//! The run of a script on an index.

ghost use Rattle.std.specs.Prelude.{◌≡◌, ◌≢◌, ◌⊎◌, ◌+◌, ◌-◌, ◌^◌, ◌<◌, ◌≤◌, ℕ, List, true, [], ◌∷◌, ◌++◌, OnOk, IfOk, IfErr, IfSome, Err};
ghost use Rattle.std.specs.Io.KnownBytes.{Appends};
ghost use Rattle.mt_types.specs.Limits.{open_fault};
ghost use Rattle.mt_types.specs.declared.refusal.Refusal.{Refusal};
ghost use Rattle.mt_types.specs.declared.event.Event.TheVariants.{Step};
ghost use Rattle.mt_promise.specs.History.{History};
ghost use Rattle.mt_index.specs.Stands.{Stands};
ghost use Rattle.mt_script.specs.Commands.{command_of};
ghost use Rattle.mt_script.specs.Machine.{Leads, IsAsBefore, IsAt};
ghost use Rattle.mt_script.specs.Script.{goes_on, reply_lines, bad_lines, start_fault, Happens, Finishes, DoesAlone, Asks, Feeds, ReadsOnce, Answers, Played, Broke};
ghost use Rattle.mt_streams.specs.Sinks.{sink_writer, write_failed};
ghost use Rattle.mt_script.specs.Source.{source_rest, source_unread, read_failed};
ghost use Rattle.mt_script.specs.declared.fault.ScriptFault.TheVariants.{Read as ReadFault, Write as WriteFault, Start, NoMemory};

use crate::command::{Command, Reply};
use crate::commands::read_command;
use crate::fault::{LineError, ScriptFault};
use crate::replies::reply_text;
use crate::source::Source;
use mt_index::machine::Machine;
use mt_index::options::Options;
use mt_reads::quiet::{QuietRead, read_quiet};
use mt_streams::sink::Sink;
use mt_types::event::{Event, Outcome, Request};
use mt_types::items::Items;
use mt_types::numbers::CallNo;
use mt_types::refusal::Refusal;
use std::alloc::Global;
use std::io::{Read, Write};

// The most steps that a line `finish` makes.
const MAX_STEPS: usize = 1_000_000;

fn goes_on(outcome: &Outcome) -> bool
    ensures { result ≡ goes_on outcome.now }
{
    matches!(outcome, Outcome::Moved | Outcome::Commit(_))
}

// One step of a call.
fn step(machine: &mut Machine, alloc: Global, call: CallNo) -> Outcome
    ensures stands { Leads machine.old (λ past h. Happens past (Step call) result h) machine.new }
    ensures options { IsAsBefore machine.old machine.new }
{
    machine.event(alloc, &Event::Step(call))
}

// Steps of a call, until one is neither moved nor a commit.
fn finish(machine: &mut Machine, alloc: Global, call: CallNo) -> Outcome
    ensures stands { Leads machine.old (λ past h. Finishes past call result h) machine.new }
    ensures options { IsAsBefore machine.old machine.new }
{
    for _ in 1..MAX_STEPS {
        let outcome = step(machine, alloc, call);
        if !goes_on(&outcome) {
            return outcome;
        }
    }
    step(machine, alloc, call)
}

// One event.
fn ask(machine: &mut Machine, alloc: Global, event: &Event) -> Reply
    ensures stands { Leads machine.old (λ past h. Asks event.now past result h) machine.new }
    ensures options { IsAsBefore machine.old machine.new }
{
    Reply::Came(machine.event(alloc, event))
}

// A call by pass 0, if no other call is open.
fn alone(machine: &mut Machine, alloc: Global, request: Request) -> Reply
    ensures stands { Leads machine.old (λ past h. DoesAlone machine.old.columns request past result h) machine.new }
    ensures options { IsAsBefore machine.old machine.new }
{
    if machine.open_calls() > 0 {
        return Reply::Busy;
    }
    match machine.do_alone(alloc, request) {
        Ok(reply) => Reply::Came(Outcome::Done(reply)),
        Err(refusal) => Reply::Came(Outcome::Refused(refusal)),
    }
}

// The deltas of the commits after a number. No event happens.
fn feed(machine: &Machine, alloc: Global, from: u64, limit: u16) -> Reply
    ensures { (h : History) → IsAt machine.now h
        → Feeds machine.now.columns machine.now.log.retention from limit h result }
{
    match machine.feed(alloc, from, limit) {
        Ok(deltas) => Reply::Fed(Items::from_vec(deltas)),
        Err(refusal) => Reply::NotFed(refusal),
    }
}

// The answer to a read of one moment, if no call is open. No event happens.
fn read(machine: &Machine, alloc: Global, read: &QuietRead) -> Reply
    ensures { (h : History) → Stands machine.now h → ReadsOnce machine.now.columns read.now h result }
{
    if machine.open_calls() > 0 {
        return Reply::Busy;
    }
    match read_quiet(alloc, machine, read) {
        Ok(answer) => Reply::Read(answer),
        Err(refusal) => Reply::NotRead(refusal),
    }
}

// What a line is answered.
fn answer(machine: &mut Machine, alloc: Global, line: &[u8]) -> Result<Reply, ScriptFault>
    ensures stands { IfOk result (λ reply. Leads machine.old
        (λ past h. Answers machine.old.columns machine.old.log.retention (command_of line.now) past reply h) machine.new) }
    ensures options { IsAsBefore machine.old machine.new }
    ensures err { IfErr result (λ fault. (fault ≡ NoMemory) × (machine.new ≡ machine.old)) }
{
    match read_command(alloc, line) {
        Ok(Command::Once(event)) => Ok(ask(machine, alloc, &event)),
        Ok(Command::Finish(call)) => Ok(Reply::Came(finish(machine, alloc, call))),
        Ok(Command::Alone(request)) => Ok(alone(machine, alloc, request)),
        Ok(Command::Feed { from, limit }) => Ok(feed(machine, alloc, from, limit)),
        Ok(Command::Read(asked)) => Ok(read(machine, alloc, &asked)),
        Ok(Command::Len) => Ok(Reply::Len(machine.len() as u64)),
        Err(LineError::Bad) => Ok(Reply::Bad),
        Err(LineError::Memory) => Err(ScriptFault::NoMemory),
    }
}

// One more if the line was bad.
fn count(bad: u64, reply: &Reply) -> u64
    requires { bad < 2 ^ 64 - 1 }
    ensures value { result ≡ bad + bad_lines (reply.now ∷ []) }
    ensures within { result ≤ bad + 1 }
{
    match reply {
        Reply::Bad => bad + 1,
        _ => bad,
    }
}

// Writes the lines of a reply, or a front of them.
fn send<W: Write>(writer: &mut Sink<W>, alloc: Global, reply: &Reply) -> Result<(), ScriptFault>
    ensures sent { (sent : List ℕ) × (unsent : List ℕ) × (reply_lines reply.now ≡ sent ++ unsent)
        × Appends (W.contents (sink_writer writer.old)) (W.contents (sink_writer writer.new)) sent
        × OnOk result (unsent ≡ []) }
    ensures fault { IfErr result (λ fault. (fault ≡ WriteFault) ⊎ (fault ≡ NoMemory)) }
    ensures write { IfErr result (λ fault. fault ≡ WriteFault → write_failed writer.new ≡ true) }
{
    match reply_text(alloc, reply) {
        Ok(text) => writer.send(text.as_bytes()).map_err(|_| ScriptFault::Write),
        Err(_) => Err(ScriptFault::NoMemory),
    }
}

// Answers the lines of the source, on an empty index.
fn play<R: Read, W: Write>(
    machine: &mut Machine,
    alloc: Global,
    reader: &mut Source<R>,
    writer: &mut Sink<W>,
) -> Result<u64, ScriptFault>
    requires { IsAt machine.old [] }
    ensures ok { IfOk result (λ bad. Played machine.old.columns machine.old.log.retention
        (source_rest R.remaining reader.old)
        (W.contents (sink_writer writer.old)) bad (W.contents (sink_writer writer.new))) }
    ensures err { IfErr result (λ fault. Broke machine.old.columns machine.old.log.retention fault
        (source_rest R.remaining reader.old) (source_unread R.remaining reader.new)
        (W.contents (sink_writer writer.old)) (W.contents (sink_writer writer.new))) }
    ensures read { IfErr result (λ fault. fault ≡ ReadFault → read_failed reader.new ≡ true) }
    ensures write { IfErr result (λ fault. fault ≡ WriteFault → write_failed writer.new ≡ true) }
    ensures opened { IfErr result (λ fault. (refusal : Refusal) → fault ≢ Start refusal) }
{
    let mut bad: u64 = 0;
    while let Some(line) = reader.next_line(alloc)? {
        let reply = answer(machine, alloc, &line)?;
        bad = count(bad, &reply);
        send(writer, alloc, &reply)?;
    }
    Ok(bad)
}

// Why a script can't start: it is out of memory, or the options of the index break this limit.
fn start_fault(refusal: Refusal) -> ScriptFault
    ensures { result ≡ start_fault refusal }
{
    match refusal {
        Refusal::NoMemory => ScriptFault::NoMemory,
        limit => ScriptFault::Start(limit),
    }
}

/// Answers the lines of a script on an empty index, one after the other, and returns the number of bad lines.
///
/// A line is `begin PASS REQUEST`, `step CALL`, `finish CALL` or `alone REQUEST`, `apply VIEW`,
/// `view VIEW FLOOR START LIMIT` or `drop VIEW`, `advance`, `collect`, `len`, or `feed FROM LIMIT`, which is answered by a
/// line for each delta, or `gets KEYS COLS`, `back END LIMIT COLS` or `count START END MOST`, which are answered from the rows
/// of one moment. A line of other bytes is answered `bad line`. The modules `commands`, `reading` and `showing` say
/// what a line asks for and how an outcome is written. `finish` makes at most 1,000,000 steps.
///
/// Each reply is written in one piece. The writer isn't flushed. A line costs its event, its steps or its deltas,
/// and some allocations for its words and its reply.
///
/// # Errors
///
/// `Start` if the options break a limit, before anything is read. `Read` if a read of the source failed, or all its reads
/// were made: every whole line that was read is answered then, and its reply is written. `Write` if a write of the sink
/// failed or took nothing. `NoMemory` if out of memory for the empty index, for a line or for its reply. What was written
/// are the first bytes of the replies so far.
pub fn script<R: Read, W: Write>(
    alloc: Global,
    options: Options,
    reader: &mut Source<R>,
    writer: &mut Sink<W>,
) -> Result<u64, ScriptFault>
    ensures answered { IfOk result (λ bad. Played options.columns options.log_retention (source_rest R.remaining reader.old)
        (W.contents (sink_writer writer.old)) bad (W.contents (sink_writer writer.new))) }
    ensures broke { IfErr result (λ fault. Broke options.columns options.log_retention fault
        (source_rest R.remaining reader.old) (source_unread R.remaining reader.new)
        (W.contents (sink_writer writer.old)) (W.contents (sink_writer writer.new))) }
    ensures read { result ≡ Err ReadFault → read_failed reader.new ≡ true }
    ensures write { result ≡ Err WriteFault → write_failed writer.new ≡ true }
    ensures start { IfSome (open_fault options.columns options.log_capacity options.log_retention)
        (λ refusal. (result ≡ Err (Start refusal)) × (writer.new ≡ writer.old) × (reader.new ≡ reader.old)) }
    ensures opened { IfErr result (λ fault. (refusal : Refusal) → fault ≡ Start refusal
        → open_fault options.columns options.log_capacity options.log_retention ≡ Some refusal) }
{
    match Machine::open(alloc, options) {
        Ok(mut machine) => play(&mut machine, alloc, reader, writer),
        Err(refusal) => Err(start_fault(refusal)),
    }
}
