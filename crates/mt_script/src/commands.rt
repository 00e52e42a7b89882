//! What a line of a script says.

ghost use Rattle.std.specs.Prelude.{◌≡◌};
ghost use Rattle.mt_script.specs.Words.{Gives};
ghost use Rattle.mt_script.specs.Commands.{begin_of, step_of, finish_of, alone_of, apply_of, view_read_of, view_drop_of, feed_of, view_command_of, long_command_of, command_of};

use crate::command::Command;
use crate::fault::LineError;
use crate::reading::read_request;
use crate::reads::read_quiet_of;
use crate::words::{bytes_from, cut, number};
use mt_types::event::Event;
use mt_types::numbers::{CallNo, PassNo, ViewNo};
use std::alloc::Global;

#[tactic(auto, unfolding(crate::specs::Commands::begin_of))]
fn begin(alloc: Global, text: &[u8]) -> Result<Command, LineError>
    ensures { Gives (λ c. c) result (begin_of text.now) }
{
    let (word, rest) = cut(text, b' ')?;
    let pass = PassNo(number(word, 65535)? as u16);
    let request = read_request(alloc, rest)?;
    Ok(Command::Once(Event::Begin(pass, request)))
}

#[tactic(auto, unfolding(crate::specs::Commands::step_of))]
fn step(text: &[u8]) -> Result<Command, LineError>
    ensures { Gives (λ c. c) result (step_of text.now) }
{
    let call = CallNo(number(text, u64::MAX)?);
    Ok(Command::Once(Event::Step(call)))
}

#[tactic(auto, unfolding(crate::specs::Commands::finish_of))]
fn finish(text: &[u8]) -> Result<Command, LineError>
    ensures { Gives (λ c. c) result (finish_of text.now) }
{
    let call = CallNo(number(text, u64::MAX)?);
    Ok(Command::Finish(call))
}

#[tactic(auto, unfolding(crate::specs::Commands::alone_of))]
fn alone(alloc: Global, text: &[u8]) -> Result<Command, LineError>
    ensures { Gives (λ c. c) result (alone_of text.now) }
{
    let request = read_request(alloc, text)?;
    Ok(Command::Alone(request))
}

#[tactic(auto, unfolding(crate::specs::Commands::apply_of))]
fn apply(text: &[u8]) -> Result<Command, LineError>
    ensures { Gives (λ c. c) result (apply_of text.now) }
{
    let view = ViewNo(number(text, u64::MAX)?);
    Ok(Command::Once(Event::Apply(view)))
}

#[tactic(auto, unfolding(crate::specs::Commands::view_read_of))]
fn view_read(alloc: Global, text: &[u8]) -> Result<Command, LineError>
    ensures { Gives (λ c. c) result (view_read_of text.now) }
{
    let (word, rest) = cut(text, b' ')?;
    let view = ViewNo(number(word, u64::MAX)?);
    let (word, rest) = cut(rest, b' ')?;
    let floor = number(word, u64::MAX)?;
    let (word, rest) = cut(rest, b' ')?;
    let start = bytes_from(alloc, word)?;
    let limit = number(rest, 65535)? as u16;
    Ok(Command::Once(Event::ViewRead {
        view,
        floor,
        start,
        limit,
    }))
}

#[tactic(auto, unfolding(crate::specs::Commands::view_drop_of))]
fn view_drop(text: &[u8]) -> Result<Command, LineError>
    ensures { Gives (λ c. c) result (view_drop_of text.now) }
{
    let view = ViewNo(number(text, u64::MAX)?);
    Ok(Command::Once(Event::ViewDrop(view)))
}

#[tactic(auto, unfolding(crate::specs::Commands::feed_of))]
fn feed(text: &[u8]) -> Result<Command, LineError>
    ensures { Gives (λ c. c) result (feed_of text.now) }
{
    let (word, rest) = cut(text, b' ')?;
    let from = number(word, u64::MAX)?;
    let limit = number(rest, 65535)? as u16;
    Ok(Command::Feed { from, limit })
}

// A line of views, of the feed or of a read, by its first word and what follows.
#[tactic(auto, unfolding(crate::specs::Commands::view_command_of))]
fn view_command(alloc: Global, word: &[u8], rest: &[u8]) -> Result<Command, LineError>
    ensures { Gives (λ c. c) result (view_command_of word.now rest.now) }
{
    if word == b"apply".as_slice() {
        apply(rest)
    } else if word == b"view".as_slice() {
        view_read(alloc, rest)
    } else if word == b"drop".as_slice() {
        view_drop(rest)
    } else if word == b"feed".as_slice() {
        feed(rest)
    } else {
        let read = read_quiet_of(alloc, word, rest)?;
        Ok(Command::Read(read))
    }
}

// A line of more than one word.
#[tactic(auto, unfolding(crate::specs::Commands::long_command_of))]
fn long_command(alloc: Global, line: &[u8]) -> Result<Command, LineError>
    ensures { Gives (λ c. c) result (long_command_of line.now) }
{
    let (word, rest) = cut(line, b' ')?;
    if word == b"begin".as_slice() {
        begin(alloc, rest)
    } else if word == b"step".as_slice() {
        step(rest)
    } else if word == b"finish".as_slice() {
        finish(rest)
    } else if word == b"alone".as_slice() {
        alone(alloc, rest)
    } else {
        view_command(alloc, word, rest)
    }
}

/// What a line says, its words parted by one space: `begin PASS REQUEST`, `step CALL`, `finish CALL` or
/// `alone REQUEST`; `apply VIEW`, `view VIEW FLOOR START LIMIT` or `drop VIEW`; `advance`, `collect` or `len`;
/// `feed FROM LIMIT`; `gets KEYS COLS`, `back END LIMIT COLS` or `count START END MOST`. Costs what its request costs to read.
#[tactic(auto, unfolding(crate::specs::Commands::command_of))]
pub fn read_command(alloc: Global, line: &[u8]) -> Result<Command, LineError>
    ensures { Gives (λ c. c) result (command_of line.now) }
{
    if line == b"advance".as_slice() {
        Ok(Command::Once(Event::Advance))
    } else if line == b"collect".as_slice() {
        Ok(Command::Once(Event::Collect))
    } else if line == b"len".as_slice() {
        Ok(Command::Len)
    } else {
        long_command(alloc, line)
    }
}
