//! Queries of the server, read from the front of the bytes that are left.

ghost use Rattle.std.specs.Prelude.{◌≡◌};
ghost use Rattle.mt_wire.specs.Reading.{Gives, kind_at};
ghost use Rattle.mt_wire.specs.ServerReading.{flag_rest, awaited_rest, hello_at, ping_at, wait_at, stop_at, server_rest};

use crate::fault::ReadError;
use crate::reading::{byte, key, number32, number64};
use crate::server::{Awaited, ServerQuery};
use bytes::Bytes;
use mt_types::numbers::ViewNo;

#[tactic(auto, unfolding(crate::specs::Reading::kind_at, crate::specs::ServerReading::flag_rest))]
fn flag(input: &mut Bytes) -> Result<bool, ReadError>
    ensures { Gives (λ x. (x, input.new)) result (kind_at flag_rest input.old) }
{
    match byte(input)? {
        0 => Ok(false),
        1 => Ok(true),
        _ => Err(ReadError::Misspelled),
    }
}

#[tactic(auto, unfolding(crate::specs::ServerReading::hello_at))]
fn hello(input: &mut Bytes) -> Result<ServerQuery, ReadError>
    ensures { Gives (λ x. (x, input.new)) result (hello_at input.old) }
{
    let newest = byte(input)?;
    let secret = key(input)?;
    let name = key(input)?;
    Ok(ServerQuery::Hello {
        newest,
        secret,
        name,
    })
}

#[tactic(auto, unfolding(crate::specs::ServerReading::ping_at))]
fn ping(input: &mut Bytes) -> Result<ServerQuery, ReadError>
    ensures { Gives (λ x. (x, input.new)) result (ping_at input.old) }
{
    Ok(ServerQuery::Ping(number64(input)?))
}

#[tactic(auto, unfolding(crate::specs::ServerReading::awaited_rest))]
fn awaited_of_kind(input: &mut Bytes, kind: u8) -> Result<Awaited, ReadError>
    ensures { Gives (λ x. (x, input.new)) result (awaited_rest kind input.old) }
{
    match kind {
        0 => Ok(Awaited::Commits),
        1 => Ok(Awaited::View(ViewNo(number64(input)?))),
        2 => Ok(Awaited::Durable),
        _ => Err(ReadError::Misspelled),
    }
}

#[tactic(auto, unfolding(crate::specs::Reading::kind_at))]
fn awaited(input: &mut Bytes) -> Result<Awaited, ReadError>
    ensures { Gives (λ x. (x, input.new)) result (kind_at awaited_rest input.old) }
{
    let kind = byte(input)?;
    awaited_of_kind(input, kind)
}

#[tactic(auto, unfolding(crate::specs::ServerReading::wait_at))]
fn wait(input: &mut Bytes) -> Result<ServerQuery, ReadError>
    ensures { Gives (λ x. (x, input.new)) result (wait_at input.old) }
{
    let of = awaited(input)?;
    let number = number64(input)?;
    let milliseconds = number32(input)?;
    Ok(ServerQuery::Wait {
        of,
        number,
        milliseconds,
    })
}

#[tactic(auto, unfolding(crate::specs::ServerReading::stop_at))]
fn stop(input: &mut Bytes) -> Result<ServerQuery, ReadError>
    ensures { Gives (λ x. (x, input.new)) result (stop_at input.old) }
{
    let is_at_once = flag(input)?;
    Ok(ServerQuery::Stop { is_at_once })
}

/// The query of the server of this kind.
#[tactic(auto, unfolding(crate::specs::ServerReading::server_rest))]
pub fn server_query(input: &mut Bytes, kind: u8) -> Result<ServerQuery, ReadError>
    ensures { Gives (λ x. (x, input.new)) result (server_rest kind input.old) }
{
    match kind {
        16 => hello(input),
        17 => ping(input),
        18 => Ok(ServerQuery::Info),
        19 => Ok(ServerQuery::Views),
        20 => wait(input),
        21 => stop(input),
        _ => Err(ReadError::Misspelled),
    }
}
