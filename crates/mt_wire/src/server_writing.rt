//! Queries and answers of the server, written at the end of bytes.

ghost use Rattle.std.specs.Prelude.{◌≡◌, ◌++◌, OnOk};
ghost use Rattle.mt_wire.specs.Spelling.{awaited_spelling};

use crate::query_writing::{spec_fits, write_spec};
use crate::server::{Awaited, Count, ListedView, ServerQuery, ServerResponse};
use crate::writing::{
    Writable, counted, counted_fits, counted16, counted16_fits, head, key, key_fits, number32,
    number64,
};
use std::alloc::AllocError;

fn write_awaited(out: &mut Vec<u8>, of: Awaited) -> Result<(), AllocError>
    ensures { OnOk result (out.new.items ≡ out.old.items ++ awaited_spelling of) }
{
    match of {
        Awaited::Commits => Ok(out.push(0)?),
        Awaited::View(view) => {
            out.push(1)?;
            number64(out, view.0)
        }
        Awaited::Durable => Ok(out.push(2)?),
    }
}

impl Writable for ServerQuery {
    ghost use Rattle.mt_wire.specs.Spelling.{server_spelling};
    ghost use Rattle.mt_wire.specs.Fits.{ServerLengths};

    ghost spelling = { server_spelling };

    ghost lengths = { ServerLengths };

    fn write(&self, out: &mut Vec<u8>) -> Result<(), AllocError> {
        match self {
            ServerQuery::Hello {
                newest,
                secret,
                name,
            } => {
                out.extend_from_slice(&[16, *newest])?;
                key(out, secret)?;
                key(out, name)
            }
            ServerQuery::Ping(number) => {
                out.push(17)?;
                number64(out, *number)
            }
            ServerQuery::Info => Ok(out.push(18)?),
            ServerQuery::Views => Ok(out.push(19)?),
            ServerQuery::Wait {
                of,
                number,
                milliseconds,
            } => {
                out.push(20)?;
                write_awaited(out, *of)?;
                number64(out, *number)?;
                number32(out, *milliseconds)
            }
            ServerQuery::Stop { is_at_once } => out.extend_from_slice(&[21, u8::from(*is_at_once)]),
        }
    }

    fn fits(&self) -> bool {
        match self {
            ServerQuery::Hello { secret, name, .. } => key_fits(secret) && key_fits(name),
            ServerQuery::Ping(_)
            | ServerQuery::Info
            | ServerQuery::Views
            | ServerQuery::Wait { .. }
            | ServerQuery::Stop { .. } => true,
        }
    }
}

impl Writable for Count {
    ghost use Rattle.mt_wire.specs.Spelling.{count_spelling};
    ghost use Rattle.mt_wire.specs.Fits.{KeyFits};

    ghost spelling = { count_spelling };

    ghost lengths = { λ count. KeyFits count.name };

    fn write(&self, out: &mut Vec<u8>) -> Result<(), AllocError> {
        key(out, &self.name)?;
        number64(out, self.number)
    }

    fn fits(&self) -> bool {
        key_fits(&self.name)
    }
}

impl Writable for ListedView {
    ghost use Rattle.mt_wire.specs.Spelling.{listed_spelling};
    ghost use Rattle.mt_wire.specs.Fits.{SpecLengths};

    ghost spelling = { listed_spelling };

    ghost lengths = { λ view. SpecLengths view.spec };

    fn write(&self, out: &mut Vec<u8>) -> Result<(), AllocError> {
        number64(out, self.number.0)?;
        number64(out, self.at)?;
        number64(out, self.rows)?;
        write_spec(out, &self.spec)
    }

    fn fits(&self) -> bool {
        spec_fits(&self.spec)
    }
}

impl Writable for ServerResponse {
    ghost use Rattle.mt_wire.specs.Spelling.{served_spelling};
    ghost use Rattle.mt_wire.specs.Fits.{ServedLengths};

    ghost spelling = { served_spelling };

    ghost lengths = { ServedLengths };

    fn write(&self, out: &mut Vec<u8>) -> Result<(), AllocError> {
        match self {
            ServerResponse::Refused(turned) => {
                out.extend_from_slice(&[0, turned.number()])?;
                number64(out, turned.detail())
            }
            ServerResponse::Hello {
                version,
                role,
                columns,
                run,
                commits,
                logged,
            } => {
                out.extend_from_slice(&[16, *version, role.number(), *columns])?;
                run.write(out)?;
                number64(out, *commits)?;
                number64(out, *logged)
            }
            ServerResponse::Ping { number, commits } => head(out, 17, *number, *commits),
            ServerResponse::Info(counts) => {
                out.push(18)?;
                counted16(out, counts.as_slice())
            }
            ServerResponse::Views { commits, views } => {
                out.push(19)?;
                number64(out, *commits)?;
                counted(out, views.as_slice())
            }
            ServerResponse::Waited {
                is_reached,
                commits,
                view,
            } => {
                out.extend_from_slice(&[20, u8::from(*is_reached)])?;
                number64(out, *commits)?;
                number64(out, *view)
            }
            ServerResponse::Stopped { commits } => {
                out.push(21)?;
                number64(out, *commits)
            }
        }
    }

    fn fits(&self) -> bool {
        match self {
            ServerResponse::Info(counts) => counted16_fits(counts.as_slice()),
            ServerResponse::Views { views, .. } => counted_fits(views.as_slice()),
            ServerResponse::Refused(_)
            | ServerResponse::Hello { .. }
            | ServerResponse::Ping { .. }
            | ServerResponse::Waited { .. }
            | ServerResponse::Stopped { .. } => true,
        }
    }
}
