//! Replies as text.

ghost use Rattle.std.specs.Prelude.{◌≡◌, ◌++◌, OnOk, IfOk, string_bytes};
ghost use Rattle.std.specs.List.{flat_map};
ghost use Rattle.mt_script.specs.Lines.{line_text};
ghost use Rattle.mt_script.specs.Showing.{delta_text};
ghost use Rattle.mt_script.specs.Script.{reply_lines};

use crate::command::Reply;
use crate::reads::push_quiet;
use crate::showing::{push_delta, push_outcome, push_refusal};
use mt_types::row::Delta;
use std::alloc::{AllocError, Global};

fn push_deltas(alloc: Global, out: &mut String, deltas: &[Delta]) -> Result<(), AllocError>
    ensures { OnOk result (string_bytes out.new
        ≡ string_bytes out.old ++ flat_map (λ delta. line_text (delta_text delta)) deltas.now) }
{
    for delta in deltas {
        push_delta(alloc, out, delta)?;
        out.push_str("\n")?;
    }
    Ok(())
}

// The lines of a reply, each with its line feed.
pub(crate) fn reply_text(alloc: Global, reply: &Reply) -> Result<String, AllocError>
    ensures { IfOk result (λ text. string_bytes text ≡ reply_lines reply.now) }
{
    let mut text = String::new(alloc);
    match reply {
        Reply::Bad => text.push_str("bad line\n")?,
        Reply::Busy => text.push_str("busy\n")?,
        Reply::Came(outcome) => {
            push_outcome(alloc, &mut text, outcome)?;
            text.push_str("\n")?;
        }
        Reply::Fed(deltas) => push_deltas(alloc, &mut text, deltas.as_slice())?,
        Reply::NotFed(refusal) => {
            push_refusal(&mut text, *refusal)?;
            text.push_str("\n")?;
        }
        Reply::Read(answer) => {
            push_quiet(alloc, &mut text, answer)?;
            text.push_str("\n")?;
        }
        Reply::NotRead(refusal) => {
            push_refusal(&mut text, *refusal)?;
            text.push_str("\n")?;
        }
        Reply::Len(rows) => {
            let rows = *rows;
            write!(text, "len {rows}")?;
            text.push_str("\n")?;
        }
    }
    Ok(text)
}
