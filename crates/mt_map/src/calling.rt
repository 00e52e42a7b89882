//! A call alone on a machine: what every change of a map is.

ghost use Rattle.std.specs.Prelude.{IfOk};
ghost use Rattle.mt_index.specs.Alone.{IsIdle};
ghost use Rattle.mt_map.specs.Calls.{CameTo, IsAnswerTo};

use mt_index::machine::Machine;
use mt_types::event::{Answer, Request};
use mt_types::refusal::Refusal;
use std::alloc::Global;

// Does what is asked for, as a call alone.
pub(crate) fn call_alone(
    alloc: Global,
    machine: &mut Machine,
    request: Request,
) -> Result<Answer, Refusal>
    requires { IsIdle machine.old }
    ensures came { CameTo machine.old request result machine.new }
    ensures kind { IfOk result (IsAnswerTo request) }
    ensures idle { IsIdle machine.new }
{
    let _stands = machine.is_idle();
    match machine.do_alone(alloc, request) {
        Ok(reply) => Ok(reply.answer),
        Err(refusal) => Err(refusal),
    }
}
