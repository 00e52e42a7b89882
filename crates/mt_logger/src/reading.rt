//! What is read of a shared index at one moment: the commits that a log lacks, and the rows after them.

ghost use Rattle.std.specs.Prelude.{IfOk, IfSome};
ghost use Rattle.mt_logger.specs.Reading.{IsOfMoment};

use mt_folder_log::checkpoint::PART;
use mt_frame::entry::Part;
use mt_shared::door::Door;
use mt_types::items::Items;
use mt_types::key::Key;
use mt_types::limits::MAX_RANGE;
use mt_types::refusal::Refusal;
use mt_types::row::Delta;
use std::alloc::Global;
use std::sync::Wait;

// The commits that a log lacks, and some of the rows after them.
#[derive(Drop)]
pub(crate) struct Lacking {
    pub(crate) deltas: Vec<Delta>,
    pub(crate) part: Part,
}

// The commits of an index after the first `from`, and its first rows from a key on, at one moment. `None` if a change is open, or
// there are more such commits than `MAX_RANGE`.
pub(crate) fn read_lacking<W: Wait>(
    alloc: Global,
    door: &Door<'_, W>,
    from: u64,
    start: Key,
) -> Result<Option<Lacking>, Refusal>
    ensures { IfOk result (λ found. IfSome found (IsOfMoment from start)) }
{
    let moment = door.moment();
    let at = moment.commits();
    let Some(machine) = moment.machine() else {
        return Ok(None);
    };
    let deltas = machine.feed(alloc, from, MAX_RANGE)?;
    let count = deltas.len() as u64;
    if at < from || at - from != count {
        return Ok(None);
    }
    let rows = machine.range(alloc, start, PART, Items::new(alloc))?;
    Ok(Some(Lacking {
        deltas,
        part: Part { at, rows },
    }))
}
