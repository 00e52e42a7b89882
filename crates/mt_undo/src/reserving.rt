//! Room in a log for several deltas, or for none.

ghost use Rattle.std.specs.Prelude.{◌≡◌, ◌+◌, ◌-◌, ◌≤◌, IfErr, OnOk, OnErr};
ghost use Rattle.mt_undo.specs.Reserving.{IsRoomRefused};

use mt_commit::log::Log;
use mt_types::refusal::Refusal;

// Gives up the room that was reserved for so many deltas.
fn give_back(log: &mut Log, count: usize)
    requires { count ≤ log.old.reserved }
    ensures { log.new ≡ record log.old { reserved = log.old.reserved - count } }
{
    for given in 0..count {
        log.unreserve();
    }
}

/// Reserves room for `count` deltas. On an error nothing changes.
///
/// # Errors
///
/// Those of `Log::reserve`.
pub fn reserve_all(log: &mut Log, count: usize) -> Result<(), Refusal>
    ensures ok { OnOk result (log.new ≡ record log.old { reserved = log.old.reserved + count }) }
    ensures err { OnErr result (log.new ≡ log.old) }
    ensures refused { IfErr result (IsRoomRefused log.old count) }
{
    for made in 0..count {
        if let Err(refusal) = log.reserve() {
            give_back(log, made);
            return Err(refusal);
        }
    }
    Ok(())
}
