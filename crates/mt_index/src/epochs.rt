//! The epochs of the machine: how the next one begins, and how the nodes that were retired before each open call began
//! are freed (Masstree, EuroSys 2012, section 4.6.1).

ghost use Rattle.std.specs.Prelude.{◌≡◌, ◌+◌, MatchOption, Some};
ghost use Rattle.mt_types.specs.declared.event.Event.TheVariants.{Collect};
ghost use Rattle.mt_index.specs.Causes.{IsCaused};
ghost use Rattle.mt_index.specs.Stands.{Advances, Collects, IsOldest, HasBounds};

use crate::machine::Machine;
use mt_steps::collecting::collect;
use mt_types::event::Outcome;
use mt_types::refusal::Refusal;

// The last epoch before the one in which the oldest open call began, or the present one if no call is open. `None` if
// that call began in epoch 0.
fn last_before(oldest: Option<u64>, now: u64) -> Option<u64>
    ensures { MatchOption result (oldest ≡ Some 0) (λ upto. IsOldest now (upto + 1) oldest) }
{
    match oldest {
        Some(began) => began.checked_sub(1),
        None => Some(now),
    }
}

impl Machine {
    // Begins the next epoch.
    pub(crate) fn advance(&mut self) -> Outcome
        ensures advances { Advances self.old result self.new }
        ensures bounds { HasBounds self.old.log.capacity self.old.log.retention self.new.log }
    {
        let Some(next) = self.epoch.checked_add(1) else {
            return Outcome::Refused(Refusal::Spent);
        };
        self.epoch = next;
        Outcome::Epoch(next)
    }

    // Frees the nodes that were retired before each open call began. O(n) in the nodes that it frees.
    pub(crate) fn collect(&mut self) -> Outcome
        ensures collects { Collects self.old result self.new }
        ensures caused { IsCaused self.old Collect result self.new }
        ensures bounds { HasBounds self.old.log.capacity self.old.log.retention self.new.log }
    {
        match last_before(self.calls.oldest(), self.epoch) {
            Some(upto) => Outcome::Freed(collect(&mut self.tree, upto)),
            None => Outcome::Freed(0),
        }
    }
}
