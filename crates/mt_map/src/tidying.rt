//! The tidies that follow a remove: they take out what it has left empty, and what they take out is freed.

ghost use Rattle.mt_index.specs.Alone.{IsIdle};
ghost use Rattle.mt_walk.specs.Emptied.{IsEmptied};
ghost use Rattle.mt_map.specs.Tidies.{PurgesIfEmptied, TidiesAll, TidiesOnce};

use crate::calling::call_alone;
use crate::viewing::free;
use mt_index::machine::Machine;
use mt_types::copying::TryCopy;
use mt_types::event::{Answer, Request, TidyRule};
use mt_types::key::Key;
use mt_walk::is_emptied;
use mt_walk::place::MAX_TIDIES;
use std::alloc::Global;

// Returns whether the border of the key `place` is empty.
fn is_left_empty(machine: &Machine, place: &Key) -> bool
    requires { IsIdle machine.now }
    ensures { IsEmptied machine.now.tree place.now result }
{
    let _stands = machine.is_idle();
    is_emptied(machine.tree(), place)
}

// Makes a tidy alone. Returns whether it has taken something out.
fn tidy_once(alloc: Global, machine: &mut Machine, place: Key) -> bool
    requires { IsIdle machine.old }
    ensures once { TidiesOnce machine.old place result machine.new }
    ensures idle { IsIdle machine.new }
{
    let key = place.into_bytes();
    match call_alone(alloc, machine, Request::Tidy { key }) {
        Ok(Answer::Tidied(TidyRule::Nothing)) => false,
        Ok(Answer::Tidied(_)) => true,
        Ok(_) => unreachable!(),
        Err(_) => false,
    }
}

// Makes tidies at a place, one after the other, until one takes nothing out, or the border there isn't empty any more.
fn tidy_all(alloc: Global, machine: &mut Machine, first: Key)
    requires { IsIdle machine.old }
    ensures all { TidiesAll machine.old first machine.new }
    ensures idle { IsIdle machine.new }
{
    let mut place = first;
    for _ in 0..MAX_TIDIES {
        let next = place.copy(alloc);
        if !tidy_once(alloc, machine, place) {
            return;
        }
        match next {
            Ok(next) if is_left_empty(machine, &next) => place = next,
            _ => return,
        }
    }
}

/// If the border of the key `place` is empty, makes tidies there, at most `MAX_TIDIES`, until one takes nothing out or the
/// border isn't empty any more, and then frees the nodes that they took out. No call may be open. No row changes.
///
/// Costs the visit of each node on the way to the key, and the steps of the tidies, if there are any. Allocates nothing
/// but a copy of the key for each tidy.
pub(crate) fn tidy_after(alloc: Global, machine: &mut Machine, place: Key)
    requires { IsIdle machine.old }
    ensures purges { PurgesIfEmptied machine.old place machine.new }
    ensures idle { IsIdle machine.new }
{
    if !is_left_empty(machine, &place) {
        return;
    }
    tidy_all(alloc, machine, place);
    let _freed = free(alloc, machine);
}
