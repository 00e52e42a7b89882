//! The totals of a view, written into the caller's buffer from the view's state, which is borrowed. Nothing is allocated.

ghost use Rattle.std.specs.Prelude.{◌≡◌, ◌+◌, ◌*◌, ◌≤◌, ℕ, List, Option, Result, [], length};
ghost use Rattle.std.specs.FinMap.{entries};
ghost use Rattle.std.specs.List.{flat_map};
ghost use Rattle.mt_types.specs.Views.{column_sums};
ghost use Rattle.mt_view.specs.State.{StateView, page_of_state};
ghost use Rattle.rowanspan_c.specs.Questions.{ReadsTotals};
ghost use Rattle.rowanspan_c.specs.Spelling.{sum_spelling, totals_spelling};
ghost use Rattle.rowanspan_c.specs.Placed.{Writes};
ghost use Rattle.rowanspan_c.specs.Told.{HandsOut, TellsRead};

use crate::handing::tell_refusal;
use crate::placing::{NUMBER_BYTES, number};
use crate::status::{DONE, NO_ROOM};
use mt_map::map::Map;
use mt_types::numbers::ViewNo;
use mt_types::refusal::Refusal;
use mt_view::state::ViewState;

// How many bytes a sum has.
const SUM_BYTES: usize = 16;

// Writes a sum at a place, and returns the place after it.
fn sum(into: &mut [u8], at: usize, sum: u128) -> usize
    requires { at + SUM_BYTES ≤ length into.old }
    ensures { Writes (sum_spelling sum) at into.old into.new result }
{
    let at = number(into, at, (sum / 0x1_0000_0000_0000_0000) as u64);
    number(into, at, (sum % 0x1_0000_0000_0000_0000) as u64)
}

// Writes the sums of the columns from a place on, and returns the place after them.
fn sums(into: &mut [u8], from: usize, state: &ViewState, columns: u8) -> usize
    requires columns { state.now.columns ≡ columns }
    requires room { from + SUM_BYTES * columns ≤ length into.old }
    ensures { Writes (flat_map sum_spelling (column_sums 0 columns (entries state.now.rows))) from into.old into.new
        result }
{
    let mut at = from;
    for column in 0..columns {
        at = sum(into, at, state.sum(column));
    }
    at
}

// Writes the totals at the start of the buffer, and returns the place after them.
fn totals_of(into: &mut [u8], state: &ViewState, columns: u8) -> usize
    requires columns { state.now.columns ≡ columns }
    requires room { length (totals_spelling (page_of_state state.now [] 1)) ≤ length into.old }
    ensures { Writes (totals_spelling (page_of_state state.now [] 1)) 0 into.old into.new result }
{
    let at = number(into, 0, state.at());
    let at = number(into, at, state.count());
    let at = number(into, at, u64::from(columns));
    sums(into, at, state, columns)
}

// Returns how many bytes the totals have of a state that sums this many columns.
fn totals_length(columns: u8) -> usize
    ensures { (state : StateView) → state.columns ≡ columns
        → result ≡ length (totals_spelling (page_of_state state [] 1)) }
{
    3 * NUMBER_BYTES + SUM_BYTES * columns as usize
}

// Reports the totals of a state: writes them into the buffer if it has room for them.
fn tell_totals(state: &ViewState, columns: u8, into: &mut [u8], told: &mut u64) -> u16
    requires { state.now.columns ≡ columns }
    ensures { HandsOut (totals_spelling (page_of_state state.now [] 1)) into.old into.new result told.new }
{
    let length = totals_length(columns);
    *told = length as u64;
    if length > into.len() {
        return NO_ROOM;
    }
    let _end = totals_of(into, state, columns);
    DONE
}

/// Reports the totals of a view that is at `floor` commits or more: writes them into the buffer if it has room for them.
/// Allocates nothing, reads no row, and refuses only for the view.
pub(crate) fn totals(index: &Map, view: ViewNo, floor: u64, into: &mut [u8], told: &mut u64) -> u16
    ensures { (read : Result (Option (List ℕ)) Refusal) × ReadsTotals index.now.machine view.0 floor read
        × TellsRead read into.old into.new result told.new }
{
    // (so there is a history that the index is at, by which the view sums each column)
    let _commits = index.commits();
    let Some(state) = index.view(view) else {
        return tell_refusal(Refusal::NoSuchView, told);
    };
    let at = state.at();
    if at < floor {
        return tell_refusal(Refusal::Behind(at), told);
    }
    tell_totals(state, index.columns(), into, told)
}
