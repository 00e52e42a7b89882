//! Turns of a map whose rows are in a folder, one after the other.

ghost use Rattle.std.specs.Prelude.{◌≡◌, ℕ, List, length, IfErr, IfNone, IfOk, OnErr};
ghost use Rattle.mt_types.specs.declared.row.Change.{Change};
ghost use Rattle.mt_journal.specs.Recovery.{Mixes};
ghost use Rattle.mt_lives.specs.Lives.{AllAreLeft, HasLived};
ghost use Rattle.mt_lives.specs.Sentence.{opened_at, AreLeftOf, AreLife, HasFirst};
ghost use Rattle.mt_lives.specs.Turns.{Leads, LeadsAll, Reached};
ghost use Rattle.mt_lives.specs.declared.turn.Turn.TheVariants.{Advance, Ask, Sync, Write};

use crate::turn::{Told, Turn};
use mt_asked::asked::Asked;
use mt_map_folder::error::LogError;
use mt_map_folder::opening::OpenedMap;
use sqlite_disk::Disk;
use std::alloc::{AllocError, Global};

fn ask<D: Disk + Drop>(opened: &mut OpenedMap<D>, asked: &Asked<'_>) -> Told
    ensures { (C : ℕ) (a : Reached) → HasLived D.Disk.seen D.Disk.may_leave C a opened.old.map.machine opened.old.log
        → (b : Reached) × Leads C (Ask asked.now) result a b
        × HasLived D.Disk.seen D.Disk.may_leave C b opened.new.map.machine opened.new.log }
{
    Told::Answered(opened.map.ask(asked))
}

fn write<D: Disk + Drop>(opened: &mut OpenedMap<D>) -> Result<Told, LogError>
    ensures leads { (C : ℕ) (a : Reached) → HasLived D.Disk.seen D.Disk.may_leave C a opened.old.map.machine opened.old.log → Mixes D.Disk.is_mixing
        → IfOk result (λ told. (b : Reached) × Leads C Write told a b
        × HasLived D.Disk.seen D.Disk.may_leave C b opened.new.map.machine opened.new.log) }
    ensures fails { (C : ℕ) (a : Reached) → HasLived D.Disk.seen D.Disk.may_leave C a opened.old.map.machine opened.old.log → Mixes D.Disk.is_mixing
        → OnErr result (AllAreLeft D.Disk.may_leave C a opened.new.log) }
{
    opened.log.write(&opened.map)?;
    Ok(Told::Written)
}

fn sync<D: Disk + Drop>(opened: &mut OpenedMap<D>) -> Result<Told, LogError>
    ensures leads { (C : ℕ) (a : Reached) → HasLived D.Disk.seen D.Disk.may_leave C a opened.old.map.machine opened.old.log
        → IfOk result (λ told. (b : Reached) × Leads C Sync told a b
        × HasLived D.Disk.seen D.Disk.may_leave C b opened.new.map.machine opened.new.log) }
    ensures fails { (C : ℕ) (a : Reached) → HasLived D.Disk.seen D.Disk.may_leave C a opened.old.map.machine opened.old.log
        → OnErr result (AllAreLeft D.Disk.may_leave C a opened.new.log) }
{
    match opened.log.sync() {
        Ok(number) => Ok(Told::Durable(number)),
        Err(error) => Err(LogError::Journal(error)),
    }
}

fn advance<D: Disk + Drop>(opened: &mut OpenedMap<D>, begins: bool) -> Result<Told, LogError>
    ensures leads { (C : ℕ) (a : Reached) → HasLived D.Disk.seen D.Disk.may_leave C a opened.old.map.machine opened.old.log → Mixes D.Disk.is_mixing
        → IfOk result (λ told. (b : Reached) × Leads C (Advance begins) told a b
        × HasLived D.Disk.seen D.Disk.may_leave C b opened.new.map.machine opened.new.log) }
    ensures fails { (C : ℕ) (a : Reached) → HasLived D.Disk.seen D.Disk.may_leave C a opened.old.map.machine opened.old.log → Mixes D.Disk.is_mixing
        → OnErr result (AllAreLeft D.Disk.may_leave C a opened.new.log) }
{
    Ok(Told::Advanced(opened.log.advance(&opened.map, begins)?))
}

// Takes a turn.
fn take_turn<D: Disk + Drop>(opened: &mut OpenedMap<D>, turn: &Turn<'_>) -> Result<Told, LogError>
    ensures leads { (C : ℕ) (a : Reached) → HasLived D.Disk.seen D.Disk.may_leave C a opened.old.map.machine opened.old.log → Mixes D.Disk.is_mixing
        → IfOk result (λ told. (b : Reached) × Leads C turn.now told a b
        × HasLived D.Disk.seen D.Disk.may_leave C b opened.new.map.machine opened.new.log) }
    ensures fails { (C : ℕ) (a : Reached) → HasLived D.Disk.seen D.Disk.may_leave C a opened.old.map.machine opened.old.log → Mixes D.Disk.is_mixing
        → OnErr result (AllAreLeft D.Disk.may_leave C a opened.new.log) }
{
    match turn {
        Turn::Ask(asked) => Ok(ask(opened, asked)),
        Turn::Write => write(opened),
        Turn::Sync => sync(opened),
        Turn::Advance { begins } => advance(opened, *begins),
    }
}

/// What became of turns.
#[derive(Drop)]
pub struct Taken {
    /// What each of the turns that were taken has answered.
    pub told: Vec<Told>,
    /// The error of the log at which the other turns were left. A crash may have come there.
    pub stopped: Option<LogError>,
}

/// Takes these turns, one after the other, up to one at which the log fails.
///
///     let taken = take_turns(alloc, &mut opened, &[Turn::Ask(asked), Turn::Write, Turn::Sync])?;
///
/// Costs what the calls cost. Whatever a crash leaves of the two files then has the first of the changes that the map has made,
/// all that were durable among them.
///
/// # Errors
///
/// If there is no memory for the answers: then no turn was taken.
pub fn take_turns<D: Disk + Drop>(
    alloc: Global,
    opened: &mut OpenedMap<D>,
    turns: &[Turn<'_>],
) -> Result<Taken, AllocError>
    ensures taken { (C : ℕ) (a : Reached) → HasLived D.Disk.seen D.Disk.may_leave C a opened.old.map.machine opened.old.log → Mixes D.Disk.is_mixing
        → IfOk result (λ taken. (b : Reached) × LeadsAll C turns.now taken.told.items a b
        × AllAreLeft D.Disk.may_leave C b opened.new.log
        × IfNone taken.stopped (HasLived D.Disk.seen D.Disk.may_leave C b opened.new.map.machine opened.new.log)) }
    ensures all { IfOk result (λ taken. IfNone taken.stopped (length taken.told.items ≡ length turns.now)) }

    // If the life began as `begin_life` says, over these two files, this is one, whatever a crash leaves then.
    ensures life { Mixes D.Disk.is_mixing → (C : ℕ) (even odd left others : List ℕ)
        → ((changes : List Change) (n : ℕ) → HasFirst C changes n even odd
        → HasLived D.Disk.seen D.Disk.may_leave C (opened_at changes n) opened.old.map.machine opened.old.log)
        → IfOk result (λ taken. AreLeftOf D.Disk.may_leave opened.new.log left others → AreLife C even odd
        (record { turns = turns.now; told = taken.told.items; left = left; others = others })) }
    ensures none { IfErr result (λ error. opened.new ≡ opened.old) }
{
    let mut told = Vec::with_capacity(alloc, turns.len())?;
    for turn in turns {
        match take_turn(opened, turn) {
            Ok(answer) => {
                let Ok(()) = told.push(answer) else {
                    unreachable!()
                };
            }
            Err(error) => {
                return Ok(Taken {
                    told,
                    stopped: Some(error),
                });
            }
        }
    }
    Ok(Taken {
        told,
        stopped: None,
    })
}
