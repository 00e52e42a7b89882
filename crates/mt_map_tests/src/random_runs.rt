//! Runs of every length, by chance: a machine whose calls make runs does what one does whose calls make single steps. Both
//! have the rows of a plain list of changes, and so have their gets.

use crate::chance::{Asked, Chance, KEYS};
use bytes::Bytes;
use mt_index::calling::CallRun;
use mt_index::machine::Machine;
use mt_index::options::Options;
use mt_types::event::{Answer, Event, Outcome, Reply};
use mt_types::items::Items;
use mt_types::key::Key;
use mt_types::numbers::{CallNo, PassNo};
use mt_types::refusal::{NoMemory, Refusal};
use mt_types::row::Row;
use std::alloc::Global;
use std::test::Fail;

// The most steps of a run, around those that a put or remove makes at once at a border: 24, and 37 if it splits it.
const LENGTHS: [u64; 14] = [1, 1, 2, 3, 5, 8, 23, 24, 25, 36, 37, 38, 100, 1000];

// How many turns a script has, how many calls are open at most, and how many scripts there are.
const TURNS: u64 = 400;

const OPEN: usize = 5;

const SCRIPTS: u64 = 1000;

// What a commit left: the place of its key, and the value of the row, if it left one.
type Change = (usize, Option<u8>);

// Two machines that are asked the same, their open calls, and what their commits left.
#[derive(Drop)]
struct Pair {
    runs: Machine,
    steps: Machine,
    open: Vec<(CallNo, Asked)>,
    changes: Vec<Change>,
    // How many runs made several steps.
    long: u64,
}

// What several steps came to, as a run says it.
type Came = (u64, u64, Outcome);

// Makes single steps of a call, as many as a run makes at most.
fn step(alloc: Global, machine: &mut Machine, call: CallNo, most: u64) -> Came {
    let mut made: u64 = 0;
    let mut commits: u64 = 0;
    for _ in 1..most {
        let outcome = machine.event(alloc, &Event::Step(call));
        made = made.wrapping_add(1);
        match outcome {
            Outcome::Moved => {}
            Outcome::Commit(_) => commits = commits.wrapping_add(1),
            last => return (made, commits, last),
        }
    }
    let last = machine.event(alloc, &Event::Step(call));
    let is_commit = matches!(last, Outcome::Commit(_));
    (
        made.wrapping_add(1),
        commits.wrapping_add(u64::from(is_commit)),
        last,
    )
}

// The row of a key after the first changes: its version and value.
fn row_after(changes: &[Change], count: u64, place: usize) -> Option<(u64, u8)> {
    let mut row = None;
    for ((changed, value), number) in changes.iter().zip(1..=count) {
        if *changed == place {
            row = value.map(|value| (number, value));
        }
    }
    row
}

fn shown(row: &Row) -> (u64, u8) {
    let value = row.columns.get_or_empty(0).first().copied();
    (row.version, value.unwrap_or(0))
}

// Whether a key had this row after some number of commits from the begin of a call to its end.
fn had(changes: &[Change], place: usize, row: Option<(u64, u8)>, reply: &Reply) -> bool {
    (reply.from..=reply.to).any(|count| row_after(changes, count, place) == row)
}

// Whether the answer of a call is one that a plain list of changes gives. Of other calls than gets and changes only their two
// machines' agreement is asked.
fn is_right(changes: &[Change], asked: Asked, reply: &Reply) -> bool {
    match &reply.answer {
        Answer::Found(row) => had(changes, asked.place, Some(shown(row)), reply),
        Answer::Absent => had(changes, asked.place, None, reply),
        Answer::Stored(number) | Answer::Removed(number) => {
            reply.from < *number
                && *number <= reply.to
                && row_after(changes, *number, asked.place)
                    == asked.left().map(|value| (*number, value))
        }
        _ => true,
    }
}

impl Pair {
    fn open(alloc: Global) -> Result<Pair, Refusal> {
        Ok(Pair {
            runs: Machine::open(alloc, Options::default())?,
            steps: Machine::open(alloc, Options::default())?,
            open: Vec::new(alloc),
            changes: Vec::new(alloc),
            long: 0,
        })
    }

    // Takes what a run and single steps of a call came to. Returns whether it is the same, and right.
    fn take(
        &mut self,
        call: CallNo,
        asked: Asked,
        run: Came,
        steps: Came,
    ) -> Result<bool, NoMemory> {
        if run.1 == 1 {
            self.changes.push((asked.place, asked.left()))?;
        }
        self.long = self.long.wrapping_add(u64::from(run.0 > 1));
        let right = match &run.2 {
            Outcome::Done(reply) => is_right(&self.changes, asked, reply),
            Outcome::Refused(_) => false,
            _ => {
                self.open.push((call, asked))?;
                true
            }
        };
        Ok(right && run == steps)
    }

    // Begins a call, with a run of it, or without.
    fn begin(&mut self, alloc: Global, asked: Asked, most: u64) -> Result<bool, NoMemory> {
        let pass = PassNo(1);
        let begun = self
            .steps
            .event(alloc, &Event::Begin(pass, asked.request(alloc)?));
        let request = asked.request(alloc)?;
        if most == 0 {
            let outcome = self.runs.begin_call(alloc, pass, request);
            if let Outcome::Call(call) = outcome {
                self.open.push((call, asked))?;
            }
            return Ok(outcome == begun);
        }
        let CallRun::Ran(call, run) = self.runs.call(alloc, pass, request, most) else {
            return Ok(false);
        };
        let steps = step(alloc, &mut self.steps, call, most);
        let is_same = self.take(call, asked, (run.steps, run.commits, run.last), steps)?;
        Ok(is_same && begun == Outcome::Call(call))
    }

    // Makes a run of an open call.
    fn go_on(&mut self, alloc: Global, nth: usize, most: u64) -> Result<bool, NoMemory> {
        if nth >= self.open.len() {
            return Ok(true);
        }
        let (call, asked) = self.open.remove(nth);
        let run = self.runs.go(alloc, call, most);
        let steps = step(alloc, &mut self.steps, call, most);
        self.take(call, asked, (run.steps, run.commits, run.last), steps)
    }

    // A turn by chance.
    fn turn(&mut self, alloc: Global, chance: &mut Chance) -> Result<bool, NoMemory> {
        let nth = chance.below(LENGTHS.len() as u64) as usize;
        let most = LENGTHS.get(nth).copied().unwrap_or(1);
        let open = self.open.len();
        if open == 0 || open < OPEN && chance.below(4) == 0 {
            let most = if chance.below(5) == 0 { 0 } else { most };
            return self.begin(alloc, Asked::by_chance(chance), most);
        }
        let nth = chance.below(open as u64) as usize;
        self.go_on(alloc, nth, most)
    }

    // Ends all calls, one run of each after the other.
    fn end(&mut self, alloc: Global) -> Result<bool, NoMemory> {
        for _ in 0..100 * OPEN {
            if !self.go_on(alloc, 0, 1000)? {
                return Ok(false);
            }
        }
        Ok(self.open.is_empty())
    }
}

// Whether a machine without open calls has exactly the rows that the changes leave.
fn has_rows(alloc: Global, machine: &Machine, changes: &[Change]) -> Result<bool, Refusal> {
    if !machine.is_quiet() || machine.commits() != changes.len() as u64 {
        return Ok(false);
    }
    let start = Key::new(Bytes::new())?;
    let rows = machine.range(alloc, start, 1000, Items::new(alloc))?;
    let mut there = 0;
    for (place, key) in KEYS.iter().enumerate() {
        let wanted = row_after(changes, machine.commits(), place);
        let row = rows.iter().find(|(found, _)| found.as_slice() == *key);
        if row.map(|(_, row)| shown(row)) != wanted {
            return Ok(false);
        }
        there = usize::from(wanted.is_some()).saturating_add(there);
    }
    Ok(rows.len() == there)
}

// Plays a script. Returns how many runs made several steps, if all is right.
fn play(alloc: Global, seed: u64) -> Result<Option<u64>, Refusal> {
    let mut pair = Pair::open(alloc)?;
    let mut chance = Chance::new(seed);
    for _ in 0..TURNS {
        if !pair.turn(alloc, &mut chance)? {
            return Ok(None);
        }
    }
    let right = pair.end(alloc)?
        && has_rows(alloc, &pair.runs, &pair.changes)?
        && has_rows(alloc, &pair.steps, &pair.changes)?;
    Ok(right.then_some(pair.long))
}

#[test]
fn runs_by_chance(rt: HostRuntime) -> Result<(), Fail> {
    for seed in 0..SCRIPTS {
        let long = play(rt.alloc(), seed)?;
        assert!(rt; long.is_some_and(|long| long > 50), "script {seed}");
    }
    Ok(())
}
