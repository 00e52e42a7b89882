//! The log of commits: a queue of deltas, the numbers from which it is held, and the room that was reserved.

ghost use Rattle.std.specs.Prelude.{◌≡◌, ◌↔◌, ◌+◌, ◌-◌, ◌^◌, ◌<◌, ◌≤◌, ◌++◌, ◌∷◌, [], All, length, drop, IsTrue, IfErr, IsErrOf, None, OnOk, OnErr, MatchOption, Contains, slice_get};
ghost use Rattle.std.specs.VecDeque.{deque_capacity};
ghost use Rattle.mt_types.specs.declared.row.Delta.{Delta as DeltaView};

use crate::effect::Effect;
use crate::holders::Holders;
use mt_types::refusal::{NoMemory, Refusal};
use mt_types::row::Delta;
use std::alloc::Global;
use std::collections::VecDeque;
use std::marker::Model;

/// The most holders of a log, each number counted as often as it is held. `Log::pin` requires that there are fewer.
pub const MAX_HOLDERS: u64 = u64::MAX;

/// What a log keeps for no reader: the last `retention` deltas, but none up to the number `base`, after which it began.
#[derive(Clone, Copy, Debug, PartialEq, Eq)]
pub struct Keeping {
    base: u64,
    retention: u64,
}

/// The deltas of the last commits. Commits are numbered from 1 in the order in which they are appended, and what came
/// before the deltas that are here was trimmed.
#[derive(Drop)]
pub struct Log {
    deltas: VecDeque<Delta>,
    holders: Holders,
    holder_count: u64,
    base: u64,
    held_after: u64,
    reserved: u64,
    capacity: u64,
    retention: u64,
    rows: u64,
}

impl Model for Log {
    ghost use Rattle.mt_commit.specs.Log.{LogView};

    ghost Value = { LogView };

    ghost use Rattle.mt_commit.specs.LogFields.{log_of, IsKept};

    ghost view = { log_of };

    ghost invariant = { IsKept };
}

// Takes the first `count` deltas away.
fn drop_front(deltas: &mut VecDeque<Delta>, count: u64)
    requires { count ≤ length deltas.old.items }
    ensures items { deltas.new.items ≡ drop count deltas.old.items }
    ensures capacity { deque_capacity deltas.new ≡ deque_capacity deltas.old }
{
    for dropped in 0..count {
        let _ = deltas.pop_front();
    }
}

impl Log {
    ghost use Rattle.mt_commit.specs.Log.{LogView, IsLog, newest, slowest, delta_of, reserve_fault, with_delta, trimmed, begun_after, kept_after, effect_of, IsUnread, keeping, keeping_all, kept_as};
    ghost use Rattle.mt_commit.specs.Holders.{with_holder, without_holder};

    /// Returns the log before any commit. It is to hold at most `capacity` deltas for its slowest reader, and to keep the
    /// last `retention` for no reader. Allocates nothing.
    pub fn open(alloc: Global, capacity: u64, retention: u64) -> Log
        ensures empty { result ≡ record {
          base = 0;
          held_after = 0;
          deltas = [];
          reserved = 0;
          holders = [];
          capacity = capacity;
          retention = retention;
          rows = 0;
        } }
        ensures sound { IsLog result }
    {
        Log {
            deltas: VecDeque::new(alloc),
            holders: Holders::new(alloc),
            holder_count: 0,
            base: 0,
            held_after: 0,
            reserved: 0,
            capacity,
            retention,
            rows: 0,
        }
    }

    /// Returns the number of the newest commit, or 0 before any.
    pub fn number(&self) -> u64
        ensures value { result ≡ newest self.now }
        ensures sound { IsLog self.now }
    {
        self.held_after + self.deltas.len() as u64
    }

    /// Returns the number after which the log has the deltas. Those up to this number were trimmed.
    pub fn held_after(&self) -> u64
        ensures value { result ≡ self.now.held_after }
        ensures sound { IsLog self.now }
    {
        self.held_after
    }

    /// Returns how many rows there are after the newest commit. Each has a commit of its own.
    pub fn rows(&self) -> u64
        ensures value { result ≡ self.now.rows }
        ensures few { result ≤ newest self.now }
    {
        self.rows
    }

    /// Returns the least number from which the log is held, or the number of the newest commit if no reader holds it.
    /// O(log n) in the numbers that are held.
    pub fn slowest(&self) -> u64
        ensures value { result ≡ slowest self.now }
        ensures here { self.now.held_after ≤ result }
        ensures done { result ≤ newest self.now }
        ensures sound { IsLog self.now }
    {
        self.holders.least(self.number())
    }

    /// Makes room for one more delta. On an error nothing changes. O(log n) in the numbers that are held, amortized.
    ///
    /// # Errors
    ///
    /// The first of these that applies: `Spent` if no number is left for the delta; `FeedFull`, with the number of the
    /// slowest reader, if the log would hold more for it than it may; `NoMemory` if an allocation is refused. Nothing
    /// is allocated before the other two are tested.
    pub fn reserve(&mut self) -> Result<(), Refusal>
        ensures fault { MatchOption (reserve_fault self.old)
            (IfErr result (λ refusal. refusal ≡ Refusal.NoMemory))
            (λ refusal. result ≡ Err refusal) }
        ensures memory { IsErrOf result Refusal.NoMemory → reserve_fault self.old ≡ None }
        ensures ok { OnOk result (self.new ≡ record self.old { reserved = self.old.reserved + 1 }) }
        ensures err { OnErr result (self.new ≡ self.old) }
        ensures sound { IsLog self.new }
    {
        let number = self.number();
        let slowest = self.slowest();
        if u64::MAX - number <= self.reserved {
            return Err(Refusal::Spent);
        }
        if number - slowest + self.reserved >= self.capacity {
            return Err(Refusal::FeedFull(slowest));
        }
        self.deltas.reserve((self.reserved + 1) as usize)?;
        self.reserved += 1;
        Ok(())
    }

    /// Gives up the room that was reserved for one delta.
    pub fn unreserve(&mut self)
        requires { 0 < self.old.reserved }
        ensures after { self.new ≡ record self.old { reserved = self.old.reserved - 1 } }
        ensures sound { IsLog self.new }
    {
        self.reserved -= 1;
    }

    /// Appends the delta of the next commit, in room that was reserved. Allocates nothing.
    pub fn append(&mut self, delta: Delta)
        requires reserved { 0 < self.old.reserved }
        requires next { delta.number ≡ newest self.old + 1 }
        ensures after { self.new ≡ with_delta self.old delta }
        ensures sound { IsLog self.new }
    {
        self.rows = Effect::of(&delta).count(self.rows);
        self.deltas.push_back_reserved(delta);
        self.reserved -= 1;
    }

    /// Returns whether no delta would stay in the log: no reader holds it, and it keeps none.
    pub fn is_unread(&self) -> bool
        ensures { IsTrue result ↔ IsUnread self.now }
    {
        self.holder_count == 0 && self.retention == 0
    }

    /// Counts the next commit and its effect, in room that was reserved, if no delta would stay in the log. The log is then
    /// as after an append of the delta and a trim. O(n) in the deltas that the log has.
    pub fn pass(&mut self, effect: Effect)
        requires reserved { 0 < self.old.reserved }
        requires unread { IsUnread self.old }
        ensures after { (delta : DeltaView) → effect_of delta.before delta.after ≡ effect
            → self.new ≡ trimmed (with_delta self.old delta) }
        ensures next { newest self.new ≡ newest self.old + 1 }
        ensures sound { IsLog self.new }
    {
        let number = self.number();
        drop_front(&mut self.deltas, number - self.held_after);
        self.held_after = number + 1;
        self.reserved -= 1;
        self.rows = effect.count(self.rows);
    }

    /// Returns the delta of a commit that the log has.
    pub fn delta(&self, number: u64) -> &Delta
        requires here { self.now.held_after < number }
        requires done { number ≤ newest self.now }
        ensures value { delta_of self.now number ≡ Some result.now }
        ensures numbered { result.now.number ≡ number }
    {
        &self.deltas[(number - self.held_after - 1) as usize]
    }

    /// Holds the log from a number of commits on, once more. On an error nothing changes. O(log n) in the numbers that
    /// are held.
    ///
    /// # Errors
    ///
    /// `NoMemory` if an allocation is refused.
    pub fn pin(&mut self, number: u64) -> Result<(), NoMemory>
        requires here { self.old.held_after ≤ number }
        requires done { number ≤ newest self.old }
        requires few { length self.old.holders < MAX_HOLDERS }
        ensures ok { OnOk result (self.new ≡ record self.old { holders = with_holder number self.old.holders }) }
        ensures err { OnErr result (self.new ≡ self.old) }
        ensures sound { IsLog self.new }
    {
        self.holders.add(number)?;
        self.holder_count += 1;
        Ok(())
    }

    /// Holds the log from a number of commits on once less. O(log n) in the numbers that are held.
    pub fn unpin(&mut self, number: u64)
        requires { Contains self.old.holders number }
        ensures after { self.new ≡ record self.old { holders = without_holder number self.old.holders } }
        ensures sound { IsLog self.new }
    {
        self.holders.remove(number);
        self.holder_count -= 1;
    }

    // Returns the number after which the deltas are kept for no reader.
    fn kept_after(&self) -> u64
        ensures { result ≡ kept_after self.now (newest self.now) }
    {
        self.number().saturating_sub(self.retention).max(self.base)
    }

    /// Begins again after `number` commits: the log has no deltas then, and those of earlier commits are out of reach, also
    /// if it is to keep some for no reader. O(n) in the deltas that it had.
    pub fn begin_after(&mut self, number: u64)
        requires unheld { self.old.holders ≡ [] }
        requires later { newest self.old ≤ number }
        requires fits { number + self.old.reserved < 2 ^ 64 }
        ensures after { self.new ≡ begun_after number self.old }
        ensures sound { IsLog self.new }
    {
        self.deltas.clear();
        self.base = number;
        self.held_after = number;
    }

    /// Keeps each delta from here on, also for no reader, until [`Log::keep_as`] says otherwise. So what follows can be taken
    /// back. Returns what the log kept for no reader.
    pub fn keep_all(&mut self) -> Keeping
        ensures before { result ≡ keeping self.old }
        ensures after { self.new ≡ keeping_all self.old }
        ensures sound { IsLog self.new }
    {
        let before = Keeping {
            base: self.base,
            retention: self.retention,
        };
        self.base = self.held_after;
        self.retention = u64::MAX;
        before
    }

    /// Keeps so many deltas for no reader again as before [`Log::keep_all`], and drops the others that no reader holds.
    /// O(n + log m) in the deltas that are dropped and the numbers that are held.
    pub fn keep_as(&mut self, keeping: Keeping)
        requires begun { keeping.base ≤ self.old.held_after }
        requires kept { self.old.held_after ≤ kept_after (kept_as keeping self.old) (newest self.old) }
        ensures after { self.new ≡ trimmed (kept_as keeping self.old) }
        ensures sound { IsLog self.new }
    {
        self.base = keeping.base;
        self.retention = keeping.retention;
        self.trim();
    }

    /// Takes the newest delta out of a log that keeps all, and returns it. There are `rows` rows then.
    pub fn take_back(&mut self, rows: u64) -> Delta
        requires here { self.old.held_after < newest self.old }
        requires keeps { self.old.base ≡ self.old.held_after }
        requires unheld { All (λ holder. holder < newest self.old) self.old.holders }
        requires few { rows < newest self.old }
        ensures delta { self.old.deltas ≡ self.new.deltas ++ result ∷ [] }
        ensures after { self.new ≡ record self.old { deltas = self.new.deltas; rows = rows } }
        ensures sound { IsLog self.new }
    {
        let Some(delta) = self.deltas.pop_back() else {
            unreachable!()
        };
        self.rows = rows;
        delta
    }

    /// Drops the deltas that no reader holds, except the last ones, which the log keeps in any case. The queue keeps
    /// its memory for later deltas. O(n + log m) in the deltas that are dropped and the numbers that are held.
    pub fn trim(&mut self)
        ensures after { self.new ≡ trimmed self.old }
        ensures newest_stays { newest self.new ≡ newest self.old }
        ensures sound { IsLog self.new }
    {
        let bound = self.slowest().min(self.kept_after());
        drop_front(&mut self.deltas, bound - self.held_after);
        self.held_after = bound;
    }
}
