//! More methods of a client that read: whether there is a key, the first and the last one, many keys, the last rows before a
//! bound, counts.

ghost use Rattle.std.specs.Prelude.{◌≡◌, IfOk, None, Result, []};
ghost use Rattle.std.specs.Option.{option_copied};
ghost use Rattle.mt_types.specs.declared.refusal.Refusal.{Refusal};
ghost use Rattle.mt_types.specs.declared.event.Reply.{Reply};
ghost use Rattle.mt_types.specs.declared.event.Request.TheVariants.{Get, Range};
ghost use Rattle.mt_reads.specs.declared.quiet.QuietRead.TheVariants.{Gets, RangeBack, Count};
ghost use Rattle.mt_shared.specs.Clients.{Reads, answer_at, first_of, last_of, there_of};
ghost use Rattle.mt_shared.specs.Quiet.{ReadsQuietly, count_of, found_of, now_or_none, pairs_of, valued_now};

use crate::answers::{At, answer_at, first_key, first_of, there_of};
use crate::client::Client;
use crate::driving::Shared;
use crate::quiet::read_quiet;
use bytes::Bytes;
use mt_asked::asked::{Asked, numbers_of};
use mt_reads::quiet::{QuietAnswer, QuietRead};
use mt_types::copying::TryCopy;
use mt_types::items::Items;
use mt_types::key::Key;
use mt_types::refusal::{NoMemory, Refusal};
use mt_types::row::{Pairs, Row};
use std::alloc::Global;

fn found_of(answer: QuietAnswer) -> Option<Items<Option<Row>>>
    ensures { result ≡ found_of answer }
{
    match answer {
        QuietAnswer::Rows(found) => Some(found),
        _ => None,
    }
}

fn pairs_of(answer: QuietAnswer) -> Option<Pairs>
    ensures { result ≡ pairs_of answer }
{
    match answer {
        QuietAnswer::Pairs(pairs) => Some(pairs),
        _ => None,
    }
}

// Returns the key of the first pair.
fn last_of(answer: QuietAnswer) -> Option<Option<Key>>
    ensures { result ≡ last_of answer }
{
    match answer {
        QuietAnswer::Pairs(pairs) => Some(first_key(pairs)),
        _ => None,
    }
}

fn count_of(answer: QuietAnswer) -> Option<u32>
    ensures { result ≡ count_of answer }
{
    match answer {
        QuietAnswer::Count(count) => Some(count),
        _ => None,
    }
}

// Returns a value with its number of commits.
fn valued<T>(from: u64, to: u64, value: Option<T>) -> Result<Option<At<T>>, Refusal>
    ensures { result ≡ valued_now from to value }
{
    match value {
        Some(value) => Ok(Some(At { value, from, to })),
        None => Err(Refusal::WrongPass),
    }
}

// Returns a copy of a bound.
fn copied(alloc: Global, bound: Option<&[u8]>) -> Result<Option<Bytes>, NoMemory>
    ensures { IfOk result (λ copy. copy ≡ option_copied bound.entry) }
{
    match bound {
        Some(bound) => Ok(Some(Bytes::copy_from_slice(alloc, bound)?)),
        None => Ok(None),
    }
}

// Returns copies of keys, which share their bytes.
fn keys_of(alloc: Global, keys: &[Bytes]) -> Result<Items<Bytes>, NoMemory>
    ensures { IfOk result (λ copies. copies ≡ keys.now) }
{
    let mut copies = Vec::with_capacity(alloc, keys.len())?;
    for key in keys {
        copies.push(key.copy(alloc)?)?;
    }
    Ok(Items::from_vec(copies))
}

impl<S: Shared> Client<S> {
    /// Returns how many columns a row has.
    ///
    ///     println!(rt; "{} columns", client.columns())?;
    pub fn columns(&self) -> u8
        ensures { result ≡ S.columns self.now.shared }
    {
        self.shared.columns()
    }

    /// Returns whether `key` has a row. Costs what [`Client::get`] costs.
    ///
    ///     if !client.contains_key(b"apple")?.value {
    ///         let _ = client.put(b"apple", &[])?;
    ///     }
    ///
    /// # Errors
    ///
    /// Those of [`Client::get`].
    pub fn contains_key(&mut self, key: &[u8]) -> Result<At<bool>, Refusal>
        ensures answers { (ended : Result Reply Refusal) × (result ≡ answer_at there_of ended)
            × Reads S.does S.shows (S.columns self.old.shared) self.old.shared self.old.pass (Get key.now []) ended
            self.new.shared self.new.pass }
        ensures turns { self.new.turns ≡ self.old.turns }
    {
        let columns = &[];
        let reply = self.read(&Asked::Get { key, columns })?;
        answer_at(reply.from, reply.to, there_of(reply.answer))
    }

    /// Returns the first key, or `None` if there are no rows. Costs what [`Client::pairs`] costs for one row.
    ///
    ///     if let Some(key) = client.first()?.value {
    ///         let _ = client.remove(key.as_slice())?;
    ///     }
    ///
    /// # Errors
    ///
    /// Those of [`Client::pairs`].
    pub fn first(&mut self) -> Result<At<Option<Key>>, Refusal>
        ensures answers { (ended : Result Reply Refusal) × (result ≡ answer_at first_of ended)
            × Reads S.does S.shows (S.columns self.old.shared) self.old.shared self.old.pass (Range [] 1 []) ended
            self.new.shared self.new.pass }
        ensures turns { self.new.turns ≡ self.old.turns }
    {
        let reply = self.read(&Asked::Range {
            start: b"",
            limit: 1,
            columns: &[],
        })?;
        answer_at(reply.from, reply.to, first_of(reply.answer))
    }

    /// Returns the row of each key, or `None` if it has none, in the order of the keys: all of one moment. Each row has the
    /// columns that are asked for, or all if none is asked for. Returns `None` if a put, remove or tidy of another thread
    /// stays open ([`read_quiet`]).
    ///
    ///     if let Some(found) = client.get_many(&[apple, pear], &[])? {
    ///         println!(rt; "{} rows at commit {}", found.value.len(), found.to)?;
    ///     }
    ///
    /// Costs what `mt_reads::get_many` costs.
    ///
    /// # Errors
    ///
    /// Those of `mt_reads::get_many` and [`read_quiet`].
    pub fn get_many(
        &mut self,
        keys: &[Bytes],
        columns: &[u8],
    ) -> Result<Option<At<Items<Option<Row>>>>, Refusal>
        ensures answers { ReadsQuietly S.glances self.old.shared self.old.pass (Gets keys.now columns.now) found_of result
            self.new.pass }
        ensures shared { self.new.shared ≡ self.old.shared }
        ensures turns { self.new.turns ≡ self.old.turns }
    {
        let keys = keys_of(self.alloc, keys)?;
        let columns = numbers_of(self.alloc, columns)?;
        let read = QuietRead::Gets { keys, columns };
        match read_quiet(self.alloc, &self.shared, &mut self.pass, &read) {
            Some(Ok(at)) => valued(at.from, at.to, found_of(at.value)),
            Some(Err(refusal)) => Err(refusal),
            None => Ok(None),
        }
    }

    /// Returns the last rows whose keys are before `before`, or the last of all, at most `limit`, the greatest key first,
    /// each with the columns that are asked for, or with all if none is asked for. Returns `None` if a put, remove or tidy
    /// of another thread stays open ([`read_quiet`]).
    ///
    ///     if let Some(last) = client.pairs_back(None, 10, &[])? {
    ///         println!(rt; "{} rows at commit {}", last.value.len(), last.to)?;
    ///     }
    ///
    /// Costs what `mt_reads::pairs_back` costs.
    ///
    /// # Errors
    ///
    /// Those of `mt_reads::pairs_back` and [`read_quiet`].
    pub fn pairs_back(
        &mut self,
        before: Option<&[u8]>,
        limit: u16,
        columns: &[u8],
    ) -> Result<Option<At<Pairs>>, Refusal>
        ensures answers { ReadsQuietly S.glances self.old.shared self.old.pass
            (RangeBack (option_copied before.entry) limit columns.now) pairs_of result self.new.pass }
        ensures shared { self.new.shared ≡ self.old.shared }
        ensures turns { self.new.turns ≡ self.old.turns }
    {
        let before = copied(self.alloc, before)?;
        let columns = numbers_of(self.alloc, columns)?;
        let read = QuietRead::RangeBack {
            before,
            limit,
            columns,
        };
        match read_quiet(self.alloc, &self.shared, &mut self.pass, &read) {
            Some(Ok(at)) => valued(at.from, at.to, pairs_of(at.value)),
            Some(Err(refusal)) => Err(refusal),
            None => Ok(None),
        }
    }

    /// Returns the last key, or `None` in it if there are no rows. Returns `None` if a put, remove or tidy of another thread
    /// stays open ([`read_quiet`]).
    ///
    ///     if let Some(At { value: Some(key), .. }) = client.last()? {
    ///         let _ = client.remove(key.as_slice())?;
    ///     }
    ///
    /// Costs what [`Client::pairs_back`] costs for one row.
    ///
    /// # Errors
    ///
    /// `NoMemory`, and those of [`read_quiet`].
    pub fn last(&mut self) -> Result<Option<At<Option<Key>>>, Refusal>
        ensures answers { ReadsQuietly S.glances self.old.shared self.old.pass (RangeBack None 1 []) last_of result
            self.new.pass }
        ensures shared { self.new.shared ≡ self.old.shared }
        ensures turns { self.new.turns ≡ self.old.turns }
    {
        let read = QuietRead::RangeBack {
            before: None,
            limit: 1,
            columns: Items::new(self.alloc),
        };
        match read_quiet(self.alloc, &self.shared, &mut self.pass, &read) {
            Some(Ok(at)) => valued(at.from, at.to, last_of(at.value)),
            Some(Err(refusal)) => Err(refusal),
            None => Ok(None),
        }
    }

    /// Returns how many rows have keys from `from` on and before `to`, or before no bound, counted up to `most`. Returns
    /// `None` if a put, remove or tidy of another thread stays open ([`read_quiet`]).
    ///
    ///     if let Some(count) = client.count(b"a", Some(b"b"), 1_000)? {
    ///         println!(rt; "{} rows at commit {}", count.value, count.to)?;
    ///     }
    ///
    /// Costs what `mt_reads::count` costs, while changes wait.
    ///
    /// # Errors
    ///
    /// Those of `mt_reads::count` and [`read_quiet`].
    pub fn count(
        &mut self,
        from: &[u8],
        to: Option<&[u8]>,
        most: u32,
    ) -> Result<Option<At<u32>>, Refusal>
        ensures answers { ReadsQuietly S.glances self.old.shared self.old.pass
            (Count from.now (option_copied to.entry) most) count_of result self.new.pass }
        ensures shared { self.new.shared ≡ self.old.shared }
        ensures turns { self.new.turns ≡ self.old.turns }
    {
        let from = Bytes::copy_from_slice(self.alloc, from)?;
        let to = copied(self.alloc, to)?;
        let read = QuietRead::Count { from, to, most };
        match read_quiet(self.alloc, &self.shared, &mut self.pass, &read) {
            Some(Ok(at)) => valued(at.from, at.to, count_of(at.value)),
            Some(Err(refusal)) => Err(refusal),
            None => Ok(None),
        }
    }
}
