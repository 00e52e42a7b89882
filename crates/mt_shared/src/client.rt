//! A client: what one thread has of a map that many share, with the methods of a map.

ghost use Rattle.std.specs.Prelude.{◌≡◌, ◌≤◌, IfOk, IfErr, Result, [], max};
ghost use Rattle.std.specs.Range.Bound.{bound_map};
ghost use Rattle.mt_types.specs.declared.limits.TheConstants.{MAX_RANGE};
ghost use Rattle.mt_types.specs.declared.refusal.Refusal.{Refusal};
ghost use Rattle.mt_types.specs.declared.event.Event.TheVariants.{ViewDrop};
ghost use Rattle.mt_types.specs.declared.event.Reply.{Reply};
ghost use Rattle.mt_types.specs.declared.event.Request.TheVariants.{Build, Get, Put, PutIf, Range, Remove, Tidy};
ghost use Rattle.mt_asked.specs.Borrowed.{request_of, sets_of, spec_of};
ghost use Rattle.mt_asked.specs.Bounds.{start_key};
ghost use Rattle.mt_shared.specs.Clients.{Changes, Drives, Reads, ReadsPage, answer_at, built_of, removed_of, row_of, rows_of, rows_within, stored_of, tidied_of};
ghost use Rattle.mt_shared.specs.Turns.{IsStopped, KeepsUp, drop_outcome};

pub use crate::answers::At;
use crate::answers::{
    answer_at, built_of, removed_of, row_of, rows_of, rows_within, stored_of, tidied_of,
};
use crate::asking::ask;
use crate::changing::drive_and_keep;
use crate::driving::{NoGate, Shared, drive};
use crate::pass::Pass;
use crate::views;
use bytes::Bytes;
use mt_asked::asked::Asked;
use mt_asked::borrowed::{Set, Spec};
use mt_asked::bounds::{Bounds, start_key};
use mt_types::event::{Reply, TidyRule};
use mt_types::limits::{MAX_RANGE, page_fault};
use mt_types::numbers::ViewNo;
use mt_types::refusal::Refusal;
use mt_types::row::{Pairs, Row};
use mt_types::view::Page;
use std::alloc::Global;

/// The most turns by which a client keeps up views after a change, unless its field `turns` is set.
pub const TURNS: u64 = 64;

/// One client of a map that many threads share: a pass, and the access to the map by which it makes its calls, as a
/// [`crate::door::Door`].
///
/// A change keeps up the views, in at most `turns` turns, and tidies follow a remove, as [`drive_and_keep`] says.
#[derive(Drop)]
pub struct Client<S> {
    pub(crate) alloc: Global,
    /// The access to the map.
    pub shared: S,
    /// The pass.
    pub pass: Pass,
    /// The most turns by which views are kept up after a change. With 0 they are kept up by [`Client::keep_views`] alone.
    pub turns: u64,
}

impl<S: Shared> Client<S> {
    /// Returns the client that makes the calls of `pass` by `shared`. It allocates by `alloc`.
    pub fn new(alloc: Global, shared: S, pass: Pass) -> Client<S>
        ensures shared { result.shared ≡ shared }
        ensures pass { result.pass ≡ pass }
        ensures turns { result.turns ≡ TURNS }
    {
        Client {
            alloc,
            shared,
            pass,
            turns: TURNS,
        }
    }

    /// Returns the row of `key`, or `None` if the key has no row. It is read at once, together with other reads, if it may
    /// be ([`ask`]).
    ///
    ///     if let Some(row) = client.get(b"apple")?.value {
    ///         println!(rt; "version {}", row.version)?;
    ///     }
    ///
    /// Costs the visit of each node on the way to the key. Copies the key; the row shares the bytes of its columns.
    ///
    /// # Errors
    ///
    /// `KeyTooLong`, whatever memory there is. Otherwise those of [`ask`], `TooManyCalls` and `NoMemory` among them.
    pub fn get(&mut self, key: &[u8]) -> Result<At<Option<Row>>, Refusal>
        ensures answers { (ended : Result Reply Refusal) × (result ≡ answer_at row_of ended)
            × Reads S.does S.shows (S.columns self.old.shared) self.old.shared self.old.pass (Get key.now []) ended
            self.new.shared self.new.pass }
        ensures turns { self.new.turns ≡ self.old.turns }
    {
        let columns = &[];
        let reply = self.read(&Asked::Get { key, columns })?;
        answer_at(reply.from, reply.to, row_of(reply.answer))
    }

    /// Returns the first rows whose keys are at or after `start`, at most `limit`, in the order of keys, each with the
    /// columns that are asked for, or with all if none is asked for. They are read at once, together with other reads, if
    /// they may be ([`ask`]).
    ///
    ///     let pairs = client.pairs(b"a", 10, &[])?.value;
    ///
    /// Costs what `Map::pairs` costs.
    ///
    /// # Errors
    ///
    /// `KeyTooLong`; `BadColumn` if a column does not exist or is named twice; `BadLimit` unless `limit` is from 1 to
    /// `MAX_RANGE`: the first of these that applies, whatever memory there is. Otherwise those of [`ask`].
    pub fn pairs(&mut self, start: &[u8], limit: u16, columns: &[u8]) -> Result<At<Pairs>, Refusal>
        ensures answers { (ended : Result Reply Refusal) × (result ≡ answer_at rows_of ended)
            × Reads S.does S.shows (S.columns self.old.shared) self.old.shared self.old.pass
            (Range start.now limit columns.now) ended self.new.shared self.new.pass }
        ensures turns { self.new.turns ≡ self.old.turns }
    {
        let reply = self.read(&Asked::Range {
            start,
            limit,
            columns,
        })?;
        answer_at(reply.from, reply.to, rows_of(reply.answer))
    }

    /// Returns the first rows whose keys are within a lower and an upper bound, in the order of keys: those of the first
    /// `MAX_RANGE` rows from the key of the lower bound on. A caller that wants more asks again, with the last key as an
    /// excluded lower bound, until no row is returned.
    ///
    ///     let rows = client.range((Bound::Included(b"a"), Bound::Excluded(b"b")))?.value;
    ///
    /// Costs what [`Client::pairs`] costs for `MAX_RANGE` rows, wherever the upper bound is.
    ///
    /// # Errors
    ///
    /// `KeyTooLong` if the lower bound has more than `MAX_KEY_BYTES` bytes, whatever memory there is. Otherwise those of
    /// [`ask`].
    pub fn range(&mut self, bounds: Bounds<'_>) -> Result<At<Pairs>, Refusal>
        ensures answers { (ended : Result Reply Refusal)
            × (result ≡ answer_at (rows_within (bound_map (λ key. key.now) bounds.entry.0)
            (bound_map (λ key. key.now) bounds.entry.1)) ended)
            × Reads S.does S.shows (S.columns self.old.shared) self.old.shared self.old.pass
            (Range (start_key (bound_map (λ key. key.now) bounds.entry.0)) MAX_RANGE []) ended self.new.shared
            self.new.pass }
        ensures turns { self.new.turns ≡ self.old.turns }
    {
        let reply = self.read(&Asked::Range {
            start: start_key(bounds.0),
            limit: MAX_RANGE,
            columns: &[],
        })?;
        answer_at(reply.from, reply.to, rows_within(bounds, reply.answer))
    }

    /// Puts new bytes into columns of the row of `key`. The others keep theirs, or are empty if the row is new. Returns
    /// the number of the commit.
    ///
    ///     let commit = client.put(b"apple", &[Set::new(0, b"red")])?.value;
    ///
    /// Costs what [`drive_and_keep`] costs. Copies the key and the sets.
    ///
    /// # Errors
    ///
    /// `KeyTooLong`, `BadColumn` or `ColumnTooLong` for the first limit that is broken, whatever memory there is. Otherwise
    /// those of [`drive_and_keep`], `ArenaFull`, `FeedFull` and `NoMemory` among them. A put that has committed is never
    /// refused.
    pub fn put(&mut self, key: &[u8], sets: &[Set<'_>]) -> Result<At<u64>, Refusal>
        ensures answers { (ended : Result Reply Refusal) × (result ≡ answer_at stored_of ended)
            × Changes S.does S.looks (S.columns self.old.shared) self.old.shared self.old.pass
            (Put key.now (sets_of sets.now)) self.old.turns ended self.new.shared self.new.pass }
        ensures turns { self.new.turns ≡ self.old.turns }
    {
        let reply = self.change(&Asked::Put { key, sets })?;
        answer_at(reply.from, reply.to, stored_of(reply.answer))
    }

    /// Puts as [`Client::put`] does, if the row of `key` has this version, the number of its last commit, or, for
    /// version 0, if `key` has no row.
    ///
    ///     match client.put_if(b"apple", &[Set::new(0, b"green")], commit) {
    ///         Ok(next) => commit = next.value,
    ///         Err(Refusal::OtherVersion(found)) => commit = found,
    ///         Err(refusal) => return Err(refusal),
    ///     }
    ///
    /// So a client that reads a row and puts it changed, with the version that it read, never overwrites a put of another
    /// client: if such a put came between, this one is refused, and the client reads the row again.
    ///
    /// # Errors
    ///
    /// `OtherVersion`, with the version that the row has: then no row has changed. Otherwise those of [`Client::put`].
    pub fn put_if(&mut self, key: &[u8], sets: &[Set<'_>], version: u64) -> Result<At<u64>, Refusal>
        ensures answers { (ended : Result Reply Refusal) × (result ≡ answer_at stored_of ended)
            × Changes S.does S.looks (S.columns self.old.shared) self.old.shared self.old.pass
            (PutIf key.now (sets_of sets.now) version) self.old.turns ended self.new.shared self.new.pass }
        ensures turns { self.new.turns ≡ self.old.turns }
    {
        let reply = self.change(&Asked::PutIf { key, sets, version })?;
        answer_at(reply.from, reply.to, stored_of(reply.answer))
    }

    /// Removes the row of `key`. Returns the number of the commit, or `None` if the key has no row.
    ///
    ///     if client.remove(b"apple")?.value.is_none() {
    ///         println!(rt; "there was no apple")?;
    ///     }
    ///
    /// Costs what [`drive_and_keep`] costs. Copies the key.
    ///
    /// # Errors
    ///
    /// `KeyTooLong`, whatever memory there is. Otherwise those of [`drive_and_keep`], `FeedFull` and `NoMemory` among them.
    /// A remove that has committed is never refused.
    pub fn remove(&mut self, key: &[u8]) -> Result<At<Option<u64>>, Refusal>
        ensures answers { (ended : Result Reply Refusal) × (result ≡ answer_at removed_of ended)
            × Changes S.does S.looks (S.columns self.old.shared) self.old.shared self.old.pass (Remove key.now)
            self.old.turns ended self.new.shared self.new.pass }
        ensures turns { self.new.turns ≡ self.old.turns }
    {
        let reply = self.change(&Asked::Remove { key })?;
        answer_at(reply.from, reply.to, removed_of(reply.answer))
    }

    /// Makes one change that tidies the tree on the way to `key` (Masstree, EuroSys 2012, section 4.6.5), and returns
    /// which. No row changes. A remove makes tidies of its own, unless the options of the map ask for none.
    ///
    ///     let rule = client.tidy(b"apple")?.value;
    ///
    /// # Errors
    ///
    /// `KeyTooLong`, whatever memory there is. Otherwise those of [`drive`], `TooManyCalls` and `NoMemory` among them.
    pub fn tidy(&mut self, key: &[u8]) -> Result<At<TidyRule>, Refusal>
        ensures answers { (ended : Result Reply Refusal) × (result ≡ answer_at tidied_of ended)
            × Drives S.does (S.columns self.old.shared) self.old.shared self.old.pass (Tidy key.now) ended
            self.new.shared self.new.pass }
        ensures turns { self.new.turns ≡ self.old.turns }
    {
        let reply = self.drive(&Asked::Tidy { key })?;
        answer_at(reply.from, reply.to, tidied_of(reply.answer))
    }

    /// Builds a view while other calls are open, and returns its number. The view is then kept up by changes, and by
    /// [`Client::keep_views`].
    ///
    ///     let view = client.build(&Spec::Prefix { key: b"ap", test: Test::Any })?.value;
    ///
    /// # Errors
    ///
    /// `KeyTooLong`, `BadColumn`, `ColumnTooLong` or `BadRange` for the first limit that the specification breaks,
    /// whatever memory there is. Otherwise those of [`drive_and_keep`], `TooManyViews` and `NoMemory` among them.
    pub fn build(&mut self, spec: &Spec<'_>) -> Result<At<ViewNo>, Refusal>
        ensures answers { (ended : Result Reply Refusal) × (result ≡ answer_at built_of ended)
            × Changes S.does S.looks (S.columns self.old.shared) self.old.shared self.old.pass
            (Build (spec_of spec.now)) self.old.turns ended self.new.shared self.new.pass }
        ensures turns { self.new.turns ≡ self.old.turns }
    {
        let reply = self.change(&Asked::Build { spec })?;
        answer_at(reply.from, reply.to, built_of(reply.answer))
    }

    // Reads at once, if it may, after the limits are tested and the bytes copied.
    pub(crate) fn read(&mut self, asked: &Asked<'_>) -> Result<Reply, Refusal>
        ensures reads { Reads S.does S.shows (S.columns self.old.shared) self.old.shared self.old.pass
            (request_of asked.now) result self.new.shared self.new.pass }
        ensures turns { self.new.turns ≡ self.old.turns }
    {
        let columns = self.shared.columns();
        match asked.checked(self.alloc, columns) {
            Ok(request) => ask(self.alloc, &mut self.shared, &mut self.pass, request),
            Err(refusal) => Err(refusal),
        }
    }

    // Makes a change, and keeps up the views, after the limits are tested and the bytes copied.
    pub(crate) fn change(&mut self, asked: &Asked<'_>) -> Result<Reply, Refusal>
        ensures changes { Changes S.does S.looks (S.columns self.old.shared) self.old.shared self.old.pass
            (request_of asked.now) self.old.turns result self.new.shared self.new.pass }
        ensures turns { self.new.turns ≡ self.old.turns }
    {
        let columns = self.shared.columns();
        match asked.checked(self.alloc, columns) {
            Ok(request) => drive_and_keep(
                self.alloc,
                &mut self.shared,
                &mut self.pass,
                request,
                self.turns,
            ),
            Err(refusal) => Err(refusal),
        }
    }

    // Drives a call, after the limits are tested and the bytes copied.
    pub(crate) fn drive(&mut self, asked: &Asked<'_>) -> Result<Reply, Refusal>
        ensures drives { Drives S.does (S.columns self.old.shared) self.old.shared self.old.pass
            (request_of asked.now) result self.new.shared self.new.pass }
        ensures turns { self.new.turns ≡ self.old.turns }
    {
        let columns = self.shared.columns();
        match asked.checked(self.alloc, columns) {
            Ok(request) => drive(
                self.alloc,
                &mut self.shared,
                &mut self.pass,
                &mut NoGate,
                request,
            ),
            Err(refusal) => Err(refusal),
        }
    }

    /// Reads a page of a view: its count, its sums, and its first rows whose keys are at or after `start`, at most
    /// `limit`. The page is at `floor` commits or more, and no older than what the pass has seen.
    ///
    ///     let page = client.page(view, 0, b"", 10)?;
    ///     println!(rt; "{} rows in all", page.count)?;
    ///
    /// Costs what [`views::view_read`] costs. Copies the start.
    ///
    /// # Errors
    ///
    /// `KeyTooLong`, or `BadLimit` unless `limit` is from 1 to `MAX_RANGE`, whatever memory there is. Otherwise those of
    /// [`views::view_read`].
    pub fn page(
        &mut self,
        view: ViewNo,
        floor: u64,
        start: &[u8],
        limit: u16,
    ) -> Result<Page, Refusal>
        ensures read { ReadsPage S.does S.pages self.old.shared self.old.pass view (max floor self.old.pass.seen)
            start.now limit result self.new.shared self.new.pass }
        ensures floor { IfOk result (λ page. floor ≤ page.at) }
        ensures seen { IfOk result (λ page. self.old.pass.seen ≤ page.at) }
        ensures turns { self.new.turns ≡ self.old.turns }
    {
        if let Some(refusal) = page_fault(start, limit) {
            return Err(refusal);
        }
        let Ok(start) = Bytes::copy_from_slice(self.alloc, start) else {
            return Err(Refusal::NoMemory);
        };
        let floor = floor.max(self.pass.seen());
        views::view_read(
            self.alloc,
            &mut self.shared,
            &mut self.pass,
            view,
            floor,
            start,
            limit,
        )
    }

    /// Drops a view: [`views::view_drop`].
    ///
    /// # Errors
    ///
    /// Those of [`views::view_drop`].
    pub fn drop_view(&mut self, view: ViewNo) -> Result<(), Refusal>
        ensures drops { S.does self.old.shared self.old.pass (ViewDrop view) (drop_outcome result) self.new.shared
            self.new.pass }
        ensures turns { self.new.turns ≡ self.old.turns }
    {
        views::view_drop(self.alloc, &mut self.shared, &mut self.pass, view)
    }

    /// Advances views, in at most `turns` turns: [`views::keep_views`].
    ///
    /// # Errors
    ///
    /// Those of [`views::keep_views`].
    pub fn keep_views(&mut self, turns: u64) -> Result<u64, Refusal>
        ensures kept { IfOk result (λ applied. KeepsUp S.does self.old.shared self.old.pass turns applied
            self.new.shared self.new.pass) }
        ensures refused { IfErr result (λ refusal. IsStopped S.does self.old.shared self.old.pass turns refusal
            self.new.shared self.new.pass) }
        ensures turns { self.new.turns ≡ self.old.turns }
    {
        views::keep_views(self.alloc, &mut self.shared, &mut self.pass, turns)
    }
}
