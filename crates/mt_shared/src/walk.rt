//! Walks of a client over the rows of a map that others change: in pieces, each of a moment of its own.

ghost use Rattle.std.specs.Prelude.{◌≡◌, ◌<◌, ◌≤◌, IfOk, IfSome, OnSome, None, Some, Result, [], length, true};
ghost use Rattle.std.specs.Range.Bound.{bound_map};
ghost use Rattle.std.specs.declared.ops.Bound.TheVariants.{Included, Unbounded};
ghost use Rattle.mt_types.specs.declared.limits.TheConstants.{MAX_KEY_BYTES, MAX_RANGE};
ghost use Rattle.mt_types.specs.declared.refusal.Refusal.{Refusal};
ghost use Rattle.mt_types.specs.declared.event.Reply.{Reply};
ghost use Rattle.mt_types.specs.declared.event.Request.TheVariants.{Range};
ghost use Rattle.mt_asked.specs.Bounds.{is_from, start_key};
ghost use Rattle.mt_shared.specs.Clients.{Reads, answer_at, rows_within};
ghost use Rattle.mt_shared.specs.Walks.{IsLastKey, IsPiece, keys_left, rest_of};

use crate::answers::At;
use crate::client::Client;
use crate::driving::Shared;
use mt_asked::bounds::Bounds;
use mt_slice::key_bytes;
use mt_types::copying::TryCopy;
use mt_types::key::Key;
use mt_types::refusal::{NoMemory, Refusal};
use mt_types::row::Pairs;
use std::alloc::Global;
use std::ops::Bound;

/// A walk over the rows of a map whose keys are within bounds, in the order of the keys, in pieces. Each piece is of a
/// moment of its own, which isn't before that of the piece before it: so the walk may show a row that was put after it began,
/// and may not show one that was removed.
///
///     let mut walk = Walk::within((Bound::Included(b"a"), Bound::Excluded(b"b")));
///     while let Some(piece) = walk.next(&mut client)? {
///         println!(rt; "{} rows at commit {}", piece.value.len(), piece.to)?;
///     }
///
/// Between two pieces no lock is held, and the client may make other calls. Such a loop ends: `keys_left` of the walk's last
/// key is less after each piece.
#[derive(Drop)]
pub struct Walk<'b> {
    start: Bound<&'b [u8]>,
    end: Bound<&'b [u8]>,
    last: Option<Key>,
}

// Returns the last key of a piece, if it has one.
fn last_key(alloc: Global, pairs: &Pairs) -> Result<Option<Key>, NoMemory>
    ensures { IsLastKey pairs.now result }
{
    match pairs.as_slice().last() {
        Some((key, _)) => Ok(Some(key.copy(alloc)?)),
        None => Ok(None),
    }
}

impl<'b> Walk<'b> {
    /// Returns a walk that is before the first row whose key is within a lower and an upper bound.
    ///
    ///     let mut walk = Walk::within((Bound::Unbounded, Bound::Unbounded));
    pub fn within(bounds: Bounds<'b>) -> Walk<'b>
        ensures start { result.start ≡ bounds.entry.0 }
        ensures end { result.end ≡ bounds.entry.1 }
        ensures last { result.last ≡ None }
    {
        let (start, end) = bounds;
        Walk {
            start,
            end,
            last: None,
        }
    }

    // Returns the bounds of the next piece.
    fn rest(&self) -> Bounds<'_>
        ensures start { bound_map (λ key. key.now) result.0 ≡ rest_of (bound_map (λ key. key.now) self.now.start)
            self.now.last }
        ensures end { bound_map (λ key. key.now) result.1 ≡ bound_map (λ key. key.now) self.now.end }
        ensures fits { IfSome self.now.last (λ last. length last ≤ MAX_KEY_BYTES) }
    {
        match &self.last {
            Some(last) => (Bound::Excluded(last.as_slice()), self.end),
            None => (self.start, self.end),
        }
    }

    // Goes to a key, which isn't before the bound of the next piece.
    fn go_to(&mut self, last: Key)
        requires later { is_from (rest_of (bound_map (λ key. key.now) self.old.start) self.old.last) last ≡ true }
        requires fits { IfSome self.old.last (λ last. length last ≤ MAX_KEY_BYTES) }
        ensures last { self.new.last ≡ Some last }
        ensures fewer { keys_left self.new.last < keys_left self.old.last }
        ensures start { self.new.start ≡ self.old.start }
        ensures end { self.new.end ≡ self.old.end }
    {
        let _bytes = key_bytes(&last);
        self.last = Some(last);
    }

    /// Returns the next rows within the bounds: those of the next `MAX_RANGE` rows from the last key on, as they are at one
    /// moment. Returns `None` if there are none: then a later call finds rows that came since.
    ///
    /// Costs what [`Client::range`] costs.
    ///
    /// # Errors
    ///
    /// Those of [`Client::range`]; `NoMemory` if an allocation is refused. The walk is then as it was, and may continue.
    pub fn next<S: Shared>(&mut self, client: &mut Client<S>) -> Result<Option<At<Pairs>>, Refusal>
        ensures piece { (ended : Result Reply Refusal)
            × Reads S.does S.shows (S.columns client.old.shared) client.old.shared client.old.pass
            (Range (start_key (rest_of (bound_map (λ key. key.now) self.old.start) self.old.last)) MAX_RANGE []) ended
            client.new.shared client.new.pass
            × IsPiece (answer_at (rows_within (rest_of (bound_map (λ key. key.now) self.old.start) self.old.last)
            (bound_map (λ key. key.now) self.old.end)) ended) self.old.last result self.new.last }
        ensures fewer { IfOk result (λ piece. OnSome piece (keys_left self.new.last < keys_left self.old.last)) }
        ensures start { self.new.start ≡ self.old.start }
        ensures end { self.new.end ≡ self.old.end }
        ensures turns { client.new.turns ≡ client.old.turns }
    {
        let piece = client.range(self.rest())?;
        let Some(last) = last_key(client.alloc, &piece.value)? else {
            return Ok(None);
        };
        self.go_to(last);
        Ok(Some(piece))
    }
}

impl<S: Shared> Client<S> {
    /// Returns a walk that is before the first row whose key is `start` or after it. It is read in pieces
    /// ([`Walk::next`]).
    ///
    ///     let mut walk = client.walk(b"a");
    ///     while let Some(piece) = walk.next(&mut client)? {
    ///         println!(rt; "{} rows at commit {}", piece.value.len(), piece.to)?;
    ///     }
    pub fn walk<'b>(&self, start: &'b [u8]) -> Walk<'b>
        ensures start { bound_map (λ key. key.now) result.start ≡ Included start.now }
        ensures end { bound_map (λ key. key.now) result.end ≡ Unbounded }
        ensures last { result.last ≡ None }
    {
        Walk::within((Bound::Included(start), Bound::Unbounded))
    }
}
