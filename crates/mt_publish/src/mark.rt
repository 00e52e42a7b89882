//! Marks: a mark is a beginning of the chain of deltas that were appended to a publisher. Of two marks of one chain,
//! the shorter is a beginning of the longer. So the list of a reader can be compared with one that it has learnt of.

ghost use Rattle.std.specs.Prelude.{◌≡◌, ◌<◌, ◌⊎◌, ◌∷◌, ◌++◌, [], length, IsTrue, MatchBool};
ghost use Rattle.mt_publish.specs.Marks.{MarkView, StartsWith};
ghost use Rattle.mt_publish.specs.Book.{end_of};

use logbook::{Gain, Offer, Plain, Play, Rule, Seen, Start, Word};
use mt_types::row::Delta;
use std::marker::Model;

/// The rule of a chain's book: its word is the length of the chain.
pub struct Law;

impl Rule<Delta, u64> for Law {
    ghost use Rattle.std.specs.Prelude.{[]};
    ghost use base.Fml.{ftrue};
    ghost use Rattle.mt_publish.specs.Book.{IsCounted};

    ghost holds = { IsCounted };

    ghost first = { [] };

    ghost hinted = { λ _ _. Unit {0} };

    ghost shows = { λ _. [] };

    ghost keeps = { λ _ _. ftrue };

    ghost moves = { λ _ _ _ _. Unit {0} };
}

/// Adding to a chain gains nothing.
pub struct Nothing;

impl Gain<Delta, u64> for Nothing {
    ghost use base.Fml.{ftrue};

    ghost after = { λ _ _ _. ftrue };
}

/// The step that adds a delta.
pub struct Add;

impl Play<Delta, u64> for Add {
    ghost use Rattle.mt_publish.specs.Book.{Adds};

    ghost then = { Adds };
}

impl Plain<Delta, Delta, u64> for Add {
    ghost use Rattle.std.specs.Prelude.{None};

    ghost ask = { λ delta. delta };

    ghost state = { λ _. None };
}

/// The end of a chain, at which deltas are added. Contracts see it as a word of the chain's book.
pub(crate) type End = Word<Delta, u64, Law>;

/// A beginning of a chain. At run time it holds only the number of its deltas.
#[derive(Drop)]
pub struct Mark {
    count: u64,
    seen: Seen<Delta, u64, Law>,
}

impl Model for Mark {
    ghost use Rattle.std.specs.Prelude.{◌≡◌, length};
    ghost use Rattle.mt_publish.specs.Marks.{MarkView};

    ghost Value = { MarkView };

    ghost view = { λ m. record { source = m.seen.book; list = m.seen.log } };

    ghost invariant = { λ m. m.count ≡ length m.seen.log };
}

impl Mark {
    /// Starts a new, empty chain. Returns its mark and its end.
    pub(crate) fn start() -> (Mark, End)
        ensures empty { result.0.list ≡ [] }
        ensures end { result.1 ≡ end_of result.0.source }
    {
        let (seen, mut first, _second) = Seen::open(Start::alone(), 0, 0);
        (Mark { count: 0, seen }, Word::tracked(0, &mut first))
    }

    /// Returns a copy.
    pub(crate) fn again(&self) -> Mark
        ensures { result ≡ self.now }
    {
        Mark {
            count: self.count,
            seen: self.seen.again(),
        }
    }

    /// Returns whether it has at least as many deltas as `other`. If so, those of `other` are a beginning of its own.
    pub(crate) fn covers(&self, other: &Mark) -> bool
        requires { other.now.source ≡ self.now.source }
        ensures { MatchBool result (StartsWith self.now.list other.now.list)
            (StartsWith other.now.list self.now.list × (length self.now.list < length other.now.list)) }
    {
        let mut both = self.seen.again();
        both.learn(&other.seen);
        other.count <= self.count
    }

    /// Returns the longer of two marks of one chain. Both are beginnings of it.
    pub(crate) fn longer(&self, other: &Mark) -> Mark
        requires { other.now.source ≡ self.now.source }
        ensures source { result.source ≡ self.now.source }
        ensures this { StartsWith result.list self.now.list }
        ensures other { StartsWith result.list other.now.list }
    {
        if self.covers(other) {
            self.again()
        } else {
            other.again()
        }
    }

    /// Adds a delta after all that the mark has, and returns whether it did. It fails only if the chain is longer than
    /// the mark, or has 2^64 - 1 deltas.
    pub(crate) fn add(&mut self, end: &End, delta: &Delta) -> bool
        requires { end.now ≡ end_of self.old.source }
        ensures added { MatchBool result (self.new ≡ record {
          source = self.old.source;
          list = self.old.list ++ delta.now ∷ [];
        }) (Unit {0}) }
        ensures source { self.new.source ≡ self.old.source }
    {
        let count = self.count;
        if count == u64::MAX {
            return false;
        }
        let mut seen = self.seen.again();
        let mut offer: Offer<Delta, u64, Law, Nothing> = seen.plain::<Nothing, Delta, Add>(delta);
        let mut pen = seen.no_pen();
        let found = end.compare_exchange::<Add, Nothing>(
            count,
            count + 1,
            &mut seen,
            &mut offer,
            &mut pen,
        );
        if found != count {
            return false;
        }
        *self = Mark {
            count: count + 1,
            seen,
        };
        true
    }
}
