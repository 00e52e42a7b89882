//! The chain of all deltas that were appended to a publisher, as the publisher writes it.

ghost use Rattle.std.specs.Prelude.{◌≡◌, ◌∷◌, ◌++◌, [], IsTrue, IfSome};
ghost use Rattle.mt_publish.specs.Book.{end_of};

use crate::mark::{End, Mark};
use mt_types::row::Delta;

/// The chain of a publisher. While it is `whole`, `last` is the mark of all of it. It always stays whole, because
/// nobody else has its end; but no contract can state that, since nothing says that nobody else has it.
#[derive(Drop)]
pub struct Chain {
    end: End,
    pub(crate) last: Mark,
    pub(crate) whole: bool,
    ghost end_is: { end ≡ end_of last.source },
}

impl Chain {
    /// Returns a new, empty chain.
    pub(crate) fn start() -> Chain
        ensures { result.last.list ≡ [] }
    {
        let (last, end) = Mark::start();
        Chain {
            end,
            last,
            whole: true,
        }
    }

    /// Adds a delta at the end. If the chain is longer than this publisher knows, it is not whole from then on.
    pub(crate) fn add(&mut self, delta: &Delta)
        ensures source { self.new.last.source ≡ self.old.last.source }
        ensures list { IsTrue self.new.whole
            → IsTrue self.old.whole × (self.new.last.list ≡ self.old.last.list ++ delta.now ∷ []) }
    {
        if self.whole {
            self.whole = self.last.add(&self.end, delta);
        }
    }

    /// Returns the mark of the whole chain, if it is whole.
    pub(crate) fn reached(&self) -> Option<Mark>
        ensures { IfSome result (λ mark. IsTrue self.now.whole × (mark ≡ self.now.last)) }
    {
        self.whole.then(|| self.last.again())
    }
}
