//! The splits of full interiors that wait for their new halves to be posted: the newest is posted first.

ghost use Rattle.std.specs.Prelude.{◌≡◌, [], ◌∷◌, slice_get, IfSome, IfNone, OnOk, OnErr};

use crate::split::Split;
use mt_types::refusal::NoMemory;
use std::alloc::Global;
use std::marker::Model;

/// The splits that wait, seen as the list of them, the newest first. Allocates only once one waits.
#[derive(Drop)]
pub struct Waiting {
    splits: Vec<Split>,
}

impl Model for Waiting {
    ghost use Rattle.std.specs.Prelude.{List, reverse};
    ghost use Rattle.mt_post.specs.declared.split.Split.{Split};

    ghost Value = { List Split };

    ghost view = { λ w. reverse w.splits.items };
}

impl Waiting {
    /// Returns an empty list of splits. Allocates nothing.
    pub fn new(alloc: Global) -> Waiting
        ensures { result ≡ [] }
    {
        Waiting {
            splits: Vec::new(alloc),
        }
    }

    /// Returns the newest split, if one waits. Constant cost.
    pub fn newest(&self) -> Option<Split>
        ensures { result ≡ slice_get self.now 0 }
    {
        self.splits.as_slice().last().copied()
    }

    /// Adds a split, which is then the newest. Constant cost, except when the list grows.
    ///
    /// # Errors
    ///
    /// `NoMemory` if an allocation is refused. Then nothing changes.
    pub fn push(&mut self, split: Split) -> Result<(), NoMemory>
        ensures ok { OnOk result (self.new ≡ split ∷ self.old) }
        ensures err { OnErr result (self.new ≡ self.old) }
    {
        self.splits.push(split)?;
        Ok(())
    }

    /// Removes and returns the newest split, if one waits. Constant cost.
    pub fn pop(&mut self) -> Option<Split>
        ensures some { IfSome result (λ split. self.old ≡ split ∷ self.new) }
        ensures none { IfNone result ((self.old ≡ []) × (self.new ≡ [])) }
    {
        self.splits.pop()
    }
}
