//! A walk: its course, and the key of its last pair.

ghost use Rattle.std.specs.Prelude.{◌≡◌, IfOk, OnOk};
ghost use Rattle.std.specs.Option.{option_copied};
ghost use Rattle.mt_steps.specs.Lone.{IsLoneTree};
ghost use Rattle.mt_walk.specs.Walk.{view_of, GivesRow};
ghost use Rattle.mt_walk.specs.Standing.{IsWalk};
ghost use Rattle.mt_walk.specs.Steps.{Begins, StandsOn};

use crate::course::Course;
use crate::spelling::spell;
use mt_slice::key_bytes;
use mt_tree::Tree;
use mt_types::key::Key;
use mt_types::refusal::NoMemory;
use mt_types::row::Row;
use std::alloc::Global;

/// A walk over the pairs of a tree in which no change is under way, from a key on, in the order of the keys.
///
/// It borrows the tree. It keeps one stop for each layer above that in which it is, and so it continues after the end
/// of a layer in the border above.
#[derive(Drop)]
pub struct Walk<'t> {
    course: Course<'t>,
    // The key of the last pair, or the key from which the walk began.
    key: Vec<u8>,
    // Whether there was a pair.
    given: bool,
}

impl<'t> Walk<'t> {
    /// Returns a walk that is before the first pair of the tree whose key is `start` or after it.
    ///
    /// Costs the visit of each node on the way to the key. Allocates for a copy of the key, and for the path if the key
    /// is in a layer below layer 0.
    ///
    /// # Errors
    ///
    /// `NoMemory` if an allocation is refused.
    pub fn new(alloc: Global, tree: &'t Tree, start: &Key) -> Result<Walk<'t>, NoMemory>
        requires { IsLoneTree tree.now }
        ensures { IfOk result (λ walk. Begins tree.now start.now (view_of walk)) }
    {
        let mut key = Vec::new(alloc);
        key.extend_from_slice(key_bytes(start))?;
        let course = Course::begin(alloc, tree, start)?;
        Ok(Walk {
            course,
            key,
            given: false,
        })
    }

    /// Returns the key of the last pair, or the key from which the walk began if there was none. Constant cost.
    pub fn key(&self) -> &[u8]
        ensures { result.now ≡ (view_of self.now).key }
    {
        self.key.as_slice()
    }

    /// Returns the row of the next pair, borrowed of the tree, or `None` if no pair is to come. `key` then returns its
    /// key.
    ///
    /// Costs the copy of the key, the visit of one entry, and that of each border and head on the way to it. Allocates
    /// only if the buffer of the key or the path has to grow. Copies no row.
    ///
    /// # Errors
    ///
    /// `NoMemory` if an allocation is refused. The walk must not be used after that.
    pub fn next(&mut self) -> Result<Option<&'t Row>, NoMemory>
        requires { IsWalk (view_of self.old) }
        ensures stands { OnOk result (StandsOn (view_of self.old) (view_of self.new)) }
        ensures gives { IfOk result (λ row. GivesRow (view_of self.old) (option_copied row) (view_of self.new)) }
    {
        let Some((entry, row)) = self.course.next()? else {
            return Ok(None);
        };
        self.key.clear();
        spell(&mut self.key, self.course.path(), entry)?;
        self.given = true;
        Ok(Some(row))
    }
}
