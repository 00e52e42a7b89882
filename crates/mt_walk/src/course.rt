//! The course of a walk: its place in the tree, and its next row.

ghost use Rattle.std.specs.Prelude.{ℕ, ◌≡◌, ◌<◌, false, IfOk, IsSome, OnOk};
ghost use Rattle.mt_word.specs.declared.permutation_word.TheConstants.{SLOTS};
ghost use Rattle.mt_arena.specs.Node.{border_at};
ghost use Rattle.mt_steps.specs.Lone.{IsLoneTree};
ghost use Rattle.mt_walk.specs.Descent.{MaySeek};
ghost use Rattle.mt_walk.specs.Walk.{course_of, walk_of};
ghost use Rattle.mt_walk.specs.Standing.{IsOnCourse};
ghost use Rattle.mt_walk.specs.Steps.{Begins, IsAtEntry, IsAtEnd, ComesTo, EntersLayer, Goes, Finds};

use crate::descent::border_for;
use crate::start::{entries_before, link_at};
use mt_border::{Border, Content, Entry, RightLink};
use mt_slice::{key_bytes, rest_of, slice_of};
use mt_tree::{TOP, Tree};
use mt_types::key::Key;
use mt_types::numbers::NodeNo;
use mt_types::refusal::NoMemory;
use mt_types::row::Row;
use std::alloc::Global;

/// A stop of a walk: at a border, past this many of its entries. Above a layer the slice is that of the link through
/// which the walk went into it. Otherwise it is the slice from which on the walk visits the border.
#[derive(Clone, Copy)]
pub(crate) struct Stop {
    pub(crate) node: NodeNo,
    pub(crate) place: usize,
    pub(crate) slice: u64,
}

/// What a walk comes to by one step.
pub(crate) enum Step<'t> {
    /// It continues.
    On,
    /// It is past this entry, which has this row.
    Past(&'t Entry, &'t Row),
    /// It is at the end of the tree.
    End,
}

/// The place of a walk in a tree in which no change is under way.
///
/// It borrows the tree. It keeps one stop for each layer above that in which it is, and so it continues after the end
/// of a layer in the border above.
#[derive(Drop)]
pub(crate) struct Course<'t> {
    tree: &'t Tree,
    // The stops above the layer, from layer 0 on.
    path: Vec<Stop>,
    // Its place, and the border there.
    here: Stop,
    border: &'t Border,
    // Whether it has come back from the layer below the slice of `here`.
    after: bool,
}

impl<'t> Course<'t> {
    /// Returns a course that is before the first row of the tree whose key is `start` or after it.
    ///
    /// Costs the visit of each node on the way to the key. Allocates for the path if the key is in a layer below
    /// layer 0.
    ///
    /// # Errors
    ///
    /// `NoMemory` if an allocation is refused.
    pub(crate) fn begin(alloc: Global, tree: &'t Tree, start: &Key) -> Result<Course<'t>, NoMemory>
        requires { IsLoneTree tree.now }
        ensures { IfOk result (λ course. Begins tree.now start.now (walk_of (course_of course) start.now false)) }
    {
        let mut path = Vec::new(alloc);
        let mut head = TOP;
        let mut rest = key_bytes(start);
        loop {
            let (slice, _) = slice_of(rest);
            let node = border_for(tree, head, slice);
            let border = tree.border(node);
            let place = entries_before(border, rest);
            match link_at(border, place, rest) {
                Some(below) => {
                    path.push(Stop {
                        node,
                        place: place + 1,
                        slice,
                    })?;
                    head = below;
                    rest = rest_of(rest);
                }
                None => {
                    return Ok(Course {
                        tree,
                        path,
                        here: Stop { node, place, slice },
                        border,
                        after: false,
                    });
                }
            }
        }
    }

    /// Returns the stops above the layer. Constant cost.
    pub(crate) fn path(&self) -> &[Stop]
        ensures { result.now ≡ (course_of self.now).path }
    {
        self.path.as_slice()
    }

    // Comes to a border.
    fn come_to(&mut self, here: Stop, after: bool)
        requires { IsSome (border_at (course_of self.old).tree.nodes here.node.0) }
        ensures { ComesTo (course_of self.old) here after (course_of self.new) }
    {
        let tree = self.tree;
        self.here = here;
        self.border = tree.border(here.node);
        self.after = after;
    }

    // Enters the layer of a link, at its first border.
    fn enter(&mut self, slice: u64, head: NodeNo) -> Result<(), NoMemory>
        requires seeks { MaySeek (course_of self.old).tree head.0 0 }
        requires room { (course_of self.old).here.place < SLOTS }
        ensures { OnOk result (EntersLayer (course_of self.old) slice head (course_of self.new)) }
    {
        self.path.push(Stop {
            slice,
            place: self.here.place + 1,
            ..self.here
        })?;
        let here = Stop {
            node: border_for(self.tree, head, 0),
            place: 0,
            slice: 0,
        };
        self.come_to(here, false);
        Ok(())
    }

    // Passes the entry at which it is.
    fn pass(&mut self, entry: &'t Entry) -> Result<Step<'t>, NoMemory>
        requires stands { IsOnCourse (course_of self.old) }
        requires there { IsAtEntry (course_of self.old).tree (course_of self.old).here entry.now }
        ensures { IfOk result (λ step. Goes (course_of self.old) step (course_of self.new)) }
    {
        match &entry.content {
            Content::Link(head) => {
                self.enter(entry.slice, *head)?;
                Ok(Step::On)
            }
            Content::Short(_, row) => {
                self.here.place += 1;
                Ok(Step::Past(entry, row))
            }
            Content::Long(_, row) => {
                self.here.place += 1;
                Ok(Step::Past(entry, row))
            }
        }
    }

    // Leaves a border at its end.
    fn leave(&mut self, right: Option<RightLink>) -> Step<'t>
        requires stands { IsOnCourse (course_of self.old) }
        requires ends { IsAtEnd (course_of self.old).tree (course_of self.old).here right }
        ensures { Goes (course_of self.old) result (course_of self.new) }
    {
        if let Some(link) = right {
            let here = Stop {
                node: link.node,
                place: 0,
                slice: link.low,
            };
            self.come_to(here, false);
            return Step::On;
        }
        match self.path.pop() {
            Some(above) => {
                self.come_to(above, true);
                Step::On
            }
            None => Step::End,
        }
    }

    // Passes one entry, or leaves the border at its end.
    fn step(&mut self) -> Result<Step<'t>, NoMemory>
        requires { IsOnCourse (course_of self.old) }
        ensures { IfOk result (λ step. Goes (course_of self.old) step (course_of self.new)) }
    {
        let border = self.border;
        if self.here.place < border.len() {
            self.pass(border.entry(self.here.place))
        } else {
            Ok(self.leave(border.right()))
        }
    }

    /// Returns the next entry with a row, and that row, borrowed of the tree, or `None` if no row is to come.
    ///
    /// Costs the visit of one entry, and that of each border and head on the way to it. Allocates only if the path has
    /// to grow.
    ///
    /// # Errors
    ///
    /// `NoMemory` if an allocation is refused. The course must not be used after that.
    pub(crate) fn next(&mut self) -> Result<Option<(&'t Entry, &'t Row)>, NoMemory>
        requires { IsOnCourse (course_of self.old) }
        ensures { IfOk result (λ found. Finds (course_of self.old) found (course_of self.new)) }
    {
        loop {
            match self.step()? {
                Step::On => {}
                Step::Past(entry, row) => return Ok(Some((entry, row))),
                Step::End => return Ok(None),
            }
        }
    }
}
