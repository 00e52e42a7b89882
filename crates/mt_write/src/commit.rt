//! The commits of a write: a row is shown, written over another, or hidden, and its delta is logged, in one step.

ghost use Rattle.std.specs.Prelude.{◌≡◌, ℕ, ◌<◌, ◌+◌, IsSomeAnd, None};
ghost use Rattle.mt_commit.specs.Log.{newest, with_delta};
ghost use Rattle.mt_border.specs.Border.{row_at, with_hidden, with_shown, with_value};
ghost use Rattle.mt_border.specs.declared.unwritten.Unwritten.TheVariants.{Nothing};
ghost use Rattle.mt_arena.specs.Node.{border_at};
ghost use Rattle.mt_arena.specs.Arena.{with_border_changed};
ghost use Rattle.mt_tree.specs.BorderSteps.{MayShowAt, ShowsNext, HasRowAt, HidesRowAt, SetsRowAt};
ghost use Rattle.mt_write.specs.Writing.{MayStage};
ghost use Rattle.mt_write.specs.Ready.{put_delta, remove_delta};
ghost use Rattle.mt_write.specs.Follows.{WriteStep};

use crate::writing::{Halves, Stage, Write};
use mt_commit::log::Log;
use mt_steps::progress::Progress;
use mt_tree::Tree;
use mt_types::key::Key;
use mt_types::numbers::NodeNo;
use mt_types::row::{Columns, Delta, Row};

// The commit of a row that is in the first unused slot: it is shown, and its delta is logged.
pub fn show(
    tree: &mut Tree,
    log: &mut Log,
    number: NodeNo,
    place: usize,
    key: Key,
    logged: Columns,
) -> u64
    requires shows { IsSomeAnd (border_at tree.old.nodes number.0) (λ b. (version : ℕ) → MayShowAt b place version) }
    requires room { 0 < log.old.reserved }
    ensures number { result ≡ newest log.old + 1 }
    ensures shown { tree.new ≡ with_border_changed tree.old number.0 (λ b. with_shown b place (newest log.old + 1)) }
    ensures shows { ShowsNext tree.old tree.new number.0 (newest log.old + 1) }
    ensures logged { log.new ≡ with_delta log.old (put_delta (newest log.old + 1) key None logged) }
{
    let commit = log.number() + 1;
    tree.show(number, place, commit);
    log.append(Delta {
        number: commit,
        key,
        before: None,
        after: Some(Row {
            version: commit,
            columns: logged,
        }),
    });
    commit
}

// The commit of a row that is written over another, and its delta is logged.
pub fn overwrite(
    tree: &mut Tree,
    log: &mut Log,
    number: NodeNo,
    place: usize,
    key: Key,
    columns: Columns,
    logged: Columns,
) -> u64
    requires row { IsSomeAnd (border_at tree.old.nodes number.0) (λ b. HasRowAt b place) }
    requires written { IsSomeAnd (border_at tree.old.nodes number.0) (λ b. b.unwritten ≡ Nothing) }
    requires room { 0 < log.old.reserved }
    ensures number { result ≡ newest log.old + 1 }
    ensures written { tree.new ≡ with_border_changed tree.old number.0
        (λ b. with_value b place (record { version = newest log.old + 1; columns = columns })) }
    ensures sets { SetsRowAt tree.old tree.new number.0 place
        (record { version = newest log.old + 1; columns = columns }) }
    ensures logged { IsSomeAnd (border_at tree.old.nodes number.0)
        (λ b. log.new ≡ with_delta log.old (put_delta (newest log.old + 1) key (row_at place b.live) logged)) }
{
    let commit = log.number() + 1;
    let row = Row {
        version: commit,
        columns,
    };
    let before = tree.set_value(number, place, row);
    log.append(Delta {
        number: commit,
        key,
        before: Some(before),
        after: Some(Row {
            version: commit,
            columns: logged,
        }),
    });
    commit
}

// The commit of a remove: the row is hidden, and its delta is logged.
pub fn hide(
    tree: &mut Tree,
    log: &mut Log,
    number: NodeNo,
    place: usize,
    key: Key,
    before: Row,
) -> u64
    requires row { IsSomeAnd (border_at tree.old.nodes number.0) (λ b. HasRowAt b place) }
    requires written { IsSomeAnd (border_at tree.old.nodes number.0) (λ b. b.unwritten ≡ Nothing) }
    requires room { 0 < log.old.reserved }
    ensures number { result ≡ newest log.old + 1 }
    ensures hidden { tree.new ≡ with_border_changed tree.old number.0 (λ b. with_hidden b place) }
    ensures hides { HidesRowAt tree.old tree.new number.0 place }
    ensures logged { log.new ≡ with_delta log.old (remove_delta (newest log.old + 1) key before) }
{
    let commit = log.number() + 1;
    tree.hide_row(number, place);
    log.append(Delta {
        number: commit,
        key,
        before: Some(before),
        after: None,
    });
    commit
}

impl Write {
    // A put that found no row shows the one that it has filled in.
    pub(crate) fn show_row(
        &mut self,
        tree: &mut Tree,
        log: &mut Log,
        place: usize,
        key: Key,
        logged: Columns,
        split: Option<Halves>,
    ) -> Progress
        requires { (C : ℕ) × MayStage C tree.old log.old self.old (Stage.Filled place key logged split) }
        ensures { (C : ℕ) → WriteStep C tree.old tree.new log.old log.new self.old (Stage.Filled place key logged split)
            result self.new }
    {
        let commit = show(tree, log, self.way.node, place, key, logged);
        self.turn_to(Stage::Stored(commit, split));
        Progress::Committed(commit)
    }

    // A put that found a row writes the columns that it has made over the row's.
    pub(crate) fn write_row(
        &mut self,
        tree: &mut Tree,
        log: &mut Log,
        place: usize,
        key: Key,
        columns: Columns,
        logged: Columns,
    ) -> Progress
        requires { (C : ℕ) × MayStage C tree.old log.old self.old (Stage.Made place key columns logged) }
        ensures { (C : ℕ) → WriteStep C tree.old tree.new log.old log.new self.old (Stage.Made place key columns logged)
            result self.new }
    {
        let commit = overwrite(tree, log, self.way.node, place, key, columns, logged);
        self.turn_to(Stage::Stored(commit, None));
        Progress::Committed(commit)
    }

    // A remove hides the row that it found.
    pub(crate) fn hide_row(
        &mut self,
        tree: &mut Tree,
        log: &mut Log,
        place: usize,
        key: Key,
        before: Row,
    ) -> Progress
        requires { (C : ℕ) × MayStage C tree.old log.old self.old (Stage.Taken place key before) }
        ensures { (C : ℕ) → WriteStep C tree.old tree.new log.old log.new self.old (Stage.Taken place key before) result
            self.new }
    {
        let commit = hide(tree, log, self.way.node, place, key, before);
        self.turn_to(Stage::Hidden(commit));
        Progress::Committed(commit)
    }
}
