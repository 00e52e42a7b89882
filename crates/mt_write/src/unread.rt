//! The commits of puts and removes of which no delta would stay in the log: no delta is made for them, and no copies of a
//! key or a row.

ghost use Rattle.std.specs.Prelude.{ℕ};
ghost use Rattle.mt_commit.specs.Log.{IsUnread};
ghost use Rattle.mt_steps.specs.declared.entering.There.{There};
ghost use Rattle.mt_write.specs.Runs.{CommitsUnread, MayAct};

use crate::finishing::Committed;
use crate::inserting::insert_unread;
use crate::ready::{NewRow, make_columns, other_version};
use crate::writing::{Edit, Write};
use mt_border::Found;
use mt_commit::effect::Effect;
use mt_commit::log::Log;
use mt_steps::way::rest_of;
use mt_tree::Tree;
use mt_types::refusal::Refusal;
use mt_types::row::Row;
use std::alloc::Global;

impl Write {
    // A remove hides the row that was found. Returns its commit; `None` if it is for another function.
    fn remove_unread(
        &self,
        tree: &mut Tree,
        log: &mut Log,
        found: Found,
    ) -> Result<Option<Committed>, Refusal>
        requires may { (C : ℕ) × (there : There) × MayAct C tree.old log.old self.now found there }
        requires unread { IsUnread log.old }
        ensures { (C : ℕ) (there : There) → MayAct C tree.old log.old self.now found there
            → CommitsUnread C tree.old tree.new log.old log.new self.now there result }
    {
        let _bytes = rest_of(&self.key, self.way.layer);
        let (Edit::Remove, Found::Row(place)) = (&self.edit, found) else {
            return Ok(None);
        };
        let _border = tree.border(self.way.node);
        log.reserve()?;
        tree.hide_row(self.way.node, place);
        let _hidden = tree.free_numbers();
        log.pass(Effect::Removes);
        Ok(Some(Committed {
            commit: log.number(),
            steps: 2,
            hides: true,
        }))
    }

    // At its border, which it has locked: makes ready and commits, and makes nothing for the log, if no delta would stay
    // there. A put writes over the row that was found, or shows a new one, if none was found and the border isn't full.
    // Returns the commit; `None` if it is for another function.
    pub(crate) fn commit_unread(
        &self,
        alloc: Global,
        columns: u8,
        tree: &mut Tree,
        log: &mut Log,
        found: Found,
    ) -> Result<Option<Committed>, Refusal>
        requires { (there : There) × MayAct columns tree.old log.old self.now found there }
        ensures { (there : There) → MayAct columns tree.old log.old self.now found there
            → CommitsUnread columns tree.old tree.new log.old log.new self.now there result }
    {
        let _bytes = rest_of(&self.key, self.way.layer);
        if !log.is_unread() {
            return Ok(None);
        }
        let Edit::Put { sets, only } = &self.edit else {
            return self.remove_unread(tree, log, found);
        };
        let border = tree.border(self.way.node);
        let None = other_version(border, found, *only) else {
            return Ok(None);
        };
        let row = NewRow {
            columns,
            key: &self.key,
            sets,
            way: self.way,
        };
        match found {
            Found::Row(place) => {
                let columns = make_columns(alloc, log, &row, border, place)?;
                log.pass(Effect::Keeps);
                let version = log.number();
                drop(tree.set_value(self.way.node, place, Row { version, columns }));
                let _written = tree.free_numbers();
                Ok(Some(Committed {
                    commit: version,
                    steps: 2,
                    hides: false,
                }))
            }
            Found::Absent(place) if !border.is_full() => {
                insert_unread(alloc, tree, log, &row)?;
                let _filled = tree.free_numbers();
                log.pass(Effect::Adds);
                let version = log.number();
                tree.show(self.way.node, place, version);
                let _shown = tree.free_numbers();
                Ok(Some(Committed {
                    commit: version,
                    steps: 4,
                    hides: false,
                }))
            }
            Found::Absent(_) | Found::OtherSuffix(_) | Found::Link(_, _) => Ok(None),
        }
    }
}
