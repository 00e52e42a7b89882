//! What a commit does to the number of rows.

ghost use Rattle.std.specs.Prelude.{◌≡◌, ◌+◌, ◌<◌, ◌≤◌};

use mt_types::row::Delta;

/// What a commit does to the number of rows.
#[derive(Clone, Copy, PartialEq, Eq, Debug)]
pub enum Effect {
    /// A key that had no row has one.
    Adds,
    /// There are as many rows as before.
    Keeps,
    /// A key that had a row has none.
    Removes,
}

impl Effect {
    ghost use Rattle.mt_types.specs.Numbers.{greatest_number};
    ghost use Rattle.mt_commit.specs.Log.{effect_of, counted};

    /// Returns what the commit of this delta does.
    pub fn of(delta: &Delta) -> Effect
        ensures { result ≡ effect_of delta.now.before delta.now.after }
    {
        match (&delta.before, &delta.after) {
            (None, Some(_)) => Effect::Adds,
            (Some(_), None) => Effect::Removes,
            (None, None) | (Some(_), Some(_)) => Effect::Keeps,
        }
    }

    // Returns how many rows there are after the commit, if there were this many before.
    pub(crate) fn count(self, rows: u64) -> u64
        requires { rows < greatest_number }
        ensures value { result ≡ counted self rows }
        ensures few { result ≤ rows + 1 }
    {
        match self {
            Effect::Adds => rows + 1,
            Effect::Keeps => rows,
            Effect::Removes => rows.saturating_sub(1),
        }
    }
}
