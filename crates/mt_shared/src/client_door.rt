//! What a client of a door reads of a map besides its rows and views: deltas, counts, and the map as it is at a moment.

ghost use Rattle.std.specs.Prelude.{ℕ, ◌≡◌, ◌==◌};
ghost use Rattle.mt_shared.specs.Feeds.{CountsNodesSomewhere, CountsRowsSomewhere, FeedsSomewhere};
ghost use Rattle.mt_shared.specs.declared.answers.At.{At};

use crate::answers::At;
use crate::client::Client;
use crate::door::Door;
use crate::moment::Moment;
use mt_types::refusal::Refusal;
use mt_types::row::Delta;
use std::sync::Wait;

impl<'a, W: Wait> Client<Door<'a, W>> {
    /// Returns the deltas of the commits after the first `from`, at most `limit`: [`Door::feed`].
    ///
    ///     for delta in client.feed(seen, 100)?.iter() {
    ///         println!(rt; "commit {}", delta.number)?;
    ///     }
    ///
    /// # Errors
    ///
    /// Those of [`Door::feed`].
    pub fn feed(&self, from: u64, limit: u16) -> Result<Vec<Delta>, Refusal>
        ensures { FeedsSomewhere from limit result }
    {
        self.shared.feed(self.alloc, from, limit)
    }

    /// Returns how many rows there are, and after how many commits: [`Door::len`].
    ///
    ///     println!(rt; "{} rows", client.len().value)?;
    pub fn len(&self) -> At<usize>
        ensures { CountsRowsSomewhere result }
    {
        self.shared.len()
    }

    /// Returns whether there are no rows, and after how many commits. Costs what [`Client::len`] costs.
    ///
    ///     if client.is_empty().value {
    ///         println!(rt; "nothing is left")?;
    ///     }
    pub fn is_empty(&self) -> At<bool>
        ensures { (rows : At ℕ) × CountsRowsSomewhere rows
            × (result ≡ record { value = rows.value == 0; from = rows.from; to = rows.to }) }
    {
        let rows = self.shared.len();
        At {
            value: rows.value == 0,
            from: rows.from,
            to: rows.to,
        }
    }

    /// Returns how many commits have been made. Costs what [`Client::len`] costs.
    ///
    ///     let seen = client.commits();
    pub fn commits(&self) -> u64
        ensures { (rows : At ℕ) × CountsRowsSomewhere rows × (result ≡ rows.to) }
    {
        self.shared.len().to
    }

    /// Returns how many of the `MAX_NODES` node numbers are occupied, and after how many commits: [`Door::nodes`].
    ///
    ///     println!(rt; "{} nodes", client.nodes().value)?;
    pub fn nodes(&self) -> At<usize>
        ensures { CountsNodesSomewhere result }
    {
        self.shared.nodes()
    }

    /// Returns the map as it is at this moment: [`Door::moment`]. Borrowed rows, walks and views are read of it. While it
    /// lives, this client must not be used, since its thread holds the lock.
    ///
    ///     for (number, state) in client.moment().views() {
    ///         println!(rt; "view {number}: {} rows", state.count())?;
    ///     }
    pub fn moment(&self) -> Moment<'a> {
        self.shared.moment()
    }
}
