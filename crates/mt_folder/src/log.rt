//! What a log says, as values.

ghost use Rattle.std.specs.Prelude.{◌≡◌, ◌≤◌, ◌^◌, IfSome, IfNone};
ghost use Rattle.mt_folder.specs.Logs.{is_whole, last_number};

use mt_frame::entry::{Entry, LogHeader};
use mt_replay::redoing::is_sealed;

/// What a log says.
#[derive(Debug, PartialEq, Eq, Drop)]
pub struct LogRead {
    pub header: LogHeader,
    /// The entries after the header, in their order.
    pub entries: Vec<Entry>,
}

impl LogRead {
    /// Returns whether the log has all rows itself: it begins with the first commit, or has the seal of a checkpoint. O(n) in
    /// its entries.
    pub fn is_whole(&self) -> bool
        ensures { result ≡ is_whole self.now }
    {
        self.header.base == 0 || is_sealed(&self.entries)
    }

    /// Returns the number of its last commit, or of the last one before it if it has none. `None` if the number doesn't fit.
    /// O(n) in its entries.
    pub fn last_number(&self) -> Option<u64>
        ensures some { IfSome result (λ number. number ≡ last_number self.now) }
        ensures none { IfNone result (2 ^ 64 ≤ last_number self.now) }
    {
        let mut number = self.header.base;
        for entry in &self.entries {
            if let Entry::Commits(commits) = entry {
                number = number.checked_add(commits.records.len() as u64)?;
            }
        }
        Some(number)
    }
}
