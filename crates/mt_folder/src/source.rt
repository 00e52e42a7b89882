//! Which logs of a folder have its rows.

ghost use Rattle.std.specs.Prelude.{◌≡◌, ◌↔◌, IsTrue};
ghost use Rattle.mt_folder.specs.Logs.{Continues, IsUnused, Decides};

use crate::log::LogRead;
use mt_frame::entry::LogHeader;

/// Which logs of a folder have its rows.
#[derive(Clone, Copy, Debug, PartialEq, Eq)]
pub enum Source {
    /// The newer log alone: it has all rows.
    Newer,
    /// The older log alone: it has commits that the newer one, which has none, doesn't begin after.
    Older,
    /// Both, the older log first: the newer one continues it, and has not all rows itself yet.
    Both,
    /// None: rows are missing.
    Neither,
}

/// Returns whether a log continues another one, which has all rows before it: its generation is the next one, and it begins
/// after the other's last commit. O(n) in the entries of the other.
pub fn continues(newer: &LogRead, older: &LogRead) -> bool
    ensures { IsTrue result ↔ Continues newer.now older.now }
{
    let LogHeader {
        base,
        generation,
        ..
    } = newer.header;
    let Some(last) = older.last_number() else {
        return false;
    };
    let Some(next) = older.header.generation.checked_add(1) else {
        return false;
    };
    older.is_whole() && base == last && generation == next
}

/// Returns whether a log was made and never used: it has no commits, and the log before, which has all rows, has commits after
/// those that it begins after. O(n) in the entries of both.
pub fn is_unused(newer: &LogRead, older: &LogRead) -> bool
    ensures { IsTrue result ↔ IsUnused newer.now older.now }
{
    let base = newer.header.base;
    let Some(own) = newer.last_number() else {
        return false;
    };
    let has_more = match older.last_number() {
        Some(last) => base < last,
        None => true,
    };
    older.is_whole() && own == base && has_more
}

/// Returns which of the logs of a folder have its rows, of which the newer one has the greater generation. O(n) in their
/// entries.
pub fn decide(newer: &LogRead, older: &LogRead) -> Source
    ensures { Decides newer.now older.now result }
{
    if newer.is_whole() {
        Source::Newer
    } else if is_unused(newer, older) {
        Source::Older
    } else if continues(newer, older) {
        Source::Both
    } else {
        Source::Neither
    }
}
