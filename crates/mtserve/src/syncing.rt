//! When the log of a server's folder is synced, as a text says it.

use mt_host::durability::Syncing;

// The most milliseconds between two syncs.
const LONGEST: u64 = 86_400_000;

/// Returns when a log is synced, as this text says: `always`, `never`, or a number of milliseconds up to a day.
pub fn read_syncing(text: &str) -> Option<Syncing> {
    match text {
        "always" => Some(Syncing::Always),
        "never" => Some(Syncing::Never),
        text => match text.parse::<u64>() {
            Ok(number) if number > 0 && number <= LONGEST => Some(Syncing::Every(number)),
            _ => None,
        },
    }
}
