//! How an index is opened.

ghost use Rattle.std.specs.Prelude.{◌≡◌, None, true};
ghost use Rattle.mt_types.specs.Limits.{open_fault};

/// What an index is opened with.
#[derive(Clone, Copy, Debug, PartialEq, Eq)]
pub struct Options {
    /// The number of columns of a row: 1 to 16.
    pub columns: u64,
    /// The most commits that the log holds for the slowest of its readers: 1 to 65,536.
    pub log_capacity: u64,
    /// How many of the last commits the log keeps for no reader: at most 65,536.
    pub log_retention: u64,
    /// Whether a remove that leaves its border empty is followed by tidies there, and by what frees their nodes. The
    /// machine itself makes none: a map does, and an index that threads share (`drive_and_keep`).
    pub tidies: bool,
}

impl Default for Options {
    /// Returns options of one column, with a log that holds 4,096 commits for the slowest reader and keeps none for no
    /// reader, and with tidies after removes.
    fn default() -> Options
        ensures value { result ≡ record { columns = 1; log_capacity = 4096; log_retention = 0; tidies = true } }
        ensures within { open_fault result.columns result.log_capacity result.log_retention ≡ None }
    {
        Options {
            columns: 1,
            log_capacity: 4096,
            log_retention: 0,
            tidies: true,
        }
    }
}
