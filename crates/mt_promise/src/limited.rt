//! How large the answers of a legal history are, as a law. Its body does nothing.

ghost use Rattle.mt_promise.specs.Limited.{OutcomesAreLimited};

/// In each legal history of an index of at most `MAX_COLUMNS` columns, each row that is answered has at most as many
/// columns, of at most `MAX_COLUMN_BYTES` bytes; each key that is answered has at most `MAX_KEY_BYTES` bytes; and a range
/// or a page has at most `MAX_RANGE` pairs.
pub fn outcomes_are_limited()
    ensures { OutcomesAreLimited }
{}
