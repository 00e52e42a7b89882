//! The promise in its own words, as a law: what each legal history gives for gets, ranges and views. Its body does
//! nothing; a proof that each machine's history is legal makes it true of that machine.

ghost use Rattle.mt_promise.specs.Headline.{LegalHistoriesKeepThePromise};

/// Each legal history keeps the promise: each finished get replies with the row, or the absence, that its key had at
/// some moment of that call; each finished range returns every key that was there throughout exactly once, in order,
/// and only pairs true during the call; each page is of a view at some commit n, and is exactly its filter and sums
/// over the rows after the first n commits.
pub fn legal_histories_keep_the_promise()
    ensures { LegalHistoriesKeepThePromise }
{}
