//! What an audit is worth, as laws. Their bodies do nothing.

ghost use Rattle.mt_check.specs.Worth.{RepliesAreSound, PagesAreSound, AuditsBlameNone};

/// In each legal history each finished call, but a tidy or a build, and each page of a view gives a receipt that is
/// sound against the deltas of the history's commits: so a fault of such a receipt shows that the promise was broken.
pub fn legal_histories_give_sound_receipts()
    ensures replies { RepliesAreSound }
    ensures pages { PagesAreSound }
{}

/// An audit blames no legal history: against the deltas of its commits, `check` finds no fault in any list of receipts of
/// its finished calls, each at most once, and of its pages. So it returns `Ok`, unless it is out of memory.
pub fn audits_blame_no_legal_history()
    ensures { AuditsBlameNone }
{}
