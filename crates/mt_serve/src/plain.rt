//! What a session on an index of one caller answers, as laws: what a plain store does. Their bodies do nothing.

ghost use Rattle.mt_serve.specs.Plain.{FreshIsAlone, AloneReadsAtOnce, AloneAnswersPlainly, AloneAnswersFramesPlainly, AloneServesPlainly, AloneBreaksPlainly};
ghost use Rattle.mt_serve.specs.Ample.{AmpleAnswersAreTheirs, ViewsStayNewest, AnswersAreOne};

/// On an index of one caller (a `Lone` and its pass), `answer` and `session` do what a plain store does, if every call
/// has ended before, and as long as the index has made fewer than 18,446,744,073,709,551,615 events.
///
/// A get returns the row that the changes so far have made, and a range the first rows from its key on. If no trace is
/// kept, as on a `Lone`, both are read at once, and make no event. A put or remove makes the next change. A page is
/// exactly its filter and sums over those rows. Each refusal has its cause. After a change no view is left behind, unless
/// memory was refused. So `session` writes the spelling of the plain store's answers to the frames that its input spells,
/// in order, however the input is cut. If it breaks off, the same holds for the frames before.
pub fn sessions_alone_are_plain()
    ensures fresh { FreshIsAlone }
    ensures reads { AloneReadsAtOnce }
    ensures queries { AloneAnswersPlainly }
    ensures frames { AloneAnswersFramesPlainly }
    ensures served { AloneServesPlainly }
    ensures broken { AloneBreaksPlainly }
{}

/// If a store is not short of memory, of nodes or of numbers, and its views are at its newest change, its answer is a
/// function of the changes so far, its views and the query. `IsAnswer` is the graph of this function. There is only one
/// answer, except that the rule that a tidy names is left open. Views stay at the newest change, unless memory was
/// refused while a view was advanced. A log that no view holds back is never full.
pub fn ample_answers_are_one()
    ensures theirs { AmpleAnswersAreTheirs }
    ensures newest { ViewsStayNewest }
    ensures one { AnswersAreOne }
{}
