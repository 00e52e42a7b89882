//! Laws of scans among any other calls: what they have done at each moment, and that their answer is right. Each
//! function does nothing, and its contract is the law.

ghost use Rattle.mt_chart.specs.ScanLaws.{ScansStayOpen, ScansAnswerRightly, VisitsHaveOutcomes, AnswersAreOfKeys, SteadyRowsAreRead, NothingElseIsRead};

/// At each moment of a scan all before its cursor is done, and its answer is right in full.
pub fn scans_answer_rightly()
    ensures open { ScansStayOpen }
    ensures answer { ScansAnswerRightly }
{}

/// A scan is never stuck at a border.
pub fn visits_have_outcomes()
    ensures { VisitsHaveOutcomes }
{}

/// A right answer by places is a right answer by keys.
pub fn answers_are_of_keys()
    ensures { AnswersAreOfKeys }
{}

/// Of a key that nobody changed a scan reads the row that it has.
pub fn steady_rows_are_read()
    ensures steady { SteadyRowsAreRead }
    ensures never { NothingElseIsRead }
{}
