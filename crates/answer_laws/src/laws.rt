//! What holds of all answers.

ghost use Rattle.answer_laws.specs.OneAnswer.{RequestsHaveOneAnswer};
ghost use Rattle.answer_laws.specs.Traced.{TracesAreAccepted};

/// Given a folder and an input that say what they hold, a request has one answer, unless it has threads run on several host threads.
pub fn requests_have_one_answer()
    ensures { RequestsHaveOneAnswer }
{}

/// What `trace` wrote of a run is accepted by `check`, which prints the lines of that run, if lines of a journal can say the
/// run's events and undoings.
pub fn traces_are_accepted()
    ensures { TracesAreAccepted }
{}
