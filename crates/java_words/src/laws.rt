//! What holds of all runs of programs on shared words.

ghost use Rattle.java_words.specs.TracedRun.{TracedRunsHaveOneOutcome};
ghost use Rattle.java_words.specs.WordRun.{WordRunsHaveOneOutcome};

/// A program has one outcome under a schedule and limits.
pub fn word_runs_have_one_outcome()
    ensures { WordRunsHaveOneOutcome }
{}

/// A program has one outcome with a journal under a schedule and limits.
pub fn traced_runs_have_one_outcome()
    ensures { TracedRunsHaveOneOutcome }
{}
