//! Threads on shared words that are given turns by a schedule: what a run is, and that its turns are the acts of a run. Laws alone.
#![tactic(auto)]

ghost use Rattle.word_runs.specs.Laws.{WordTurnsAreDeterminate, TurnsAreActs};

use op_core::ThreadCode;

/// A turn comes to one thing and leads to one place, and only threads that haven't ended are enabled.
pub fn word_turns_are_determinate<C: ThreadCode>()
    ensures { WordTurnsAreDeterminate C.code }
{}

/// Wherever turns lead that follow a schedule, they are acts that lead there from the first core.
pub fn turns_are_acts<C: ThreadCode>()
    ensures { TurnsAreActs C.code }
{}
