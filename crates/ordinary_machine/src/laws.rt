//! Laws of the machine for all thread codes, each as the contract of a function with no parameters and
//! an empty body, for the crates above to cite.

ghost use Rattle.ordinary_machine.specs.Laws.{EventsHaveOneOutcome, ReplaysAreExecutions, AdvancesHaveOneAnswer, AdvancesAreExecutions, RunsAreAdvances, ExecutionsAreReplayed, StandstillsAreStuck, ReferencesAreLeft, CallsGoOn};

use op_core::ThreadCode;

/// At most one thing comes of an event, apart from memory running out: a step, which leads to one machine, or
/// one cause of refusal.
pub fn events_have_one_outcome<C: ThreadCode>()
    ensures { EventsHaveOneOutcome C.code }
{}

/// Events that are steps one after another are an execution, but for their printed lines.
pub fn replays_are_executions<C: ThreadCode>()
    ensures { ReplaysAreExecutions C.code }
{}

/// No two answers of `advance` come in one state, and an answer leaves one machine.
pub fn advances_have_one_answer<C: ThreadCode>()
    ensures { AdvancesHaveOneAnswer C.code }
{}

/// The events that calls of `advance` answer one after another, from the start on, are an execution.
pub fn advances_are_executions<C: ThreadCode>()
    ensures { AdvancesAreExecutions C.code }
{}

/// A run of n silent steps is n answers Silent of `advance`.
pub fn runs_are_advances<C: ThreadCode>()
    ensures { RunsAreAdvances C.code }
{}

/// Calls of `advance` go on after other calls, and the events that they answer come after those of the earlier
/// calls. Silent answers have no events.
pub fn calls_go_on<C: ThreadCode>()
    ensures { CallsGoOn C.code }
{}

/// Each execution from a machine's state is replayed, to its last state.
pub fn executions_are_replayed<C: ThreadCode>()
    ensures { ExecutionsAreReplayed C.code }
{}

/// Where no thread may advance, and none is at its code's end without having ended, the events that
/// `advance` answered from the start on end stuck.
pub fn standstills_are_stuck<C: ThreadCode>()
    ensures { StandstillsAreStuck C.code }
{}

/// From the start of a program on, `advance` finds the next new object's reference taken by no object,
/// unless `step` took references. Where it lacks one, that is past the last number.
pub fn references_are_left<C: ThreadCode>()
    ensures { ReferencesAreLeft C.code }
{}
