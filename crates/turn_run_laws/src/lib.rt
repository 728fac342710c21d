//! What turns of one thread are on the words that threads share: turns that a schedule gives, and acts. Laws alone.
#![tactic(auto)]

ghost use Rattle.turn_run_laws.specs.Laws.{TurnsJoin, PassedTurnsAreUnseen, TurnsAreOnWords, PassedTurnsHandNoneOut, TurnsAreGiven, TurnsGoOn};

use op_core::ThreadCode;
use step_port::StepPort;

/// Turns of a thread put end to end are turns.
pub fn turns_join<C: ThreadCode, P: StepPort>()
    ensures { TurnsJoin C.code P.stepped }
{}

/// Where the caller looks at events, a turn that passes by shows none.
pub fn passed_turns_are_unseen()
    ensures { PassedTurnsAreUnseen }
{}

/// Turns through a port are turns on its words.
pub fn turns_are_on_words<C: ThreadCode, P: StepPort>()
    ensures { TurnsAreOnWords C.code P.stepped }
{}

/// Turns that pass by hand no thread out.
pub fn passed_turns_hand_none_out<C: ThreadCode, P: StepPort>()
    ensures { PassedTurnsHandNoneOut C.code P.stepped }
{}

/// Turns of a thread on words are turns that a schedule gives it: they come to the same, make the same acts, and leave the other
/// threads as they are. Needed: none of them hands out a thread of its number.
pub fn turns_are_given<C: ThreadCode>()
    ensures { TurnsAreGiven C.code }
{}

/// Acts that lead from a core to where a run has come, and then turns of one thread, are acts that lead from that core.
pub fn turns_go_on<C: ThreadCode>()
    ensures { TurnsGoOn C.code }
{}
