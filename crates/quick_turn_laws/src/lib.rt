//! What usual turns of a thread are for the others. Laws alone.
//!
//! Each function does nothing: its contract is the law.
#![tactic(auto)]

ghost use Rattle.quick_turn_laws.specs.Laws.{UsualTurnsPass, WaitingThreadsStay};

use op_core::ThreadCode;
use step_port::StepPort;

/// Usual turns pass by where the caller looks neither at events nor at loads and exchanges of words, or loads of sections and
/// classes.
pub fn usual_turns_pass<C: ThreadCode, P: StepPort>()
    ensures { UsualTurnsPass C.code P.stepped }
{}

/// A thread that isn't enabled as a thread is given usual turns isn't at any of them, nor after the last, if none of them
/// overwrites a monitor that it wants, or the start word of a thread for whose end it waits.
pub fn waiting_threads_stay<C: ThreadCode>()
    ensures { WaitingThreadsStay C.code }
{}
