//! Whatever a turn asks of the shared words is there, along each run. Laws alone.
//!
//! Each function does nothing: its contract is the law.
#![tactic(auto)]

ghost use Rattle.ready_runs.specs.Ready.{StepsAreAllowed, TablesAreReady, WritesAreApart};

use op_core::ThreadCode;

/// At each place of a run each thread can make the step that comes next for it: the step's word is in the table, a sum that
/// it makes has 64 bits, and a start word that it loads says the number of a thread, or 0.
pub fn steps_are_allowed<C: ThreadCode>()
    ensures { StepsAreAllowed C.code }
{}

/// So a table that holds the words of such a place may make the step of each thread there.
pub fn tables_are_ready<C: ThreadCode>()
    ensures { TablesAreReady C.code }
{}

/// A word that a thread is about to overwrite is neither a monitor that another thread wants, nor the start word of a thread for
/// whose end it waits.
pub fn writes_are_apart<C: ThreadCode>()
    ensures { WritesAreApart C.code }
{}
