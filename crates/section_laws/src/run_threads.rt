//! Threads along a run: their numbers, who has ended, and the lines that they have printed. Laws alone.
//!
//! Each function does nothing: its contract is the law.

ghost use Rattle.section_laws.specs.Numbers.{ThreadsAreNumbered, ThreadsAreNew};
ghost use Rattle.section_laws.specs.Ends.{EndsAreKnown};
ghost use Rattle.section_laws.specs.Lines.{TicketsAreLines};

use op_core::ThreadCode;

/// Each thread is found by its own number, which was drawn and has 8 bits.
pub fn threads_are_numbered<C: ThreadCode>()
    ensures { ThreadsAreNumbered C.code }
{}

/// A thread that is handed out has a number that no thread has.
pub fn threads_are_new<C: ThreadCode>()
    ensures { ThreadsAreNew C.code }
{}

/// The word of a thread is 1 where it has ended, and else 0.
pub fn ends_are_known<C: ThreadCode>()
    ensures { EndsAreKnown C.code }
{}

/// As many tickets were drawn as lines were printed. Each line is one thread's, and stands at the place that its ticket
/// says.
pub fn tickets_are_lines<C: ThreadCode>()
    ensures { TicketsAreLines C.code }
{}
