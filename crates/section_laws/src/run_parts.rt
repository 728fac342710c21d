//! What a thread's part of a run says: which step the thread makes next, and that the number of a thread which it hands out
//! is new. Laws alone.
//!
//! Each function does nothing: its contract is the law.

ghost use Rattle.section_laws.specs.NextSteps.{PartsDecide};
ghost use Rattle.section_laws.specs.PartNumbers.{NumbersAreSingle, HandedOutIsNew};

use op_core::ThreadCode;

/// A thread's part of a run decides which step the thread makes next.
pub fn parts_decide<C: ThreadCode>()
    ensures { PartsDecide C.code }
{}

/// No two threads of a run have the same number.
pub fn numbers_are_single<C: ThreadCode>()
    ensures { NumbersAreSingle C.code }
{}

/// The number with which a thread can hand out another is that of no thread of the run.
pub fn handed_out_is_new<C: ThreadCode>()
    ensures { HandedOutIsNew C.code }
{}
