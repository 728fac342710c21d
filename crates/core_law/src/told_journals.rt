//! What the threads of a run tell the rows of its journal, each as it knows itself, and what is then left of the rows. Laws alone.
//!
//! Each function does nothing: its contract is the law.

ghost use Rattle.core_law.specs.ToldLaws.{StepsTellRows, SilentMovesTellNothing, RowsGoOn, ItemsAreCounted, ThreadsTellJournals};

use op_core::ThreadCode;

/// A thread tells what its act tells, of each step that it makes.
pub fn steps_tell_rows<C: ThreadCode>()
    ensures { StepsTellRows C.code }
{}

/// The silent moves of a thread tell nothing.
pub fn silent_moves_tell_nothing<C: ThreadCode>()
    ensures { SilentMovesTellNothing C.code }
{}

/// An act more tells the rows what it tells.
pub fn rows_go_on<C: ThreadCode>()
    ensures { RowsGoOn C.State }
{}

/// Each step adds as many items to the rows as it counts for against the limit of a journal.
pub fn items_are_counted<C: ThreadCode>()
    ensures { ItemsAreCounted C.code }
{}

/// What is left of the rows at the end of a run is the journal of the execution that is left of it.
pub fn threads_tell_journals<C: ThreadCode>()
    ensures { ThreadsTellJournals C.code }
{}
