//! The journal of a run on shared words: what is left of it without the levels that are undone, and the undoings. Laws alone.
//!
//! Each function does nothing: its contract is the law.

ghost use Rattle.core_law.specs.JournalLaws.{JournalsHaveEvents, JournalsAreMerged, RowsAreJournals};

use op_core::ThreadCode;

/// The events of a journal are those that are left of the run.
pub fn journals_have_events<C: ThreadCode>()
    ensures { JournalsHaveEvents C.State }
{}

/// The events and the undoings of a journal make it up again, each undoing before the event whose number it has.
pub fn journals_are_merged()
    ensures { JournalsAreMerged }
{}

/// What is left of the rows of which a run tells, once it has ended, is its journal.
pub fn rows_are_journals<C: ThreadCode>()
    ensures { RowsAreJournals C.code }
{}
