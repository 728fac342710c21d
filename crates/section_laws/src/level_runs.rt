//! Laws of the levels of one thread along a run, seen by themselves: which levels are open at each place, and which of
//! them are doomed, since they are revoked then or later.
//!
//! Each law is the contract of a function with no parameters and an empty body, for the crates above to cite.

ghost use Rattle.section_laws.specs.LevelRun.{DoomedAreUndone, UndoneWereDoomed, UndoingsAreNested, DoomedAreUnpinned};

/// A level that is doomed stays open until its section is undone to it or further out: it is never closed, nor is its
/// section committed.
pub fn doomed_are_undone()
    ensures { DoomedAreUndone }
{}

/// A level to which a section is undone was doomed since it opened, and open all the while.
pub fn undone_were_doomed()
    ensures { UndoneWereDoomed }
{}

/// Two undoings of one thread don't overlap but where the later one goes back at least as far out.
pub fn undoings_are_nested()
    ensures { UndoingsAreNested }
{}

/// A level that is doomed isn't pinned as long as it is open.
pub fn doomed_are_unpinned()
    ensures { DoomedAreUnpinned }
{}
