//! The levels that each thread has open along a run: they are a run of levels, so that one which is revoked isn't pinned
//! before. Laws alone.
//!
//! Each function does nothing: its contract is the law.

ghost use Rattle.section_laws.specs.Levels.{LevelsAreCounted, ThreadsRunInLevels, DoomedLevelsAreUnpinned};

use op_core::ThreadCode;

/// A thread has as many levels open as there are acts that opened them.
pub fn levels_are_counted<C: ThreadCode>()
    ensures { LevelsAreCounted C.code }
{}

/// The levels of each thread are a run of levels, with the pinned depth and the revocations of the section that it has
/// open.
pub fn threads_run_in_levels<C: ThreadCode>()
    ensures { ThreadsRunInLevels C.code }
{}

/// A level that is revoked, then or later, isn't pinned as long as it is open.
pub fn doomed_levels_are_unpinned<C: ThreadCode>()
    ensures { DoomedLevelsAreUnpinned C.code }
{}
