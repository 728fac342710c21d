//! At which levels threads hold monitors along a run, and to which local states they come. Laws alone.
//!
//! Each function does nothing: its contract is the law.

ghost use Rattle.section_laws.specs.HeldLevels.{ThreadsStandInOrder, HeldLevelsAreOpen, RewakesAreInLevels};

use op_core::ThreadCode;

/// Each thread is in one of the local states to which a thread comes from the first one.
pub fn threads_stand_in_order<C: ThreadCode>()
    ensures { ThreadsStandInOrder C.code }
{}

/// Each monitor that a thread holds was taken at a level that is open, but for the one that an exit is about to release.
pub fn held_levels_are_open<C: ThreadCode>()
    ensures { HeldLevelsAreOpen C.code }
{}

/// A thread that is to take a monitor again after a wait has its section open, with the level of that monitor, and has
/// seen all levels pinned.
pub fn rewakes_are_in_levels<C: ThreadCode>()
    ensures { RewakesAreInLevels C.code }
{}
