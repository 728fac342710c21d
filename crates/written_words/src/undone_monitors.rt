//! What the words of monitors say along a run once a thread has undone levels of its section. Laws alone.
//!
//! Each function does nothing: its contract is the law.

ghost use Rattle.written_words.specs.UndoneMonitors.{UndoneLevelsHoldNoMonitor, UndoneSectionsHoldNoMonitor};

use op_core::ThreadCode;

/// As a thread marks its section as undone to a level, no monitor carries the section with that level or one further inside.
pub fn undone_levels_hold_no_monitor<C: ThreadCode>()
    ensures { UndoneLevelsHoldNoMonitor C.code }
{}

/// Once a thread has undone its section as a whole, no monitor carries the section, then or later.
pub fn undone_sections_hold_no_monitor<C: ThreadCode>()
    ensures { UndoneSectionsHoldNoMonitor C.code }
{}
