//! The saves of levels along a run: where each thread stood as a level opened. A law alone.
//!
//! The function does nothing: its contract is the law.

ghost use Rattle.section_laws.specs.LevelSaves.{SavesAreKnown};

use op_core::ThreadCode;

/// Each saved state of a thread is where it stood as one of its open levels opened.
pub fn saves_are_known<C: ThreadCode>()
    ensures { SavesAreKnown C.code }
{}
