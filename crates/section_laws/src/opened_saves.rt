//! The saves of the levels that threads have open, along a run. A law alone.
//!
//! The function does nothing: its contract is the law.

ghost use Rattle.section_laws.specs.OpenedSaves.{SavesAreAsOpened};

use op_core::ThreadCode;

/// Each save is the local state in which its thread was as the level opened.
pub fn saves_are_as_opened<C: ThreadCode>()
    ensures { SavesAreAsOpened C.code }
{}
