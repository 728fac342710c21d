//! What a thread knows of the section that it last saw as the writer of a word, along a run. A law alone.
//!
//! The function does nothing: its contract is the law.

ghost use Rattle.section_laws.specs.Known.{KnownSectionsArePinned};

use op_core::ThreadCode;

/// The section that a thread knows is committed, or pinned as deep as the thread knows.
pub fn known_sections_are_pinned<C: ThreadCode>()
    ensures { KnownSectionsArePinned C.code }
{}
