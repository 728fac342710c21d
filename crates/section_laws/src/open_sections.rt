//! Which sections are live or revoked along a run, and what their words say. Laws alone.
//!
//! Each function does nothing: its contract is the law.

ghost use Rattle.section_laws.specs.OpenSections.{OpenSectionsHaveThreads, WordsSayOfRevoking, DoomedSectionsAreOpen};

use op_core::ThreadCode;

/// Each section that is live, or revoked and not undone yet, is open by a thread.
pub fn open_sections_have_threads<C: ThreadCode>()
    ensures { OpenSectionsHaveThreads C.code }
{}

/// The word of a section says a level to which it is revoked exactly while it is revoked: one that is open and not
/// pinned.
pub fn words_say_of_revoking<C: ThreadCode>()
    ensures { WordsSayOfRevoking C.code }
{}

/// While a level is open that is revoked, then or later, its section isn't committed.
pub fn doomed_sections_are_open<C: ThreadCode>()
    ensures { DoomedSectionsAreOpen C.code }
{}
