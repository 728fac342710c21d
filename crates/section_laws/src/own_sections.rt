//! What the word of a thread's own section says along a run, and how the words of sections change. Laws alone.
//!
//! Each function does nothing: its contract is the law.

ghost use Rattle.section_laws.specs.OwnWords.{OwnWordsAreKnown};
ghost use Rattle.section_laws.specs.Moves.{SectionsMove, PinnedLevelsStay};

use op_core::ThreadCode;

/// The word of the section that a thread has open says the thread's number and priority and which levels are open. It is
/// pinned at least as deep as the thread has seen. It is live, or revoked to a level that is open and not pinned, or
/// committed. While the thread undoes the section, the word stays as it was seen to be revoked.
pub fn own_words_are_known<C: ThreadCode>()
    ensures { OwnWordsAreKnown C.code }
{}

/// The word of a section changes by nothing but its opening and seven moves.
pub fn sections_move<C: ThreadCode>()
    ensures { SectionsMove C.code }
{}

/// What was pinned stays pinned, and is not revoked afterwards.
pub fn pinned_levels_stay<C: ThreadCode>()
    ensures { PinnedLevelsStay C.code }
{}
