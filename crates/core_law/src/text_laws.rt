//! What a run leaves of words and texts, read off the core with which it ends.

ghost use Rattle.core_law.specs.Arrays.{TextsAreThoseLeft, WordsAreThoseLeft};
ghost use Rattle.core_law.specs.ToUndo.{LevelsToUndoAreTold, WordsToPutBackAreTold};

use op_core::ThreadCode;

/// Where a run ends, the levels that a thread has to undo are those from the level on to which the word of its section says that it
/// is revoked.
pub fn levels_to_undo_are_told<C: ThreadCode>()
    ensures { LevelsToUndoAreTold C.code }
{}

/// Where a run ends, the words that a thread has to put back are those that it logged since the level to which the word of its
/// section says that it is revoked.
pub fn words_to_put_back_are_told<C: ThreadCode>()
    ensures { WordsToPutBackAreTold C.code }
{}

/// Where a run ends, what a word of an object will be, once each thread has undone what it has to, is what the execution makes of
/// it that is left of the run.
pub fn words_are_those_left<C: ThreadCode>()
    ensures { WordsAreThoseLeft C.code }
{}

/// Where a run ends, the texts that arrays will have, once each thread has undone what it has to, are those that they have after
/// the execution that is left of the run, if they are there then, with one word for each unit.
pub fn texts_are_those_left<C: ThreadCode>()
    ensures { TextsAreThoseLeft C.code }
{}
