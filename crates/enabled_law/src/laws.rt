//! Threads on shared words that are given turns while no other thread is, and what keeps a thread enabled or not. Of every thread
//! code.

ghost use Rattle.enabled_law.specs.Forgetting.{EnabledThreadsCanComeToWait};
ghost use Rattle.enabled_law.specs.Laws.{OthersStay, UncountedTurnsLeaveWords};
ghost use Rattle.enabled_law.specs.Watched.{OnlyWatchedWordsCount, UnseenStepsLeaveEnabled};

use op_core::ThreadCode;

/// Whether a thread is enabled depends on the words that it watches, and on no other word.
pub fn only_watched_words_count<C: ThreadCode>()
    ensures { OnlyWatchedWordsCount C.code }
{}

/// A step of another thread leaves a thread enabled or not, as it was, where it is a load or isn't made on a word that the thread
/// watches.
pub fn unseen_steps_leave_enabled<C: ThreadCode>()
    ensures { UnseenStepsLeaveEnabled C.code }
{}

/// A thread that isn't enabled, is between two attempts and hasn't made its number of counted turns doesn't go on alone.
pub fn others_stay<C: ThreadCode>()
    ensures { OthersStay C.code }
{}

/// An enabled thread may come to wait when it is given turns alone: one that is about to look at the section that had written a
/// word, and so forgets the section which has written it since.
pub fn enabled_threads_can_come_to_wait()
    ensures { EnabledThreadsCanComeToWait }
{}

/// A turn that doesn't count leaves the shared words as they are.
pub fn uncounted_turns_leave_words<C: ThreadCode>()
    ensures { UncountedTurnsLeaveWords C.code }
{}
