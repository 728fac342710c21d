//! The changes that the answer of a step can make in a thread.

ghost use Rattle.std.specs.Prelude.{◌≡◌};
ghost use Rattle.thread_automaton.specs.declared.Attempt.{Attempt};

use monitor_core::Why;
use op_core::{Line, Reply};
use thread_automaton::{Attempt, Held};
use write_log::Noted;

/// What an answer makes of a thread. `change_meant` says which change of the definitions it is.
#[derive(Clone, Copy)]
pub enum ThreadChange {
    /// The attempt goes on so.
    Goes(Attempt),
    /// The attempt ends without a reply, since the thread has to wait.
    HasToWait(Why),
    /// The operation has this reply, and nothing else is changed.
    Replies(Reply),
    /// The own section is seen pinned to this depth, and the attempt goes on so.
    SeesPinned(u8, Attempt),
    /// This section, which had written a word, is committed, or pinned to this depth.
    Knows(u32, u8),
    /// A word was written. Its old value is logged, where that is wanted.
    Writes(Noted),
    /// A section was opened, and the attempt goes on so.
    Opens(u32, Attempt),
    /// The next level was opened, and the attempt goes on so.
    OpensLevel(Attempt),
    /// The levels above this depth were closed, and the attempt goes on so.
    ClosesTo(u8, Attempt),
    /// A monitor was taken.
    Takes(Held),
    /// The monitor of this object has this depth.
    Deepens(u32, u16),
    /// The monitor of this object was left.
    Leaves(u32),
    /// A wait has given up the monitor of this object.
    Waits(u32),
    /// A line was printed, with this ticket.
    Prints(u64, Line),
    /// Undoing has put back the word that was logged last.
    PutsBack,
    /// Undoing has given the monitor of this object its depth of before.
    SetsBack(u32, u16),
    /// Undoing has released the monitor of this object.
    GivesBack(u32),
    /// The section is undone to this level.
    GoesBack(u8),
    /// The thread has ended.
    Ends,
}

impl ThreadChange {
    // What is made of an answer that such a step of such a thread never has: the attempt would begin anew.
    pub(crate) fn never_comes() -> ThreadChange
        ensures { result ≡ ThreadChange.Goes Attempt.Begin }
    {
        ThreadChange::Goes(Attempt::Begin)
    }
}
