//! What an accepted program never does, from a state that fits.

ghost use Rattle.std.specs.Prelude.{ℕ, List, ◌<◌, length};
ghost use Rattle.code_decode.specs.declared.code.ClassUnit.{ClassUnit};
ghost use Rattle.java_rows.specs.Thread.{java_code, first_state};
ghost use Rattle.link_rules.specs.Classes.{classes_of};
ghost use Rattle.link_types.specs.declared.operands.MethodId.{MethodId};
ghost use Rattle.op_core.specs.Orderly.{IsOrderly};
ghost use Rattle.row_soundness.specs.Accepted.{Accepted, IsMain};
ghost use Rattle.row_soundness.specs.ClassesFollow.{ClassesFollow};
ghost use Rattle.program_soundness.specs.Soundness.{HasRoom, BlockedThreadsWait, ExecutionsFit, ListsFit, LiveThreadsGoOn, StartsAreGrounded, StartsKeepStartWords};

/// Each state of a list in which undoing is seen fits where the first one does: its objects are of the program, each
/// word may be at its place, and the frames of each live thread have the types that verification gives them.
pub fn lists_fit()
    ensures { (us : List ClassUnit) → Accepted us → HasRoom us → ClassesFollow us → ListsFit us }
{}

/// If the first state of an execution fits, each state that it reaches fits.
pub fn executions_fit()
    ensures { (us : List ClassUnit) → Accepted us → HasRoom us → ClassesFollow us → ExecutionsFit us }
{}

/// Whatever a thread wants in such a list is there and in range: a thread names nothing out of nothing.
pub fn programs_are_grounded()
    ensures { (us : List ClassUnit) → Accepted us → HasRoom us → ClassesFollow us → StartsAreGrounded us }
{}

/// Nothing that a thread wants in such a list names the start word of a Thread, and Start and Join name Threads alone.
pub fn programs_keep_start_words()
    ensures { (us : List ClassUnit) → Accepted us → HasRoom us → ClassesFollow us → StartsKeepStartWords us }
{}

/// The code of a program goes in order, whatever it is answered: it ends by the end of its thread alone, and the second
/// half of a wait comes right after the first half and nowhere else.
pub fn programs_are_orderly()
    ensures { (us : List ClassUnit) (main : MethodId) (classes : ℕ) → Accepted us → HasRoom us → IsMain us main → length (classes_of us) < classes → IsOrderly java_code (first_state us main) classes }
{}

/// In a state that fits, a live thread never comes to a place where an operand, a local, room or an entry is missing: it
/// wants an operation or has a silent step.
pub fn live_threads_go_on()
    ensures { (us : List ClassUnit) → Accepted us → HasRoom us → ClassesFollow us → LiveThreadsGoOn us }
{}

/// A live thread that has no step waits for a monitor, for a notification, for the end of a thread, for the
/// initialization of a class by another thread, or for a number of a thread.
pub fn blocked_threads_wait()
    ensures { (us : List ClassUnit) → Accepted us → HasRoom us → ClassesFollow us → BlockedThreadsWait us }
{}
