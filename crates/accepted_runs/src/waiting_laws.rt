//! What is left of runs of accepted programs on shared words that end where no thread is enabled.

ghost use Rattle.std.specs.Prelude.{ℕ, List};
ghost use Rattle.program_accept.specs.Accepted.{IsProgram};
ghost use Rattle.accepted_runs.specs.HeldUp.{IdleRunsEndWaiting, HeldUpTurnsEndWaiting};

use crate::accepted_programs::accepted_programs_go_in_order;
use crate::erasure_laws::accepted_runs_are_erased;
use program_accept::Program;

/// A run of a program that `accept` gives ends where no thread is enabled, and some thread hasn't ended. Leave out of it what its
/// threads make with a level open that is revoked at any place of the run. What is left is an execution of the program that is
/// stuck: no thread has a step, and each one that hasn't ended waits for a monitor, for a notification, for the end of a thread,
/// for the initialization of a class by another thread, or for a number of a thread (JLS 12.4.2, 17.1, 17.2). Turns that follow
/// a schedule end so where they are held up.
pub fn held_up_programs_wait(program: &Program)
    ensures runs { (files : List (List ℕ)) (name : List ℕ) → IsProgram files name program.now → IdleRunsEndWaiting program.now.units program.now.main }
    ensures turns { (files : List (List ℕ)) (name : List ℕ) → IsProgram files name program.now → HeldUpTurnsEndWaiting program.now.units program.now.main }
{
    accepted_programs_go_in_order(program);
    accepted_runs_are_erased(program);
}
