//! What is left of each run of an accepted program on shared words.

ghost use Rattle.std.specs.Prelude.{ℕ, List};
ghost use Rattle.program_accept.specs.Accepted.{IsProgram};
ghost use Rattle.accepted_runs.specs.Runs.{ProgramRunsAreErased, ProgramTurnsAreErased, ProgramListsAreErased};

use program_accept::Program;

/// Leave out of a run of a program that `accept` gives what its threads make with a level open that is revoked at any place of
/// the run. What is left is an execution of the program (JLS 17.1): it begins at the start of the program, and prints what the
/// run prints. The run begins with the words of the program's opening; the order of the steps of its threads may be any. Turns
/// that follow a schedule are such a run, and so is each list of steps of which each thread's part is one of its code.
pub fn accepted_runs_are_erased(program: &Program)
    ensures runs { (files : List (List ℕ)) (name : List ℕ) → IsProgram files name program.now → ProgramRunsAreErased program.now.units program.now.main }
    ensures turns { (files : List (List ℕ)) (name : List ℕ) → IsProgram files name program.now → ProgramTurnsAreErased program.now.units program.now.main }
    ensures lists { (files : List (List ℕ)) (name : List ℕ) → IsProgram files name program.now → ProgramListsAreErased program.now.units program.now.main }
{
    let world = program.world();
    world.is_linked();
    let _first = world.first_free();
}
