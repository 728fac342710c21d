//! The priorities with which programs that are accepted start threads. Laws alone.

ghost use Rattle.std.specs.Prelude.{ℕ, List};
ghost use Rattle.java_rows.specs.Start.{start_of_program};
ghost use Rattle.program_accept.specs.Accepted.{IsProgram};
ghost use Rattle.program_soundness.specs.Priorities.{PrioritiesFit};

use program_accept::Program;

/// In each execution of a program that `accept` gives, each thread is started with a priority from 1 to 10, and a thread that
/// is about to start another one names such a priority.
pub fn accepted_programs_start_in_range(program: &Program)
    ensures { (files : List (List ℕ)) (name : List ℕ) → IsProgram files name program.now → PrioritiesFit (start_of_program program.now.units program.now.main) }
{
    let world = program.world();
    world.is_linked();
    let _first = world.first_free();
}
