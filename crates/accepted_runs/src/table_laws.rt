//! What a turn on a shared table asks is there, after each run of an accepted program.

ghost use Rattle.std.specs.Prelude.{ℕ, List};
ghost use Rattle.program_accept.specs.Accepted.{IsProgram};
ghost use Rattle.accepted_runs.specs.Tables.{ProgramThreadsCanGoOn};

use program_accept::Program;

/// After each run of a program that `accept` gives, made on a shared table by however many host threads, each thread can have its
/// turn until it has ended: what it wants can be asked for, the word of its next step is on the table and has room for the step, a
/// start word that it loads names a thread, and a thread that it hands out begins as the program says. `C` is the type of the threads'
/// code.
pub fn accepted_programs_can_go_on<C>(program: &Program)
    ensures { (files : List (List ℕ)) (name : List ℕ) → IsProgram files name program.now → ProgramThreadsCanGoOn C program.now.units program.now.main }
{
    let world = program.world();
    world.is_linked();
    let _first = world.first_free();
}
