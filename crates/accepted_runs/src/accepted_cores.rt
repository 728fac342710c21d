//! Runs of programs that are accepted on shared words, with sections that are undone. Laws alone.

ghost use Rattle.std.specs.Prelude.{ℕ, List};
ghost use Rattle.program_accept.specs.Accepted.{IsProgram};
ghost use Rattle.accepted_runs.specs.JavaCores.{CoreStatesFit};

use program_accept::Program;

/// Along each run on shared words that begins at the start of a program that `accept` gives, each thread object has a start
/// word, each place fits as threads see it, objects end within 2^32 places, and what a thread wants that hasn't ended can be
/// asked for in a turn. Sections may be undone in it, to any of their levels.
pub fn accepted_programs_fit_in_cores(program: &Program)
    ensures { (files : List (List ℕ)) (name : List ℕ) → IsProgram files name program.now → CoreStatesFit program.now.units program.now.main }
{
    let world = program.world();
    world.is_linked();
    let _first = world.first_free();
}
