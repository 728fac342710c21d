//! Runs of an accepted program on shared words have whatever a turn asks for. Laws alone.

ghost use Rattle.std.specs.Prelude.{ℕ, List};
ghost use Rattle.program_accept.specs.Accepted.{IsProgram};
ghost use Rattle.accepted_runs.specs.Ready.{ProgramRunsAreReady, ProgramTurnsAreReady};

use program_accept::Program;

/// At each place of a run of a program that `accept` gives, a turn of each thread can be made: what the thread wants can be
/// asked for, the word of its next step is in the program's table, a sum that the step makes has 64 bits, and a start word that
/// it loads says the number of a thread, or 0. The run begins with the words of the program's opening; the order of the steps of
/// its threads may be any. So it is wherever turns lead that follow a schedule.
pub fn accepted_runs_are_ready(program: &Program)
    ensures runs { (files : List (List ℕ)) (name : List ℕ) → IsProgram files name program.now → ProgramRunsAreReady program.now.units program.now.main }
    ensures turns { (files : List (List ℕ)) (name : List ℕ) → IsProgram files name program.now → ProgramTurnsAreReady program.now.units program.now.main }
{
    let world = program.world();
    world.is_linked();
    let _first = world.first_free();
}
