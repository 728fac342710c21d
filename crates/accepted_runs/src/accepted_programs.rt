//! What holds of the programs that are accepted. Laws alone.

ghost use Rattle.std.specs.Prelude.{ℕ, List, ◌<◌, length};
ghost use Rattle.program_soundness.specs.Soundness.{HasRoom};
ghost use Rattle.java_rows.specs.Thread.{java_code, first_state};
ghost use Rattle.link_rules.specs.Classes.{classes_of};
ghost use Rattle.op_core.specs.Orderly.{IsOrderly};
ghost use Rattle.program_accept.specs.Accepted.{IsProgram};
ghost use Rattle.accepted_runs.specs.Programs.{IsSoundProgram};
ghost use Rattle.java_rows.specs.Start.{start_of_program};
ghost use Rattle.program_soundness.specs.Starts.{RunsFit};
ghost use Rattle.accepted_runs.specs.Waiting.{StuckRunsWait};

use program_accept::Program;

/// A program that `accept` gives is decoded, keeps the rules of linking in an order of its classes, its methods are type
/// safe, and it begins with a method of its own. So its code goes in order, whatever it is answered: a thread ends by its
/// end alone, and never comes to a place where an operand, a local, room or an entry of the constant pool is missing. Its
/// objects and the numbers of its classes are as large as they may be. From its start on, what a thread wants exists and is in
/// range, each state that an execution reaches fits, no live thread comes to a place where it can't go on, and one that has
/// no step waits for one of five named reasons. So a scheduled run of it is stuck only where each thread that hasn't ended
/// waits.
pub fn accepted_programs_go_in_order(program: &Program)
    ensures sound { (files : List (List ℕ)) (name : List ℕ) → IsProgram files name program.now → IsSoundProgram program.now }
    ensures orderly { (files : List (List ℕ)) (name : List ℕ) (classes : ℕ) → IsProgram files name program.now → length (classes_of program.now.units) < classes →
        IsOrderly java_code (first_state program.now.units program.now.main) classes }
    ensures room { (files : List (List ℕ)) (name : List ℕ) → IsProgram files name program.now → HasRoom program.now.units }
    ensures runs { (files : List (List ℕ)) (name : List ℕ) → IsProgram files name program.now → RunsFit program.now.units (start_of_program program.now.units program.now.main) }
    ensures stuck { (files : List (List ℕ)) (name : List ℕ) → IsProgram files name program.now → StuckRunsWait program.now.units program.now.main }
{
    let world = program.world();
    world.is_linked();
    let _first = world.first_free();
}
