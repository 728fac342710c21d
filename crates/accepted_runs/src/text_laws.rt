//! What turns of accepted programs on shared words tell of the execution that is left of them.

ghost use Rattle.std.specs.Prelude.{ℕ, List};
ghost use Rattle.accepted_runs.specs.Left.{TurnsTellEnds, TurnsTellTexts};
ghost use Rattle.accepted_runs.specs.Printed.{PrintedLinesNameArrays};
ghost use Rattle.code_decode.specs.declared.code.ClassUnit.{ClassUnit};
ghost use Rattle.java_rows.specs.Start.{start_of_program};
ghost use Rattle.link_types.specs.declared.operands.MethodId.{MethodId};
ghost use Rattle.program_accept.specs.Accepted.{IsProgram};

use crate::accepted_programs::accepted_programs_go_in_order;
use crate::string_laws::accepted_texts_never_change;
use program_accept::Program;

/// In each execution of a program that `accept` gives, a line that was printed of a text which the program made names an array that
/// is there at the end, with one word for each unit.
pub fn printed_lines_name_arrays(program: &Program)
    ensures { (files : List (List ℕ)) (name : List ℕ) → IsProgram files name program.now → PrintedLinesNameArrays program.now.units (start_of_program program.now.units program.now.main) }
{
    accepted_programs_go_in_order(program);
    accepted_texts_never_change(program);
}

/// Turns of a program that `accept` gives have led to a core. The texts of the lines that they printed, as these will be once each
/// thread has undone what it has to, are the texts after the execution that is left of the turns.
pub fn accepted_turns_tell_texts(program: &Program)
    ensures { (files : List (List ℕ)) (name : List ℕ) → IsProgram files name program.now → TurnsTellTexts program.now.units program.now.main }
{
    printed_lines_name_arrays(program);
}

/// Turns of a program have led to a core. The threads that have ended in it, and no others, have ended after the execution that is
/// left of the turns, each with an exception of the same class, or with none.
pub fn turns_tell_ends()
    ensures { (us : List ClassUnit) (main : MethodId) → TurnsTellEnds us main }
{}
