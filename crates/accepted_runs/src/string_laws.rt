//! The texts of Strings of programs that are accepted.

ghost use Rattle.std.specs.Prelude.{ℕ, List};
ghost use Rattle.java_rows.specs.Start.{start_of_program};
ghost use Rattle.program_accept.specs.Accepted.{IsProgram};
ghost use Rattle.accepted_runs.specs.Texts.{TextsStay};

use program_accept::Program;

/// In each execution of a program that `accept` gives, the text of a String never changes once the String has an array: it
/// keeps the array, and the array its length and its units, and each reply to a thread that reads a part of it says so. A
/// String whose text is about to be read is a literal or has an array. A line that is about to be printed of a String that
/// the program made names the array of one, and is what this array has then and later.
pub fn accepted_texts_never_change(program: &Program)
    ensures { (files : List (List ℕ)) (name : List ℕ) → IsProgram files name program.now → TextsStay program.now.units (start_of_program program.now.units program.now.main) }
{
    let world = program.world();
    world.is_linked();
    let _first = world.first_free();
}
