//! The texts of Strings in executions of a program that was decoded, linked and verified. Laws alone.

ghost use Rattle.std.specs.Prelude.{ℕ, List, ◌≤◌, ◌^◌};
ghost use Rattle.code_decode.specs.declared.code.ClassUnit.{ClassUnit};
ghost use Rattle.java_rows.specs.Start.{start_of_program};
ghost use Rattle.link_rules.specs.FixedObjects.{first_free};
ghost use Rattle.link_rules.specs.Names.{program_names};
ghost use Rattle.link_types.specs.declared.operands.MethodId.{MethodId};
ghost use Rattle.program_soundness.specs.SoundPrograms.{IsSound};
ghost use Rattle.program_soundness.specs.Programs.{IsMainMethod};
ghost use Rattle.accepted_runs.specs.Texts.{TextsStay};

/// In each execution from the start of a program, the text of a String never changes once the String has an array: it keeps
/// the array, and the array its length and its units, and each reply to a thread that reads a part of it says so. A thread
/// that is about to read the text of a String reads a literal, or a String that has an array. A line that is about to be
/// printed of a String that the program made names the array of one, and is what this array has then and later.
pub fn texts_never_change()
    ensures { (us : List ClassUnit) (order : List ℕ) (main : MethodId) → IsSound us order → first_free (program_names us) ≤ 2 ^ 32 → IsMainMethod us main → TextsStay us (start_of_program us main) }
{}
