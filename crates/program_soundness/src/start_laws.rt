//! What holds of the start of a program that was decoded, linked and verified, and of all that follows it.

ghost use Rattle.std.specs.Prelude.{ℕ, List, ◌≤◌, ◌^◌};
ghost use Rattle.code_decode.specs.declared.code.ClassUnit.{ClassUnit};
ghost use Rattle.java_rows.specs.Start.{start_of_program};
ghost use Rattle.program_soundness.specs.Soundness.{StateFits};
ghost use Rattle.link_rules.specs.FixedObjects.{first_free};
ghost use Rattle.link_rules.specs.Names.{program_names};
ghost use Rattle.link_types.specs.declared.operands.MethodId.{MethodId};
ghost use Rattle.program_soundness.specs.SoundPrograms.{IsSound};
ghost use Rattle.program_soundness.specs.Programs.{IsMainMethod};
ghost use Rattle.program_soundness.specs.Starts.{RunsFit};

/// The first state fits: the objects that exist from the start are of the program, the words of class objects are null,
/// numbers, or literals in fields of type String, and the first thread calls the main method.
pub fn starts_fit()
    ensures { (us : List ClassUnit) (order : List ℕ) (main : MethodId) → IsSound us order → first_free (program_names us) ≤ 2 ^ 32 → IsMainMethod us main → StateFits us (start_of_program us main) }
{}

/// From the start of a program on, what a thread wants exists and is in range, each state fits that an execution reaches,
/// no live thread comes to a place where it can't go on, and one that has no step waits for one of five named reasons.
pub fn runs_fit()
    ensures { (us : List ClassUnit) (order : List ℕ) (main : MethodId) → IsSound us order → first_free (program_names us) ≤ 2 ^ 32 → IsMainMethod us main → RunsFit us (start_of_program us main) }
{}
