//! The priorities of the threads of a program that was decoded, linked and verified.

ghost use Rattle.std.specs.Prelude.{ℕ, List, ◌≤◌, ◌^◌};
ghost use Rattle.code_decode.specs.declared.code.ClassUnit.{ClassUnit};
ghost use Rattle.java_rows.specs.Start.{start_of_program};
ghost use Rattle.link_rules.specs.FixedObjects.{first_free};
ghost use Rattle.link_rules.specs.Names.{program_names};
ghost use Rattle.link_types.specs.declared.operands.MethodId.{MethodId};
ghost use Rattle.program_soundness.specs.SoundPrograms.{IsSound};
ghost use Rattle.program_soundness.specs.Programs.{IsMainMethod};
ghost use Rattle.program_soundness.specs.Priorities.{PrioritiesFit};

/// In each execution from the start of a program, each thread is started with a priority from 1 to 10, and a thread that is
/// about to start another one names such a priority.
pub fn priorities_fit()
    ensures { (us : List ClassUnit) (order : List ℕ) (main : MethodId) → IsSound us order → first_free (program_names us) ≤ 2 ^ 32 → IsMainMethod us main → PrioritiesFit (start_of_program us main) }
{}
