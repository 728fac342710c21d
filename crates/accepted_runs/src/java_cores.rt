//! Runs of a program that was decoded, linked and verified, on shared words, with sections that are undone. Laws alone.

ghost use Rattle.std.specs.Prelude.{ℕ, List, ◌≤◌, ◌^◌};
ghost use Rattle.code_decode.specs.declared.code.ClassUnit.{ClassUnit};
ghost use Rattle.link_rules.specs.FixedObjects.{first_free};
ghost use Rattle.link_rules.specs.Names.{program_names};
ghost use Rattle.link_types.specs.declared.operands.MethodId.{MethodId};
ghost use Rattle.program_soundness.specs.SoundPrograms.{IsSound};
ghost use Rattle.program_soundness.specs.Programs.{IsMainMethod};
ghost use Rattle.accepted_runs.specs.JavaCores.{CoreStatesFit};

/// Along each run on shared words that begins at the start of a program, each thread object has a start word, each place fits
/// as threads see it, objects end within 2^32 places, and what a thread wants that hasn't ended can be asked for in a turn.
/// Sections may be undone in it, to any of their levels. The program was decoded, linked and verified.
pub fn core_states_fit()
    ensures { (us : List ClassUnit) (order : List ℕ) (main : MethodId) → IsSound us order → first_free (program_names us) ≤ 2 ^ 32 → IsMainMethod us main → CoreStatesFit us main }
{}
