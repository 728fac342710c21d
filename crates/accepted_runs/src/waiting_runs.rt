//! What it means that a run of an accepted program is stuck. Laws alone.

ghost use Rattle.std.specs.Prelude.{ℕ, List, ◌≤◌, ◌^◌};
ghost use Rattle.code_decode.specs.declared.code.ClassUnit.{ClassUnit};
ghost use Rattle.link_rules.specs.FixedObjects.{first_free};
ghost use Rattle.link_rules.specs.Names.{program_names};
ghost use Rattle.link_types.specs.declared.operands.MethodId.{MethodId};
ghost use Rattle.program_soundness.specs.SoundPrograms.{IsSound};
ghost use Rattle.program_soundness.specs.Programs.{IsMainMethod};
ghost use Rattle.accepted_runs.specs.Waiting.{StuckRunsWait};

/// A run of the program that is stuck is an execution after which some thread hasn't ended, and each such thread waits: for a
/// monitor, for a notification, for the end of a thread, for the initialization of a class by another thread, or for a
/// number of a thread.
pub fn stuck_runs_wait()
    ensures { (us : List ClassUnit) (order : List ℕ) (main : MethodId) → IsSound us order → first_free (program_names us) ≤ 2 ^ 32 → IsMainMethod us main → StuckRunsWait us main }
{}
