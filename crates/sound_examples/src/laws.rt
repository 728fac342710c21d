//! A program of one class that is decoded, linked and verified.

ghost use Rattle.std.specs.Prelude.{ℕ, List, ◌≤◌, ◌^◌};
ghost use Rattle.java_rows.specs.Start.{start_of_program};
ghost use Rattle.link_rules.specs.FixedObjects.{first_free};
ghost use Rattle.link_rules.specs.Names.{program_names};
ghost use Rattle.program_soundness.specs.SoundPrograms.{IsSound};
ghost use Rattle.sound_examples.specs.Program.{idle_method, idle_program};
ghost use Rattle.program_soundness.specs.Programs.{IsMainMethod};
ghost use Rattle.program_soundness.specs.Starts.{RunsFit};

/// The program of a class `Main` whose `main` does nothing is decoded from some bytes, keeps the rules of linking in an order
/// of its classes, is type safe, begins with that method, and has few objects at the start. So what is proved of sound
/// programs holds of it: what is asked of them can be met.
pub fn a_program_is_sound()
    ensures sound { (order : List ℕ) × IsSound idle_program order }
    ensures main { IsMainMethod idle_program idle_method }
    ensures room { first_free (program_names idle_program) ≤ 2 ^ 32 }
    ensures runs { RunsFit idle_program (start_of_program idle_program idle_method) }
{}
