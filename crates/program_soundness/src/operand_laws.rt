//! What holds of the operands, methods, classes and numbers of a sound program.

ghost use Rattle.std.specs.Prelude.{ℕ, List};
ghost use Rattle.code_decode.specs.declared.code.ClassUnit.{ClassUnit};
ghost use Rattle.row_soundness.specs.Accepted.{Accepted};
ghost use Rattle.program_soundness.specs.SoundPrograms.{IsSound};

/// A program that is decoded, linked and verified has all that the rows of its instructions ask of its classes.
pub fn programs_are_accepted()
    ensures { (us : List ClassUnit) (order : List ℕ) → IsSound us order → Accepted us }
{}
