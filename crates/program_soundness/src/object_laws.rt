//! What holds of the objects of a program that was decoded, linked and verified.

ghost use Rattle.std.specs.Prelude.{ℕ, List, ◌≤◌, ◌^◌};
ghost use Rattle.code_decode.specs.declared.code.ClassUnit.{ClassUnit};
ghost use Rattle.program_soundness.specs.Soundness.{HasRoom};
ghost use Rattle.link_rules.specs.FixedObjects.{first_free};
ghost use Rattle.link_rules.specs.Names.{program_names};
ghost use Rattle.program_soundness.specs.SoundPrograms.{IsSound};
ghost use Rattle.row_soundness.specs.ClassesFollow.{ClassesFollow};
ghost use Rattle.row_soundness.specs.Accepted.{Accepted};

/// Where the objects at the start have places below 2^32: what an object may be used as goes up with the types, each of
/// its words holds one content, fields, arrays and the built-in classes have the words that their types say, and the
/// objects that exist from the start are of their classes.
pub fn classes_follow()
    ensures { (us : List ClassUnit) (order : List ℕ) → IsSound us order → first_free (program_names us) ≤ 2 ^ 32 → ClassesFollow us }
{}

/// All that type soundness asks of the classes, the operands and the numbers of a program holds of each such program.
pub fn programs_are_sound()
    ensures { (us : List ClassUnit) (order : List ℕ) → IsSound us order → first_free (program_names us) ≤ 2 ^ 32 → Accepted us × HasRoom us × ClassesFollow us }
{}
