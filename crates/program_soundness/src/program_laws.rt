//! What holds of a program that was decoded, linked and verified.

ghost use Rattle.std.specs.Prelude.{ℕ, List, ◌<◌, ◌≤◌, ◌^◌, length};
ghost use Rattle.code_decode.specs.declared.code.ClassUnit.{ClassUnit};
ghost use Rattle.java_rows.specs.Thread.{java_code, first_state};
ghost use Rattle.link_rules.specs.Classes.{classes_of};
ghost use Rattle.link_types.specs.declared.operands.MethodId.{MethodId};
ghost use Rattle.program_soundness.specs.SoundPrograms.{IsSound};
ghost use Rattle.op_core.specs.Orderly.{IsOrderly};
ghost use Rattle.row_soundness.specs.Accepted.{IsMain};
ghost use Rattle.program_soundness.specs.Programs.{ObjectsHaveRoom, IsMainMethod};
ghost use Rattle.program_soundness.specs.ClassFacts.{ClassesGoUp, NumbersAreWords};
ghost use Rattle.program_soundness.specs.Soundness.{HasRoom};
ghost use Rattle.link_rules.specs.FixedObjects.{first_free};
ghost use Rattle.link_rules.specs.Names.{program_names};

/// Each object that a program can make has at most 2^32 words.
pub fn objects_have_room()
    ensures { (us : List ClassUnit) (order : List ℕ) → IsSound us order → ObjectsHaveRoom us }
{}

/// A static method of a class file with a parameter of type `String[]` and no result is one with which a program can begin.
pub fn main_methods_begin()
    ensures { (us : List ClassUnit) (order : List ℕ) (main : MethodId) → IsSound us order → IsMainMethod us main → IsMain us main }
{}

/// The code of a program goes in order, whatever it is answered: it ends by the end of its thread alone, and the second
/// half of a wait comes right after the first half and nowhere else. So no thread comes to a place where an operand, a
/// local, room or an entry is missing.
pub fn programs_go_in_order()
    ensures { (us : List ClassUnit) (order : List ℕ) (main : MethodId) (classes : ℕ) → IsSound us order → IsMainMethod us main → length (classes_of us) < classes → IsOrderly java_code (first_state us main) classes }
{}

/// An object of a class may be used where its class is wanted, one that it passes instanceof of, Throwable exactly where it is
/// one, Object, or the class of a method that is selected for it.
pub fn classes_go_up()
    ensures { (us : List ClassUnit) (order : List ℕ) → IsSound us order → ClassesGoUp us }
{}

/// Where the objects at the start have places below 2^32, numbers of classes are words.
pub fn numbers_are_words()
    ensures { (us : List ClassUnit) (order : List ℕ) → IsSound us order → first_free (program_names us) ≤ 2 ^ 32 → NumbersAreWords us }
{}

/// Where the objects at the start have places below 2^32, the objects of a program and the numbers of its classes are as
/// large as they may be, and each object of a Thread has the words of a Thread.
pub fn programs_have_room()
    ensures { (us : List ClassUnit) (order : List ℕ) → IsSound us order → first_free (program_names us) ≤ 2 ^ 32 → HasRoom us }
{}
