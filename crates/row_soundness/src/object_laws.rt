//! What is known of the objects that there are.

ghost use Rattle.std.specs.Prelude.{List};
ghost use Rattle.code_decode.specs.declared.code.ClassUnit.{ClassUnit};
ghost use Rattle.row_soundness.specs.Knowledge.{Knows};
ghost use Rattle.row_soundness.specs.Runs.{runs};
ghost use Rattle.row_soundness.specs.ClassesFollow.{ClassesFollow};

/// Of the objects that there are, all is known that the rows need.
pub fn objects_are_known()
    ensures { (us : List ClassUnit) → ClassesFollow us → Knows (runs us) us }
{}
