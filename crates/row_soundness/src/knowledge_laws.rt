//! What is known of the code of a thread alone.

ghost use Rattle.std.specs.Prelude.{List};
ghost use Rattle.code_decode.specs.declared.code.ClassUnit.{ClassUnit};
ghost use Rattle.row_soundness.specs.Knowledge.{Knows};
ghost use Rattle.row_soundness.specs.Kinds.{kinds};

/// Of the code of a thread alone, whatever fitting replies come, all is known that the rows need.
pub fn kinds_are_known()
    ensures { (us : List ClassUnit) → Knows (kinds us) us }
{}
