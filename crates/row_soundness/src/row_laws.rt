//! The rows of all instructions, at the two ways to know.

ghost use Rattle.std.specs.Prelude.{List};
ghost use Rattle.code_decode.specs.declared.code.ClassUnit.{ClassUnit};
ghost use Rattle.row_soundness.specs.Accepted.{Accepted};
ghost use Rattle.row_soundness.specs.Kinds.{kinds};
ghost use Rattle.row_soundness.specs.Knowledge.{Knows};
ghost use Rattle.row_soundness.specs.Rows.{RowsFit};
ghost use Rattle.row_soundness.specs.Runs.{runs};

/// Where the operands, the locals and the constructor's object of a frame have the types of its instruction, the row of
/// that instruction never comes to a place without a row, whatever fitting replies come.
pub fn kinds_rows_fit()
    ensures { (us : List ClassUnit) → Accepted us → RowsFit (kinds us) us }
{}

/// The same holds where replies are true of the objects that exist. What a row wants then exists, and what it writes
/// fits where it is written.
pub fn runs_rows_fit()
    ensures { (us : List ClassUnit) → Knows (runs us) us → Accepted us → RowsFit (runs us) us }
{}
