//! `make`.

ghost use Rattle.std.specs.Prelude.{◌≡◌, ◌+◌, ◌<◌, List, ℕ, IfOk, OnOk};
ghost use Rattle.assembler_text.specs.TextLines.{most_bytes};
ghost use Rattle.program_input.specs.Input.{TakesAtMost, TakesUpTo};
ghost use Rattle.file_answers.specs.Answers.{IsMade, IsText};

use crate::answers::{given, not_made};
use crate::failure::Failure;
use assembler_text::MOST_BYTES;
use class_make::{MakeRefusal, assemble};
use jr_ports::Source;
use op_core::NoMemory;
use program_answers::Answer;
use program_input::read_up_to;
use rows::Bytes;
use std::alloc::Global;

/// The answer of `make` to a text.
///
/// # Errors
/// It fails only when memory runs out.
pub fn answer_to_text(alloc: Global, text: &[u8]) -> Result<Answer, NoMemory>
    ensures { IfOk result (λ answer. IsMade text.now answer) }
{
    match assemble(alloc, text) {
        Ok(bytes) => Ok(given(alloc, Bytes::from_vec(bytes))?),
        Err(MakeRefusal::Line(number)) => Ok(not_made(alloc, number)?),
        Err(MakeRefusal::NoMemory) => Err(NoMemory),
    }
}

/// The answer of `make` to the text on the input.
///
/// # Errors
/// `Failed` comes exactly where the input's count of faults rose in this call.
pub fn make<I: Source>(alloc: Global, input: &mut I) -> Result<Answer, Failure>
    ensures answer { IfOk result (λ answer. (text : List ℕ) × IsText (I.left input.old) text × IsMade text answer) }
    ensures taken { TakesAtMost (most_bytes + 1) (I.left input.old) (I.left input.new) }
    ensures calls { TakesUpTo (most_bytes + 1) (I.taken input.old) (I.taken input.new) }
    ensures cause { result ≡ Err Failure.Failed → I.faults input.old < I.faults input.new }
    ensures ok_faults { OnOk result (I.faults input.new ≡ I.faults input.old) }
    ensures memory_faults { result ≡ Err Failure.NoMemory → I.faults input.new ≡ I.faults input.old }
{
    let text = read_up_to(alloc, input, MOST_BYTES + 1)?;
    let answer = answer_to_text(alloc, &text)?;
    Ok(answer)
}
