//! Reading a code array (JVMS 4.7.3).

ghost use Rattle.std.specs.Prelude.{◌≡◌, ◌⊎◌, ℕ, ◌<◌, ◌≤◌, ◌^◌, List, Ok, Err, length, IfOk, IfErr};
ghost use Rattle.std.specs.List.{All};
ghost use Rattle.instructions.specs.declared.what.Instr.{Instr};
ghost use Rattle.instructions.specs.declared.what.Target.{Target};
ghost use Rattle.code_steps.specs.declared.fault.StepFault.{StepFault};
ghost use Rattle.code_steps.specs.CodeArray.{IsCodeArray};
ghost use Rattle.code_steps.specs.FirstFault.{IsFirstFault, IsLengthFault, IsSized, IsFaultOf, IsInstructionFault, Lays};

use crate::cursor::Cursor;
use crate::fault::{StepFault, StepRefusal};
use crate::operands::instruction;
use crate::targets::steps;
use class_pool::Pool;
use instructions::{Instr, Numbering, Steps};
use rows::Rows;
use std::alloc::Global;

/// The most bytes that the code of a method has (JVMS 4.7.3).
const MAX_LENGTH: usize = 65535;

/// The instructions from the first to the end of the code, with the offsets of their targets, and their own
/// offsets.
fn instructions(
    alloc: Global,
    pool: &Pool<'_>,
    code: &[u8],
) -> Result<(Rows<Instr<i64>>, Numbering), StepRefusal>
    requires { IsSized code.now }
    ensures ok { IfOk result (λ x. Lays pool.now code.now x.0 x.1) }
    ensures err { IfErr result (IsFaultOf (IsInstructionFault pool.now code.now)) }
{
    let mut steps = Rows::new(alloc);
    let mut offsets = Numbering::new(alloc);
    let mut cursor = Cursor::new(code);
    while !cursor.is_empty() {
        let at = (code.len() - cursor.len()) as u32;
        let what = instruction(alloc, pool, at, &mut cursor)?;
        let next = (code.len() - cursor.len()) as u32;
        offsets.push(at)?;
        steps.push(Instr { at, next, what })?;
    }
    Ok((steps, offsets))
}

fn whole(alloc: Global, pool: &Pool<'_>, code: &[u8]) -> Result<Steps, StepRefusal>
    ensures found { IfOk result (λ steps. IsCodeArray pool.now code.now steps) }
    ensures exact { IfErr result (IsFaultOf (IsFirstFault pool.now code.now)) }
    ensures length { (f : StepFault) → IsLengthFault code.now f → result ≡ Err (StepRefusal.Fault f) }
{
    if code.is_empty() || code.len() > MAX_LENGTH {
        return Err(StepRefusal::Fault(StepFault::Length));
    }
    let (laid, offsets) = instructions(alloc, pool, code)?;
    let steps = steps(alloc, &offsets, laid.as_slice())?;
    Ok(Steps::new(steps, offsets))
}

/// Reads a code array: the instructions with their operands, and each target as an instruction.
///
/// The fault is the first one: the length of the code, then instruction by instruction what is wrong with
/// its number, its operands and what they want of the pool, and where nothing is, instruction by instruction
/// a target that is no instruction. `NoMemory` may come anywhere.
pub fn read_steps(alloc: Global, pool: &Pool<'_>, code: &[u8]) -> Result<Steps, StepRefusal>
    // What is read is the code array.
    ensures found { IfOk result (λ steps. IsCodeArray pool.now code.now steps) }
    // What is a code array is read, unless memory runs out.
    ensures only { (steps : List (Instr Target)) → IsCodeArray pool.now code.now steps →
        (result ≡ Ok steps) ⊎ (result ≡ Err StepRefusal.NoMemory) }
    // A fault is the first one.
    ensures exact { IfErr result (IsFaultOf (IsFirstFault pool.now code.now)) }
    // The first fault is refused, unless memory runs out.
    ensures first { (f : StepFault) → IsFirstFault pool.now code.now f →
        (result ≡ Err (StepRefusal.Fault f)) ⊎ (result ≡ Err StepRefusal.NoMemory) }
    // A wrong length is refused before memory is taken.
    ensures length { (f : StepFault) → IsLengthFault code.now f → result ≡ Err (StepRefusal.Fault f) }
{
    whole(alloc, pool, code)
}
