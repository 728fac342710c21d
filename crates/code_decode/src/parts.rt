//! The instructions and the stack map frames, with their refusals as those of a code.

ghost use Rattle.std.specs.Prelude.{◌≡◌};
ghost use Rattle.code_steps.specs.CodeArray.{IsCodeArray};
ghost use Rattle.code_frames.specs.StackMap.{IsStackMap};
ghost use Rattle.code_decode.specs.Answer.{IsAnswer};
ghost use Rattle.code_decode.specs.Code.{fault_refusal, StepsRefuse, FramesRefuse};

use crate::refusal::CodeRefusal;
use class_read::{Constant, Pool};
use code_frames::{FrameRefusal, Frames, read_frames};
use code_steps::{StepFault, StepRefusal, read_steps};
use instructions::Steps;
use std::alloc::Global;

fn fault_refusal(fault: StepFault) -> CodeRefusal
    ensures { result ≡ fault_refusal fault }
{
    match fault {
        StepFault::Length => CodeRefusal::Length,
        StepFault::Opcode(at) => CodeRefusal::Opcode(at),
        StepFault::Unsupported(at) => CodeRefusal::Unsupported(at),
        StepFault::Cut(at) => CodeRefusal::Cut(at),
        StepFault::Switch(at) => CodeRefusal::Switch(at),
        StepFault::Operand(at) => CodeRefusal::Operand(at),
        StepFault::Target(at) => CodeRefusal::Target(at),
    }
}

/// The instructions of a code.
pub fn steps(alloc: Global, pool: &Pool<'_>, code: &[u8]) -> Result<Steps, CodeRefusal>
    ensures { IsAnswer result (IsCodeArray pool.now code.now) (StepsRefuse pool.now code.now) }
{
    match read_steps(alloc, pool, code) {
        Ok(steps) => Ok(steps),
        Err(StepRefusal::NoMemory) => Err(CodeRefusal::NoMemory),
        Err(StepRefusal::Fault(fault)) => Err(fault_refusal(fault)),
    }
}

/// The stack map frames of a code.
pub fn frames(
    alloc: Global,
    pool: &[Constant],
    steps: &Steps,
    entry: u16,
    maps: &[u8],
) -> Result<Frames, CodeRefusal>
    ensures { IsAnswer result (IsStackMap pool.now steps.now entry maps.now) (FramesRefuse pool.now steps.now entry maps.now) }
{
    match read_frames(alloc, pool, steps, entry, maps) {
        Ok(frames) => Ok(frames),
        Err(FrameRefusal::NoMemory) => Err(CodeRefusal::NoMemory),
        Err(FrameRefusal::Frame(number)) => Err(CodeRefusal::Frame(number)),
    }
}
