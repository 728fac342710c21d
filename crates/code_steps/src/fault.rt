//! Why a code array was refused.

ghost use Rattle.std.specs.Prelude.{◌≡◌};
ghost use Rattle.code_steps.specs.declared.fault.StepRefusal.TheVariants as refusals;

use std::alloc::{AllocError, AllocFailed};

/// What is wrong with a code array. The numbers are offsets of instructions.
#[derive(Clone, Copy)]
pub enum StepFault {
    /// The code has no byte, or more than 65,535 (JVMS 4.7.3).
    Length,
    /// The number is above 201 (JVMS 6.2, 6.5).
    Opcode(u32),
    /// The instruction, or the constant or element type that it names, is not executed here.
    Unsupported(u32),
    /// The operands go past the end of the code.
    Cut(u32),
    /// The lowest key of a tableswitch is above the highest, or the keys of a lookupswitch don't rise.
    Switch(u32),
    /// The operand isn't what JVMS 4.9.1 or 6.5 wants.
    Operand(u32),
    /// A target of the instruction isn't the offset of an instruction.
    Target(u32),
}

/// Why a code array wasn't read.
#[derive(Clone, Copy)]
pub enum StepRefusal {
    /// The code array is at fault.
    Fault(StepFault),
    /// There was no memory.
    NoMemory,
}

impl From<StepFault> for StepRefusal {
    ghost from_gives = { λ fault e. e ≡ refusals.Fault fault };

    fn from(fault: StepFault) -> StepRefusal {
        StepRefusal::Fault(fault)
    }
}

impl From<AllocError> for StepRefusal {
    ghost from_gives = { λ _ e. e ≡ refusals.NoMemory };

    fn from(_error: AllocError) -> StepRefusal {
        StepRefusal::NoMemory
    }
}

impl<T: Drop> From<AllocFailed<T>> for StepRefusal {
    ghost from_gives = { λ _ e. e ≡ refusals.NoMemory };

    fn from(_error: AllocFailed<T>) -> StepRefusal {
        StepRefusal::NoMemory
    }
}
