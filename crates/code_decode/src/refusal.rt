//! Why bytes aren't the code of a method.

ghost use Rattle.std.specs.Prelude.{◌≡◌};
ghost use Rattle.code_decode.specs.declared.refusal.CodeRefusal.TheVariants as refusals;
ghost use Rattle.code_decode.specs.Refusal.{number_of, place_of};

use std::alloc::{AllocError, AllocFailed};
use thiserror::Error;

/// Why the code of a method was refused. The number is an offset in the code, but in `Handler` and `Frame`.
#[derive(Clone, Copy, Debug, Error)]
pub enum CodeRefusal {
    /// At this offset there is a number above 201, which no instruction has (JVMS 6.2).
    #[error("Opcode {0}")]
    Opcode(u32),
    /// The instruction at this offset isn't executed: float and double, jsr and ret, invokedynamic,
    /// multianewarray, and constants that are no int, long, string or class with a name.
    #[error("Unsupported {0}")]
    Unsupported(u32),
    /// The operands of the instruction at this offset go past the code's end.
    #[error("Cut {0}")]
    Cut(u32),
    /// The instruction at this offset branches to an offset at which no instruction begins (JVMS 4.9.1).
    #[error("Target {0}")]
    Target(u32),
    /// The handler of this number, from 0, is malformed (JVMS 4.7.3).
    #[error("Handler {0}")]
    Handler(u16),
    /// The stack map frame of this number, from 0, is malformed (JVMS 4.7.4). Where bytes come after the last frame,
    /// the number is the count of frames.
    #[error("Frame {0}")]
    Frame(u16),
    /// The code has no bytes, or more than 65,535 (JVMS 4.7.3).
    #[error("Length")]
    Length,
    /// The keys of the switch at this offset don't rise, or its lowest is above its highest (JVMS 4.9.1).
    #[error("Switch {0}")]
    Switch(u32),
    /// An operand of the instruction at this offset is none that it may have (JVMS 4.9.1).
    #[error("Operand {0}")]
    Operand(u32),
    /// There was no memory.
    #[error("NoMemory")]
    NoMemory,
}

impl CodeRefusal {
    /// The number that identifies the refusal, from 1 in the order of the variants.
    pub fn number(self) -> u8
        ensures { result ≡ number_of self }
    {
        match self {
            CodeRefusal::Opcode(_) => 1,
            CodeRefusal::Unsupported(_) => 2,
            CodeRefusal::Cut(_) => 3,
            CodeRefusal::Target(_) => 4,
            CodeRefusal::Handler(_) => 5,
            CodeRefusal::Frame(_) => 6,
            CodeRefusal::Length => 7,
            CodeRefusal::Switch(_) => 8,
            CodeRefusal::Operand(_) => 9,
            CodeRefusal::NoMemory => 10,
        }
    }

    /// The offset in the code, or the number of a handler or a frame, that the refusal names; 0 where it names none.
    pub fn place(self) -> u32
        ensures { result ≡ place_of self }
    {
        match self {
            CodeRefusal::Opcode(place) => place,
            CodeRefusal::Unsupported(place) => place,
            CodeRefusal::Cut(place) => place,
            CodeRefusal::Target(place) => place,
            CodeRefusal::Handler(place) => u32::from(place),
            CodeRefusal::Frame(place) => u32::from(place),
            CodeRefusal::Length => 0,
            CodeRefusal::Switch(place) => place,
            CodeRefusal::Operand(place) => place,
            CodeRefusal::NoMemory => 0,
        }
    }
}

impl From<AllocError> for CodeRefusal {
    ghost from_gives = { λ _ e. e ≡ refusals.NoMemory };

    fn from(_error: AllocError) -> Self {
        CodeRefusal::NoMemory
    }
}

impl<T: Drop> From<AllocFailed<T>> for CodeRefusal {
    ghost from_gives = { λ _ e. e ≡ refusals.NoMemory };

    fn from(_error: AllocFailed<T>) -> Self {
        CodeRefusal::NoMemory
    }
}
