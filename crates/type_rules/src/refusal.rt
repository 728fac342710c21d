//! Why a program isn't type safe.

ghost use Rattle.std.specs.Prelude.{◌≡◌};
ghost use Rattle.type_rules.specs.declared.refusal.VerifyRefusal.TheVariants as refusals;
ghost use Rattle.type_rules.specs.VerifyKind.{verify_kind_number};

use std::alloc::{AllocError, AllocFailed};

/// A rule of the type checker that a method breaks (JVMS 4.10.1). In Java each is a `VerifyError`.
#[derive(Clone, Copy)]
pub enum VerifyKind {
    /// The operand stack has fewer words than the instruction takes.
    StackShape,
    /// A word on the stack or in a local is of another type than the instruction wants, or half of a long; or a handler
    /// catches what is no Throwable.
    TypeMismatch,
    /// There is no stack map frame where a branch or a handler leads, or after an instruction that doesn't go on to the
    /// next one.
    FrameMissing,
    /// What comes to a stack map frame isn't assignable to it, or a frame at the first instruction isn't the entry
    /// frame.
    FrameMismatch,
    /// The last instruction would be followed by another one.
    FallsOff,
    /// The parameters, a frame or an instruction need more locals or more stack than the method has.
    Limits,
    /// An object that isn't initialized is found where an initialized one is wanted, `new` finds on the stack what it
    /// made before, or a constructor returns before its object is initialized.
    Uninit,
    /// A handler covers an instruction of a constructor at which its object isn't initialized.
    InitCovered,
    /// A return doesn't fit the result of the method.
    ReturnType,
}

impl VerifyKind {
    /// The number by which the kind is reported, from 1 in the order of the variants.
    pub fn number(self) -> u8
        ensures { result ≡ verify_kind_number self }
    {
        match self {
            VerifyKind::StackShape => 1,
            VerifyKind::TypeMismatch => 2,
            VerifyKind::FrameMissing => 3,
            VerifyKind::FrameMismatch => 4,
            VerifyKind::FallsOff => 5,
            VerifyKind::Limits => 6,
            VerifyKind::Uninit => 7,
            VerifyKind::InitCovered => 8,
            VerifyKind::ReturnType => 9,
        }
    }
}

/// Why a program wasn't verified.
#[derive(Clone, Copy)]
pub enum VerifyRefusal {
    /// There was no memory.
    NoMemory,
    /// A rule is broken.
    At {
        kind: VerifyKind,
        /// The place of the class's file among the files, from 0.
        class: u32,
        /// The place of the method among the methods of its class, from 0.
        method: u16,
        /// The offset of the instruction.
        place: u32,
    },
}

impl From<AllocError> for VerifyRefusal {
    ghost from_gives = { λ _ e. e ≡ refusals.NoMemory };

    fn from(_error: AllocError) -> Self {
        VerifyRefusal::NoMemory
    }
}

impl<T: Drop> From<AllocFailed<T>> for VerifyRefusal {
    ghost from_gives = { λ _ e. e ≡ refusals.NoMemory };

    fn from(_error: AllocFailed<T>) -> Self {
        VerifyRefusal::NoMemory
    }
}
