//! Why a method isn't type safe.

ghost use Rattle.std.specs.Prelude.{◌≡◌};
ghost use Rattle.method_check.specs.declared.refusal.MethodRefusal.TheVariants as refusals;

use std::alloc::AllocError;
use type_rules::VerifyKind;

/// Why a method isn't known to be type safe.
#[derive(Clone, Copy)]
pub enum MethodRefusal {
    /// There was no memory. It says nothing about the method.
    NoMemory,
    /// A rule is broken.
    At {
        kind: VerifyKind,
        /// The offset of the instruction.
        place: u32,
    },
}

impl From<AllocError> for MethodRefusal {
    ghost from_gives = { λ _ e. e ≡ refusals.NoMemory };

    fn from(_error: AllocError) -> Self {
        MethodRefusal::NoMemory
    }
}
