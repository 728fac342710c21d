//! Why an instruction wasn't written.

ghost use Rattle.std.specs.Prelude.{◌≡◌};
ghost use Rattle.code_write.specs.declared.refusal.PutRefusal.TheVariants.{NoMemory};

use std::alloc::AllocError;

/// Why an instruction wasn't written.
#[derive(Clone, Copy)]
pub enum PutRefusal {
    /// The distance of a target, the highest key of a tableswitch, or the count of a lookupswitch doesn't fit
    /// into its operand.
    OutOfRange,
    /// There was no memory.
    NoMemory,
}

impl From<AllocError> for PutRefusal {
    ghost from_gives = { λ _ e. e ≡ NoMemory };

    fn from(_error: AllocError) -> PutRefusal {
        PutRefusal::NoMemory
    }
}
