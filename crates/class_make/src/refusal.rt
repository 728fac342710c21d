//! Why a text was refused.

ghost use Rattle.std.specs.Prelude.{◌≡◌};
ghost use Rattle.class_make.specs.declared.refusal.MakeRefusal.TheVariants as refusals;

use std::alloc::AllocError;

/// Why no class was made of a text.
#[derive(Clone, Copy)]
pub enum MakeRefusal {
    /// The number of the first line that is refused, from 1; that of the line after the last where the class or the end
    /// of a body is missing.
    Line(u32),
    /// There was no memory.
    NoMemory,
}

impl From<AllocError> for MakeRefusal {
    ghost from_gives = { λ _ e. e ≡ refusals.NoMemory };

    fn from(_e: AllocError) -> MakeRefusal {
        MakeRefusal::NoMemory
    }
}
