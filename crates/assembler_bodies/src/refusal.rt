//! Why a line was refused.

ghost use Rattle.std.specs.Prelude.{◌≡◌};
ghost use Rattle.code_write.specs.declared.refusal.PutRefusal.TheVariants as put;
ghost use Rattle.assembler_pool.specs.declared.refusal.PoolRefusal.TheVariants as pool;
ghost use Rattle.assembler_bodies.specs.declared.refusal.BodyRefusal.TheVariants as refusals;

use std::alloc::{AllocError, AllocFailed};

/// Why nothing was made of a line.
#[derive(Clone, Copy)]
pub enum BodyRefusal {
    /// The line is not allowed there, or a class file has no room for what it makes.
    Refused,
    /// There was no memory.
    NoMemory,
}

impl From<AllocError> for BodyRefusal {
    ghost from_gives = { λ _ e. e ≡ refusals.NoMemory };

    fn from(_e: AllocError) -> BodyRefusal {
        BodyRefusal::NoMemory
    }
}

impl<T: Drop> From<AllocFailed<T>> for BodyRefusal {
    ghost from_gives = { λ _ e. e ≡ refusals.NoMemory };

    fn from(_e: AllocFailed<T>) -> BodyRefusal {
        BodyRefusal::NoMemory
    }
}
