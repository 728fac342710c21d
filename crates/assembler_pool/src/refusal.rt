//! Why an entry was refused.

ghost use Rattle.std.specs.Prelude.{◌≡◌};
ghost use Rattle.assembler_pool.specs.declared.refusal.PoolRefusal.TheVariants as refusals;

use std::alloc::{AllocError, AllocFailed};

/// Why the pool has no index for an entry.
#[derive(Clone, Copy)]
pub enum PoolRefusal {
    /// The entry or one of its parts would have an index above 65,534 (JVMS 4.1), or a text has more than
    /// 65,535 bytes (JVMS 4.4.7).
    Full,
    /// There was no memory.
    NoMemory,
}

impl From<AllocError> for PoolRefusal {
    ghost from_gives = { λ _ e. e ≡ refusals.NoMemory };

    fn from(_e: AllocError) -> PoolRefusal {
        PoolRefusal::NoMemory
    }
}

impl<T: Drop> From<AllocFailed<T>> for PoolRefusal {
    ghost from_gives = { λ _ e. e ≡ refusals.NoMemory };

    fn from(_e: AllocFailed<T>) -> PoolRefusal {
        PoolRefusal::NoMemory
    }
}
