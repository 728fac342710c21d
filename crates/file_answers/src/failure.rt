//! Why an answer isn't known.

ghost use Rattle.std.specs.Prelude.{◌≡◌};
ghost use Rattle.jr_ports.specs.declared.ports.DirFault.TheVariants as folders;
ghost use Rattle.jr_ports.specs.declared.ports.SourceFault.TheVariants as inputs;
ghost use Rattle.file_answers.specs.declared.failure.Failure.TheVariants.{Failed, NoMemory};

use jr_ports::{DirFault, SourceFault};
use std::alloc::{AllocError, AllocFailed};

/// Why the answer isn't known.
#[derive(Clone, Copy)]
pub enum Failure {
    /// The folder or the input failed.
    Failed,
    /// There was no memory.
    NoMemory,
}

impl From<DirFault> for Failure {
    ghost from_gives = { λ fault failure. (failure ≡ Failed → fault ≡ folders.Failed) × (failure ≡ NoMemory → fault ≡ folders.NoMemory) };

    fn from(fault: DirFault) -> Self {
        match fault {
            DirFault::Failed => Failure::Failed,
            DirFault::NoMemory => Failure::NoMemory,
        }
    }
}

impl From<SourceFault> for Failure {
    ghost from_gives = { λ fault failure. (failure ≡ Failed → fault ≡ inputs.Failed) × (failure ≡ NoMemory → fault ≡ inputs.NoMemory) };

    fn from(fault: SourceFault) -> Self {
        match fault {
            SourceFault::Failed => Failure::Failed,
            SourceFault::NoMemory => Failure::NoMemory,
        }
    }
}

impl From<AllocError> for Failure {
    ghost from_gives = { λ _ failure. failure ≡ NoMemory };

    fn from(_error: AllocError) -> Self {
        Failure::NoMemory
    }
}

impl From<op_core::NoMemory> for Failure {
    ghost from_gives = { λ _ failure. failure ≡ NoMemory };

    fn from(_error: op_core::NoMemory) -> Self {
        Failure::NoMemory
    }
}

impl<T: Drop> From<AllocFailed<T>> for Failure {
    ghost from_gives = { λ _ failure. failure ≡ NoMemory };

    fn from(_error: AllocFailed<T>) -> Self {
        Failure::NoMemory
    }
}
