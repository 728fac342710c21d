//! What an error of the system is to a caller, and how faults are counted.

ghost use Rattle.std.specs.Prelude.{◌≡◌, ◌<◌, ◌+◌, ◌^◌};
ghost use Rattle.std.specs.Bool.{OnTrue, OnFalse};

use std::io::{Error, ErrorKind};

/// Why the system refused.
#[derive(Clone, Copy)]
pub enum Refusal {
    Failed,
    NoMemory,
}

/// Counts a fault. Returns `false` where the count is at its maximum, 2^64 - 1, and then it doesn't change.
pub fn count_fault(faults: &mut u64) -> bool
    ensures counted { OnTrue result (faults.new ≡ faults.old + 1) }
    ensures full { OnFalse result ((faults.old + 1 ≡ 2 ^ 64) × (faults.new ≡ faults.old)) }
{
    match faults.checked_add(1) {
        Some(more) => {
            *faults = more;
            true
        }
        None => false,
    }
}

/// What an error of the system is to a caller. An error that isn't out of memory raises the count of faults; where
/// the count is at its maximum, the error is reported as out of memory.
pub fn refusal_of(faults: &mut u64, error: &Error) -> Refusal
    ensures cause { result ≡ Refusal.Failed → faults.old < faults.new }
    ensures memory { result ≡ Refusal.NoMemory → faults.new ≡ faults.old }
{
    if error.kind() == ErrorKind::OutOfMemory || !count_fault(faults) {
        return Refusal::NoMemory;
    }
    Refusal::Failed
}
