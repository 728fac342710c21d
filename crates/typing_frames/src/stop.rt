//! Why the check of a method stops.

ghost use Rattle.std.specs.Prelude.{◌≡◌};
ghost use Rattle.typing_frames.specs.declared.stop.CheckStop.TheVariants as stops;

use std::alloc::AllocError;
use type_rules::VerifyKind;

/// Why the check of a method stops. Contracts say what an answer means for the rules (`Tells`).
#[derive(Clone, Copy)]
pub enum CheckStop {
    /// There was no memory. Nothing is said of the method.
    NoMemory,
    /// A rule is broken.
    At(VerifyKind),
}

impl From<AllocError> for CheckStop {
    ghost from_gives = { λ error stop. stop ≡ stops.NoMemory };

    fn from(_error: AllocError) -> Self {
        CheckStop::NoMemory
    }
}
