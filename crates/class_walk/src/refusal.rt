//! Why bytes were refused.

ghost use Rattle.std.specs.Prelude.{◌≡◌};
ghost use Rattle.class_walk.specs.declared.refusal.WalkRefusal.TheVariants as walk;

use std::alloc::{AllocError, AllocFailed};

/// What is wrong with the layout of a class file: the first fault from its front (JVMS 4.1, 4.4).
#[derive(Clone, Copy)]
pub enum WalkFault {
    /// The file has more than 1,048,576 bytes.
    TooLong,
    /// A part of the file goes past the end; the number is the file's length.
    Truncated(u32),
    /// The file doesn't begin with `CAFEBABE`.
    Magic,
    /// The major version is none of 50, 51 and 52.
    Version,
    /// The pool entry of this index has a tag that JVMS 4.4 doesn't have. A pool count of 0 is at 0.
    PoolTag(u16),
    /// The class ends at this place, and more bytes come after it.
    Trailing(u32),
}

/// Why a class file wasn't walked.
#[derive(Clone, Copy)]
pub enum WalkRefusal {
    /// There was no memory.
    NoMemory,
    /// The layout is at fault.
    Fault(WalkFault),
}

impl From<AllocError> for WalkRefusal {
    ghost from_gives = { λ _ e. e ≡ walk.NoMemory };

    fn from(_e: AllocError) -> WalkRefusal {
        WalkRefusal::NoMemory
    }
}

impl<T: Drop> From<AllocFailed<T>> for WalkRefusal {
    ghost from_gives = { λ _ e. e ≡ walk.NoMemory };

    fn from(_e: AllocFailed<T>) -> WalkRefusal {
        WalkRefusal::NoMemory
    }
}

/// Why the content of a Code attribute wasn't read.
#[derive(Clone, Copy)]
pub enum ContentRefusal {
    /// There was no memory.
    NoMemory,
    /// The bytes are not such a content, or more bytes come after it.
    Malformed,
}
