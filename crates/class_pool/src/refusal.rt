//! Why bytes aren't a class file that is read.

ghost use Rattle.std.specs.Prelude.{◌≡◌};
ghost use Rattle.class_pool.specs.declared.refusal.ReadRefusal.TheVariants as refusals;
ghost use Rattle.class_pool.specs.Refusal.{number_of, place_of};

use std::alloc::{AllocError, AllocFailed};
use thiserror::Error;

/// Why a class file was refused. Each number is an index of the constant pool or a place in the file, which is the
/// number of bytes before it.
#[derive(Clone, Copy, Debug, Error)]
pub enum ReadRefusal {
    /// The file doesn't begin with `CAFEBABE` (JVMS 4.1).
    #[error("Magic")]
    Magic,
    /// The major version is none of 50, 51 and 52.
    #[error("Version")]
    Version,
    /// A part of the file goes past its end; the number is the file's length.
    #[error("Truncated {0}")]
    Truncated(u32),
    /// The pool entry of this index has a tag that JVMS 4.4 doesn't have. A pool count of 0 is at 0.
    #[error("PoolTag {0}")]
    PoolTag(u16),
    /// This index, or an index in the pool entry of this index, isn't one of an entry of the wanted kind.
    #[error("PoolIndex {0}")]
    PoolIndex(u16),
    /// The Utf8 entry of this index isn't modified UTF-8 (JVMS 4.4.7).
    #[error("BadUtf {0}")]
    BadUtf(u16),
    /// The Utf8 entry of this index is used as a name or a descriptor that it isn't (JVMS 4.2, 4.3).
    #[error("BadDescriptor {0}")]
    BadDescriptor(u16),
    /// The class ends at this place, and more bytes come after it.
    #[error("Trailing {0}")]
    Trailing(u32),
    /// The file has more than 1,048,576 bytes.
    #[error("TooLong")]
    TooLong,
    /// The ConstantValue, Code or StackMapTable at this place is malformed, comes after another one, or is a constant
    /// of the wrong kind (JVMS 4.7.2 to 4.7.4).
    #[error("Attribute {0}")]
    Attribute(u32),
    /// The flags of the class or of a member contradict each other (JVMS 4.1, 4.5, 4.6).
    #[error("Flags")]
    Flags,
    /// The member at this place repeats an earlier one (JVMS 4.5, 4.6), or it has code though it is abstract
    /// or native, or none though it is neither (JVMS 4.7.3).
    #[error("Member {0}")]
    Member(u32),
    /// There was no memory.
    #[error("NoMemory")]
    NoMemory,
}

impl ReadRefusal {
    /// The number that identifies the refusal, from 1 in the order of the variants.
    pub fn number(self) -> u8
        ensures { result ≡ number_of self }
    {
        match self {
            ReadRefusal::Magic => 1,
            ReadRefusal::Version => 2,
            ReadRefusal::Truncated(_) => 3,
            ReadRefusal::PoolTag(_) => 4,
            ReadRefusal::PoolIndex(_) => 5,
            ReadRefusal::BadUtf(_) => 6,
            ReadRefusal::BadDescriptor(_) => 7,
            ReadRefusal::Trailing(_) => 8,
            ReadRefusal::TooLong => 9,
            ReadRefusal::Attribute(_) => 10,
            ReadRefusal::Flags => 11,
            ReadRefusal::Member(_) => 12,
            ReadRefusal::NoMemory => 13,
        }
    }

    /// The index of the pool, or the place in the file, that the refusal names; 0 where it names none.
    pub fn place(self) -> u32
        ensures { result ≡ place_of self }
    {
        match self {
            ReadRefusal::Magic => 0,
            ReadRefusal::Version => 0,
            ReadRefusal::Truncated(place) => place,
            ReadRefusal::PoolTag(place) => u32::from(place),
            ReadRefusal::PoolIndex(place) => u32::from(place),
            ReadRefusal::BadUtf(place) => u32::from(place),
            ReadRefusal::BadDescriptor(place) => u32::from(place),
            ReadRefusal::Trailing(place) => place,
            ReadRefusal::TooLong => 0,
            ReadRefusal::Attribute(place) => place,
            ReadRefusal::Flags => 0,
            ReadRefusal::Member(place) => place,
            ReadRefusal::NoMemory => 0,
        }
    }
}

impl From<AllocError> for ReadRefusal {
    ghost from_gives = { λ _ e. e ≡ refusals.NoMemory };

    fn from(_error: AllocError) -> Self {
        ReadRefusal::NoMemory
    }
}

impl<T: Drop> From<AllocFailed<T>> for ReadRefusal {
    ghost from_gives = { λ _ e. e ≡ refusals.NoMemory };

    fn from(_error: AllocFailed<T>) -> Self {
        ReadRefusal::NoMemory
    }
}
