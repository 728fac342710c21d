//! Descriptors as values (JVMS 4.3).

ghost use Rattle.std.specs.Prelude.{◌≡◌};
ghost use Rattle.class_names.specs.declared.kind.NameRefusal.TheVariants as refusals;

use rows::{Bytes, Rows};
use std::alloc::{AllocError, AllocFailed};

/// A type that is no array: a primitive type, or a class or interface (JVMS 4.3.2).
#[derive(Drop)]
pub enum BaseKind {
    Int,
    Byte,
    Char,
    Short,
    Boolean,
    Long,
    Float,
    Double,
    /// A class or interface by the bytes of its name in internal form (JVMS 4.2.1). Names are the same where
    /// their bytes are, and the bytes needn't be UTF-8.
    Class(Bytes),
}

/// The type of a field, a parameter or a result (JVMS 4.3.2).
#[derive(Drop)]
pub enum Kind {
    /// A value that is no array.
    Base(BaseKind),
    /// An array with 1 to 255 dimensions, and the kind of its innermost elements.
    Array(u8, BaseKind),
}

/// What a descriptor says (JVMS 4.3.2, 4.3.3).
#[derive(Drop)]
pub enum Descriptor {
    /// The kind of a field.
    Field(Kind),
    /// The kinds of a method's parameters, and of its result where it isn't void.
    Method(Rows<Kind>, Option<Kind>),
}

/// How much the parameters of a method are; the receiver isn't counted.
#[derive(Clone, Copy)]
pub struct ParameterSize {
    /// How many there are.
    pub count: u8,
    /// How many words they take, a long or a double two and any other value one: at most 255 (JVMS 4.3.3).
    pub words: u8,
}

/// Why there is no descriptor or text.
#[derive(Clone, Copy)]
pub enum NameRefusal {
    /// The bytes are no descriptor, or the constant is no text.
    Bad,
    /// There was no memory.
    NoMemory,
}

impl From<AllocError> for NameRefusal {
    ghost from_gives = { λ _ e. e ≡ refusals.NoMemory };

    fn from(_error: AllocError) -> Self {
        NameRefusal::NoMemory
    }
}

impl<T: Drop> From<AllocFailed<T>> for NameRefusal {
    ghost from_gives = { λ _ e. e ≡ refusals.NoMemory };

    fn from(_error: AllocFailed<T>) -> Self {
        NameRefusal::NoMemory
    }
}
