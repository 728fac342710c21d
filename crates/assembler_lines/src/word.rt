//! Words of a line.

ghost use Rattle.std.specs.Prelude.{◌≡◌};

use rows::{Bytes, Rows};
use std::alloc::{AllocError, AllocFailed};

/// A word of a line.
#[derive(Drop)]
pub enum Word {
    /// The text of a plain word, in modified UTF-8: its characters, with two bytes for NUL (JVMS 4.4.7).
    Plain(Bytes),
    /// The UTF-16 code units of a quoted text.
    Quoted(Rows<u16>),
}

/// Why a line is not read.
#[derive(Clone, Copy)]
pub enum LineRefusal {
    /// The bytes are no line.
    Malformed,
    /// There is no memory for what the line says.
    NoMemory,
}

impl From<AllocError> for LineRefusal {
    ghost use Rattle.assembler_lines.specs.declared.word.LineRefusal.TheVariants.{NoMemory};

    ghost from_gives = { λ _ refusal. refusal ≡ NoMemory };

    fn from(_error: AllocError) -> Self {
        LineRefusal::NoMemory
    }
}

impl<T: Drop> From<AllocFailed<T>> for LineRefusal {
    ghost use Rattle.assembler_lines.specs.declared.word.LineRefusal.TheVariants.{NoMemory};

    ghost from_gives = { λ _ refusal. refusal ≡ NoMemory };

    fn from(_error: AllocFailed<T>) -> Self {
        LineRefusal::NoMemory
    }
}
