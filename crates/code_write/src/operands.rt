//! Instructions with operands that are numbers.

ghost use Rattle.std.specs.Prelude.{◌≡◌, ◌<◌, ◌^◌};
ghost use Rattle.code_write.specs.Instruction.{count, shape};

use crate::shape::Shape;
use instructions::{Case, PrimitiveType};
use rows::Rows;

/// The operands of an instruction in the bytes that they are given (JVMS 6.5). Targets are `T`: offsets in the
/// code once they are known.
#[derive(Drop)]
pub enum Operands<T> {
    /// There are none.
    Absent,
    /// An int of one byte: bipush.
    Byte(i8),
    /// An int of two bytes: sipush.
    Short(i16),
    /// An index of the constant pool, of one byte: ldc.
    ByteIndex(u8),
    /// An index of the constant pool, of two bytes.
    Index(u16),
    /// A local, of one byte.
    Local(u8),
    /// A local, of two bytes: after wide.
    WideLocal(u16),
    /// A local and what is added to it, of one byte each: iinc.
    Increment {
        local: u8,
        by: i8,
    },
    /// The same, of two bytes each: iinc after wide.
    WideIncrement {
        local: u16,
        by: i16,
    },
    /// A target whose distance has two bytes.
    Near(T),
    /// A target whose distance has four bytes: goto_w.
    Far(T),
    /// The targets are those of the keys from `low` on.
    TableSwitch {
        default: T,
        low: i32,
        targets: Rows<T>,
    },
    LookupSwitch {
        default: T,
        cases: Rows<Case<T>>,
    },
    /// An index of the constant pool, and how many words the receiver and the parameters take: invokeinterface.
    InterfaceCall {
        index: u16,
        count: u8,
    },
    /// The element type of an array: newarray.
    NewArray(PrimitiveType),
}

impl<T> Operands<T> {
    /// What the size of their instruction depends on, beside its offset.
    pub fn shape(&self) -> Shape
        requires { count self.now < 2 ^ 32 }
        ensures { result ≡ shape self.now }
    {
        match self {
            Operands::Absent => Shape::Fixed(1),
            Operands::Byte(_) => Shape::Fixed(2),
            Operands::Short(_) => Shape::Fixed(3),
            Operands::ByteIndex(_) => Shape::Fixed(2),
            Operands::Index(_) => Shape::Fixed(3),
            Operands::Local(_) => Shape::Fixed(2),
            Operands::WideLocal(_) => Shape::Fixed(4),
            Operands::Increment { .. } => Shape::Fixed(3),
            Operands::WideIncrement { .. } => Shape::Fixed(6),
            Operands::Near(_) => Shape::Fixed(3),
            Operands::Far(_) => Shape::Fixed(5),
            Operands::TableSwitch { targets, .. } => Shape::TableSwitch(targets.len() as u32),
            Operands::LookupSwitch { cases, .. } => Shape::LookupSwitch(cases.len() as u32),
            Operands::InterfaceCall { .. } => Shape::Fixed(5),
            Operands::NewArray(_) => Shape::Fixed(2),
        }
    }
}

/// An instruction as it is written.
#[derive(Drop)]
pub struct Written<T> {
    /// Its opcode; after wide, that of the widened instruction.
    pub number: u8,
    pub operands: Operands<T>,
}
