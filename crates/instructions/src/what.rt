//! Instructions with their operands.

ghost use Rattle.std.specs.Prelude.{◌≡◌};
ghost use Rattle.instructions.specs.What.{falls_through, operand_of};

use crate::operation::{Call, ClassUse, FieldAccess, LocalAccess, Plain, PrimitiveType, Test};
use rows::Rows;

/// The target of a branch: an instruction.
#[derive(Clone, Copy, Drop)]
pub struct Target {
    /// Its offset in the code.
    pub at: u32,
    /// Its number among the method's instructions, from 0.
    pub step: u32,
}

/// A key of a lookupswitch, and where it leads.
#[derive(Clone, Copy)]
pub struct Case<T> {
    pub key: i32,
    pub target: T,
}

/// An instruction with its operands (JVMS 6.5). Each `u16` but a local is an index of the constant pool.
/// Targets of branches are `T`.
#[derive(Drop)]
pub enum What<T> {
    Plain(Plain),
    /// The int is pushed: iconst, bipush and sipush.
    Int(i32),
    /// The long is pushed: lconst.
    Long(i64),
    /// The int, the string or the class is pushed: ldc and ldc_w.
    Constant(u16),
    /// The long is pushed: ldc2_w.
    LongConstant(u16),
    /// A load from a local, or a store to it.
    Local(LocalAccess, u16),
    /// The number is added to the int in a local.
    Increment {
        local: u16,
        by: i16,
    },
    Branch(Test, T),
    /// The targets are those of the keys from `low` on.
    TableSwitch {
        default: T,
        low: i32,
        targets: Rows<T>,
    },
    /// The keys of the cases rise.
    LookupSwitch {
        default: T,
        cases: Rows<Case<T>>,
    },
    Field(FieldAccess, u16),
    Call(Call, u16),
    InterfaceCall(u16),
    Class(ClassUse, u16),
    /// An array of numbers or booleans.
    NewArray(PrimitiveType),
}

impl<T> What<T> {
    /// Whether control may fall through to the next instruction: not after a goto, a switch, a return or an athrow.
    pub fn falls_through(&self) -> bool
        ensures { result ≡ falls_through self.now }
    {
        !matches!(
            self,
            What::Plain(Plain::Return(_) | Plain::Throw)
                | What::Branch(Test::Always, _)
                | What::TableSwitch { .. }
                | What::LookupSwitch { .. }
        )
    }

    /// The index of the constant pool that it has, if it has one.
    pub fn operand(&self) -> Option<u16>
        ensures { result ≡ operand_of self.now }
    {
        match self {
            What::Constant(index)
            | What::LongConstant(index)
            | What::Field(_, index)
            | What::Call(_, index)
            | What::InterfaceCall(index)
            | What::Class(_, index) => Some(*index),
            _ => None,
        }
    }
}

/// An instruction at its place in the code.
#[derive(Drop)]
pub struct Instr<T> {
    /// The offset of its first byte.
    pub at: u32,
    /// The offset after its last byte.
    pub next: u32,
    pub what: What<T>,
}
