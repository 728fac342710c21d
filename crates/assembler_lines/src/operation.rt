//! Instructions as they are written.

use instructions::PrimitiveType;
use rows::{Bytes, Rows};

/// The constant that ldc or ldc_w loads.
#[derive(Drop)]
pub enum Loaded {
    /// `int N`
    Int(i32),
    /// `str "TEXT"`, the UTF-16 code units of the text
    Text(Rows<u16>),
    /// `class NAME`
    Class(Bytes),
}

/// A key of a lookupswitch, and the label that it leads to.
#[derive(Drop)]
pub struct LabelledCase {
    pub key: i32,
    pub label: Bytes,
}

/// The operands of an instruction. Names and labels are not looked into.
#[derive(Drop)]
pub enum Operands {
    None,
    /// The int that bipush or sipush pushes.
    Number(i32),
    Local(u16),
    /// The number is added to the int in a local.
    Increment {
        local: u16,
        by: i16,
    },
    Constant(Loaded),
    /// The long that ldc2_w loads.
    Long(i64),
    /// The label that a branch leads to.
    Label(Bytes),
    /// The lowest key, and the labels of the keys from that one on.
    TableSwitch {
        low: i32,
        default: Bytes,
        labels: Rows<Bytes>,
    },
    /// The keys may be in any order.
    LookupSwitch {
        default: Bytes,
        cases: Rows<LabelledCase>,
    },
    /// A field, or a method of a class.
    Member {
        class: Bytes,
        name: Bytes,
        descriptor: Bytes,
    },
    /// A method of an interface, and the words of its receiver and its parameters, from 1 to 255.
    InterfaceMethod {
        class: Bytes,
        name: Bytes,
        descriptor: Bytes,
        count: u8,
    },
    Class(Bytes),
    /// The element type of the array that newarray makes.
    NewArray(PrimitiveType),
}

/// An instruction.
#[derive(Drop)]
pub struct Operation {
    /// The number in the table of instructions. Under wide it is that of the instruction that is widened.
    pub number: u8,
    pub is_wide: bool,
    pub operands: Operands,
}
