//! Rows of the table of instructions.

use crate::operation::{Call, ClassUse, FieldAccess, LocalAccess, Plain, Test};

/// The form of an instruction's operands, and what the instruction does besides (JVMS 6.5).
#[derive(Clone, Copy)]
pub enum Form {
    /// No operands.
    Plain(Plain),
    /// No operands: the number stands for this int.
    FixedInt(i32),
    /// No operands: the number stands for this long.
    FixedLong(i64),
    /// No operands: the number stands for this local.
    FixedLocal(LocalAccess, u16),
    /// A signed byte, the int.
    ByteInt,
    /// A signed short, the int.
    ShortInt,
    /// One byte, the pool index of an int, a string or a class.
    ByteConstant,
    /// Two bytes, the same.
    Constant,
    /// Two bytes, the pool index of a long.
    LongConstant,
    /// One byte, the local.
    Local(LocalAccess),
    /// One byte, the local, and a signed byte, which is added to it.
    Increment,
    /// Two bytes, the distance of the target.
    Branch(Test),
    /// Four bytes, the distance of the target.
    FarBranch(Test),
    /// The padding, the distance of the default target, the lowest and the highest key, and the distances of
    /// their targets.
    TableSwitch,
    /// The padding, the distance of the default target, and a count of keys with the distances of their targets.
    LookupSwitch,
    /// Two bytes, the pool index of the field.
    Field(FieldAccess),
    /// Two bytes, the pool index of the method.
    Call(Call),
    /// Two bytes, the pool index of the interface method, a count of words, and a zero.
    InterfaceCall,
    /// Two bytes, the pool index of the class.
    Class(ClassUse),
    /// One byte, the code of the element type.
    NewArray,
    /// The number of an instruction on a local, and its operands in twice as many bytes.
    Wide,
}

/// An instruction of the table.
#[derive(Clone, Copy)]
pub struct Row {
    pub number: u8,
    pub mnemonic: &'static str,
    pub form: Form,
}
