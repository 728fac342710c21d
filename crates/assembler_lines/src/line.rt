//! Lines of an assembler's text.

use crate::frame::FrameItem;
use crate::operation::Operation;
use rows::{Bytes, Rows};

/// What the value of a constant field is.
#[derive(Drop)]
pub enum FieldValue {
    /// The value of a field of type boolean, byte, char, short or int.
    Int(i32),
    /// The value of a field of type long.
    Long(i64),
    /// The UTF-16 code units of a string.
    Text(Rows<u16>),
}

/// The words that a method's frame has for operands and for locals.
#[derive(Clone, Copy)]
pub struct Room {
    pub stack: u16,
    pub locals: u16,
}

/// What one line says. Names and descriptors are not looked into.
#[derive(Drop)]
pub enum Line {
    /// `class NAME [FLAGS]`
    Class {
        name: Bytes,
        flags: u16,
    },
    /// `super NAME`
    Super(Bytes),
    /// `implements NAME`
    Implements(Bytes),
    /// `field FLAGS NAME DESCRIPTOR [= VALUE]`
    Field {
        flags: u16,
        name: Bytes,
        descriptor: Bytes,
        value: Option<FieldValue>,
    },
    /// `method FLAGS NAME DESCRIPTOR [stack N locals N]`
    Method {
        flags: u16,
        name: Bytes,
        descriptor: Bytes,
        room: Option<Room>,
    },
    /// `end`
    End,
    /// `LABEL:`
    Label(Bytes),
    /// `handler FROM TO AT NAME`, without a class for `any`
    Handler {
        from: Bytes,
        to: Bytes,
        at: Bytes,
        class: Option<Bytes>,
    },
    /// `MNEMONIC OPERANDS`, with `wide` in front where the operands have twice as many bytes
    Instruction(Operation),
    /// `frame LOCALS / STACK`
    Frame {
        locals: Rows<FrameItem>,
        stack: Rows<FrameItem>,
    },
}
