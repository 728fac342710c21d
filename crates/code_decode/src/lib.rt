//! The code of methods (JVMS SE 8, 4.7.3 and 4.9.1): instructions, exception handlers and stack map frames.
//!
//! [`decode`] reads the code of one method of a class file, and [`decode_class`] that of each, or they say what is
//! wrong with it first.
#![tactic(auto)]

mod code;
mod entry;
mod handlers;
mod method;
mod parts;
mod refusal;
mod unit;

pub use code::{ClassUnit, Code, CodeAt, Handler};
pub use code_frames::{Frames, LocalsChange, MapFrame, VType};
pub use instructions::{
    Arithmetic, Call, Case, ClassUse, Condition, Conversion, ElementKind, FieldAccess, Instr,
    LocalAccess, Plain, PrimitiveType, Shift, StackOperation, Steps, Target, Test, ValueKind, What,
};
pub use method::decode;
pub use refusal::CodeRefusal;
pub use unit::decode_class;
