//! The instructions of the Java virtual machine (JVMS SE 8, chapter 6), as far as they are executed.
//!
//! [`row`] and [`row_named`] look the one table of instructions up, by number and by mnemonic: a row has the
//! form of the operands, and what they make of the instruction. [`What`] is an instruction with its operands,
//! and [`Steps`] are the instructions of a method, found by their offset.
#![tactic(auto)]

mod form;
mod numbering;
mod operation;
mod steps;
mod table;
mod targets;
mod what;

pub use form::{Form, Row};
pub use numbering::Numbering;
pub use operation::{
    Arithmetic, Call, ClassUse, Condition, Conversion, ElementKind, FieldAccess, LocalAccess,
    Plain, PrimitiveType, Shift, StackOperation, Test, ValueKind,
};
pub use steps::Steps;
pub use table::{row, row_named};
pub use targets::Targets;
pub use what::{Case, Instr, Target, What};
