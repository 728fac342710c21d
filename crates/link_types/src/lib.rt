//! What the names in class files stand for (JVMS SE 8, chapter 5), all by numbers.
//!
//! An [`Operand`] is what an index of a class's constant pool stands for. An [`ObjectType`] and a [`ValueType`] are
//! types whose class names have been found. A [`LinkRefusal`] says why a program isn't linked, and where.
#![tactic(auto)]

mod methods;
mod operands;
mod refusal;
mod types;

pub use methods::{Method, MethodBody, MethodType};
pub use operands::{ClassOperand, FieldOperand, Layout, MethodId, MethodOperand, Operand};
pub use refusal::{LinkKind, LinkRefusal};
pub use types::{ElementType, ObjectType, ValueType};
