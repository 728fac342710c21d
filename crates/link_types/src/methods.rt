//! Methods as their callers see them.

use crate::types::ValueType;
use builtin_world::Native;
use rows::Rows;

/// The parameters and the result of a method (JVMS 4.3.3). Methods of one descriptor share one.
#[derive(Drop)]
pub struct MethodType {
    /// The parameters without the receiver.
    pub parameters: Rows<ValueType>,
    /// The result, or `None` where it is void.
    pub result: Option<ValueType>,
    /// The words of the parameters, a long two and each other value one; the receiver isn't counted.
    pub words: u8,
}

/// What a call of a method executes.
#[derive(Clone, Copy)]
pub enum MethodBody {
    /// The code that its class file has.
    Code,
    /// A method of a built-in class.
    Native(Native),
    /// Nothing: a call selects another method, or fails.
    Abstract,
}

/// A method of a linked class.
#[derive(Clone, Copy)]
pub struct Method<'a> {
    /// The access flags (JVMS 4.6).
    pub flags: u16,
    pub kind: &'a MethodType,
    pub body: MethodBody,
}
