//! The code of methods as it is read (JVMS 4.7.3).

use crate::refusal::CodeRefusal;
use class_read::ClassFile;
use code_frames::Frames;
use instructions::Steps;
use rows::Rows;

/// An exception handler (JVMS 4.7.3). Each place is given by its offset, and by the number of the instruction
/// there.
#[derive(Clone, Copy)]
pub struct Handler {
    /// The first offset that is covered.
    pub from: u32,
    /// The first offset after those that are covered.
    pub to: u32,
    /// The offset at which the handler begins.
    pub at: u32,
    /// The index of the Class entry of what is caught, or 0 where everything is.
    pub kind: u16,
    /// The number of the instruction at `from`.
    pub first: u32,
    /// The number of the instruction at `to`, or the count of instructions where `to` is the code's end.
    pub end: u32,
    /// The number of the instruction at `at`.
    pub entry: u32,
}

/// The code of a method.
#[derive(Drop)]
pub struct Code {
    /// The most words that the operand stack may have.
    pub max_stack: u16,
    /// The words of the local variables.
    pub max_locals: u16,
    pub steps: Steps,
    /// The handlers in the order in which they are tried.
    pub handlers: Rows<Handler>,
    pub frames: Frames,
}

/// A class file with the code of each method.
#[derive(Drop)]
pub struct ClassUnit {
    pub file: ClassFile,
    /// By the number of the method; a method that is abstract or native has none.
    pub codes: Rows<Option<Code>>,
}

/// Why a class was refused: the number of its first method whose code was, and why that was.
#[derive(Clone, Copy)]
pub struct CodeAt {
    pub method: u16,
    pub refusal: CodeRefusal,
}
