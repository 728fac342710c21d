//! Where a frame is inside its instruction.

use crate::todo::{Todo, Value};

/// Who calls: an instruction, or the launch of a thread in its lowest frame.
#[derive(Clone, Copy)]
pub enum Caller {
    Instruction,
    Launch,
}

/// A call, or another part of an instruction: who makes it, and how many words on top of the stack are its operands.
#[derive(Clone, Copy)]
pub struct CallSite {
    pub caller: Caller,
    pub operands: u16,
}

/// How a frame ends, after the exit of its monitor.
#[derive(Clone, Copy)]
pub enum FrameEnd {
    /// It returns a value.
    Returned(Value),
    /// It throws an object.
    Threw { object: u32, class: u32 },
    /// Its monitor wasn't owned.
    Broke,
}

/// Where a frame is inside its instruction.
#[derive(Clone, Copy)]
pub enum FrameStage {
    /// At the instruction's beginning.
    Begun,
    /// Inside it.
    Inside(Todo),
    /// A method that it called goes on above it.
    Calls(Caller),
    /// Inside a method that reads or makes texts, which takes many operations: the thread keeps where.
    Text,
    /// The initializer of the class at a place of those that are initialized, from the named one upward, goes on above it.
    Initializing { caller: Caller, place: u32 },
}
