//! What a reply or a silent step leads to.

use frame_snapshot::{Caller, Todo, Value};

/// What a reply or a silent step leads to.
#[derive(Clone, Copy)]
pub enum Reached {
    /// The instruction, or the launch of the thread, goes on.
    Goes(Todo),
    /// The instruction is complete: `operands` words are taken off the stack, and those of a value are pushed.
    Completed { operands: u16, value: Value },
    /// An object of a class is thrown in the frame.
    Throws { object: u32, class: u32 },
    /// `notifyAll` notifies once more; its one operand is on top of the stack.
    NotifiesAgain(Caller),
    /// `run` of a thread's target is called, which takes the place of the operand on top of the stack.
    Finds { caller: Caller, target: u32 },
}
