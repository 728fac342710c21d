//! Which rule an instruction breaks by itself, if it breaks one (JVMS SE 8, 4.10.1.9): what it wants of the stack and
//! of the locals, and the room that it needs. All of it is small functions that take no memory.
//!
//! A frame is read through [`FrameWords`], a method through `MethodWorld`; [`own_fault`] returns the rule.
#![tactic(auto)]

mod fault;
mod frame;
mod locals;
mod pushed;
mod returned;
mod room;
mod taken;

pub use fault::own_fault;
pub use frame::FrameWords;
pub use room::stack_operation;
pub use taken::{TakenWords, take_wanted};
