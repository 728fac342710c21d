//! The frames of a Java thread in one row of words (JVMS SE 8, 2.6), and a stack of saves to go back to.
//!
//! A frame has local variables and an operand stack of 32-bit words. The arguments that a caller pushed become the first
//! locals of the method that it calls where they lie, so a call copies nothing.
#![tactic(auto)]

mod activation;
mod frames;
mod row;
mod stage;
mod text;
mod todo;

pub use frames::{Frames, NewFrame, PushRefusal};
pub use stage::{CallSite, Caller, FrameEnd, FrameStage};
pub use text::{Appended, TextJob};
pub use todo::{Then, Todo, Value};
