//! What one instruction does with the frame of a walk over a method (JVMS SE 8, 4.10.1.9): [`check_instruction`]
//! returns the rule that it breaks by itself, and [`after_instruction`] makes the frame after it.
#![tactic(auto)]

mod after;
mod behind;
mod change;
mod count;
mod locals;
mod made;
mod shown;
mod step;
mod top;
mod words;

pub use shown::{ShownFrame, check_instruction};
pub use step::after_instruction;
