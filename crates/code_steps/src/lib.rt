//! The instructions of a method: its code array read against the constant pool (JVMS SE 8, 4.7.3, 4.9.1 and
//! chapter 6).
//!
//! [`read_steps`] reads a code array. What it refuses is the first fault, a [`StepFault`].
#![tactic(auto)]

mod constants;
mod cursor;
mod fault;
mod operands;
mod reading;
mod switches;
mod targets;

pub use fault::{StepFault, StepRefusal};
pub use reading::read_steps;
