//! The thread code of Java (JVMS SE 8, 2.6, 2.11, 5.5, 6.5): what a thread of a program wants next, and how it goes on
//! with each reply.
//!
//! [`JavaCode`] is a thread code whose meaning is `java_code`, over any program that answers what [`JavaProgram`] asks.
#![tactic(auto)]

mod apply;
mod behind;
mod calling;
mod ending;
mod hosted;
mod java_code;
mod running;
mod silent;
mod texts;

pub use interp_plans::JavaProgram;
pub use java_code::JavaCode;
