//! Whether a method is type safe (JVMS SE 8, 4.10.1): one walk over its instructions, which holds the frame that falls
//! into the next one and stops at the first rule that is broken.
#![tactic(auto)]

mod begin;
mod check;
mod flows;
mod refusal;
mod step;
mod walk;

pub use check::check_method;
pub use refusal::MethodRefusal;
