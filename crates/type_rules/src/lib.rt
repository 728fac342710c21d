//! Which linked programs are type safe (JVMS SE 8, 4.10.1), as definitions over the decoded classes.
//!
//! A method is type safe where some assignment gives each instruction a frame such that each rule holds there; nothing
//! walks. `specs/Assignable.antt` says which type is assignable to which, `Environment` what the rules see of a method,
//! `Environments` and `MapFrames` make it of the decoded classes, `Wants` is the table of what instructions take,
//! `FrameAfter` of what they leave, `TypeFaults` has the rules in their order, `TypeSafe` the methods that keep them,
//! and `VerifyRules` the programs. A [`VerificationType`] is what is known of a word, and a [`VerifyRefusal`] says
//! which rule is broken first, and where.
#![tactic(auto)]

mod laws;
mod refusal;
mod types;

pub use laws::faults_refute;
pub use refusal::{VerifyKind, VerifyRefusal};
pub use types::VerificationType;
