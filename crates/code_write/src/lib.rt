//! Instructions and stack map frames as bytes (JVMS SE 8, 4.7.3, 4.7.4 and 6.5).
//!
//! The operands are numbers: a target is an offset, and a constant is an index of the pool. [`Shape`] says how
//! many bytes an instruction takes before its targets are known, [`put_instruction`] appends the bytes of an
//! instruction, and [`put_full_frame`] those of a frame. `code_steps` and `code_frames` read back what is written.
#![tactic(auto, using(crate::proofs::Kept::kept_behind, crate::proofs::Kept::kept_same))]

mod frames;
mod instruction;
mod laws;
mod numbers;
mod operands;
mod range;
mod refusal;
mod shape;
mod switches;

pub use frames::{VerificationType, put_full_frame};
pub use instruction::put_instruction;
pub use laws::{shapes_have_sizes, written_code_is_read, written_frames_are_read};
pub use operands::{Operands, Written};
pub use refusal::PutRefusal;
pub use shape::Shape;
