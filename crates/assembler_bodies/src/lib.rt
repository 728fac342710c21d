//! The body of one method of an assembler's text.
//!
//! [`Labels`] are gathered from the lines of the body first. [`Body`] then makes the code line by line, each entry of
//! the pool at the line that names it first, and gives the content of the attribute Code at the end (JVMS SE 8,
//! 4.7.3 and 4.7.4).
#![tactic(auto)]

mod body;
mod frames;
mod labels;
mod laws;
mod offsets;
mod operands;
mod pool;
mod refusal;

pub use body::Body;
pub use labels::{Labels, Mark};
pub use laws::{
    bodies_are_instructions_and_frames, instructions_are_put, labels_stand_at_their_code,
};
pub use pool::{Entry, index_of};
pub use refusal::BodyRefusal;
