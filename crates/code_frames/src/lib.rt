//! The stack map frames of a method (JVMS SE 8, 4.7.4).
//!
//! [`read_frames`] reads the content of a StackMapTable. A [`MapFrame`] says how its locals differ from those of
//! the frame before it, as the table does, and [`Frames`] are the frames of a method, found by the instruction
//! that they are at.
#![tactic(auto)]

mod cursor;
mod form;
mod frames;
mod item;
mod laws;
mod reading;
mod refusal;
mod types;

pub use frames::Frames;
pub use laws::{frames_rise, locals_are_counted, one_answer};
pub use reading::read_frames;
pub use refusal::FrameRefusal;
pub use types::{LocalsChange, MapFrame, VType};
